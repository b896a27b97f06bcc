// A running operation as C and Rust see it, a plain struct of numbers, and what the numbers stand for.

#![tactic(auto)]

mod unpacks;

ghost use Rattle.std.specs.Prelude.{◌≡◌};
ghost use Rattle.operations.specs.Unpacks.{no_operation};

pub use unpacks::{known_reply, read_as, stands};

// R12.4: a running operation as twenty numbers. Those that R12.4 gives no meaning are 0.
// `layout`: which numbering this is, since a host may keep an operation over an update of the library.
// `fresh`: whether nothing was asked for yet. `lent`, `len`: what is lent, and its length. `s`, `n`, `key`: the chip and the key.
// `edit`: what is written or erased first. `region`, `at`: where, or the run of regions. `size`, `found`, `version`, `flags`: a record to make dead.
// `next`: what comes behind the edit. `aim`, `tag`: what a lookup is for, and which room it has gathered, with `b` and `c` for where.
// `a`: how far a lookup or collect is, or what the answer carries. `b` of collect: how many of the regions before `a` were erased or are about to be.
#[repr(C)]
#[derive(Clone, Copy)]
pub struct COperation {
    pub layout: u32,
    pub fresh: u32,
    pub lent: u32,
    pub edit: u32,
    pub next: u32,
    pub aim: u32,
    pub tag: u32,
    pub version: u8,
    pub flags: u8,
    pub s: usize,
    pub n: usize,
    pub key: u64,
    pub len: usize,
    pub region: usize,
    pub at: usize,
    pub size: usize,
    pub found: u64,
    pub a: usize,
    pub b: usize,
    pub c: usize,
}

impl COperation {
    // The kinds are numbers, since C reads and keeps them (R12.4).
    // Before there was such a number, the first one was a job's, 1 to 7.
    pub const LAYOUT: u32 = 8;

    pub const LENT_VALUE: u32 = 1;

    pub const LENT_BUFFER: u32 = 2;

    pub const EDIT_LAY: u32 = 1;

    pub const EDIT_INVALIDATE: u32 = 2;

    pub const EDIT_ZEROISE: u32 = 3;

    pub const EDIT_ERASE: u32 = 4;

    pub const EDIT_ERASES: u32 = 5;

    pub const NEXT_SEEK: u32 = 1;

    pub const NEXT_SWEEP: u32 = 2;

    pub const NEXT_COMPLETE: u32 = 3;

    pub const NEXT_WRITTEN: u32 = 4;

    pub const NEXT_FREED: u32 = 5;

    pub const NEXT_ENDED: u32 = 6;

    pub const AIM_GET: u32 = 1;

    pub const AIM_APPEND: u32 = 2;

    pub const AIM_INVALIDATE: u32 = 3;

    pub const AIM_ZEROISE: u32 = 4;

    pub const AIM_INITIALISE: u32 = 5;

    // R12.6: twenty zeros, no operation.
    pub fn none() -> COperation
        ensures { result ≡ no_operation }
    {
        COperation {
            layout: 0,
            fresh: 0,
            lent: 0,
            edit: 0,
            next: 0,
            aim: 0,
            tag: 0,
            version: 0,
            flags: 0,
            s: 0,
            n: 0,
            key: 0,
            len: 0,
            region: 0,
            at: 0,
            size: 0,
            found: 0,
            a: 0,
            b: 0,
            c: 0,
        }
    }
}
