// What an operation has to do, as data: a plan is a list of edits and what follows them. Both forms of the store carry out the same plans.

#![tactic(auto)]

mod answers;
mod display;
mod fits;
mod writes;

ghost use Rattle.std.specs.Prelude.{◌≡◌};
ghost use Rattle.plans.specs.Writes.{value_lent, buffer_lent};

pub use answers::starts_anew;
pub use display::Printed;
pub use fits::plan_fits;
use format::{Record, Removal};
use lookup::Seen;
use refusals::Refusal;
pub use writes::{ends_with, first_of, refuse, rest_of};

// R7.1: what a call that is not refused answers.
#[derive(Clone, Copy, PartialEq, Eq)]
pub enum Success {
    // With the value's length, 0 from initialise.
    Complete(usize),
    Written,
    // With the bytes freed.
    Freed(usize),
}

// R7.1: what a call answers.
pub type Answer = Result<Success, Refusal>;

// R5.1: what a lookup is for: get (R5.2), append (R5.3), initialise's too, a removal (R5.5, R5.6), or the get of initialise (R5.9).
#[derive(Clone, Copy)]
pub enum Aim {
    Get,
    Append,
    Remove(Removal),
    Initialise,
}

// R8.2, R8.3: what the host lends beside the region buffer, with the length that was named at the start: append's value, get's buffer.
#[derive(Clone, Copy)]
pub enum Lent {
    Nothing,
    Value(usize),
    Buffer(usize),
}

impl Lent {
    // The length of the value: what is lent no value appends an empty one.
    pub fn value(self) -> usize
        ensures { result ≡ value_lent self }
    {
        match self {
            Lent::Nothing => 0,
            Lent::Value(len) => len,
            Lent::Buffer(_) => 0,
        }
    }

    // The length of the buffer: what is lent none reads into an empty one.
    pub fn buffer(self) -> usize
        ensures { result ≡ buffer_lent self }
    {
        match self {
            Lent::Nothing => 0,
            Lent::Value(_) => 0,
            Lent::Buffer(len) => len,
        }
    }
}

// R1.3, R1.4: one erase or one write, which is one service (R8.4).
#[derive(Clone, Copy)]
pub enum Edit {
    // R5.4: the record of the call's key and value is written at a place of a region.
    Lay {
        region: usize,
        at: usize,
    },
    // R3.7: a record of a region is made dead.
    Kill {
        how: Removal,
        region: usize,
        rec: Record,
    },
    Erase {
        region: usize,
    },
}

// R8.10: what is still to be written or erased, one after the other (R9.7). Erases: the regions from one up to another. By value, as nothing is
// allocated; no iterator, since a step looks at the first edit and a later one drops it.
#[derive(Clone, Copy)]
pub enum Edits {
    Nil,
    One(Edit),
    Two(Edit, Edit),
    Three(Edit, Edit, Edit),
    Erases { from: usize, to: usize },
}

// R8.10: what comes behind a plan's edits.
#[derive(Clone, Copy)]
pub enum Then {
    Ends(Answer),
    // R5.1: the i-th region of the key's probe order is looked at, with so much gathered before it.
    Seek {
        aim: Aim,
        i: usize,
        seen: Seen,
    },
    // R5.7: collect looks at a region; of those before it so many were erased or are about to be (R12.4).
    Sweep {
        region: usize,
        erased: usize,
    },
    // R5.2: the value of a record of the region that was read last is given; `anew`: where it cannot be, the chip is made anew (R5.9).
    Gives {
        region: usize,
        rec: Record,
        anew: bool,
    },
}

// R8.10: what an operation has left to do: what it still writes or erases, and what comes behind that.
#[derive(Clone, Copy)]
pub struct Plan {
    pub edits: Edits,
    pub next: Then,
}
