// The record format: a record as its header says it, its bytes, what is wrong with a place that has none, and what is written to make one dead.

#![tactic(auto)]

mod layout;

ghost use Rattle.std.specs.Prelude.{◌≡◌};
ghost use Rattle.format.specs.Layout.{live};

pub use layout::{check_sum_fits, dead_header, new_header, sum_bytes};

// R3.1: a record as its header says it: the place of its first byte in the region (R4.6), its whole length, its version, its flags and its key.
#[derive(Clone, Copy)]
pub struct Record {
    pub at: usize,
    pub len: usize,
    pub version: u8,
    pub flags: u8,
    pub key: u64,
}

impl Record {
    pub const VERSION: u8 = 1;
    // The flags of a live record; its top bit alone makes it live.
    pub const FLAGS_VALID: u8 = 8;
    // Flags and the length's high bits; its low eight bits follow.
    pub const LEN_OFFSET: usize = 1;

    pub const KEY_OFFSET: usize = 3;

    pub const HEADER_LENGTH: usize = 11;

    pub const CHECK_SUM_LEN: usize = 4;
    // The length of a record whose value is empty.
    pub const LEAST: usize = 15;
    // The longest that the length's 12 bits can say.
    pub const MOST: usize = 4095;
    // The longest that is written: 4,095 is left out, as the crate's header leaves it out.
    pub const LARGEST: usize = 4094;

    // It is live if the top bit of byte 1 is set; the other three flag bits are not looked at.
    pub fn is_live(self) -> bool
        ensures { result ≡ live self }
    {
        Record::FLAGS_VALID <= self.flags
    }
}

// R4.4, R4.5: why a place is bad.
#[derive(Clone, Copy)]
pub enum Fault {
    UnsupportedVersion,
    CorruptData,
}

// R3.7: how a record is made dead: its top flag is cleared, and to zeroise it every byte of value and checksum too.
#[derive(Clone, Copy)]
pub enum Removal {
    Invalidate,
    Zeroise,
}
