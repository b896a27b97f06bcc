// Why the store says no, and what is refused before anything is read.

#![tactic(auto)]

mod display;

ghost use Rattle.std.specs.Prelude.{◌≡◌, get_or};
ghost use Rattle.refusals.specs.Refusals.{number, value_of, refusal_of, refusal_under, first_refusal};

use format::{Fault, Record};

// R6.1 to R6.12: the refusals, in the order of their numbers, 1 to 12.
#[derive(Clone, Copy, PartialEq, Eq)]
pub enum Refusal {
    BadGeometry,
    BadKey,
    ObjectTooLarge,
    KeyNotFound,
    KeyAlreadyExists,
    FlashFull,
    UnsupportedVersion,
    CorruptData,
    // R6.9: with the value's full length.
    BufferTooSmall(usize),
    InvalidCheckSum,
    BadCall,
    FlashFailed,
}

// A bad place's refusal.
impl From<Fault> for Refusal {
    ghost from_gives = { λ fault r. r ≡ refusal_of fault };

    fn from(fault: Fault) -> Refusal {
        match fault {
            Fault::UnsupportedVersion => Refusal::UnsupportedVersion,
            Fault::CorruptData => Refusal::CorruptData,
        }
    }
}

impl Refusal {
    // Its number: that of R6.k is k.
    pub fn number(self) -> u32
        ensures { result ≡ number self }
    {
        match self {
            Refusal::BadGeometry => 1,
            Refusal::BadKey => 2,
            Refusal::ObjectTooLarge => 3,
            Refusal::KeyNotFound => 4,
            Refusal::KeyAlreadyExists => 5,
            Refusal::FlashFull => 6,
            Refusal::UnsupportedVersion => 7,
            Refusal::CorruptData => 8,
            Refusal::BufferTooSmall(_) => 9,
            Refusal::InvalidCheckSum => 10,
            Refusal::BadCall => 11,
            Refusal::FlashFailed => 12,
        }
    }

    // The full value length that BufferTooSmall gives; 0 where a refusal gives none.
    pub fn value(self) -> usize
        ensures { result ≡ get_or (value_of self) 0 0 }
    {
        match self {
            Refusal::BufferTooSmall(len) => len,
            _ => 0,
        }
    }
}

// R7.2: refusals 1, 2 and 3, in this order: of a geometry that is allowed or not, a key, and a value's length.
pub fn refusal_under(shaped: bool, key: u64, len: usize) -> Result<(), Refusal>
    ensures { result ≡ refusal_under shaped key len }
{
    if !shaped {
        return Err(Refusal::BadGeometry);
    }
    if !probe::allowed_key(key) {
        return Err(Refusal::BadKey);
    }
    if Record::LARGEST - Record::LEAST < len {
        return Err(Refusal::ObjectTooLarge);
    }
    Ok(())
}

// What is refused before anything is read.
#[tactic(auto, unfolding(crate::specs::Refusals::first_refusal))]
pub fn first_refusal(image: &[u8], s: usize, n: usize, key: u64, len: usize) -> Result<(), Refusal>
    ensures { result ≡ first_refusal image.now s n key len }
{
    refusal_under(chip::fits(image, s, n), key, len)
}
