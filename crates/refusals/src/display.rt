// The refusals as a host prints them.
ghost use Rattle.std.specs.Prelude.{Some};
ghost use Rattle.refusals.specs.Refusals.{text_of};

use crate::Refusal;
use std::fmt;

// A refusal's name, and BufferTooSmall's value.
impl fmt::Display for Refusal {
    ghost output = { λ refusal. Some (text_of refusal) };

    fn fmt<W: fmt::Write>(&self, f: &mut fmt::Formatter<W>) -> fmt::Result {
        match *self {
            Refusal::BadGeometry => f.write_str("BadGeometry"),
            Refusal::BadKey => f.write_str("BadKey"),
            Refusal::ObjectTooLarge => f.write_str("ObjectTooLarge"),
            Refusal::KeyNotFound => f.write_str("KeyNotFound"),
            Refusal::KeyAlreadyExists => f.write_str("KeyAlreadyExists"),
            Refusal::FlashFull => f.write_str("FlashFull"),
            Refusal::UnsupportedVersion => f.write_str("UnsupportedVersion"),
            Refusal::CorruptData => f.write_str("CorruptData"),
            Refusal::BufferTooSmall(len) => write!(f, "BufferTooSmall {len}"),
            Refusal::InvalidCheckSum => f.write_str("InvalidCheckSum"),
            Refusal::BadCall => f.write_str("BadCall"),
            Refusal::FlashFailed => f.write_str("FlashFailed"),
        }
    }
}
