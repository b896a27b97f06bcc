// What the programs share: an image in memory on which the store's calls are made, bytes in hexadecimal, and where they print.

#![tactic(auto)]

mod image;
mod unheeded;

pub use image::Image;
use std::fmt;
pub use unheeded::Unheeded;

// Bytes in hexadecimal, a blank before each.
#[derive(Clone, Copy)]
pub struct Hex<'a>(pub &'a [u8]);

impl<'a> fmt::Display for Hex<'a> {
    fn fmt<W: fmt::Write>(&self, f: &mut fmt::Formatter<W>) -> fmt::Result {
        for byte in self.0 {
            write!(f, " {byte:02x}")?;
        }
        Ok(())
    }
}
