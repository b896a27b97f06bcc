// The answers as a host prints them.
ghost use Rattle.std.specs.Prelude.{Some, Ok};
ghost use Rattle.plans.specs.Answers.{text};

use crate::{Answer, Success};
use std::fmt;

// Its name with its value.
impl fmt::Display for Success {
    ghost output = { λ success. Some (text (Ok success)) };

    fn fmt<W: fmt::Write>(&self, f: &mut fmt::Formatter<W>) -> fmt::Result {
        match *self {
            Success::Complete(len) => write!(f, "complete {len}"),
            Success::Written => f.write_str("written"),
            Success::Freed(bytes) => write!(f, "freed {bytes}"),
        }
    }
}

// An answer to print: a Result has no Display.
#[derive(Clone, Copy)]
pub struct Printed(pub Answer);

// A refusal with its number before its name.
impl fmt::Display for Printed {
    ghost output = { λ printed. Some (text printed.0) };

    fn fmt<W: fmt::Write>(&self, f: &mut fmt::Formatter<W>) -> fmt::Result {
        match self.0 {
            Ok(success) => write!(f, "{success}"),
            Err(refusal) => write!(f, "refused {} {refusal}", refusal.number()),
        }
    }
}
