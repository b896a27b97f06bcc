// How many calls of each kind were replayed.
use crate::line::{Call, Line};
use std::fmt;

#[derive(Clone, Copy, Default)]
pub struct Counts {
    chips: usize,
    gets: usize,
    appends: usize,
    invalidates: usize,
    zeroises: usize,
    collects: usize,
    initialises: usize,
    refusals: usize,
}

impl Counts {
    // One more line.
    pub fn add(&mut self, line: &Line) {
        match line.call {
            Call::Chip => self.chips = self.chips.saturating_add(1),
            Call::Get => self.gets = self.gets.saturating_add(1),
            Call::Append => self.appends = self.appends.saturating_add(1),
            Call::Invalidate => self.invalidates = self.invalidates.saturating_add(1),
            Call::Zeroise => self.zeroises = self.zeroises.saturating_add(1),
            Call::Collect => self.collects = self.collects.saturating_add(1),
            Call::Initialise => self.initialises = self.initialises.saturating_add(1),
            Call::Last | Call::Other => {}
        }
        if line.refusal != 0 {
            self.refusals = self.refusals.saturating_add(1);
        }
    }
}

impl fmt::Display for Counts {
    fn fmt<W: fmt::Write>(&self, f: &mut fmt::Formatter<W>) -> fmt::Result {
        writeln!(f, "chips {}", self.chips)?;
        writeln!(f, "get {}", self.gets)?;
        writeln!(f, "append {}", self.appends)?;
        writeln!(f, "invalidate {}", self.invalidates)?;
        writeln!(f, "zeroise {}", self.zeroises)?;
        writeln!(f, "collect {}", self.collects)?;
        writeln!(f, "initialise {}", self.initialises)?;
        write!(f, "of these refused {}", self.refusals)
    }
}
