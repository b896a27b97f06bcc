// One region of the flash: what its bytes say.

#![tactic(auto)]

mod standing;
mod walk;

ghost use Rattle.std.specs.Prelude.{◌≡◌};
ghost use Rattle.region.specs.Walk.{is_wanted, event_of};

use format::{Fault, Record};
pub use standing::Standing;
pub use walk::{find, look};

// R4.7: how and where the walk of a region stopped: at its end, or at a bad place. No Result: an end is no value of the walk, nor a bad place its error.
#[derive(Clone, Copy)]
pub enum Stop {
    End(usize),
    Bad(Fault, usize),
}

// R4.8: what is looked for: a live record of the key, or any live record.
// Not an Option of a key: None would read as nothing looked for, where it is any.
#[derive(Clone, Copy)]
pub enum Want {
    Key(u64),
    Any,
}

impl Want {
    pub fn by(self, rec: Record) -> bool
        ensures { result ≡ is_wanted self rec }
    {
        match self {
            Want::Key(key) => rec.is_live() && rec.key == key,
            Want::Any => rec.is_live(),
        }
    }
}

// R4.8: what decides a walk: a live record that is looked for, a bad place, or the end.
#[derive(Clone, Copy)]
pub enum Event {
    Live(Record),
    Bad(Fault, usize),
    End(usize),
}

// A walk that stops before it met what it looks for.
impl From<Stop> for Event {
    ghost from_gives = { λ stop event. event ≡ event_of stop };

    fn from(stop: Stop) -> Event {
        match stop {
            Stop::End(at) => Event::End(at),
            Stop::Bad(fault, at) => Event::Bad(fault, at),
        }
    }
}
