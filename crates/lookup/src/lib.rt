// Where a key is: the regions of an image in the key's probe order, up to the one that decides.

#![tactic(auto)]

mod found;
mod gather;
mod turns;

ghost use Rattle.std.specs.Prelude.{◌≡◌};
ghost use Rattle.lookup.specs.Gather.{unseen, with_room};
ghost use Rattle.lookup.specs.Turns.{refused_by, hit_by, close};

use format::{Fault, Record};
pub use found::Found;
use refusals::Refusal;
pub use turns::{find_key, find_standing, look_up, take_turn};

// R5.4: a region with room, the place there, and whether the record's place is blank.
#[derive(Clone, Copy)]
pub struct Room {
    pub region: usize,
    pub at: usize,
    pub blank: bool,
}

// R5.4: what a lookup has gathered from the regions seen so far: the first room, if any is needed and there is one.
#[derive(Clone, Copy)]
pub struct Seen {
    pub room: Option<Room>,
}

impl Seen {
    pub fn new() -> Seen
        ensures { result ≡ unseen }
    {
        Seen { room: None }
    }

    pub fn with_room(self, room: Option<Room>) -> Seen
        ensures { result ≡ with_room room self }
    {
        Seen { room }
    }

    // How a lookup ends that no region decided.
    pub fn close(self) -> Looked
        ensures { result ≡ close self }
    {
        Looked::Through(self)
    }
}

// R5.1: how a lookup ends: a live record of the key and its region, a bad place in the image, or none in all regions.
#[derive(Clone, Copy)]
pub enum Looked {
    Live { region: usize, rec: Record },
    Bad { fault: Fault, place: usize },
    Through(Seen),
}

impl Looked {
    // The refusal of a lookup that did not end as its operation wants.
    pub fn refusal(self) -> Refusal
        ensures { result ≡ refused_by self }
    {
        match self {
            Looked::Live { region: _, rec: _ } => Refusal::KeyAlreadyExists,
            Looked::Bad { fault, place: _ } => fault.into(),
            Looked::Through(_) => Refusal::KeyNotFound,
        }
    }

    // What get and the removals make of it.
    pub fn hit(self) -> Result<Hit, Refusal>
        ensures { result ≡ hit_by self }
    {
        let Looked::Live { region, rec } = self else {
            return Err(self.refusal());
        };
        Ok(Hit { region, rec })
    }
}

// R5.2, R5.5, R5.6: what get and the removals look for: the key's live record and its region.
#[derive(Clone, Copy)]
pub struct Hit {
    pub region: usize,
    pub rec: Record,
}
