// What stands at a place of a chip, one place after the other: the records as a walk meets them, for whoever looks into an image.

#![tactic(auto)]

ghost use Rattle.std.specs.Prelude.{◌≡◌, ◌≤◌};
ghost use Rattle.entries.specs.Entries.{entry_in, staying, going_on, shown_at};

use chip::Chip;
use format::{Fault, Record};
use refusals::Refusal;
use region::{Standing, Stop};

// R16.4: a place of a chip: a region, and a place in it. C and Rust see it as it is.
#[repr(C)]
#[derive(Clone, Copy)]
pub struct Place {
    pub region: usize,
    pub at: usize,
}

impl Place {
    // R16.5: the same place again: there is nowhere to go on.
    fn stay(self, entry: Entry) -> Shown
        ensures { result ≡ staying entry self.region self.at }
    {
        Shown { entry, next: self }
    }

    // R16.5: the start of the next region.
    fn go_on(self, entry: Entry) -> Shown
        requires { self.region ≤ 65536 }
        ensures { result ≡ going_on entry self.region }
    {
        Shown {
            entry,
            next: Place {
                region: self.region + 1,
                at: 0,
            },
        }
    }
}

// R16.4: what stands at a place of a chip: the five kinds that C is told (`CEntry`), refused among them.
#[derive(Clone, Copy)]
pub enum Entry {
    // A record, and whether its checksum is right.
    Stands { rec: Record, sound: bool },
    // The walk of the region ends here.
    Ends,
    // The place is bad, and so is what the store says of it.
    Bad(Fault),
    // There is no such region: the chip is through.
    Over,
    // The image is no chip's.
    Refused(Refusal),
}

// R16.4, R16.5: what stands at a place, and where to go on.
#[derive(Clone, Copy)]
pub struct Shown {
    pub entry: Entry,
    pub next: Place,
}

// R16.4: what a walk of the region meets at a place of it.
fn look_in(region: &[u8], at: usize) -> Entry
    ensures { result ≡ entry_in region.now at }
{
    if region.len() < at {
        return Entry::Ends;
    }
    match region::look(region, at) {
        Ok(rec) => Entry::Stands {
            rec,
            sound: Standing { region, rec }.is_sound(),
        },
        Err(Stop::End(_)) => Entry::Ends,
        Err(Stop::Bad(fault, _)) => Entry::Bad(fault),
    }
}

// R16.4, R16.5: what stands at a place of a region, and where to go on. It looks at that place alone, so a pass over a chip is one walk of it.
pub fn record_at(image: &[u8], s: usize, n: usize, region: usize, at: usize) -> Shown
    ensures { result ≡ shown_at image.now s n region at }
{
    let here = Place { region, at };
    let Some(chip) = Chip::of(image, s, n) else {
        return here.stay(Entry::Refused(Refusal::BadGeometry));
    };
    if region >= n {
        return here.stay(Entry::Over);
    }
    let entry = look_in(chip.region(region), at);
    match entry {
        Entry::Stands { rec, .. } => Shown {
            entry,
            next: Place {
                at: at + rec.len,
                ..here
            },
        },
        Entry::Ends | Entry::Bad(_) => here.go_on(entry),
        Entry::Over | Entry::Refused(_) => here.stay(entry),
    }
}
