// The crate's own answers, replayed on the store: calls that tickv 2.0.0 answered on chips in memory, as scripts/record wrote them down.
// Each line of the input is a call and what the crate made of it; the store has to do the same.

#![tactic(auto)]

mod chips;
mod counts;
mod line;

ghost use Rattle.std.specs.Prelude.{◌≡◌, length};

use chips::Chip;
use counts::Counts;
use line::{Call, Numbers};

// More lines than the list has, and more bytes.
const MOST_LINES: usize = 10000;

const MOST_BYTES: usize = 262144;

// The most bytes that a chip has, or that a call is lent.
const ROOM: usize = 65536;

// All of it lies in arrays and none is allocated: a list of which memory held only a part would be taken for another one.
fn main(rt: HostRuntime) {
    let mut text = zeros::<MOST_BYTES>();
    let mut flash = zeros::<ROOM>();
    let mut room = zeros::<ROOM>();
    // What was read before a read fails is the list, as it is where the input ends.
    let len = io::read_full(0, &mut text);
    replay(&rt, &text[..len], &mut flash, &mut room);
}

// Room for so many bytes.
fn zeros<const N: usize>() -> [u8; N]
    ensures { N ≡ length result }
{
    [0; N]
}

// The lines in their order, up to the last, or to the first on which the store does something else than the crate did. What standard output
// does not take is passed over.
fn replay(rt: &impl Print, text: &[u8], flash: &mut [u8], room: &mut [u8]) {
    let mut counts = Counts::default();
    let mut chip = Chip::default();
    for (lines, line) in Numbers(text).take(MOST_LINES).enumerate() {
        if line.call == Call::Last {
            let _ = println!(rt; "{counts}");
            return;
        }
        if line.call == Call::Chip {
            chip = Chip::of(&line);
            chip::erase(flash);
        } else if !chip.agrees(&line, flash, room) {
            let _ = println!(rt; "{counts}");
            let _ = println!(rt;
                "another answer, image or buffer than the crate's, after lines {lines}"
            );
            return;
        }
        counts.add(&line);
    }
}
