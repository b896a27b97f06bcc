// All that the program writes for an input, put into a buffer line by line.

#![tactic(auto)]

ghost use Rattle.std.specs.Prelude.{◌≡◌, ◌*◌, ◌≤◌, length};
ghost use Rattle.entries.specs.Inventory.{inventory};
ghost use Rattle.intake.specs.Intake.{most_image};
ghost use Rattle.lines.specs.Pages.{Puts};
ghost use Rattle.listing.specs.Listing.{text_of, most_text, filled, text_length};

use chip::Chip;
use entries::{Entry, Place, Shown};
use lines::Page;

// R16.10: a buffer of so many bytes takes the text of any input.
pub const MOST_TEXT: usize = 180224;

// R16.6: a pass over a chip: what stands at each place, one after the other, up to the first bad one. Each call looks at one place.
#[derive(Drop)]
struct Entries<'a> {
    chip: Chip<'a>,
    here: Place,
}

impl Iterator for Entries<'_> {
    ghost use Rattle.listing.specs.Passing.{Passes, to_come};

    type Item = (Place, Entry);

    ghost next_gives = { Passes };

    ghost remaining = { to_come };

    fn next(&mut self) -> Option<(Place, Entry)> {
        let here = self.here;
        let Chip { image, s, n } = self.chip;
        let Shown { entry, next } = entries::record_at(image, s, n, here.region, here.at);
        self.here = match entry {
            Entry::Stands { .. } | Entry::Ends => next,
            // Nothing is behind a bad place, as nothing is behind the last region.
            Entry::Bad(_) => Place { region: n, at: 0 },
            Entry::Over | Entry::Refused(_) => return None,
        };
        Some((here, entry))
    }
}

// The lines of a chip's records behind the header line.
fn list_from(chip: &Chip, page: &mut Page)
    requires { (chip.now.n * chip.now.s ≤ most_image) × (page.old.at ≤ 29) × (most_text ≤ length page.old.out.now) }
    ensures { Puts page.old (text_of (inventory chip.now.image.now chip.now.s chip.now.n)) page.new }
{
    let here = Place { region: 0, at: 0 };
    for (place, entry) in (Entries { chip: *chip, here }) {
        match entry {
            Entry::Stands { rec, .. } => page.put_line(place.region, rec),
            Entry::Bad(_) => page.put_bad(place.region, place.at),
            _ => {}
        }
    }
}

// R16.7, R16.8, R16.9, R16.10: all that the program writes for an input, and how many bytes it has. A shorter buffer is left as it is.
pub fn list(input: &[u8], out: &mut [u8]) -> usize
    ensures { (out.new ≡ filled input.now out.old) × (result ≡ text_length input.now out.old) }
{
    if out.len() < MOST_TEXT {
        return 0;
    }
    let mut page = Page::new(out);
    let Some(intake::Chip { s, n, start }) = intake::take_in(input) else {
        page.put_refused();
        return page.at;
    };
    page.put_header();
    let chip = Chip {
        image: &input[start..],
        s,
        n,
    };
    list_from(&chip, &mut page);
    page.at
}
