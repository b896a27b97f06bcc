// What a lookup gathers on its way.
ghost use Rattle.std.specs.Prelude.{◌≡◌, ◌≤◌, length};
ghost use Rattle.lookup.specs.Gather.{noted};

use crate::{Room, Seen};

// From a region that did not decide, whose records end at `at`: the first one with room counts, where a record of so many bytes needs any.
pub fn note(seen: Seen, need: Option<usize>, r: usize, region: &[u8], at: usize) -> Seen
    requires { at ≤ length region.now }
    ensures { result ≡ noted seen need r region.now at }
{
    let Some(len) = need else {
        return seen;
    };
    let None = seen.room else {
        return seen;
    };
    if region.len() - at < len {
        return seen;
    }
    let end = at + len;
    let blank = chip::is_blank(&region[at..end]);
    seen.with_room(Some(Room {
        region: r,
        at,
        blank,
    }))
}
