// What the flash chip does to its bytes: a write clears bits, an erase sets them all.

#![tactic(auto)]

mod geometry;
mod landing;
mod regions;

ghost use Rattle.std.specs.Prelude.{◌≡◌, ◌+◌, ◌≤◌, length, replicate};
ghost use Rattle.chip.specs.Chip.{written, erased, is_blank};

pub use geometry::{LARGEST_SIZE, LEAST_SIZE, MOST_REGIONS, erase_region, fits, is_sized};
pub use landing::{Laid, Landing, Written, land};
pub use regions::Chip;

// What an erase leaves in every byte.
pub const BLANK: u8 = 255;

// The chip's write, on a chip that lies in memory.
pub fn write(image: &mut [u8], at: usize, new: &[u8])
    requires { at + length new.now ≤ length image.old }
    ensures { image.new ≡ written image.old at new.now }
{
    land::<Written>(image, at, new);
}

// Every byte of a part becomes one value.
pub fn fill(part: &mut [u8], value: u8)
    ensures { part.new ≡ replicate (length part.old) value }
{
    part.fill(value);
}

// The chip's erase of the region that is lent.
pub fn erase(region: &mut [u8])
    ensures { region.new ≡ erased (length region.old) }
{
    fill(region, BLANK);
}

// So many bytes are tested at a time.
const BLOCK: usize = 64;

// Whether every byte is as an erase leaves it: block by block, up to the first one that is not blank. Out of line, so that a lookup's loop over
// the regions, which asks this of one of them at most, stays small.
#[inline(never)]
pub fn is_blank(part: &[u8]) -> bool
    ensures { result ≡ is_blank part.now }
{
    for block in part.chunks(BLOCK) {
        if !is_blank_block(block) {
            return false;
        }
    }
    true
}

// Unlike `all` the fold stops at no byte, and so tests many at a time.
fn is_blank_block(part: &[u8]) -> bool
    ensures { result ≡ is_blank part.now }
{
    part.iter()
        .fold(true, |blank, byte| blank & (*byte == BLANK))
}
