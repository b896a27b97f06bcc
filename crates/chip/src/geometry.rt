// How many regions of how many bytes a chip has, and the erase of one of them.
ghost use Rattle.std.specs.Prelude.{◌≡◌, ◌<◌};
ghost use Rattle.chip.specs.Geometry.{Fits, sized, geometry, erase_region};

use crate::erase;

// A region has at least so many bytes.
pub const LEAST_SIZE: usize = 64;

// A region has at most so many bytes.
pub const LARGEST_SIZE: usize = 4096;

// A chip has at most so many regions.
pub const MOST_REGIONS: usize = 64;

// Whether a chip may have n regions of s bytes.
#[tactic(auto, unfolding(crate::specs::Geometry::sized))]
pub fn is_sized(s: usize, n: usize) -> bool
    ensures { result ≡ sized s n }
{
    LEAST_SIZE <= s && (s <= LARGEST_SIZE && (1 <= n && n <= MOST_REGIONS))
}

// Whether the image is one of n regions of s bytes. Their product is taken only where the limits keep it small.
#[tactic(auto, unfolding(crate::specs::Geometry::geometry), using(crate::proofs::Image::sized_shape, crate::proofs::Image::all_small))]
pub fn fits(image: &[u8], s: usize, n: usize) -> bool
    ensures { result ≡ geometry image.now s n }
{
    is_sized(s, n) && image.len() == n * s
}

// The chip's erase of region r, on a chip that lies in memory. The code needs no n: it is there to say which regions there are.
pub fn erase_region(image: &mut [u8], s: usize, n: usize, r: usize)
    requires { Fits image.old s n × (r < n) }
    ensures { image.new ≡ erase_region s r image.old }
{
    let a = r * s;
    let e = a + s;
    erase(&mut image[a..e]);
}
