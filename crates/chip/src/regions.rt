// A chip's image, to be read a region at a time.
ghost use Rattle.std.specs.Prelude.{◌≡◌, ◌<◌, is_some, IfSome};
ghost use Rattle.chip.specs.Geometry.{Fits, geometry, region_of};

use crate::fits;

// R1.1, R1.2: an image of n regions of s bytes.
#[derive(Clone, Copy)]
pub struct Chip<'a> {
    pub image: &'a [u8],
    pub s: usize,
    pub n: usize,
    pub ghost fits: { Fits image.now s n },
}

impl<'a> Chip<'a> {
    // The image as one of n regions of s bytes, where it is one.
    #[tactic(auto, using(crate::proofs::Image::geometry_fits))]
    pub fn of(image: &'a [u8], s: usize, n: usize) -> Option<Chip<'a>>
        ensures one { is_some result ≡ geometry image.now s n }
        ensures same { IfSome result (λ c. (c.image.now ≡ image.now) × (c.s ≡ s) × (c.n ≡ n)) }
    {
        if fits(image, s, n) {
            Some(Chip { image, s, n })
        } else {
            None
        }
    }

    // The bytes of region r.
    pub fn region(&self, r: usize) -> &'a [u8]
        requires { r < self.now.n }
        ensures { result.now ≡ region_of self.now.s self.now.image.now r }
    {
        let start = r * self.s;
        &self.image[start..start + self.s]
    }
}
