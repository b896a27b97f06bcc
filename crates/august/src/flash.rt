// The chip of the day, which lies in memory.
use report::Image;

// The bytes of a region.
pub const S: usize = 128;

// The regions.
pub const N: usize = 4;

// The chip with its geometry.
pub type Chip = Image<512>;

// A chip on which nothing was stored, and which was not erased either.
pub fn new_chip() -> Chip {
    Image {
        s: S,
        n: N,
        bytes: [0; 512],
    }
}
