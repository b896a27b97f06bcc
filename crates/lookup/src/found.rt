// A key's live record where it stands in an image.
ghost use Rattle.std.specs.Prelude.{◌≡◌, ◌+◌, ◌*◌, ◌<◌, length};

use region::Standing;

// R5.2, R16.1: the record in its region's bytes, and the region's number.
#[derive(Clone, Copy)]
pub struct Found<'a> {
    pub region: usize,
    pub standing: Standing<'a>,
    pub ghost small: { region * length standing.region.now + length standing.region.now < 18446744073709551616 },
}

impl Found<'_> {
    // The image place where its region begins.
    pub fn start(&self) -> usize
        ensures { result ≡ self.now.region * length self.now.standing.region.now }
    {
        self.region * self.standing.region.len()
    }
}
