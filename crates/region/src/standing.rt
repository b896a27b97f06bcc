// A record where it stands: its region's bytes, and what its header says.
ghost use Rattle.std.specs.Prelude.{◌≡◌, ◌+◌, ◌≤◌, length};

use format::Record;

// R3.1, R4.6: a record of a region that is long enough to be one and lies in the region.
#[derive(Clone, Copy)]
pub struct Standing<'a> {
    pub region: &'a [u8],
    pub rec: Record,
    pub ghost least: { 15 ≤ rec.len },
    pub ghost inside: { rec.at + rec.len ≤ length region.now },
}

impl<'a> Standing<'a> {
    ghost use Rattle.format.specs.Layout.{check_sum_fits};
    ghost use Rattle.region.specs.Walk.{bytes_in, value_length, value_in};

    // R3.4: its bytes, from its first to the last of its checksum.
    pub fn bytes(&self) -> &'a [u8]
        ensures { result.now ≡ bytes_in self.now.region.now self.now.rec }
    {
        &self.region[self.rec.at..self.rec.at + self.rec.len]
    }

    // R3.1: the length of its value.
    pub fn value_length(&self) -> usize
        ensures { result ≡ value_length self.now.rec }
    {
        self.rec.len - Record::LEAST
    }

    // R3.5: the bytes between header and checksum.
    pub fn value(&self) -> &'a [u8]
        ensures bytes { result.now ≡ value_in self.now.region.now self.now.rec }
        ensures size { length result.now ≡ value_length self.now.rec }
    {
        let whole = self.bytes();
        &whole[Record::HEADER_LENGTH..self.rec.len - Record::CHECK_SUM_LEN]
    }

    // R3.6: whether its checksum is that of its header and value.
    pub fn is_sound(&self) -> bool
        ensures { result ≡ check_sum_fits (bytes_in self.now.region.now self.now.rec) }
    {
        format::check_sum_fits(self.bytes())
    }
}
