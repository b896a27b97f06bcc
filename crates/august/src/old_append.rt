// The append of the crate tickv 2.0.0 on the same image, by the rule of its source, src/tickv.rs: difference D1 of docs/DIFFERENCES.md.
// The image is well-formed all day, so that no walk meets a bad place.
use crate::flash;
use format::Record;
use region::{Event, Want};
use std::fmt;

// Why the crate refuses an append.
#[derive(Clone, Copy)]
pub enum NotWritten {
    // In which region.
    KeyAlreadyExists(usize),
    FlashFull,
}

impl fmt::Display for NotWritten {
    fn fmt<W: fmt::Write>(&self, f: &mut fmt::Formatter<W>) -> fmt::Result {
        match *self {
            NotWritten::KeyAlreadyExists(r) => write!(f, "KeyAlreadyExists (region {r})"),
            NotWritten::FlashFull => f.write_str("FlashFull"),
        }
    }
}

// `append_key`, which gives the region that is written to: the regions in probe order up to the first with room. Its key is looked for in
// these alone.
pub fn append_key(image: &[u8; 512], key: u64, len: usize) -> Result<usize, NotWritten> {
    let home = probe::get_region(key, flash::N);
    for i in 0..flash::N {
        let r = probe::probe_at(home, flash::N, i);
        let a = r * flash::S;
        match region::find(&image[a..a + flash::S], Want::Key(key)) {
            Event::Live(_) => return Err(NotWritten::KeyAlreadyExists(r)),
            Event::Bad(_, _) => {}
            Event::End(at) => {
                if has_room(at, len) {
                    return Ok(r);
                }
            }
        }
    }
    Err(NotWritten::FlashFull)
}

// The room test leaves out the four bytes of the checksum, which is difference D3. No value of the day is near enough to the limit.
fn has_room(at: usize, len: usize) -> bool {
    // at + HEADER_LENGTH + len >= S
    let left = flash::S.saturating_sub(at);
    left.saturating_sub(Record::HEADER_LENGTH) > len
}
