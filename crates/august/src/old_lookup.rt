// The lookup of the crate tickv 2.0.0 on the same image, by the rule of its source, src/tickv.rs: difference D1 of docs/DIFFERENCES.md.
// The image is well-formed all day, so that nothing else comes in by which the crate's lookup differs from ours.
use crate::flash;
use format::Record;
use region::{Event, Want};
use std::fmt;

// Why a lookup ends at a region.
#[derive(Clone, Copy)]
pub enum Why {
    Full,
    Blank,
    Bad,
}

impl fmt::Display for Why {
    fn fmt<W: fmt::Write>(&self, f: &mut fmt::Formatter<W>) -> fmt::Result {
        f.write_str(match *self {
            Why::Full => "full",
            Why::Blank => "blank",
            Why::Bad => "bad",
        })
    }
}

// How a lookup ends, and in which region.
#[derive(Clone, Copy)]
pub enum Found {
    // With the value's length.
    Complete(usize, usize),
    KeyNotFound(usize, Why),
    InNoRegion,
}

impl fmt::Display for Found {
    fn fmt<W: fmt::Write>(&self, f: &mut fmt::Formatter<W>) -> fmt::Result {
        match *self {
            Found::Complete(r, len) => write!(f, "Complete{len:>4} (region {r})"),
            Found::KeyNotFound(r, why) => write!(f, "KeyNotFound (region {r} {why})"),
            Found::InNoRegion => f.write_str("KeyNotFound (no region)"),
        }
    }
}

// `get_key`: the regions in probe order, as long as `find_key_offset` says to keep looking.
pub fn get_key(image: &[u8; 512], key: u64) -> Found {
    let home = probe::get_region(key, flash::N);
    for i in 0..flash::N {
        let r = probe::probe_at(home, flash::N, i);
        let a = r * flash::S;
        match find_key_offset(&image[a..a + flash::S], key) {
            Ok(Some(len)) => return Found::Complete(r, len),
            Ok(None) => {}
            Err(why) => return Found::KeyNotFound(r, why),
        }
    }
    Found::InNoRegion
}

// `find_key_offset`, which gives the value's length: a walk that ends at place 0, or too near the region's end for a header, answers
// (false, KeyNotFound), and the lookup ends there. It goes on to the next region only from one with records and free space.
fn find_key_offset(region: &[u8], key: u64) -> Result<Option<usize>, Why> {
    let event = region::find(region, Want::Key(key));
    match event {
        Event::Live(rec) => Ok(Some(rec.len - Record::LEAST)),
        Event::Bad(_, _) => Err(Why::Bad),
        Event::End(at) => {
            // at + HEADER_LENGTH >= S
            if region.len() - at <= Record::HEADER_LENGTH {
                return Err(Why::Full);
            }
            if at == 0 {
                return Err(Why::Blank);
            }
            Ok(None)
        }
    }
}
