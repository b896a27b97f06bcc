// The walk: what stands at a place, and the first event that decides what is looked for.
ghost use Rattle.std.specs.Prelude.{◌≡◌, ◌+◌, ◌≤◌, ◌<◌, length};
ghost use Rattle.region.specs.Walk.{length_at, key_at, met_at, event_in};

use crate::{Event, Stop, Want};
use format::{Fault, Record};

// The 12 bits of length of the header at a place.
fn length_at(region: &[u8], at: usize) -> usize
    requires { at + 2 < length region.now }
    ensures { result ≡ length_at region.now at }
{
    (region[at + Record::LEN_OFFSET] % 16) as usize * 256 + region[at + 2] as usize
}

// The key of the header at a place, big-endian.
#[tactic(auto, using(format::proofs::Laid::eight_says))]
fn key_at(region: &[u8], at: usize) -> u64
    requires { at + 11 ≤ length region.now }
    ensures { result ≡ key_at region.now at }
{
    let k = at + Record::KEY_OFFSET;
    u64::from_be_bytes([
        region[k],
        region[k + 1],
        region[k + 2],
        region[k + 3],
        region[k + 4],
        region[k + 5],
        region[k + 6],
        region[k + 7],
    ])
}

// R4.1: what a walk meets at a place: a record (R4.6), or where it stops (R4.2 to R4.5), the first of these that applies.
pub fn look(region: &[u8], at: usize) -> Result<Record, Stop>
    requires { at ≤ length region.now }
    ensures { result ≡ met_at region.now at }
{
    let left = region.len() - at;
    if left < Record::LEAST {
        return Err(Stop::End(at));
    }
    let version = region[at];
    if version == chip::BLANK {
        return Err(Stop::End(at));
    }
    if version != Record::VERSION {
        return Err(Stop::Bad(Fault::UnsupportedVersion, at));
    }
    let len = length_at(region, at);
    if len < Record::LEAST {
        return Err(Stop::Bad(Fault::CorruptData, at));
    }
    if left < len {
        return Err(Stop::Bad(Fault::CorruptData, at));
    }
    let flags = region[at + Record::LEN_OFFSET] / 16;
    let key = key_at(region, at);
    Ok(Record {
        at,
        len,
        version,
        flags,
        key,
    })
}

// One walk serves every search: each record is 15 bytes or longer, so the bytes left bound it.
// Not an iterator over the records: its None would lose where and why the walk stopped, which is a part of the answer.
pub fn find(region: &[u8], want: Want) -> Event
    ensures { result ≡ event_in region.now want }
{
    let mut at: usize = 0;
    loop {
        match look(region, at) {
            Err(stop) => break Event::from(stop),
            Ok(rec) => {
                if want.by(rec) {
                    break Event::Live(rec);
                }
                at += rec.len;
            }
        }
    }
}
