// What is found in a chip as C and Rust see it: plain structs of numbers.

#![tactic(auto)]

ghost use Rattle.std.specs.Prelude.{◌≡◌, ◌+◌, ◌≤◌, ◌<◌};
ghost use Rattle.sights.specs.Sights.{found_numbers, part_numbers, empty_numbers, record_numbers, StandsIn, shown_numbers};

use entries::{Entry, Place, Shown};
use format::Record;
use lending::Part;
use plans::{Answer, Success};
use refusals::Refusal;
use replies::CAnswer;

// R16.11: where a key's value is: the answer, and the image place of the value's first byte, 0 where it is refused.
#[repr(C)]
#[derive(Clone, Copy)]
pub struct CFound {
    pub answer: CAnswer,
    pub place: usize,
}

// R16.11: what stands at a place. `kind` is 0 refused, 1 a record, 2 the region ends here, 3 the place is bad, 4 there is no such region;
// `refusal` the refusal's number of 0 and 3. Of a record: `live` and `sound`, whether its checksum is right, 1 or 0; its key; the image place of
// its value's first byte, `place`, and the value's `length`. `next`: where to go on. What a kind does not use is 0.
#[repr(C)]
#[derive(Clone, Copy)]
pub struct CEntry {
    pub kind: u32,
    pub refusal: u32,
    pub live: u32,
    pub sound: u32,
    pub key: u64,
    pub place: usize,
    pub length: usize,
    pub next: Place,
}

// R16.11: an answer in numbers, and the place beside it, whatever the two are.
pub fn found_numbers(answer: Answer, place: usize) -> CFound
    ensures { result ≡ found_numbers answer place }
{
    CFound {
        answer: replies::answer_numbers(answer),
        place,
    }
}

// R16.11: where a value is, in numbers.
pub fn part_numbers(found: Result<Part, Refusal>) -> CFound
    ensures { result ≡ part_numbers found }
{
    match found {
        Ok(Part { place, len }) => found_numbers(Ok(Success::Complete(len)), place),
        Err(refusal) => found_numbers(Err(refusal), 0),
    }
}

// R16.11: no record stands there: why, and where to go on.
pub fn empty_numbers(kind: u32, refusal: u32, next: Place) -> CEntry
    ensures { result ≡ empty_numbers kind refusal next }
{
    CEntry {
        kind,
        refusal,
        live: 0,
        sound: 0,
        key: 0,
        place: 0,
        length: 0,
        next,
    }
}

// R16.11: a record of a region that begins at an image place, and where to go on.
pub fn record_numbers(start: usize, rec: Record, sound: bool, next: Place) -> CEntry
    requires { (15 ≤ rec.len) × (start + rec.at + 11 < 18446744073709551616) }
    ensures { result ≡ record_numbers start rec sound next }
{
    CEntry {
        kind: 1,
        refusal: 0,
        live: u32::from(rec.is_live()),
        sound: u32::from(sound),
        key: rec.key,
        place: start + rec.at + Record::HEADER_LENGTH,
        length: rec.len - Record::LEAST,
        next,
    }
}

// R16.11: what stands at a place of a region of S bytes, and where to go on. The kinds are numbers, since C reads them (c/stilefray.h).
pub fn shown_numbers(s: usize, region: usize, shown: Shown) -> CEntry
    requires { StandsIn s region shown.entry }
    ensures { result ≡ shown_numbers s region shown }
{
    let Shown { entry, next } = shown;
    match entry {
        Entry::Stands { rec, sound } => record_numbers(region * s, rec, sound, next),
        Entry::Ends => empty_numbers(2, 0, next),
        Entry::Bad(fault) => empty_numbers(3, Refusal::from(fault).number(), next),
        Entry::Over => empty_numbers(4, 0, next),
        Entry::Refused(refusal) => empty_numbers(0, refusal.number(), next),
    }
}
