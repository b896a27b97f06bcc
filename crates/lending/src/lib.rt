// A key's value where it lies: a part of the caller's image, and nothing copied.

#![tactic(auto)]

ghost use Rattle.std.specs.Prelude.{◌≡◌, ◌*◌, length};
ghost use Rattle.lending.specs.Lending.{located_in, located_of, companion_of, value_of};

use format::Record;
use lookup::Found;
use plans::{Answer, Success};
use refusals::Refusal;

// R16.1, R16.2: where a value lies: the image place of its first byte, and how many it has.
#[derive(Clone, Copy)]
pub struct Part {
    pub place: usize,
    pub len: usize,
}

// R16.1, R16.2: by the record that was found. Nothing is handed out before the checksum is right.
fn locate(found: &Found) -> Result<Part, Refusal>
    ensures { result ≡ located_in found.now.standing.region.now (found.now.region * length found.now.standing.region.now) found.now.standing.rec }
{
    let standing = &found.standing;
    if !standing.is_sound() {
        return Err(Refusal::InvalidCheckSum);
    }
    Ok(Part {
        place: found.start() + standing.rec.at + Record::HEADER_LENGTH,
        len: standing.value_length(),
    })
}

// R16.1, R16.2: where a key's value lies.
pub fn find_value(image: &[u8], s: usize, n: usize, key: u64) -> Result<Part, Refusal>
    ensures { result ≡ located_of image.now s n key }
{
    let found = lookup::find_standing(image, s, n, key)?;
    locate(&found)
}

// R16.1: the companion of `value_of`: get's refusal, and never BufferTooSmall, or Complete with the value's length.
pub fn value_answer(image: &[u8], s: usize, n: usize, key: u64) -> Answer
    ensures { result ≡ companion_of image.now s n key }
{
    let part = find_value(image, s, n, key)?;
    Ok(Success::Complete(part.len))
}

// R16.3: the value, as a part of the caller's image; empty where the companion refuses, and where the value is.
pub fn value_of(image: &[u8], s: usize, n: usize, key: u64) -> &[u8]
    ensures { result.now ≡ value_of image.now s n key }
{
    match find_value(image, s, n, key) {
        Ok(Part { place, len }) => &image[place..place + len],
        Err(_) => &[],
    }
}
