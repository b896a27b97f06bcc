// The chip that the lines speak of, and the calls on it.
use crate::line::{Call, Line};
use replies::CAnswer;

// The chip's geometry. At first no chip, on which every call is refused.
#[derive(Clone, Copy, Default)]
pub struct Chip {
    s: usize,
    n: usize,
}

// What a call left: its answer, and the checksum of get's buffer, 0 where there is none.
#[derive(Clone, Copy)]
struct Left {
    answer: CAnswer,
    buffer: u32,
}

impl From<CAnswer> for Left {
    fn from(answer: CAnswer) -> Left {
        Left { answer, buffer: 0 }
    }
}

impl Chip {
    // The chip of a line that begins one. Numbers that are no chip's make none.
    pub fn of(line: &Line) -> Chip {
        if line.key <= 4096 && line.length <= 64 {
            Chip {
                s: line.key as usize,
                n: line.length as usize,
            }
        } else {
            Chip::default()
        }
    }

    // Whether the store does what the crate did. The chip's bytes are the flash's first; none where the flash is too small.
    pub fn agrees(self, line: &Line, flash: &mut [u8], room: &mut [u8]) -> bool {
        let size = if chip::is_sized(self.s, self.n) {
            self.s.saturating_mul(self.n)
        } else {
            0
        };
        let size = if size <= flash.len() { size } else { 0 };
        let image = &mut flash[..size];
        let left = self.left_by(line, image, room);
        answer_numbers(left.answer) == wanted(line)
            && u64::from(left.buffer) == line.buffer
            && u64::from(crc32::checksum(image)) == line.image
    }

    // The call of a line.
    fn left_by(self, line: &Line, image: &mut [u8], room: &mut [u8]) -> Left {
        let (s, n, key) = (self.s, self.n, line.key);
        match line.call {
            Call::Get => {
                let buffer = patterned(line, room);
                let answer = stilefray::stilefray_get_key(image, s, n, key, buffer);
                Left {
                    answer,
                    buffer: crc32::checksum(buffer),
                }
            }
            Call::Append => {
                let value = patterned(line, room);
                Left::from(stilefray::stilefray_append_key(image, s, n, key, value))
            }
            Call::Invalidate => Left::from(stilefray::stilefray_invalidate_key(image, s, n, key)),
            Call::Zeroise => Left::from(stilefray::stilefray_zeroise_key(image, s, n, key)),
            Call::Collect => Left::from(stilefray::stilefray_garbage_collect(image, s, n)),
            Call::Chip | Call::Initialise | Call::Last | Call::Other => {
                Left::from(stilefray::stilefray_initialise(image, s, n, key))
            }
        }
    }
}

// A value or a buffer of the line's length, if there is room for it, in the pattern that the list's maker fills them with: the seed, and 7
// more for each byte.
fn patterned<'a>(line: &Line, room: &'a mut [u8]) -> &'a mut [u8] {
    let len = usize::try_from(line.length).unwrap_or(0);
    let len = if len <= room.len() { len } else { 0 };
    let part = &mut room[..len];
    let mut next = (line.seed % 256) as u8;
    for byte in part.iter_mut() {
        *byte = next;
        next = next.wrapping_add(7);
    }
    part
}

// An answer's kind, refusal and value.
fn answer_numbers(answer: CAnswer) -> (u64, u64, u64) {
    (
        u64::from(answer.kind),
        u64::from(answer.refusal),
        answer.value as u64,
    )
}

// What the store is to answer: 0 refused, 1 complete, 2 written, 3 freed; the refusal's number; and the value. Of initialise the list has no
// value: 0 there for a main key that was live, 1 for a chip begun anew.
fn wanted(line: &Line) -> (u64, u64, u64) {
    let value = if line.call == Call::Initialise {
        0
    } else {
        line.value
    };
    let kind = match line.call {
        _ if line.refusal != 0 => 0,
        Call::Get => 1,
        Call::Initialise if line.value == 0 => 1,
        Call::Collect => 3,
        _ => 2,
    };
    (kind, line.refusal, value)
}
