// The program's input: S and N in its first line, and the image behind it.

#![tactic(auto)]

ghost use Rattle.std.specs.Prelude.{◌&&◌, ◌≡◌, ◌+◌, ◌*◌, min, leb, drop};
ghost use Rattle.chip.specs.Geometry.{geometry};
ghost use Rattle.intake.specs.Intake.{most_image, is_digit, leads, number_in, number_at, intake_of};

// R16.7: an image of N regions of S bytes, which begins at a place of the input.
#[derive(Clone, Copy)]
pub struct Chip {
    pub s: usize,
    pub n: usize,
    pub start: usize,
}

// The image has at most so many bytes.
const MOST_IMAGE: usize = 65536;

// Whether a byte is a decimal digit.
fn is_digit(byte: u8) -> bool
    ensures { result ≡ is_digit byte }
{
    byte.is_ascii_digit()
}

// Whether a number may begin with a byte: a leading zero is none.
fn is_leading(byte: u8) -> bool
    ensures { result ≡ leads byte }
{
    matches!(byte, b'1'..=b'9')
}

// A number is held at one more than an image can have: neither S nor N can be so large, and no number of digits is too many.
fn hold(value: usize) -> usize
    ensures { result ≡ min value (most_image + 1) }
{
    value.min(MOST_IMAGE + 1)
}

// The digits at the front as a number, and what stands behind them.
fn read_digits(text: &[u8]) -> (usize, &[u8])
    ensures { (result.0 ≡ min (number_in text.now 0 0).value (most_image + 1)) × (result.1.now ≡ drop (number_in text.now 0 0).end text.now) }
{
    let mut value: usize = 0;
    let mut rest = text;
    while let Some((byte, behind)) = rest.split_first() {
        if !is_digit(*byte) {
            break;
        }
        let digit = (*byte - b'0') as usize;
        value = hold(value * 10 + digit);
        rest = behind;
    }
    (value, rest)
}

// The number at the front, and what stands behind it; 0 where none begins there, as with a leading zero.
fn read_number(text: &[u8]) -> (usize, &[u8])
    ensures { (result.0 ≡ min (number_at text.now 0).value (most_image + 1)) × (result.1.now ≡ drop (number_at text.now 0).end text.now) }
{
    match text.first() {
        Some(first) if is_leading(*first) => read_digits(text),
        _ => (0, text),
    }
}

// Whether these bytes are an image of N regions of S bytes, and few enough. A product of two large numbers is never taken.
fn is_image(image: &[u8], s: usize, n: usize) -> bool
    ensures { result ≡ (leb (n * s) most_image && geometry image.now s n) }
{
    chip::fits(image, s, n) && image.len() <= MOST_IMAGE
}

// The chip that an input is, whatever bytes it has; every other input is refused.
pub fn take_in(input: &[u8]) -> Option<Chip>
    ensures { result ≡ intake_of input.now }
{
    let (s, behind_size) = read_number(input);
    let (n, behind_count) = read_number(behind_size.strip_prefix(b" ")?);
    let image = behind_count.strip_prefix(b"\n")?;
    if !is_image(image, s, n) {
        return None;
    }
    let start = input.len() - image.len();
    Some(Chip { s, n, start })
}
