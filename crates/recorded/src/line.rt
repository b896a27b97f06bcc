// A line of the list: eight numbers.

// What a line's first number says.
#[derive(Clone, Copy, PartialEq, Eq)]
pub enum Call {
    // No call: a chip begins here.
    Chip,
    Get,
    Append,
    Invalidate,
    Zeroise,
    Collect,
    Initialise,
    // No call: the list ends here.
    Last,
    // A number that stands for none, made as an initialise that answers as an append does.
    Other,
}

impl From<u64> for Call {
    fn from(number: u64) -> Call {
        match number {
            0 => Call::Chip,
            1 => Call::Get,
            2 => Call::Append,
            3 => Call::Invalidate,
            4 => Call::Zeroise,
            5 => Call::Collect,
            6 => Call::Initialise,
            9 => Call::Last,
            _ => Call::Other,
        }
    }
}

// A call and what the crate made of it.
#[derive(Clone, Copy)]
pub struct Line {
    pub call: Call,
    pub key: u64,
    // Of get's buffer or append's value.
    pub length: u64,
    // Of the pattern in get's buffer before the call, or in append's value.
    pub seed: u64,
    // The refusal's number, 0 where there is none.
    pub refusal: u64,
    pub value: u64,
    // The checksums of get's buffer and of the image after the call.
    pub buffer: u64,
    pub image: u64,
}

// The numbers of a text. A byte that is no digit ends one. Behind the last come zeros.
#[derive(Clone, Copy)]
pub struct Numbers<'a>(pub &'a [u8]);

impl<'a> Numbers<'a> {
    fn take(&mut self) -> u64 {
        let text = self.0;
        let mut parts = text.splitn(2, |byte| !byte.is_ascii_digit());
        let digits = parts.next().unwrap_or(b"");
        self.0 = parts.next().unwrap_or(b"");
        digits
            .iter()
            .fold(0, |value, digit| with_digit(value, *digit))
    }
}

// The lines of the list, one after the other.
impl<'a> Iterator for Numbers<'a> {
    type Item = Line;

    fn next(&mut self) -> Option<Line> {
        Some(Line {
            call: Call::from(self.take()),
            key: self.take(),
            length: self.take(),
            seed: self.take(),
            refusal: self.take(),
            value: self.take(),
            buffer: self.take(),
            image: self.take(),
        })
    }
}

// A number with one more digit behind it; it stays as it is where it would have more than 64 bits.
fn with_digit(value: u64, byte: u8) -> u64 {
    let digit = u64::from(byte % 16);
    if value < 1844674407370955161 {
        return value * 10 + digit % 10;
    }
    if value == 1844674407370955161 {
        return value * 10 + digit % 6;
    }
    value
}
