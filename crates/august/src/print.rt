// Answers and values as the day's lines have them.
use plans::{Answer, Success};
use std::{fmt, str};

// An answer's name and value.
#[derive(Clone, Copy)]
pub struct Said(pub Answer);

impl fmt::Display for Said {
    fn fmt<W: fmt::Write>(&self, f: &mut fmt::Formatter<W>) -> fmt::Result {
        match self.0 {
            Ok(Success::Complete(len)) => write!(f, "Complete{len:>4}"),
            Ok(Success::Written) => f.write_str("Written"),
            Ok(Success::Freed(bytes)) => write!(f, "Freed {bytes} bytes"),
            Err(refusal) => write!(f, "refused: {refusal}"),
        }
    }
}

// What a get answered, with what it left in the buffer.
#[derive(Clone, Copy)]
pub struct Got<'a> {
    pub answer: Answer,
    pub buffer: &'a [u8],
}

impl<'a> Got<'a> {
    // The value, where there is one.
    pub fn value(&self) -> Option<&'a [u8]> {
        match self.answer {
            Ok(Success::Complete(len)) => self.buffer.get(..len),
            Ok(Success::Written | Success::Freed(_)) | Err(_) => None,
        }
    }
}

// The answer, and behind it the value as the text that it is.
impl<'a> fmt::Display for Got<'a> {
    fn fmt<W: fmt::Write>(&self, f: &mut fmt::Formatter<W>) -> fmt::Result {
        write!(f, "{}", Said(self.answer))?;
        let Some(value) = self.value() else {
            return Ok(());
        };
        let text = str::from_utf8(value).unwrap_or("no text");
        write!(f, "  \"{text}\"")
    }
}
