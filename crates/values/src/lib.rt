// The value of a record: what get answers by it, and its bytes to a buffer. Both forms of the store read so.

#![tactic(auto)]

ghost use Rattle.std.specs.Prelude.{◌≡◌};
ghost use Rattle.values.specs.Values.{read_answer, read_buffer};

use chip::Laid;
use plans::{Answer, Success};
use refusals::Refusal;
use region::Standing;

// Get's answer by a record of a region, for a buffer of so many bytes.
pub fn read_answer(found: &Standing, capacity: usize) -> Answer
    ensures { result ≡ read_answer found.now.region.now found.now.rec capacity }
{
    let len = found.value_length();
    if capacity < len {
        return Err(Refusal::BufferTooSmall(len));
    }
    if found.is_sound() {
        Ok(Success::Complete(len))
    } else {
        Err(Refusal::InvalidCheckSum)
    }
}

// The value of a record of a region to the buffer's front, as much of it as the buffer takes.
pub fn copy_value(found: &Standing, buffer: &mut [u8])
    ensures { buffer.new ≡ read_buffer found.now.region.now found.now.rec buffer.old }
{
    let value = found.value();
    let most = value.len().min(buffer.len());
    chip::land::<Laid>(buffer, 0, &value[..most]);
}
