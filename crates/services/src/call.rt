// The store's calls, as a start of the stepped form and as one call.
use plans::Answer;
use refusals::Refusal;
use report::Image;
use running::Op;

// A call with its key.
#[derive(Clone, Copy)]
pub enum Call {
    Get(u64),
    Append(u64),
    Invalidate(u64),
    Zeroise(u64),
    Collect,
    Initialise(u64),
}

impl Call {
    // With the length of append's value and of get's buffer.
    pub fn start(self, len: usize, capacity: usize) -> Result<Op, Refusal> {
        match self {
            Call::Get(key) => running::start_get(64, 4, key, capacity),
            Call::Append(key) => running::start_append(64, 4, key, len),
            Call::Invalidate(key) => running::start_invalidate(64, 4, key),
            Call::Zeroise(key) => running::start_zeroise(64, 4, key),
            Call::Collect => running::start_collect(64, 4),
            Call::Initialise(key) => running::start_initialise(64, 4, key),
        }
    }

    pub fn in_one(self, image: &mut Image<256>, value: &[u8], buffer: &mut [u8]) -> Answer {
        match self {
            Call::Get(key) => image.get(key, buffer),
            Call::Append(key) => image.append(key, value),
            Call::Invalidate(key) => image.invalidate(key),
            Call::Zeroise(key) => image.zeroise(key),
            Call::Collect => image.collect(),
            Call::Initialise(key) => image.initialise(key),
        }
    }
}
