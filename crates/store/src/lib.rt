// The store in one call, on an image that lies in memory: get, append, invalidate, zeroise, collect and initialise.
// None of the six asks anything of its caller: what is not allowed is refused.

#![tactic(auto)]

mod collect;
mod read;
mod write;

pub use collect::garbage_collect;
pub use read::get_key;
pub use write::{append_key, initialise, invalidate_key, zeroise_key};
