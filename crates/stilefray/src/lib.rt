// The store as C and Rust call it, by the crate `stilefray_c`: every call of the one-call and of the stepped form under a name that begins with
// `stilefray_`, with numbers, lent bytes and plain structs. None asks anything of its caller: any numbers that C can pass are answered.

#![tactic(auto)]

mod image;
mod looking;
mod stepped;

ghost use Rattle.stilefray.specs.Allows.{ChecksumAllows};

pub use image::{
    stilefray_append_key, stilefray_garbage_collect, stilefray_get_key, stilefray_initialise,
    stilefray_invalidate_key, stilefray_zeroise_key,
};
pub use looking::{stilefray_find_value, stilefray_record_at};
pub use stepped::{
    stilefray_start_append, stilefray_start_collect, stilefray_start_get,
    stilefray_start_initialise, stilefray_start_invalidate, stilefray_start_zeroise,
    stilefray_step,
};

// R5.10: the checksum alone, of any bytes.
pub fn stilefray_checksum(bytes: &[u8]) -> u32
    ensures { ChecksumAllows bytes.now result }
{
    crc32::checksum(bytes)
}
