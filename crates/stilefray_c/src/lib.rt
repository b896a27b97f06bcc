// The archive for C and Rust: each of the sixteen exports, by its name in C, calls the function of `stilefray` of that name and promises the same.

#![tactic(auto)]

mod image;
mod looking;
mod stepped;

ghost use Rattle.stilefray.specs.Allows.{ChecksumAllows};

// R5.10: the checksum alone, of any bytes.
#[unsafe(no_mangle)]
pub extern "C" fn stilefray_checksum(bytes: &[u8]) -> u32
    ensures { ChecksumAllows bytes.now result }
{
    stilefray::stilefray_checksum(bytes)
}
