// The stepped form: one flash service at a time.
ghost use Rattle.stilefray.specs.Allows.{StartGetAllows, StartAppendAllows, StartInvalidateAllows, StartZeroiseAllows, StartCollectAllows, StartInitialiseAllows, StepAllows};

use numbers::{CStart, CStepped};
use operations::COperation;

// R8.2, R12.6: get's start, in numbers. `capacity` is the length of its buffer.
#[unsafe(no_mangle)]
pub extern "C" fn stilefray_start_get(s: usize, n: usize, key: u64, capacity: usize) -> CStart
    ensures { StartGetAllows s n key capacity result }
{
    stilefray::stilefray_start_get(s, n, key, capacity)
}

// R8.2, R12.6: append's start. `len` is the length of its value.
#[unsafe(no_mangle)]
pub extern "C" fn stilefray_start_append(s: usize, n: usize, key: u64, len: usize) -> CStart
    ensures { StartAppendAllows s n key len result }
{
    stilefray::stilefray_start_append(s, n, key, len)
}

// R8.2, R12.6: invalidate's start.
#[unsafe(no_mangle)]
pub extern "C" fn stilefray_start_invalidate(s: usize, n: usize, key: u64) -> CStart
    ensures { StartInvalidateAllows s n key result }
{
    stilefray::stilefray_start_invalidate(s, n, key)
}

// R8.2, R12.6: zeroise's start.
#[unsafe(no_mangle)]
pub extern "C" fn stilefray_start_zeroise(s: usize, n: usize, key: u64) -> CStart
    ensures { StartZeroiseAllows s n key result }
{
    stilefray::stilefray_start_zeroise(s, n, key)
}

// R8.2, R12.6: collect's start.
#[unsafe(no_mangle)]
pub extern "C" fn stilefray_start_collect(s: usize, n: usize) -> CStart
    ensures { StartCollectAllows s n result }
{
    stilefray::stilefray_start_collect(s, n)
}

// R8.2, R12.6: initialise's start, with the main key.
#[unsafe(no_mangle)]
pub extern "C" fn stilefray_start_initialise(s: usize, n: usize, key: u64) -> CStart
    ensures { StartInitialiseAllows s n key result }
{
    stilefray::stilefray_start_initialise(s, n, key)
}

// R8.3, R12.7: the step on what the numbers stand for.
#[unsafe(no_mangle)]
pub extern "C" fn stilefray_step(
    op: COperation,
    reply: u32,
    region: &mut [u8],
    value: &[u8],
    buffer: &mut [u8],
) -> CStepped
    ensures { StepAllows op reply region.old value.now buffer.old result region.new buffer.new }
{
    stilefray::stilefray_step(op, reply, region, value, buffer)
}
