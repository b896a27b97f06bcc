// The one-call form: the image lies in memory.
ghost use Rattle.stilefray.specs.Allows.{GetKeyAllows, AppendKeyAllows, InvalidateKeyAllows, ZeroiseKeyAllows, GarbageCollectAllows, InitialiseAllows};

use replies::CAnswer;

// R5.2: get, its answer in numbers (R12.1), as all of these give it.
#[unsafe(no_mangle)]
pub extern "C" fn stilefray_get_key(
    image: &[u8],
    s: usize,
    n: usize,
    key: u64,
    buffer: &mut [u8],
) -> CAnswer
    ensures { GetKeyAllows image.now s n key buffer.old result buffer.new }
{
    stilefray::stilefray_get_key(image, s, n, key, buffer)
}

// R5.3, R5.4: append.
#[unsafe(no_mangle)]
pub extern "C" fn stilefray_append_key(
    image: &mut [u8],
    s: usize,
    n: usize,
    key: u64,
    value: &[u8],
) -> CAnswer
    ensures { AppendKeyAllows image.old s n key value.now result image.new }
{
    stilefray::stilefray_append_key(image, s, n, key, value)
}

// R5.5: invalidate.
#[unsafe(no_mangle)]
pub extern "C" fn stilefray_invalidate_key(
    image: &mut [u8],
    s: usize,
    n: usize,
    key: u64,
) -> CAnswer
    ensures { InvalidateKeyAllows image.old s n key result image.new }
{
    stilefray::stilefray_invalidate_key(image, s, n, key)
}

// R5.6: zeroise.
#[unsafe(no_mangle)]
pub extern "C" fn stilefray_zeroise_key(image: &mut [u8], s: usize, n: usize, key: u64) -> CAnswer
    ensures { ZeroiseKeyAllows image.old s n key result image.new }
{
    stilefray::stilefray_zeroise_key(image, s, n, key)
}

// R5.7, R5.8: collect.
#[unsafe(no_mangle)]
pub extern "C" fn stilefray_garbage_collect(image: &mut [u8], s: usize, n: usize) -> CAnswer
    ensures { GarbageCollectAllows image.old s n result image.new }
{
    stilefray::stilefray_garbage_collect(image, s, n)
}

// R5.9: initialise, with the main key.
#[unsafe(no_mangle)]
pub extern "C" fn stilefray_initialise(image: &mut [u8], s: usize, n: usize, key: u64) -> CAnswer
    ensures { InitialiseAllows image.old s n key result image.new }
{
    stilefray::stilefray_initialise(image, s, n, key)
}
