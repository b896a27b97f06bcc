// The one-call form: the image lies in memory.
ghost use Rattle.stilefray.specs.Allows.{GetKeyAllows, AppendKeyAllows, InvalidateKeyAllows, ZeroiseKeyAllows, GarbageCollectAllows, InitialiseAllows};

use replies::CAnswer;

// R5.2: get, its answer in numbers (R12.1), as all of these give it.
pub fn stilefray_get_key(image: &[u8], s: usize, n: usize, key: u64, buffer: &mut [u8]) -> CAnswer
    ensures { GetKeyAllows image.now s n key buffer.old result buffer.new }
{
    replies::answer_numbers(store::get_key(image, s, n, key, buffer))
}

// R5.3, R5.4: append.
pub fn stilefray_append_key(image: &mut [u8], s: usize, n: usize, key: u64, value: &[u8]) -> CAnswer
    ensures { AppendKeyAllows image.old s n key value.now result image.new }
{
    replies::answer_numbers(store::append_key(image, s, n, key, value))
}

// R5.5: invalidate.
pub fn stilefray_invalidate_key(image: &mut [u8], s: usize, n: usize, key: u64) -> CAnswer
    ensures { InvalidateKeyAllows image.old s n key result image.new }
{
    replies::answer_numbers(store::invalidate_key(image, s, n, key))
}

// R5.6: zeroise.
pub fn stilefray_zeroise_key(image: &mut [u8], s: usize, n: usize, key: u64) -> CAnswer
    ensures { ZeroiseKeyAllows image.old s n key result image.new }
{
    replies::answer_numbers(store::zeroise_key(image, s, n, key))
}

// R5.7, R5.8: collect.
pub fn stilefray_garbage_collect(image: &mut [u8], s: usize, n: usize) -> CAnswer
    ensures { GarbageCollectAllows image.old s n result image.new }
{
    replies::answer_numbers(store::garbage_collect(image, s, n))
}

// R5.9: initialise, with the main key.
pub fn stilefray_initialise(image: &mut [u8], s: usize, n: usize, key: u64) -> CAnswer
    ensures { InitialiseAllows image.old s n key result image.new }
{
    replies::answer_numbers(store::initialise(image, s, n, key))
}
