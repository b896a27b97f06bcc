// Get: the value of a key's record into a buffer.
ghost use Rattle.std.specs.Prelude.{◌≡◌};
ghost use Rattle.store.specs.Read.{get_of};

use plans::Answer;

// R5.2: get.
pub fn get_key(image: &[u8], s: usize, n: usize, key: u64, buffer: &mut [u8]) -> Answer
    ensures { (result ≡ (get_of image.now s n key buffer.old).answer) × (buffer.new ≡ (get_of image.now s n key buffer.old).buffer) }
{
    let found = lookup::find_standing(image, s, n, key)?;
    let capacity = buffer.len();
    values::copy_value(&found.standing, buffer);
    values::read_answer(&found.standing, capacity)
}
