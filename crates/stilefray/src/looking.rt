// Looking into a chip that lies in memory: nothing is written, and nothing is copied.
ghost use Rattle.stilefray.specs.Allows.{FindValueAllows, RecordAtAllows};

use sights::{CEntry, CFound};

// R16.1, R16.2: where a key's value lies.
pub fn stilefray_find_value(image: &[u8], s: usize, n: usize, key: u64) -> CFound
    ensures { FindValueAllows image.now s n key result }
{
    sights::part_numbers(lending::find_value(image, s, n, key))
}

// R16.4, R16.5: what stands at a place of a region, and where to go on.
pub fn stilefray_record_at(image: &[u8], s: usize, n: usize, region: usize, place: usize) -> CEntry
    ensures { RecordAtAllows image.now s n region place result }
{
    sights::shown_numbers(s, region, entries::record_at(image, s, n, region, place))
}
