// A record's bytes, and what makes one dead, at their place: laid into a region that is lent, or written to the chip.

#![tactic(auto)]

ghost use Rattle.std.specs.Prelude.{◌≡◌, ◌+◌, ◌≤◌, length};
ghost use Rattle.format.specs.Layout.{record_bytes, kill_offset, kill_bytes};

use chip::Landing;
use format::{Record, Removal};

// A live record of the key and the value, from a place on. The sum goes over header and value where they lie, and copies neither.
pub fn land_record<L: Landing>(part: &mut [u8], at: usize, key: u64, value: &[u8])
    requires { (length value.now ≤ 4079) × (at + (length value.now + 15) ≤ length part.old) }
    ensures { part.new ≡ L.landed part.old at (record_bytes key value.now) }
{
    let head = format::new_header(value.len() + Record::LEAST, key);
    let sum = format::sum_bytes(crc32::checksum_of_two(&head, value));
    let body = at + Record::HEADER_LENGTH;
    chip::land::<L>(part, at, &head);
    chip::land::<L>(part, body, value);
    chip::land::<L>(part, body + value.len(), &sum);
}

// What makes a record dead, where its first byte stands at a place.
pub fn land_kill<L: Landing>(part: &mut [u8], at: usize, how: Removal, rec: Record)
    requires { (15 ≤ rec.len) × (rec.len ≤ 4095) × (at + rec.len ≤ length part.old) }
    ensures { part.new ≡ L.landed part.old (at + kill_offset how) (kill_bytes how rec) }
{
    let head = format::dead_header(rec);
    match how {
        Removal::Invalidate => {
            let flags = [head[1]];
            chip::land::<L>(part, at + Record::LEN_OFFSET, &flags);
        }
        Removal::Zeroise => {
            let body = at + Record::HEADER_LENGTH;
            let end = at + rec.len;
            chip::land::<L>(part, at, &head);
            // Zeros are zeros over anything, laid or written.
            chip::fill(&mut part[body..end], 0);
        }
    }
}
