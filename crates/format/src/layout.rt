// The bytes of a record: its header, live or dead, and its checksum.
ghost use Rattle.std.specs.Prelude.{◌≡◌, ◌+◌, ◌%◌, ◌≤◌, length};
ghost use Rattle.format.specs.Layout.{header, little_endian, sum_at, check_sum_fits};

use crate::Record;

// Version, flags and length, and key.
fn header_of(version: u8, flags: u8, len: usize, key: u64) -> [u8; 11]
    requires { (flags ≤ 15) × (len ≤ 4095) }
    ensures { result ≡ header version flags len key }
{
    let [a, b, c, d, e, f, g, h] = key.to_be_bytes();
    let high = (len / 256) as u8;
    let low = (len % 256) as u8;
    [version, flags * 16 + high, low, a, b, c, d, e, f, g, h]
}

// The header of a live record that is written now.
pub fn new_header(len: usize, key: u64) -> [u8; 11]
    requires { len ≤ 4095 }
    ensures { result ≡ header 1 8 len key }
{
    header_of(Record::VERSION, Record::FLAGS_VALID, len, key)
}

// A checksum's four bytes, low end first.
#[tactic(auto, using(crate::proofs::Laid::little_four))]
pub fn sum_bytes(sum: u32) -> [u8; 4]
    ensures { result ≡ little_endian 4 sum }
{
    sum.to_le_bytes()
}

// A record's header with the top flag cleared.
pub fn dead_header(rec: Record) -> [u8; 11]
    requires { rec.len ≤ 4095 }
    ensures { result ≡ header rec.version (rec.flags % 8) rec.len rec.key }
{
    header_of(rec.version, rec.flags % 8, rec.len, rec.key)
}

// Whether the checksum at the end of a record's bytes is that of its header and value.
#[tactic(auto, unfolding(crate::specs::Layout::check_sum_fits))]
pub fn check_sum_fits(bytes: &[u8]) -> bool
    requires { 4 ≤ length bytes.now }
    ensures { result ≡ check_sum_fits bytes.now }
{
    let end = bytes.len() - Record::CHECK_SUM_LEN;
    crc32::checksum(&bytes[0..end]) == sum_at(bytes, end)
}

// The four bytes from a place on as a number, low end first.
fn sum_at(bytes: &[u8], at: usize) -> u32
    requires { at + 4 ≤ length bytes.now }
    ensures { result ≡ sum_at bytes.now at }
{
    u32::from_le_bytes([bytes[at], bytes[at + 1], bytes[at + 2], bytes[at + 3]])
}
