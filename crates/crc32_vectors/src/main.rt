// The checksum of published and worked vectors, a line each: a name, and the sum in hexadecimal.

#![tactic(auto)]

ghost use Rattle.std.specs.Prelude.{◌≡◌, ℕ, ◌<◌, get_or};

use std::array;

fn main(rt: HostRuntime) {
    // A live record of key 1, whose 18 bytes are 11 of header, 3 of value and 4 of checksum.
    let header = [1, 128, 18, 0, 0, 0, 0, 0, 0, 0, 1];
    let rows = [
        ("123456789", crc32::checksum(b"123456789")),
        ("12345+6789", crc32::checksum_of_two(b"12345", b"6789")),
        ("+123456789", crc32::checksum_of_two(b"", b"123456789")),
        ("empty", crc32::checksum(b"")),
        ("0..255", crc32::checksum(&ascending())),
        ("4094*255", crc32::checksum(&[255; 4094])),
        ("record", crc32::checksum_of_two(&header, &[7, 8, 9])),
    ];
    for (name, sum) in rows {
        // What standard output does not take is passed over.
        let _ = println!(rt; "{name} {sum:08x}");
    }
}

// Each byte value once, in order.
fn ascending() -> [u8; 256]
    ensures { (k : ℕ) → k < 256 → get_or result k 0 ≡ k }
{
    array::from_fn(|i| i as u8)
}
