// Two images, byte by byte.
use report::Hex;

// A line with what changed in an image, from the first byte that did to the last. No line where none did.
pub fn changes(rt: &impl Print, old: &[u8; 256], new: &[u8; 256]) {
    let first = old.iter().zip(new).position(|(a, b)| a != b);
    let last = old.iter().zip(new).rposition(|(a, b)| a != b);
    let (Some(first), Some(last)) = (first, last) else {
        return;
    };
    let part = new.get(first..=last).unwrap_or(&[]);
    let _ = println!(rt; "  at {first}:{}", Hex(part));
}
