// Keys that are looked up, by the old crate's rule and in our store.
use crate::flash::Chip;
use crate::print::Got;
use crate::{flash, old_lookup};
use report::Hex;
use std::fmt::InlineText;
use std::io;

// More bytes than any value of the day has.
const ROOM: usize = 20;

// One key at length: the order in which its regions are read, both answers, and the value's bytes.
pub fn one(rt: &impl Print, chip: &Chip, key: u64) -> io::Result<()> {
    let mut buffer = [0; ROOM];
    print!(rt; "\nCamera 1 asks for its correction. Key {key}, regions in probe order")?;
    let home = probe::get_region(key, flash::N);
    for i in 0..flash::N {
        print!(rt; " {}", probe::probe_at(home, flash::N, i))?;
    }
    println!(rt;
        ":\n  tickv 2.0.0  {}",
        old_lookup::get_key(&chip.bytes, key)
    )?;
    let answer = chip.get(key, &mut buffer);
    let buffer = &buffer;
    let got = Got { answer, buffer };
    println!(rt; "  this store   {got}")?;
    println!(rt; "  its bytes   {}", Hex(got.value().unwrap_or(b"")))
}

// A row of the table of all keys.
pub fn row(rt: &impl Print, chip: &Chip, key: u64) -> io::Result<()> {
    let mut buffer = [0; ROOM];
    let home = probe::get_region(key, flash::N);
    let old = old_column(chip, key);
    let answer = chip.get(key, &mut buffer);
    let buffer = &buffer;
    println!(rt;
        "{key:>4}{home:>6}  {:<28}  {}",
        old.as_str(),
        Got { answer, buffer }
    )
}

// A row for a key that was not removed, and whether the store still has the value that was appended last.
pub fn kept(rt: &impl Print, chip: &Chip, key: u64, appended: &str) -> io::Result<bool> {
    let mut buffer = [0; ROOM];
    let old = old_column(chip, key);
    let answer = chip.get(key, &mut buffer);
    let buffer = &buffer;
    let got = Got { answer, buffer };
    let kept = got.value() == Some(appended.as_bytes());
    let word = if kept { "equal" } else { "LOST" };
    println!(rt; "{key:>4}  {:<28}  {word:<5}  {got}", old.as_str())?;
    Ok(kept)
}

// The old crate's answer, to be padded as a column: no text of it is longer, and none is allocated.
fn old_column(chip: &Chip, key: u64) -> InlineText<32> {
    InlineText::of(old_lookup::get_key(&chip.bytes, key))
}

// Whether a live record of the key stands in the image.
pub fn is_live(chip: &Chip, key: u64) -> bool {
    lookup::find_key(&chip.bytes, flash::S, flash::N, key).is_ok()
}
