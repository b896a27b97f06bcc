// A day on a grading table: the afternoon's correction spills into the next region, and a lookup finds it.
// All that is said of the store is what it answers and what the image then holds.

#![tactic(auto)]

mod corrections;
mod day;
mod flash;
mod lookups;
mod old_append;
mod old_lookup;
mod print;
mod table;

use flash::Chip;
use print::Said;
use report::Unheeded;
use std::io;

// The main key, and the keys of the white balance of three cameras.
const MAIN: u64 = 1000;

const CAMERA_1: u64 = 101;

const CAMERA_2: u64 = 201;

const CAMERA_3: u64 = 301;

fn main(rt: HostRuntime) -> io::Result<()> {
    let rt = Unheeded { out: rt };
    let mut chip = flash::new_chip();
    heading(&rt)?;
    morning(&rt, &mut chip)?;
    afternoon(&rt, &mut chip)?;
    look_up_all(&rt, &chip)?;
    evening(&rt, &mut chip)?;
    if all_kept(&rt, &chip)? {
        println!(rt; "Nothing was lost.")?;
    } else {
        println!(rt; "SOMETHING WAS LOST.")?;
    }
    append_twice(&rt, &mut chip)
}

fn heading(rt: &impl Print) -> io::Result<()> {
    println!(rt; "A day in August: a correction spills into the next region, and is found.")?;
    println!(rt;
        "The chip: N {} regions of S {} bytes, {} bytes in all.",
        flash::N,
        flash::S,
        flash::N * flash::S
    )?;
    println!(rt; "What tickv 2.0.0 says is computed on this image by its rules (difference D1).")
}

fn morning(rt: &impl Print, chip: &mut Chip) -> io::Result<()> {
    println!(rt; "\nThe morning: the store is set up, and three cameras are corrected.")?;
    day::heading(rt)?;
    day::call(rt, "07:30", "initialise", MAIN, chip.initialise(MAIN))?;
    day::append(rt, "08:10", chip, CAMERA_1, corrections::CAMERA_1)?;
    day::append(rt, "08:20", chip, CAMERA_2, corrections::CAMERA_2)?;
    day::append(rt, "08:30", chip, CAMERA_3, corrections::CAMERA_3)
}

// A new correction takes the place of the one before, which is removed.
fn afternoon(rt: &impl Print, chip: &mut Chip) -> io::Result<()> {
    println!(rt; "\nThe afternoon: cameras 2 and 1 are corrected anew. Then what is where:")?;
    day::call(
        rt,
        "12:05",
        "invalidate",
        CAMERA_2,
        chip.invalidate(CAMERA_2),
    )?;
    day::append(rt, "12:05", chip, CAMERA_2, corrections::CAMERA_2_AT_NOON)?;
    day::call(
        rt,
        "15:00",
        "invalidate",
        CAMERA_1,
        chip.invalidate(CAMERA_1),
    )?;
    day::append(rt, "15:00", chip, CAMERA_1, corrections::CAMERA_1_AT_THREE)?;
    table::show(rt, chip)
}

fn look_up_all(rt: &impl Print, chip: &Chip) -> io::Result<()> {
    lookups::one(rt, chip, CAMERA_1)?;
    println!(rt; "\n key  home  tickv 2.0.0                   this store")?;
    for key in [MAIN, CAMERA_1, CAMERA_2, CAMERA_3] {
        lookups::row(rt, chip, key)?;
    }
    Ok(())
}

fn evening(rt: &impl Print, chip: &mut Chip) -> io::Result<()> {
    println!(rt; "\nThe evening: camera 2 is corrected anew, and camera 3 is taken away.")?;
    day::call(
        rt,
        "18:00",
        "invalidate",
        CAMERA_2,
        chip.invalidate(CAMERA_2),
    )?;
    day::append(rt, "18:00", chip, CAMERA_2, corrections::CAMERA_2_AT_SIX)?;
    day::call(rt, "18:30", "zeroise", CAMERA_3, chip.zeroise(CAMERA_3))?;
    table::show(rt, chip)?;
    println!(rt; "")?;
    day::collect(rt, "19:00", chip)?;
    table::show(rt, chip)
}

// Every key that was not removed.
fn all_kept(rt: &impl Print, chip: &Chip) -> io::Result<bool> {
    println!(rt; "\n key  tickv 2.0.0                   this store, against what was appended")?;
    let main = lookups::kept(rt, chip, MAIN, "")?;
    let first = lookups::kept(rt, chip, CAMERA_1, corrections::CAMERA_1_AT_THREE)?;
    let second = lookups::kept(rt, chip, CAMERA_2, corrections::CAMERA_2_AT_SIX)?;
    Ok(main && first && second)
}

// A second record of a key that has one.
fn append_twice(rt: &impl Print, chip: &mut Chip) -> io::Result<()> {
    let before = *chip;
    let value = corrections::CAMERA_1_AT_THREE;
    println!(rt; "\nA second append of key {CAMERA_1}:")?;
    match old_append::append_key(&chip.bytes, CAMERA_1, value.len()) {
        Ok(r) if lookups::is_live(chip, CAMERA_1) => {
            println!(rt; "  tickv 2.0.0  Written (region {r}): the key is live twice")?
        }
        Ok(r) => println!(rt; "  tickv 2.0.0  Written (region {r})")?,
        Err(refusal) => println!(rt; "  tickv 2.0.0  {refusal}")?,
    }
    let answer = Said(chip.append(CAMERA_1, value.as_bytes()));
    let changed = if *chip == before {
        "and no byte changed"
    } else {
        "AND THE IMAGE CHANGED"
    };
    println!(rt; "  this store   {answer}, {changed}")
}
