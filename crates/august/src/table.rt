// What is where: a row for each record of the image, and one for what is left of each region.
ghost use Rattle.std.specs.Prelude.{◌≤◌};

use crate::flash;
use crate::flash::Chip;
use format::Record;
use region::Stop;
use std::io;

pub fn show(rt: &impl Print, chip: &Chip) -> io::Result<()> {
    println!(rt; "region  place  state    key  bytes  home")?;
    for (r, region) in chip.bytes.chunks_exact(flash::S).enumerate() {
        rows(rt, r, region)?;
    }
    Ok(())
}

// The walk of a region, as the store's calls walk it: a loop and no iterator, since each step is as long as the record that it meets.
fn rows(rt: &impl Print, r: usize, region: &[u8]) -> io::Result<()> {
    let mut at: usize = 0;
    loop {
        match region::look(region, at) {
            Ok(rec) => {
                record_row(rt, r, rec)?;
                at += rec.len;
            }
            Err(stop) => return stop_row(rt, r, stop, &region[at..]),
        }
    }
}

// A record's value is all of it but header and checksum.
fn record_row(rt: &impl Print, r: usize, rec: Record) -> io::Result<()>
    requires { 15 ≤ rec.len }
{
    let home = probe::get_region(rec.key, flash::N);
    let state = if rec.is_live() { "live" } else { "dead" };
    let spilled = if home != r { "  spilled" } else { "" };
    let len = rec.len - Record::LEAST;
    println!(rt;
        "{r:>6}{:>7}  {state} {:>6}{len:>7}{home:>6}{spilled}",
        rec.at, rec.key
    )
}

// What is left is too short for any record, or all of the region, or something between.
fn stop_row(rt: &impl Print, r: usize, stop: Stop, rest: &[u8]) -> io::Result<()> {
    let at = match stop {
        Stop::End(at) => at,
        Stop::Bad(_, at) => return println!(rt; "{r:>6}{at:>7}  bad"),
    };
    let state = if rest.len() < Record::LEAST {
        "full"
    } else if at == 0 {
        "blank"
    } else {
        "free"
    };
    let left = if chip::is_blank(rest) {
        "left"
    } else {
        "left, NOT BLANK"
    };
    println!(rt; "{r:>6}{at:>7}  {state:<5}{:>13} {left}", rest.len())
}
