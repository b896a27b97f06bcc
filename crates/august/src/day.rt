// The day's calls: a line for each, with what the store answers.
use crate::flash;
use crate::flash::Chip;
use crate::print::Said;
use plans::Answer;
use std::io;

pub fn heading(rt: &impl Print) -> io::Result<()> {
    println!(rt; "time   call          key  bytes  home  answer")
}

// An append, whose line has the value's length.
pub fn append(
    rt: &impl Print,
    time: &str,
    chip: &mut Chip,
    key: u64,
    value: &str,
) -> io::Result<()> {
    let home = probe::get_region(key, flash::N);
    let answer = Said(chip.append(key, value.as_bytes()));
    println!(rt;
        "{time}  append    {key:>7}{:>7}{home:>6}  {answer}",
        value.len()
    )
}

// A call without a value.
pub fn call(rt: &impl Print, time: &str, what: &str, key: u64, answer: Answer) -> io::Result<()> {
    let home = probe::get_region(key, flash::N);
    println!(rt;
        "{time}  {what:<10}{key:>7}       {home:>6}  {}",
        Said(answer)
    )
}

// Collect has no key.
pub fn collect(rt: &impl Print, time: &str, chip: &mut Chip) -> io::Result<()> {
    println!(rt;
        "{time}  collect                         {}",
        Said(chip.collect())
    )
}
