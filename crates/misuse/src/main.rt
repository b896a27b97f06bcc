// Calls that a host should not make, and starts that are refused: what is said, and that nothing is altered.

#![tactic(auto)]

use host::{Flash, Host};
use plans::Printed;
use refusals::Refusal;
use report::{Hex, Unheeded};
use running::{Op, Reply};
use std::io;
use steps::Stepped;

fn main(rt: HostRuntime) -> io::Result<()> {
    let rt = Unheeded { out: rt };
    refused_starts(&rt)?;
    bad_calls(&rt)
}

// Refusals 1, 2 and 3 are the start's.
fn refused_starts(rt: &impl Print) -> io::Result<()> {
    started(
        rt,
        "start with regions of 63 bytes:",
        running::start_collect(63, 4),
    )?;
    started(rt, "start with 65 regions:", running::start_collect(64, 65))?;
    started(rt, "start with key 0:", running::start_get(64, 4, 0, 0))?;
    started(
        rt,
        "start with 4080 bytes:",
        running::start_append(4096, 4, 1, 4080),
    )
}

fn started(rt: &impl Print, what: &str, start: Result<Op, Refusal>) -> io::Result<()> {
    match start {
        Ok(_) => println!(rt; "{what}"),
        Err(refusal) => println!(rt; "{what} {}", Printed(Err(refusal))),
    }
}

fn bad_calls(rt: &impl Print) -> io::Result<()> {
    let mut image = [255; 256];
    println!(rt; "append 1, 3 bytes, with bad calls")?;
    if let Ok(op) = running::start_append(64, 4, 1, 3) {
        bad_appends(rt, op, &mut image)?;
    }
    host::changes(rt, &[255; 256], &image);
    println!(rt; "get 1 into 5 bytes, with bad calls")?;
    if let Ok(op) = running::start_get(64, 4, 1, 5) {
        bad_gets(rt, op, &mut image)?;
    }
    Ok(())
}

// A bad call leaves the operation as it was: it goes on from its second request.
fn bad_appends(rt: &impl Print, op: Op, image: &mut [u8; 256]) -> io::Result<()> {
    let value = [7, 8, 9];
    let mut flash = Flash::new(image, &value, &mut [], Host::READY);
    let first = flash.step(op, Reply::Begin);
    let op = flash.beat(rt, first, 0).op;
    let now = steps::step(op, Reply::Done, &mut [0; 63], &value, &mut []);
    let op = said(rt, "region buffer of 63 bytes", now)?;
    let now = flash.step_lent(op, Reply::Done, &[7, 8], &mut []);
    let op = said(rt, "value of 2 bytes", now)?;
    let now = flash.step(op, Reply::Begin);
    let op = said(rt, "begin at the second step", now)?;
    finish(rt, op, &mut flash)?;
    Ok(())
}

// The same before the first request, after it, and after the end.
fn bad_gets(rt: &impl Print, op: Op, image: &mut [u8; 256]) -> io::Result<()> {
    let mut buffer = [0; 5];
    let mut flash = Flash::new(image, b"", &mut buffer, Host::READY);
    let now = flash.step(op, Reply::Done);
    let op = said(rt, "done at the first step", now)?;
    let op = flash.step(op, Reply::Begin).op;
    let now = flash.step_lent(op, Reply::Done, b"", &mut [0; 6]);
    let op = said(rt, "buffer of 6 bytes", now)?;
    let op = finish(rt, op, &mut flash)?;
    let now = flash.step(op, Reply::Done);
    said(rt, "done after the end", now)?;
    println!(rt; "  buffer:{}", Hex(&buffer))
}

// A line with what a step said, and the operation as it then stands.
fn said(rt: &impl Print, what: &str, stepped: Stepped) -> io::Result<Op> {
    println!(rt; "  {what}: {}", stepped.request)?;
    Ok(stepped.op)
}

// A step with "not ready" says the request again, and from there it goes to the end.
fn finish(rt: &impl Print, op: Op, flash: &mut Flash<'_>) -> io::Result<Op> {
    let again = flash.step(op, Reply::NotReady);
    let last = flash.drive(rt, again);
    said(rt, "answer", last)
}
