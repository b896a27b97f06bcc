// A call one service at a time, held against the same call made in one.

use crate::call::Call;
use host::{Flash, Host};
use report::{Hex, Image};
use running::{Reply, Request};
use std::io;

// A get into a buffer, and what lies in it then. In one call it has the buffer's twin.
pub fn get<const LEN: usize>(
    rt: &impl Print,
    what: &str,
    key: u64,
    image: &mut Image<256>,
    mut buffer: [u8; LEN],
    host: Host,
) -> io::Result<()> {
    let mut twin = buffer;
    println!(rt; "{what}")?;
    both(rt, Call::Get(key), image, b"", &mut buffer, &mut twin, host)?;
    println!(rt; "  buffer:{}", Hex(&buffer))
}

// A call without a buffer, and what it changed.
pub fn change(
    rt: &impl Print,
    what: &str,
    call: Call,
    image: &mut Image<256>,
    value: &[u8],
    host: Host,
) -> io::Result<()> {
    let old = image.bytes;
    println!(rt; "{what}")?;
    both(rt, call, image, value, &mut [], &mut [], host)?;
    host::changes(rt, &old, &image.bytes);
    Ok(())
}

// A call whose service of this number fails. In one call there is no such thing.
pub fn fail(
    rt: &impl Print,
    what: &str,
    call: Call,
    image: &mut Image<256>,
    service: usize,
) -> io::Result<()> {
    let old = image.bytes;
    println!(rt; "{what}")?;
    run(
        rt,
        call,
        Flash::new(&mut image.bytes, b"", &mut [], Host::failing(service)),
    )?;
    host::changes(rt, &old, &image.bytes);
    Ok(())
}

// A call in both forms, on images and buffers that are the same before.
fn both(
    rt: &impl Print,
    call: Call,
    image: &mut Image<256>,
    value: &[u8],
    buffer: &mut [u8],
    twin: &mut [u8],
    host: Host,
) -> io::Result<()> {
    let mut other = *image;
    let stepped = run(rt, call, Flash::new(&mut image.bytes, value, buffer, host))?;
    let once = call.in_one(&mut other, value, twin);
    let differs = if stepped != Request::Answers(once) {
        "another answer"
    } else if *image != other {
        "another image"
    } else if &*buffer != &*twin {
        "another buffer"
    } else {
        "same"
    };
    println!(rt; "  in one call: {differs}")
}

// All steps of a call, and its answer.
fn run(rt: &impl Print, call: Call, mut flash: Flash<'_>) -> io::Result<Request> {
    match call.start(flash.value.len(), flash.buffer.len()) {
        Ok(op) => {
            let first = flash.step(op, Reply::Begin);
            let last = flash.drive(rt, first);
            println!(rt; "  answer: {}", last.request)?;
            Ok(last.request)
        }
        Err(refusal) => Ok(Request::Answers(Err(refusal))),
    }
}
