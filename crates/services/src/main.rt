// The store one service at a time, on a flash that lies in memory: 4 regions of 64 bytes.
// A line for each service that a step asks for and for each answer, held against the same call made in one.

#![tactic(auto)]

mod call;
mod forms;

use call::Call;
use forms::{change, fail, get};
use host::Host;
use report::{Image, Unheeded};
use std::io;

fn main(rt: HostRuntime) -> io::Result<()> {
    let rt = Unheeded { out: rt };
    // One image goes from each of these to the next.
    let mut image = blank();
    small_record(&rt, &mut image)?;
    spilled_record(&rt, &mut image)?;
    failures(&rt, &mut image)?;
    removals(&rt, &mut image)?;
    main_key(&rt)?;
    bad_place(&rt)
}

fn blank() -> Image<256> {
    Image {
        s: 64,
        n: 4,
        bytes: [255; 256],
    }
}

// Key 1 is at home in region 1.
fn small_record(rt: &impl Print, image: &mut Image<256>) -> io::Result<()> {
    change(
        rt,
        "append 1, 3 bytes",
        Call::Append(1),
        image,
        &[7, 8, 9],
        Host::READY,
    )?;
    get(rt, "get 1 into 5 bytes", 1, image, [0; 5], Host::READY)?;
    get(rt, "get 1 into 2 bytes", 1, image, [0; 2], Host::SLOW)?;
    change(
        rt,
        "append 1 again",
        Call::Append(1),
        image,
        &[7],
        Host::READY,
    )
}

// Key 5 is at home in region 1 too, whose 46 free bytes are too few for its 55.
fn spilled_record(rt: &impl Print, image: &mut Image<256>) -> io::Result<()> {
    change(
        rt,
        "append 5, 40 bytes",
        Call::Append(5),
        image,
        &[5; 40],
        Host::SLOW,
    )?;
    get(rt, "get 5 into 40 bytes", 5, image, [0; 40], Host::READY)?;
    get(rt, "get 2 into 1 byte", 2, image, [0; 1], Host::READY)
}

// A failed service is not done, and ends the operation.
fn failures(rt: &impl Print, image: &mut Image<256>) -> io::Result<()> {
    let mut other = blank();
    fail(rt, "get 5, its second read fails", Call::Get(5), image, 1)?;
    fail(rt, "append 2, its write fails", Call::Append(2), image, 4)?;
    fail(
        rt,
        "initialise 1 on a blank image, its second erase fails",
        Call::Initialise(1),
        &mut other,
        5,
    )
}

// Both records become dead, and their two regions are collected.
fn removals(rt: &impl Print, image: &mut Image<256>) -> io::Result<()> {
    change(
        rt,
        "invalidate 1",
        Call::Invalidate(1),
        image,
        b"",
        Host::SLOW,
    )?;
    change(rt, "zeroise 5", Call::Zeroise(5), image, b"", Host::SLOW)?;
    change(rt, "collect", Call::Collect, image, b"", Host::SLOW)?;
    change(rt, "collect again", Call::Collect, image, b"", Host::READY)
}

fn main_key(rt: &impl Print) -> io::Result<()> {
    let mut image = blank();
    let call = Call::Initialise(1);
    change(
        rt,
        "initialise 1 on a blank image",
        call,
        &mut image,
        b"",
        Host::SLOW,
    )?;
    change(rt, "initialise 1 again", call, &mut image, b"", Host::READY)
}

// Region 2 begins with a version that is not known: collect ends there, and initialise starts anew.
fn bad_place(rt: &impl Print) -> io::Result<()> {
    let mut image = blank();
    image.bytes[128] = 2;
    change(
        rt,
        "collect with a bad place in region 2",
        Call::Collect,
        &mut image,
        b"",
        Host::READY,
    )?;
    change(
        rt,
        "initialise 1 with a bad place in region 2",
        Call::Initialise(1),
        &mut image,
        b"",
        Host::READY,
    )
}
