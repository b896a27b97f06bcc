// The worked examples of R15 on the real code: a line for each step, with what the store answers and the bytes that it leaves.
// S is 64 and N is 4, but for R15.11, and the image is blank at first.

#![tactic(auto)]

use plans::Printed;
use report::{Hex, Image, Unheeded};
use std::io;

fn main(rt: HostRuntime) -> io::Result<()> {
    let rt = Unheeded { out: rt };
    probes(&rt)?;
    append_and_get(&rt)?;
    exact_fit(&rt)?;
    spill(&rt)?;
    zeroise(&rt)?;
    bad_version(&rt)?;
    lengths(&rt)?;
    collect_blank(&rt)?;
    largest(&rt)?;
    start_anew(&rt)?;
    lent(&rt)
}

fn blank() -> Image<256> {
    Image {
        s: 64,
        n: 4,
        bytes: [255; 256],
    }
}

// R15.1: a key's regions in probe order.
fn probes(rt: &impl Print) -> io::Result<()> {
    for key in [1, 3] {
        print!(rt; "1 probes of key {key}:")?;
        let home = probe::get_region(key, 4);
        for i in 0..4 {
            print!(rt; " {}", probe::probe_at(home, 4, i))?;
        }
        println!(rt; "")?;
    }
    Ok(())
}

// R15.2, R15.3
fn append_and_get(rt: &impl Print) -> io::Result<()> {
    let mut image = blank();
    let mut buffer = [0; 2];
    println!(rt; "2 append 1: {}", Printed(image.append(1, &[7, 8, 9])))?;
    println!(rt; "2 at 64:{}", Hex(&image.bytes[64..82]))?;
    println!(rt; "3 get 1: {}", Printed(image.get(1, &mut buffer)))?;
    println!(rt; "3 buffer:{}", Hex(&buffer))
}

// R15.4
fn exact_fit(rt: &impl Print) -> io::Result<()> {
    println!(rt;
        "4 append 1, 49 bytes: {}",
        Printed(blank().append(1, &[7; 49]))
    )?;
    println!(rt;
        "4 append 1, 50 bytes: {}",
        Printed(blank().append(1, &[7; 50]))
    )
}

// R15.5, R15.6
fn spill(rt: &impl Print) -> io::Result<()> {
    let mut image = blank();
    println!(rt;
        "5 append 1, 49 bytes: {}",
        Printed(image.append(1, &[7; 49]))
    )?;
    println!(rt; "5 append 5: {}", Printed(image.append(5, b"")))?;
    println!(rt; "5 at 128:{}", Hex(&image.bytes[128..143]))?;
    println!(rt; "5 get 5: {}", Printed(image.get(5, &mut [])))?;
    println!(rt; "6 invalidate 1: {}", Printed(image.invalidate(1)))?;
    println!(rt; "6 collect: {}", Printed(image.collect()))?;
    println!(rt; "6 get 5: {}", Printed(image.get(5, &mut [])))
}

// R15.7
fn zeroise(rt: &impl Print) -> io::Result<()> {
    let mut image = blank();
    println!(rt;
        "7 append 1, 49 bytes: {}",
        Printed(image.append(1, &[7; 49]))
    )?;
    println!(rt; "7 zeroise 1: {}", Printed(image.zeroise(1)))?;
    println!(rt; "7 at 64:{}", Hex(&image.bytes[64..128]))
}

// R15.8
fn bad_version(rt: &impl Print) -> io::Result<()> {
    let mut image = blank();
    image.bytes[64] = 2;
    println!(rt; "8 get 1: {}", Printed(image.get(1, &mut [])))?;
    println!(rt; "8 get 3: {}", Printed(image.get(3, &mut [])))
}

// R15.9: a record of key 1 with no value, whose header is then made to say another length.
fn lengths(rt: &impl Print) -> io::Result<()> {
    for len in [14, 15, 0] {
        let mut image = blank();
        let _ = image.append(1, b"");
        image.bytes[66] = len;
        println!(rt; "9 get 1, length {len}: {}", Printed(image.get(1, &mut [])))?;
    }
    Ok(())
}

// R15.10
fn collect_blank(rt: &impl Print) -> io::Result<()> {
    println!(rt; "10 collect: {}", Printed(blank().collect()))
}

// R15.11: the longest record has 4,094 bytes, 15 more than its value.
fn largest(rt: &impl Print) -> io::Result<()> {
    let mut image = Image {
        s: 4096,
        n: 4,
        bytes: [255; 16384],
    };
    println!(rt;
        "11 append 1, 4079 bytes: {}",
        Printed(image.append(1, &[7; 4079]))
    )?;
    println!(rt; "11 at 4096:{}", Hex(&image.bytes[4096..4099]))?;
    println!(rt;
        "11 append 2, 4080 bytes: {}",
        Printed(image.append(2, &[7; 4080]))
    )
}

// R15.12: the main key is 1; a second key shows that more than its own region is erased.
fn start_anew(rt: &impl Print) -> io::Result<()> {
    let mut image = blank();
    println!(rt; "12 append 1, 1 byte: {}", Printed(image.append(1, &[7])))?;
    println!(rt; "12 append 2: {}", Printed(image.append(2, b"")))?;
    println!(rt; "12 initialise 1: {}", Printed(image.initialise(1)))?;
    println!(rt; "12 get 1: {}", Printed(image.get(1, &mut [])))?;
    println!(rt; "12 get 2: {}", Printed(image.get(2, &mut [])))?;
    println!(rt; "12 at 64:{}", Hex(&image.bytes[64..79]))?;
    println!(rt; "12 before 64: {}", state(&image.bytes[..64]))?;
    println!(rt; "12 from 79 on: {}", state(&image.bytes[79..]))
}

// Whether a part is as an erase leaves it.
fn state(part: &[u8]) -> &'static str {
    if chip::is_blank(part) {
        "blank"
    } else {
        "not blank"
    }
}

// R16.1, R16.3: the value of R15.2's record where it lies, one of no bytes, and none.
fn lent(rt: &impl Print) -> io::Result<()> {
    let mut image = blank();
    println!(rt; "16 append 1: {}", Printed(image.append(1, &[7, 8, 9])))?;
    println!(rt; "16 append 5: {}", Printed(image.append(5, b"")))?;
    lend(rt, "16 value of 1", &image, 1)?;
    lend(rt, "16 value of 5", &image, 5)?;
    lend(rt, "16 value of 3", &image, 3)?;
    image.bytes[75] = 0;
    lend(rt, "16 value of 1, a byte altered", &image, 1)
}

fn lend(rt: &impl Print, what: &str, image: &Image<256>, key: u64) -> io::Result<()> {
    println!(rt;
        "{what}: {}",
        Printed(lending::value_answer(&image.bytes, image.s, image.n, key))
    )?;
    println!(rt;
        "{what}:{}",
        Hex(lending::value_of(&image.bytes, image.s, image.n, key))
    )
}
