// Reads and writes logs that are cut, spoilt, too long or of a wrong code, and prints what each comes to.
#![tactic(auto)]

use contest::side::Side;
use rally_log::entry::{Entry, Header};
use rally_log::reading::read;
use rally_log::records::HEADER_LENGTH;
use rally_log::writing::write;
use roll::{Full, Roll};
use std::io;

// Match 7 by format 0, opened by A: a point for A, a let, a point for B.
const GOOD: [u8; 10] = [b'M', 0, 7, 0, b'A', b'P', b'A', b'L', b'P', b'B'];

// One place more than a roll can use.
const PLACES: usize = 30_001;

// More bytes than the longest log takes.
const SPACE: usize = 65_536;

// Prints what reading the bytes into so many places comes to.
fn tell(rt: &HostRuntime, label: &str, n: usize, bytes: &[u8], free: usize) -> io::Result<()> {
    let mut places = [Entry::Let; PLACES];
    let mut roll = Roll::new(&mut places[0..free.min(PLACES)]);
    let answer = read(bytes, &mut roll);
    let held = roll.len();
    match answer {
        Ok(Header { number, code, .. }) => {
            println!(rt; "{label} {n}: match {number}, code {code}, {held} rallies")
        }
        Err(fault) => println!(rt; "{label} {n}: {fault}, {held} rallies"),
    }
}

// The first bytes of the log, for each length.
fn cut_copies(rt: &HostRuntime) -> io::Result<()> {
    for length in 0..=GOOD.len() {
        tell(rt, "bytes", length, &GOOD[..length], 4)?;
    }
    Ok(())
}

// The log with one byte replaced, for each byte.
fn spoilt_copies(rt: &HostRuntime, label: &str, byte: u8) -> io::Result<()> {
    for index in 0..GOOD.len() {
        let mut bytes = GOOD;
        bytes[index] = byte;
        tell(rt, label, index, &bytes, 4)?;
    }
    Ok(())
}

// The log, read into too few places and into enough.
fn few_places(rt: &HostRuntime) -> io::Result<()> {
    for free in 0..4 {
        tell(rt, "places", free, &GOOD, free)?;
    }
    Ok(())
}

// The log with another code.
fn codes(rt: &HostRuntime) -> io::Result<()> {
    for code in 6..9u8 {
        let mut bytes = GOOD;
        bytes[3] = code;
        tell(rt, "code", usize::from(code), &bytes, 4)?;
    }
    Ok(())
}

// First records and later ones at which several checks fail: the first of them is named.
fn order_of_checks(rt: &HostRuntime) -> io::Result<()> {
    let first: [&[u8]; 4] = [b"X", b"PA", b"M\0\x07\x08", b"M\0\x07\x08C"];
    for (index, bytes) in first.iter().enumerate() {
        tell(rt, "first record", index + 1, bytes, 0)?;
    }
    let later: [&[u8]; 6] = [b"X", b"M", b"P", b"PC", b"PA", b"L"];
    for (index, record) in later.iter().enumerate() {
        let mut bytes = [b'M', 0, 7, 0, b'A', 0, 0];
        let end = HEADER_LENGTH + record.len();
        bytes[HEADER_LENGTH..end].copy_from_slice(record);
        tell(rt, "later record", index + 1, &bytes[..end], 0)?;
    }
    Ok(())
}

// Prints what writing into so many bytes comes to, and how many of the bytes it changed.
fn tell_written(
    rt: &HostRuntime,
    label: &str,
    header: Header,
    roll: &Roll<Entry>,
    space: usize,
) -> io::Result<()> {
    let mut bytes = [255; SPACE];
    let answer = write(header, roll, &mut bytes[..space.min(SPACE)]);
    let changed = bytes.iter().filter(|byte| **byte != 255).count();
    match answer {
        Ok(length) => println!(rt; "{label}, {space} bytes: {length} written, {changed} changed"),
        Err(fault) => println!(rt; "{label}, {space} bytes: {fault}, {changed} changed"),
    }
}

// Puts as many points on the roll as it takes; answers its refusal of one more.
fn fill(roll: &mut Roll<Entry>) -> Option<Full> {
    (0..=PLACES).find_map(|_| roll.push(Entry::Point(Side::B)).err())
}

// A roll of 30,001 places takes 30,000 entries, and the log of so many points has 60,005 bytes.
fn longest(rt: &HostRuntime) -> io::Result<()> {
    let mut places = [Entry::Let; PLACES];
    let mut roll = Roll::new(&mut places);
    let refusal = fill(&mut roll);
    let held = roll.len();
    match refusal {
        Some(full) => println!(rt; "roll: {held} held, then refused {}", full.number())?,
        None => println!(rt; "roll: {held} held, and none refused")?,
    }
    let header = Header {
        number: 65_535,
        code: 7,
        opener: Side::B,
    };
    tell_written(rt, "code 8", Header { code: 8, ..header }, &roll, 4)?;
    for space in [60_004, 60_005, SPACE] {
        tell_written(rt, "code 7", header, &roll, space)?;
    }
    let mut bytes = [b'L'; SPACE];
    let _ = write(header, &roll, &mut bytes);
    read_longest(rt, &bytes)
}

// The log of 30,000 points, and the same with a let after it.
fn read_longest(rt: &HostRuntime, bytes: &[u8; SPACE]) -> io::Result<()> {
    tell(rt, "entries", 30_000, &bytes[..60_005], PLACES)?;
    tell(rt, "entries", 30_001, &bytes[..60_006], PLACES)?;
    tell(rt, "places", 30_000, &bytes[..60_005], 30_000)?;
    tell(rt, "places", 29_999, &bytes[..60_005], 29_999)
}

// A log of 65,536 bytes, all lets.
fn all_lets(rt: &HostRuntime) -> io::Result<()> {
    let mut bytes = [b'L'; SPACE];
    bytes[0] = b'M';
    bytes[3] = 0;
    bytes[4] = b'A';
    tell(rt, "lets", SPACE - HEADER_LENGTH, &bytes, PLACES)
}

fn main(rt: HostRuntime) -> io::Result<()> {
    cut_copies(&rt)?;
    for (label, byte) in [
        ("255 at", 255),
        ("M at", b'M'),
        ("P at", b'P'),
        ("L at", b'L'),
    ] {
        spoilt_copies(&rt, label, byte)?;
    }
    few_places(&rt)?;
    codes(&rt)?;
    order_of_checks(&rt)?;
    longest(&rt)?;
    all_lets(&rt)
}
