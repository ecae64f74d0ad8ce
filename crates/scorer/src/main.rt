// Scores the log `rally.log` in the current folder and prints its sheet, or `fault N at P`: the number and the place of the refusal.
//
// At most 65,536 bytes of the log are read, and a missing file is an empty one. The status is 0 for a sheet and for a fault; an
// error of input or output is reported on the standard error, with status 1.
#![tactic(auto)]

ghost use Rattle.std.specs.Prelude.{◌≤◌, length, IfOk};

use contest::side::Side;
use rally_log::entry::Entry;
use sheet::closing::Closing;
use sheet::sheets::score_log;
use std::fs::File;
use std::io;
use std::io::{ErrorKind, Read, Write};

const LOG: &str = "rally.log";

const LOG_BYTES: usize = 65_536;

const ENTRIES: usize = 30_000;

const CLOSINGS: usize = 4_000;

const SHEET_BYTES: usize = 65_536;

// Reads the file into the bytes, as far as they go, and says how many there are. No `take` and `read_to_end`: with these no contract says
// that no more is read than there is room for.
fn fill(file: &mut File, bytes: &mut [u8]) -> io::Result<usize>
    ensures { IfOk result (λ count. count ≤ length bytes.old) }
{
    let mut count = 0usize;
    while count < bytes.len() {
        let more = file.read(&mut bytes[count..])?;
        if more == 0 {
            break;
        }
        count += more;
    }
    Ok(count)
}

// How many bytes of the log there are; none, where there is no file.
fn read_log(rt: &HostRuntime, bytes: &mut [u8]) -> io::Result<usize>
    ensures { IfOk result (λ count. count ≤ length bytes.old) }
{
    let mut file = match File::open(rt, LOG) {
        Err(error) if error.kind() == ErrorKind::NotFound => return Ok(0),
        opened => opened?,
    };
    fill(&mut file, bytes)
}

// The program `samples` makes the same places and prints the same way: a library of these lines would need a heap and output, and
// could promise nothing of what is printed.
fn run(rt: &HostRuntime) -> anyhow::Result<()> {
    let heap = rt.alloc();
    let mut bytes = vec![in heap; 0u8; LOG_BYTES]?;
    let count = read_log(rt, &mut bytes)?;
    let mut entries = vec![in heap; Entry::Let; ENTRIES]?;
    let unused = Closing {
        depth: 0,
        a: 0,
        b: 0,
        winner: Side::A,
    };
    let mut closings = vec![in heap; unused; CLOSINGS]?;
    let mut sheet = vec![in heap; 0u8; SHEET_BYTES]?;
    match score_log(&bytes[..count], &mut entries, &mut closings, &mut sheet) {
        Ok(scored) => rt.stdout().write_all(&sheet[..scored.length])?,
        Err(fault) => println!(rt; "{fault}")?,
    }
    Ok(())
}

fn main(rt: HostRuntime) -> anyhow::Result<()> {
    run(&rt)
}
