// Scores the logs named by its arguments, one after the other: for each a line `# NAME`, and then its sheet or `fault N at P`.
#![tactic(auto)]

use contest::side::Side;
use rally_log::entry::Entry;
use sheet::closing::Closing;
use sheet::sheets::score_log;
use std::io::Write;
use std::{env, fs};

const ENTRIES: usize = 30_000;

const CLOSINGS: usize = 4_000;

const SHEET_BYTES: usize = 65_536;

// The places are made and the sheet is printed as in the program `scorer`, which says why the two share no library.
fn score_file(rt: &HostRuntime, name: &str) -> anyhow::Result<()> {
    let heap = rt.alloc();
    let bytes = fs::read(rt, name)?;
    let mut entries = vec![in heap; Entry::Let; ENTRIES]?;
    let unused = Closing {
        depth: 0,
        a: 0,
        b: 0,
        winner: Side::A,
    };
    let mut closings = vec![in heap; unused; CLOSINGS]?;
    let mut sheet = vec![in heap; 0u8; SHEET_BYTES]?;
    println!(rt; "# {name}")?;
    match score_log(bytes.as_slice(), &mut entries, &mut closings, &mut sheet) {
        Ok(scored) => rt.stdout().write_all(&sheet[..scored.length])?,
        Err(fault) => println!(rt; "{fault}")?,
    }
    Ok(())
}

fn run(rt: &HostRuntime) -> anyhow::Result<()> {
    for name in env::args(rt)?.skip(1) {
        score_file(rt, name.as_str())?;
    }
    Ok(())
}

fn main(rt: HostRuntime) -> anyhow::Result<()> {
    run(&rt)
}
