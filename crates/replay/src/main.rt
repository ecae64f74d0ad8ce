// Plays scripts of an umpire's calls from the standard input, and prints the answer to each call.
//
// A script begins with a line `match FORMAT NUMBER OPENER`, as `match tennis3 7 A`; behind it may stand how many places the log has.
// Each line that follows is a call:
//
//     rally              calls a rally
//     point A            settles the rally that was called as a point; `point A 7 2` settles rally 2 of match 7
//     let                settles it as a let; `let 7 2` as above
//     winner · server · level DEPTH · totals      the questions
//
// A refused call prints `refused` and its number. A line that begins with `#` is copied, and an empty one passed over.
#![tactic(auto)]

mod answers;
mod script;

use answers::Told;
use anyhow::Context;
use format_matches::play_format;
use rally_log::entry::Entry;
use roll::Roll;
use roll::records::MOST;
use script::{Heading, Script};
use umpire::calls::Answer;

// Plays the calls in the format of the script, and prints the answers.
fn finish(rt: &HostRuntime, script: &Script) -> anyhow::Result<()> {
    let heap = rt.alloc();
    let Heading {
        format,
        number,
        opener,
        places,
    } = script.heading;
    let mut entries = vec![in heap; Entry::Let; places.min(MOST)]?;
    let mut log = Roll::new(&mut entries);
    let mut told = vec![in heap; Answer::Settled; script.calls.len()]?;
    let mut answers = Roll::new(&mut told);
    drop(play_format(
        format,
        number,
        opener,
        &mut log,
        &script.calls,
        &mut answers,
    ));
    for answer in answers.as_slice() {
        println!(rt; "{}", Told(*answer))?;
    }
    Ok(())
}

// Finishes the script that was read, if one was.
fn finish_current(rt: &HostRuntime, current: &mut Option<Script>) -> anyhow::Result<()> {
    match current.take() {
        Some(script) => finish(rt, &script),
        None => Ok(()),
    }
}

// A line that begins a script or is a comment ends the script before it.
fn read_line(rt: &HostRuntime, current: &mut Option<Script>, text: &str) -> anyhow::Result<()> {
    let begins = text.starts_with("match");
    if begins || text.starts_with("#") {
        finish_current(rt, current)?;
        println!(rt; "{text}")?;
        if begins {
            *current = Script::begin(Vec::new(rt.alloc()), text, MOST);
        }
        return Ok(());
    }
    let script = current.as_mut().context("a call stands before its match")?;
    let call = script.call(text).context("a line is no call")?;
    script.calls.push(call)?;
    Ok(())
}

fn run(rt: &HostRuntime) -> anyhow::Result<()> {
    let mut current: Option<Script> = None;
    for line in rt.lines(rt.alloc()) {
        let line = line?;
        if !line.is_empty() {
            read_line(rt, &mut current, line.as_str())?;
        }
    }
    finish_current(rt, &mut current)
}

fn main(rt: HostRuntime) -> anyhow::Result<()> {
    run(&rt)
}
