// The console of the umpire's chair: calls and settles the rallies of a match, shows the score after each command, and keeps the log.
//
//     chair FORMAT NUMBER OPENER      as in `chair tennis3 7 A`
//
// The commands, one a line: `rally`, `A` or `B` (a point for that side), `let`, `score`, `quit`; in short `r`, `a`, `b`, `l`, `s`, `q`.
// The record of a settled rally is stored in `rally.log` before the new score is shown. An open rally is a let when the session ends.
#![tactic(auto)]

mod board;
mod command;
mod console;
mod log_file;
mod note;
mod session;
mod start;
mod text;

use anyhow::anyhow;
use console::Console;
use contest::contest::Contest;
use contest::service::Service;
use formats::format::Format;
use formats::piles;
use rally_log::entry::Entry;
use roll::Roll;
use roll::records::MOST;
use session::Session;
use start::{Start, start_of};
use std::env;
use text::USAGE;

// Leads a match over the pile. A rally that an error leaves open is settled here, and not in the file.
fn lead<C: Contest + Drop>(rt: &HostRuntime, start: Start, pile: C) -> anyhow::Result<()> {
    let mut places = vec![in rt.alloc(); Entry::Let; MOST]?;
    let mut log = Roll::new(&mut places);
    let file = log_file::create(rt, start, &log)?;
    let mut session = Session::new(start.number, pile, start.opener, &mut log);
    let mut console = Console::new(rt, start, &mut session, file);
    let led = console.sit();
    drop(console); // and with it what it borrows: the session is this function's again
    session.close();
    let Session {
        ongoing: _,
        log: _,
        held,
    } = session;
    match held {
        None => led,
        Some(_rally) => unreachable!(),
    }
}

// One arm for each format, since each pile is of a type of its own.
fn lead_format(rt: &HostRuntime, start: Start) -> anyhow::Result<()> {
    match start.format {
        Format::Game => lead(rt, start, piles::game()),
        Format::Tennis3 => lead(rt, start, piles::tennis3()),
        Format::Tennis5 => lead(rt, start, piles::tennis5()),
        Format::TennisMt => lead(rt, start, piles::tennismt()),
        Format::Badminton => lead(rt, start, piles::badminton()),
        Format::Volleyball => lead(rt, start, piles::volleyball()),
        Format::Table5 => lead(rt, start, piles::table5()),
        Format::SideOut => lead(rt, start, piles::sideout()),
    }
}

// The match of the arguments, if they name one.
fn arguments(rt: &HostRuntime) -> anyhow::Result<Option<Start>> {
    let mut words = env::args(rt)?.skip(1);
    let (Some(format), Some(number), Some(opener), None) = (
        words.next(),
        words.next(),
        words.next(),
        words.next(),
    ) else {
        return Ok(None);
    };
    Ok(start_of(format.as_str(), number.as_str(), opener.as_str()))
}

fn run(rt: &HostRuntime) -> anyhow::Result<()> {
    match arguments(rt)? {
        Some(start) => lead_format(rt, start),
        None => {
            eprint!(rt; "{USAGE}\n")?;
            Err(anyhow!("the arguments are not FORMAT NUMBER OPENER"))
        }
    }
}

fn main(rt: HostRuntime) -> anyhow::Result<()> {
    run(&rt)
}
