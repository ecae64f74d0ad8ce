// A game of tennis as its umpire leads it: rallies are called and settled one by one, and the score is told.
#![tactic(auto)]

use contest::contest::Contest;
use contest::side::Side;
use formats::piles::game;
use rally_log::entry::Entry;
use roll::Roll;
use std::io;
use umpire::matches::Match;
use umpire::rally::CallFault;

// Calls a rally and settles it, which cannot be refused. Gives the rally's number, which the match's own `call_and_settle` keeps to itself.
fn lead_rally<C: Contest>(
    ongoing: &mut Match<C>,
    log: &mut Roll<Entry>,
    outcome: Entry,
) -> Result<u16, CallFault> {
    let rally = ongoing.call(log)?;
    let number = rally.numbers().number;
    match ongoing.settle(log, rally, outcome) {
        Ok(()) => Ok(number),
        Err(_unsettled) => unreachable!(),
    }
}

fn main(rt: HostRuntime) -> io::Result<()> {
    let mut places = [Entry::Let; 8];
    let mut log = Roll::new(&mut places);
    let mut ongoing = Match::new(1, game(), Side::A);
    let outcomes = [
        Entry::Point(Side::A),
        Entry::Let,
        Entry::Point(Side::B),
        Entry::Point(Side::A),
        Entry::Point(Side::A),
        Entry::Point(Side::A),
        Entry::Point(Side::B),
    ];
    for outcome in outcomes {
        match lead_rally(&mut ongoing, &mut log, outcome) {
            Ok(number) => {
                if let Some(level) = ongoing.level(0) {
                    println!(rt; "rally {number}: {} to {}", level.a, level.b)?;
                }
            }
            Err(fault) => println!(rt; "refused {}", fault.number())?,
        }
    }
    let totals = ongoing.totals();
    println!(rt; "{} rallies, {} let", totals.called, totals.lets)?;
    match ongoing.winner() {
        Some(side) => println!(rt; "winner {side}"),
        None => println!(rt; "no winner"),
    }
}
