// How answers are printed.
ghost use Rattle.std.specs.Prelude.{Some};
ghost use Rattle.replay.specs.Answers.{answer_written, totals_written, winner_written};

use contest::level::Level;
use contest::side::Side;
use std::fmt;
use umpire::calls::{Answer, Totals};

// An answer to a call, as it is printed.
#[derive(Clone, Copy)]
pub struct Told(pub Answer);

// The side that has won, or nobody.
#[derive(Clone, Copy)]
struct Winner(Option<Side>);

// What a match has counted.
#[derive(Clone, Copy)]
struct Counted(Totals);

impl fmt::Display for Told {
    ghost output = { λ told. Some (answer_written told.0) };

    fn fmt<W: fmt::Write>(&self, f: &mut fmt::Formatter<W>) -> fmt::Result {
        match self.0 {
            Answer::Called(rally) => {
                write!(f, "rally {} of match {}", rally.number, rally.match_number)
            }
            Answer::Settled => write!(f, "settled"),
            Answer::Refused(fault) => write!(f, "refused {}", fault.number()),
            Answer::Winner(winner) => write!(f, "winner {}", Winner(winner)),
            Answer::Server(server) => write!(f, "server {server}"),
            Answer::Level(Some(Level { a, b, winner })) => {
                write!(f, "level {a}-{b} winner {}", Winner(winner))
            }
            Answer::Level(None) => write!(f, "level none"),
            Answer::Totals(totals) => write!(f, "{}", Counted(totals)),
        }
    }
}

impl fmt::Display for Winner {
    ghost output = { λ winner. Some (winner_written winner.0) };

    fn fmt<W: fmt::Write>(&self, f: &mut fmt::Formatter<W>) -> fmt::Result {
        match self.0 {
            Some(side) => write!(f, "{side}"),
            None => write!(f, "nobody"),
        }
    }
}

impl fmt::Display for Counted {
    ghost output = { λ counted. Some (totals_written counted.0) };

    fn fmt<W: fmt::Write>(&self, f: &mut fmt::Formatter<W>) -> fmt::Result {
        let Totals {
            called,
            a,
            b,
            lets,
            in_play,
        } = self.0;
        write!(f, "called {called} points {a}-{b} lets {lets}")?;
        match in_play {
            Some(open) => write!(f, " open {open}"),
            None => Ok(()),
        }
    }
}
