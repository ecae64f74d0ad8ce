ghost use Rattle.std.specs.Prelude.{◌≡◌, ◌+◌, ◌<◌, Some};
ghost use Rattle.std.specs.Fmt.{WritesOnOk};
ghost use Rattle.std.specs.Option.{option_map};
ghost use Rattle.chair.specs.Boards.{level_written, line_written, lines_written, status_written, levels_of, status_in, name_room, title_written, board_written};

use crate::start::Start;
use crate::text::level_label;
use contest::contest::Contest;
use contest::level::Level;
use contest::side::Side;
use std::fmt;
use umpire::matches::Match;

// More levels than any format has.
const DEPTHS: u16 = 16;

// The score as the umpire sees it: the match, its levels from the outside in, and how it stands.
#[derive_where(Clone, Copy)]
pub struct Board<'a, C> {
    pub start: Start,
    pub ongoing: &'a Match<C>,
}

// The number of the match and its format, before the columns of the counts.
#[derive(Clone, Copy)]
struct Title(Start);

// The counts of a level under its label, and who has won it, if that is said.
#[derive(Clone, Copy)]
struct LevelLine {
    label: &'static str,
    a: u16,
    b: u16,
    won: Option<Side>,
}

// How a match stands.
#[derive(Clone, Copy)]
enum Status {
    WonBy(Side),
    // Who serves, and the number of the open rally, if one is open.
    Serves(Side, Option<u16>),
}

// The columns of the 22 for the title that "match", the blanks and the match's number leave for the format's name.
#[tactic(auto, using(crate::proofs::Rooms::room_of_power))]
fn name_room(number: u16) -> usize
    ensures { result ≡ name_room number }
{
    14 - number.max(1).ilog10() as usize
}

impl fmt::Display for Title {
    ghost output = { λ title. Some (title_written title.0.number title.0.format) };

    fn fmt<W: fmt::Write>(&self, f: &mut fmt::Formatter<W>) -> fmt::Result {
        let Start { format, number, .. } = self.0;
        let name = format.name();
        let room = name_room(number);
        write!(f, "match {number} {name:<room$}    A    B\n")
    }
}

impl fmt::Display for LevelLine {
    ghost output = { λ line. Some (level_written line.label.now line.a line.b line.won) };

    fn fmt<W: fmt::Write>(&self, f: &mut fmt::Formatter<W>) -> fmt::Result {
        write!(f, "  {:<20}{:>5}{:>5}", self.label, self.a, self.b)?;
        match self.won {
            Some(side) => write!(f, "   won by {side}\n"),
            None => write!(f, "\n"),
        }
    }
}

impl fmt::Display for Status {
    ghost output = { λ status. Some (status_written status) };

    fn fmt<W: fmt::Write>(&self, f: &mut fmt::Formatter<W>) -> fmt::Result {
        match *self {
            Status::WonBy(side) => write!(f, "won by {side}\n"),
            Status::Serves(side, Some(number)) => {
                write!(f, "serves {side}, rally {number} is open\n")
            }
            Status::Serves(side, None) => write!(f, "serves {side}, no rally is open\n"),
        }
    }
}

impl<'a, C: Contest> Board<'a, C> {
    // The line of the level at a depth, if there is one. Who has won the match itself is said by its status.
    fn level_line(&self, depth: u16) -> Option<LevelLine>
        requires { depth < 16 }
        ensures { option_map (λ line. level_written line.label.now line.a line.b line.won) result ≡ line_written self.now.start.format depth (levels_of C.Contest.pile C.Contest.standing self.now.ongoing.now depth) (levels_of C.Contest.pile C.Contest.standing self.now.ongoing.now (depth + 1)) }
    {
        let Level { a, b, winner } = self.ongoing.level(depth)?;
        let innermost = self.ongoing.level(depth + 1).is_none();
        Some(LevelLine {
            label: level_label(self.start.format, depth, innermost),
            a,
            b,
            won: if depth > 0 { winner } else { None },
        })
    }

    // The lines of all levels.
    fn write_levels<W: fmt::Write>(&self, f: &mut fmt::Formatter<W>) -> fmt::Result
        ensures { WritesOnOk W.write_str_gives f.old result (lines_written self.now.start.format (levels_of C.Contest.pile C.Contest.standing self.now.ongoing.now) 16) f.new }
    {
        for depth in 0..DEPTHS {
            if let Some(line) = self.level_line(depth) {
                write!(f, "{line}")?;
            }
        }
        Ok(())
    }

    // How the match stands.
    fn status(&self) -> Status
        ensures { result ≡ status_in C.Contest.pile C.Contest.standing self.now.ongoing.now }
    {
        match self.ongoing.winner() {
            Some(side) => Status::WonBy(side),
            None => Status::Serves(self.ongoing.server(), self.ongoing.totals().in_play),
        }
    }
}

impl<'a, C: Contest> fmt::Display for Board<'a, C> {
    ghost output = { λ board. Some (board_written C.Contest.pile C.Contest.standing board.start board.ongoing.now) };

    fn fmt<W: fmt::Write>(&self, f: &mut fmt::Formatter<W>) -> fmt::Result {
        write!(f, "{}", Title(self.start))?;
        self.write_levels(f)?;
        write!(f, "{}", self.status())
    }
}
