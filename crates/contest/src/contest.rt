ghost use Rattle.std.specs.Prelude.{◌≡◌};
ghost use Rattle.contest.specs.Contests.{given, answered};
ghost use Rattle.contest.specs.Depths.{LevelsWithin, Closed};
ghost use Rattle.contest.specs.Piles.{Shape, StandingOf, Pile, contest_of, Sound};

use crate::fault::ContestFault;
use crate::level::Level;
use crate::side::Side;

// A contest between two sides: rules, which no call changes, and a standing.
pub trait Contest {
    // what stands on what
    ghost shape: { Shape };

    // which pile this is, and where it stands now
    ghost pile: { Self → Pile shape };

    ghost standing: { Self → StandingOf shape };

    // Starts anew for `opener`, from any standing.
    // The clause `kept` stands at each call that is lent a contest to change: it could put one of other rules there, so no type carries it.
    fn open(&mut self, opener: Side)
        ensures kept { pile self.new ≡ pile self.old }
        ensures opened { standing self.new ≡ (contest_of (pile self.old)).opening opener };

    // Gives a point to `side`. Where there is a winner it is refused, and nothing changes.
    fn point(&mut self, side: Side) -> Result<(), ContestFault>
        ensures kept { pile self.new ≡ pile self.old }
        ensures after { standing self.new ≡ given (contest_of (pile self.old)) (standing self.old) side }
        ensures answer { result ≡ answered ((contest_of (pile self.old)).play.winner (standing self.old)) };

    // The side that has won, or nobody yet.
    fn winner(&self) -> Option<Side>
        ensures { result ≡ (contest_of (pile self.now)).play.winner (standing self.now) };

    // The side that it was opened for.
    fn opener(&self) -> Side
        ensures { result ≡ (contest_of (pile self.now)).play.opener (standing self.now) };

    // The side that serves the next rally.
    fn server(&self) -> Side
        ensures { result ≡ (contest_of (pile self.now)).play.server (standing self.now) };

    // The level at a depth, counted from 0 at the top, or none.
    fn level(&self, depth: u16) -> Option<Level>
        ensures { result ≡ (contest_of (pile self.now)).play.level (standing self.now) depth };

    // A depth from which on there is no level, as near to the top as is known. The largest depth is such a one for every contest, so it is no `None`.
    fn levels(&self) -> u16
        ensures { LevelsWithin (contest_of (pile self.now)).play (standing self.now) result }
    {
        u16::MAX
    }

    // How many levels there are down to the deepest that has a winner; 0 where none has, and 65,535 where it is not known.
    fn closed(&self) -> u16
        ensures { Closed (contest_of (pile self.now)).play (standing self.now) result }
    {
        u16::MAX
    }

    // what it owes: the four laws at the bottom, allowed goals, fair service rules
    ghost sound: { (s : Self) → Sound (pile s) };
}
