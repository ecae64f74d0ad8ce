ghost use Rattle.std.specs.Prelude.{◌≡◌};
ghost use Rattle.umpire.specs.States.{totals_of, rules_of};

use super::Match;
use crate::calls::Totals;
use contest::contest::Contest;
use contest::level::Level;
use contest::side::Side;

impl<C: Contest> Match<C> {
    // The side that has won, or nobody yet.
    pub fn winner(&self) -> Option<Side>
        ensures { result ≡ (rules_of C.Contest.pile self.now).play.winner (C.Contest.standing self.now.pile) }
    {
        self.pile.winner()
    }

    // The side that serves the next rally.
    pub fn server(&self) -> Side
        ensures { result ≡ (rules_of C.Contest.pile self.now).play.server (C.Contest.standing self.now.pile) }
    {
        self.pile.server()
    }

    // The level at a depth, counted from 0 at the top, or none.
    pub fn level(&self, depth: u16) -> Option<Level>
        ensures { result ≡ (rules_of C.Contest.pile self.now).play.level (C.Contest.standing self.now.pile) depth }
    {
        self.pile.level(depth)
    }

    // What is counted.
    pub fn totals(&self) -> Totals
        ensures { result ≡ totals_of self.now }
    {
        self.totals
    }
}
