ghost use Rattle.std.specs.Prelude.{◌≡◌};
ghost use Rattle.contest.specs.Piles.{contest_of};
ghost use Rattle.umpire.specs.Calls.{none_yet};
ghost use Rattle.umpire.specs.States.{totals_of};

use super::Match;
use crate::calls::Totals;
use contest::contest::Contest;
use contest::side::Side;

impl<C: Contest> Match<C> {
    // A match with this number over the pile, which it opens for `opener`. Its log has to be empty.
    // The three arguments are what a match is made of, so a struct of them would be taken apart at once.
    pub fn new(number: u16, mut pile: C, opener: Side) -> Match<C>
        ensures kept { C.Contest.pile result.pile ≡ C.Contest.pile pile }
        ensures number { result.number ≡ number }
        ensures opened { C.Contest.standing result.pile ≡ (contest_of (C.Contest.pile pile)).opening opener }
        ensures totals { totals_of result ≡ none_yet }
    {
        pile.open(opener);
        Match {
            number,
            pile,
            totals: Totals::default(),
        }
    }

    // Ends the match and gives its pile back, as it stands.
    pub fn end(self) -> C
        ensures { result ≡ self.pile }
    {
        let Match { pile, .. } = self;
        pile
    }
}
