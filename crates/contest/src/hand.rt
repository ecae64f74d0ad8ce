ghost use Rattle.std.specs.Prelude.{◌≡◌};
ghost use Rattle.contest.specs.Contests.{given, answered};
ghost use Rattle.contest.specs.Depths.{LevelsWithin, Closed};
ghost use Rattle.contest.specs.Hand.{Standing as HandStanding, hand as hand_contest, standing_of};
ghost use Rattle.contest.specs.Piles.{bottom_of, bottom};
ghost use Rattle.contest.specs.Plays.{Tells};
ghost use Rattle.std.proofs.Common.{rules};

use crate::contest::Contest;
use crate::fault::ContestFault;
use crate::level::Level;
use crate::play::{Outcome, outcome_of};
use crate::side::Side;

// A contest for side-out scoring: a point for the server wins it, and a point for the other side makes that side the server.
// What is like in `Rally` and here stays in both, since each method has a clause that names its own contest's definition.
#[derive(Clone, Copy)]
pub struct Hand {
    opener: Side,
    server: Side,
    winner: Option<Side>,
}

impl Hand {
    // A hand opened for side A.
    pub fn new() -> Hand
        ensures { standing_of result ≡ hand_contest.opening Side.A }
    {
        Hand {
            opener: Side::A,
            server: Side::A,
            winner: None,
        }
    }

    // A hand that is opened for `opener` and given the points. It is no method of the trait, as `Rally` says of its own.
    pub fn play(opener: Side, points: &[Side], depth: u16) -> Outcome
        ensures { Tells (bottom hand_contest) opener points.now depth result }
    {
        let mut hand = Hand::new();
        outcome_of(&mut hand, opener, points, depth)
    }
}

impl Contest for Hand {
    ghost shape = { bottom_of HandStanding };

    ghost pile = { λ _. bottom hand_contest };

    ghost standing = { standing_of };

    ghost sound = { Prim.search rules };

    fn open(&mut self, opener: Side)
        ensures own { standing_of self.new ≡ hand_contest.opening opener }
    {
        self.opener = opener;
        self.server = opener;
        self.winner = None;
    }

    fn point(&mut self, side: Side) -> Result<(), ContestFault>
        ensures own { (standing_of self.new ≡ given hand_contest (standing_of self.old) side) × (result ≡ answered (hand_contest.play.winner (standing_of self.old))) }
    {
        if self.winner.is_some() {
            return Err(ContestFault::Decided);
        }
        if side == self.server {
            self.winner = Some(side);
        } else {
            self.server = side;
        }
        Ok(())
    }

    fn winner(&self) -> Option<Side>
        ensures { result ≡ hand_contest.play.winner (standing_of self.now) }
    {
        self.winner
    }

    fn opener(&self) -> Side
        ensures { result ≡ hand_contest.play.opener (standing_of self.now) }
    {
        self.opener
    }

    fn server(&self) -> Side
        ensures { result ≡ hand_contest.play.server (standing_of self.now) }
    {
        self.server
    }

    fn level(&self, depth: u16) -> Option<Level>
        ensures { result ≡ hand_contest.play.level (standing_of self.now) depth }
    {
        None
    }

    fn levels(&self) -> u16
        ensures { LevelsWithin hand_contest.play (standing_of self.now) result }
    {
        0
    }

    fn closed(&self) -> u16
        ensures { Closed hand_contest.play (standing_of self.now) result }
    {
        0
    }
}
