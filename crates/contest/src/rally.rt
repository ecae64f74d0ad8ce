ghost use Rattle.std.specs.Prelude.{◌≡◌};
ghost use Rattle.contest.specs.Contests.{given, answered};
ghost use Rattle.contest.specs.Depths.{LevelsWithin, Closed};
ghost use Rattle.contest.specs.Piles.{bottom_of, bottom};
ghost use Rattle.contest.specs.Plays.{Tells};
ghost use Rattle.contest.specs.Rally.{Standing as RallyStanding, rally as rally_contest, standing_of};
ghost use Rattle.std.proofs.Common.{rules};

use crate::contest::Contest;
use crate::fault::ContestFault;
use crate::level::Level;
use crate::play::{Outcome, outcome_of};
use crate::side::Side;

// A contest that the first point wins.
#[derive(Clone, Copy)]
pub struct Rally {
    opener: Side,
    winner: Option<Side>,
}

impl Rally {
    // A rally opened for side A.
    pub fn new() -> Rally
        ensures { standing_of result ≡ rally_contest.opening Side.A }
    {
        Rally {
            opener: Side::A,
            winner: None,
        }
    }

    // A rally that is opened for `opener` and given the points. It is no method of the trait: the contract names the definition of a rally
    // and no ghost member, so that no contest can pass for one.
    pub fn play(opener: Side, points: &[Side], depth: u16) -> Outcome
        ensures { Tells (bottom rally_contest) opener points.now depth result }
    {
        let mut rally = Rally::new();
        outcome_of(&mut rally, opener, points, depth)
    }
}

impl Contest for Rally {
    ghost shape = { bottom_of RallyStanding };

    ghost pile = { λ _. bottom rally_contest };

    ghost standing = { standing_of };

    ghost sound = { Prim.search rules };

    fn open(&mut self, opener: Side)
        ensures own { standing_of self.new ≡ rally_contest.opening opener }
    {
        self.opener = opener;
        self.winner = None;
    }

    fn point(&mut self, side: Side) -> Result<(), ContestFault>
        ensures own { (standing_of self.new ≡ given rally_contest (standing_of self.old) side) × (result ≡ answered (rally_contest.play.winner (standing_of self.old))) }
    {
        if self.winner.is_some() {
            return Err(ContestFault::Decided);
        }
        self.winner = Some(side);
        Ok(())
    }

    fn winner(&self) -> Option<Side>
        ensures { result ≡ rally_contest.play.winner (standing_of self.now) }
    {
        // copied whole, it would be read across the two writes of `point`, for which the processor has to wait; bin/bench shows it on table5
        match self.winner {
            Some(Side::A) => Some(Side::A),
            Some(Side::B) => Some(Side::B),
            None => None,
        }
    }

    fn opener(&self) -> Side
        ensures { result ≡ rally_contest.play.opener (standing_of self.now) }
    {
        self.opener
    }

    fn server(&self) -> Side
        ensures { result ≡ rally_contest.play.server (standing_of self.now) }
    {
        self.opener
    }

    fn level(&self, depth: u16) -> Option<Level>
        ensures { result ≡ rally_contest.play.level (standing_of self.now) depth }
    {
        None
    }

    fn levels(&self) -> u16
        ensures { LevelsWithin rally_contest.play (standing_of self.now) result }
    {
        0
    }

    fn closed(&self) -> u16
        ensures { Closed rally_contest.play (standing_of self.now) result }
    {
        0
    }
}
