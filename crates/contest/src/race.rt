ghost use Rattle.std.specs.Prelude.{◌≡◌, None};
ghost use Rattle.contest.specs.Contests.{given, answered};
ghost use Rattle.contest.specs.Depths.{LevelsWithin, Closed};
ghost use Rattle.contest.specs.Built.{race_pile, race_standing, New, Reopened, PassedDown, Counted};
ghost use Rattle.contest.specs.Faults.{goal_fault};
ghost use Rattle.contest.specs.Goals.{winner_by};
ghost use Rattle.contest.specs.Layers.{next_opener};
ghost use Rattle.contest.specs.Piles.{contest_of, race_of, raced, race_layer};
ghost use Rattle.contest.specs.Plays.{Plays};

use crate::contest::Contest;
use crate::depth::closed_above;
use crate::fault::{ContestFault, RuleFault};
use crate::goal::Goal;
use crate::level::Level;
use crate::play::play_points;
use crate::service::{Service, Situation};
use crate::side::Side;
use crate::tally::Tally;

// A layer over one contest, which is played again and again until a side has won it often enough.
// Its methods are like those of `Switch`, which says why the two are not one type.
#[derive(Drop)]
pub struct Race<C, P> {
    tally: Tally,
    opener: Side,
    service: P,
    below: C,
}

impl<C: Contest + Drop, P: Service + Drop> Race<C, P> {
    // A race under a goal, opened for side A. The contest below is used up.
    pub fn new(goal: Goal, service: P, mut below: C) -> Result<Self, RuleFault>
        ensures { New (race_pile C.Contest.pile P.Service.rule) (race_standing C.Contest.standing) (goal_fault goal) (raced goal (P.Service.rule service) (C.Contest.pile below)) result }
    {
        let tally = Tally::new(goal)?;
        below.open(Side::A);
        Ok(Race {
            tally,
            opener: Side::A,
            service,
            below,
        })
    }
}

impl<C: Contest, P: Service> Race<C, P> {
    // Opens the race for `opener`, gives it the points in turn up to the first that it refuses, and says how many it took.
    pub fn play(&mut self, opener: Side, points: &[Side]) -> usize
        ensures { Plays (race_pile C.Contest.pile P.Service.rule) (race_standing C.Contest.standing) self.old self.new opener points.now result }
    {
        play_points(self, opener, points)
    }

    // The side that opens the next lower contest, once `winner` has won the last.
    fn next_opener(&self, winner: Side) -> Side
        ensures { result ≡ next_opener (race_layer (race_pile C.Contest.pile P.Service.rule self.now)) (race_standing C.Contest.standing self.now) winner }
    {
        self.service.next(Situation {
            opener: self.opener,
            last_opener: self.below.opener(),
            server: self.below.server(),
            winner,
            a: self.tally.a(),
            b: self.tally.b(),
        })
    }

    // Opens the contest below anew, where it has a winner.
    fn reopen(&mut self)
        ensures { Reopened (race_pile C.Contest.pile P.Service.rule) race_layer (race_standing C.Contest.standing) self.old self.new }
    {
        if let Some(winner) = self.below.winner() {
            let next = self.next_opener(winner);
            self.below.open(next);
        }
    }

    // Gives a point in the contest below.
    fn point_below(&mut self, side: Side) -> Result<(), ContestFault>
        ensures { PassedDown (race_pile C.Contest.pile P.Service.rule) race_layer (race_standing C.Contest.standing) self.old self.new side result }
    {
        self.below.point(side)
    }

    // Counts the contest below for its winner, where it has one.
    fn count_below(&mut self)
        requires { winner_by self.old.tally.goal self.old.tally.counts ≡ None }
        ensures { Counted (race_pile C.Contest.pile P.Service.rule) race_layer (race_standing C.Contest.standing) self.old self.new }
    {
        if let Some(winner) = self.below.winner() {
            self.tally.count(winner);
        }
    }
}

impl<C: Contest, P: Service> Contest for Race<C, P> {
    ghost shape = { race_of C.Contest.shape };

    ghost pile = { race_pile C.Contest.pile P.Service.rule };

    ghost standing = { race_standing C.Contest.standing };

    ghost sound = { λ s. (s.tally.allowed, P.Service.fair s.service, C.Contest.sound s.below) };

    fn open(&mut self, opener: Side)
        ensures own { (race_pile C.Contest.pile P.Service.rule self.new ≡ race_pile C.Contest.pile P.Service.rule self.old) × (race_standing C.Contest.standing self.new ≡ (contest_of (race_pile C.Contest.pile P.Service.rule self.old)).opening opener) }
    {
        self.tally.clear();
        self.opener = opener;
        self.below.open(opener);
    }

    #[tactic(auto, using(crate::proofs::Points::not_refused))]
    fn point(&mut self, side: Side) -> Result<(), ContestFault>
        ensures own { (race_pile C.Contest.pile P.Service.rule self.new ≡ race_pile C.Contest.pile P.Service.rule self.old) × (race_standing C.Contest.standing self.new ≡ given (contest_of (race_pile C.Contest.pile P.Service.rule self.old)) (race_standing C.Contest.standing self.old) side) × (result ≡ answered ((contest_of (race_pile C.Contest.pile P.Service.rule self.old)).play.winner (race_standing C.Contest.standing self.old))) }
    {
        if self.tally.winner().is_some() {
            return Err(ContestFault::Decided);
        }
        self.reopen();
        self.point_below(side)?;
        self.count_below();
        Ok(())
    }

    fn winner(&self) -> Option<Side>
        ensures { result ≡ (contest_of (race_pile C.Contest.pile P.Service.rule self.now)).play.winner (race_standing C.Contest.standing self.now) }
    {
        self.tally.winner()
    }

    fn opener(&self) -> Side
        ensures { result ≡ (contest_of (race_pile C.Contest.pile P.Service.rule self.now)).play.opener (race_standing C.Contest.standing self.now) }
    {
        self.opener
    }

    fn server(&self) -> Side
        ensures { result ≡ (contest_of (race_pile C.Contest.pile P.Service.rule self.now)).play.server (race_standing C.Contest.standing self.now) }
    {
        match self.below.winner() {
            None => self.below.server(),
            Some(winner) => self.next_opener(winner),
        }
    }

    fn level(&self, depth: u16) -> Option<Level>
        ensures { result ≡ (contest_of (race_pile C.Contest.pile P.Service.rule self.now)).play.level (race_standing C.Contest.standing self.now) depth }
    {
        if depth == 0 {
            return Some(self.tally.level());
        }
        self.below.level(depth - 1)
    }

    fn levels(&self) -> u16
        ensures { LevelsWithin (contest_of (race_pile C.Contest.pile P.Service.rule self.now)).play (race_standing C.Contest.standing self.now) result }
    {
        self.below.levels().saturating_add(1)
    }

    fn closed(&self) -> u16
        ensures { Closed (contest_of (race_pile C.Contest.pile P.Service.rule self.now)).play (race_standing C.Contest.standing self.now) result }
    {
        closed_above(self.below.closed(), self.tally.winner())
    }
}
