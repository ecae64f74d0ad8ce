ghost use Rattle.std.specs.Prelude.{◌≡◌, None};
ghost use Rattle.contest.specs.Contests.{given, answered};
ghost use Rattle.contest.specs.Depths.{LevelsWithin, Closed};
ghost use Rattle.contest.specs.Built.{switch_pile, switch_standing, New, Reopened, OpenedBelow, PassedDown, Counted};
ghost use Rattle.contest.specs.Faults.{switch_fault};
ghost use Rattle.contest.specs.Goals.{winner_by};
ghost use Rattle.contest.specs.Layers.{next_opener};
ghost use Rattle.contest.specs.Piles.{contest_of, switch_of, switched, switch_layer};
ghost use Rattle.contest.specs.Plays.{Plays};
ghost use Rattle.contest.specs.GoalsLemmas.{goal_allowed, no_switch_fault};

use super::Switch;
use crate::contest::Contest;
use crate::depth::closed_above;
use crate::fault::{ContestFault, RuleFault};
use crate::goal::Goal;
use crate::level::Level;
use crate::play::play_points;
use crate::service::{Service, Situation};
use crate::side::Side;
use crate::tally::Tally;

impl<C: Contest + Drop, D: Contest + Drop, P: Service + Drop> Switch<C, D, P> {
    // A switch under a goal, opened for side A. The contests below are used up.
    pub fn new(
        goal: Goal,
        threshold: u16,
        service: P,
        ordinary: C,
        deciding: D,
    ) -> Result<Self, RuleFault>
        ensures { New (switch_pile C.Contest.pile D.Contest.pile P.Service.rule) (switch_standing C.Contest.standing D.Contest.standing) (switch_fault goal threshold) (switched goal (P.Service.rule service) threshold (C.Contest.pile ordinary) (D.Contest.pile deciding)) result }
    {
        let tally = Tally::new(goal)?;
        if !tally.allows(threshold) {
            return Err(RuleFault::Threshold);
        }
        let mut switch = Switch {
            tally,
            threshold,
            opener: Side::A,
            service,
            ordinary,
            deciding,
            decides: false,
        };
        switch.open_below(Side::A);
        Ok(switch)
    }
}

impl<C: Contest, D: Contest, P: Service> Switch<C, D, P> {
    // Opens the switch for `opener`, gives it the points in turn up to the first that it refuses, and says how many it took.
    pub fn play(&mut self, opener: Side, points: &[Side]) -> usize
        ensures { Plays (switch_pile C.Contest.pile D.Contest.pile P.Service.rule) (switch_standing C.Contest.standing D.Contest.standing) self.old self.new opener points.now result }
    {
        play_points(self, opener, points)
    }

    // What the contest below that was opened last answers. A function that takes both questions, as `self.ask(C::winner, D::winner)`,
    // would only save the `if`, and its contract would have to speak of calls.
    fn winner_below(&self) -> Option<Side>
        ensures { result ≡ (switch_layer (switch_pile C.Contest.pile D.Contest.pile P.Service.rule self.now)).below.winner (switch_standing C.Contest.standing D.Contest.standing self.now).below }
    {
        if self.decides {
            self.deciding.winner()
        } else {
            self.ordinary.winner()
        }
    }

    fn opener_below(&self) -> Side
        ensures { result ≡ (switch_layer (switch_pile C.Contest.pile D.Contest.pile P.Service.rule self.now)).below.opener (switch_standing C.Contest.standing D.Contest.standing self.now).below }
    {
        if self.decides {
            self.deciding.opener()
        } else {
            self.ordinary.opener()
        }
    }

    fn server_below(&self) -> Side
        ensures { result ≡ (switch_layer (switch_pile C.Contest.pile D.Contest.pile P.Service.rule self.now)).below.server (switch_standing C.Contest.standing D.Contest.standing self.now).below }
    {
        if self.decides {
            self.deciding.server()
        } else {
            self.ordinary.server()
        }
    }

    fn levels_below(&self) -> u16
        ensures { LevelsWithin (switch_layer (switch_pile C.Contest.pile D.Contest.pile P.Service.rule self.now)).below (switch_standing C.Contest.standing D.Contest.standing self.now).below result }
    {
        if self.decides {
            self.deciding.levels()
        } else {
            self.ordinary.levels()
        }
    }

    fn closed_below(&self) -> u16
        ensures { Closed (switch_layer (switch_pile C.Contest.pile D.Contest.pile P.Service.rule self.now)).below (switch_standing C.Contest.standing D.Contest.standing self.now).below result }
    {
        if self.decides {
            self.deciding.closed()
        } else {
            self.ordinary.closed()
        }
    }

    // The side that opens the next lower contest, once `winner` has won the last.
    fn next_opener(&self, winner: Side) -> Side
        ensures { result ≡ next_opener (switch_layer (switch_pile C.Contest.pile D.Contest.pile P.Service.rule self.now)) (switch_standing C.Contest.standing D.Contest.standing self.now) winner }
    {
        self.service.next(Situation {
            opener: self.opener,
            last_opener: self.opener_below(),
            server: self.server_below(),
            winner,
            a: self.tally.a(),
            b: self.tally.b(),
        })
    }

    // Opens the contest below that the counts choose.
    fn open_below(&mut self, opener: Side)
        ensures { OpenedBelow (switch_pile C.Contest.pile D.Contest.pile P.Service.rule) switch_layer (switch_standing C.Contest.standing D.Contest.standing) self.old self.new opener }
    {
        self.decides = self.tally.a() >= self.threshold && self.tally.b() >= self.threshold;
        if self.decides {
            self.deciding.open(opener);
        } else {
            self.ordinary.open(opener);
        }
    }

    // Opens a contest below anew, where the last has a winner.
    fn reopen(&mut self)
        ensures { Reopened (switch_pile C.Contest.pile D.Contest.pile P.Service.rule) switch_layer (switch_standing C.Contest.standing D.Contest.standing) self.old self.new }
    {
        if let Some(winner) = self.winner_below() {
            let next = self.next_opener(winner);
            self.open_below(next);
        }
    }

    // Gives a point in the contest below.
    fn point_below(&mut self, side: Side) -> Result<(), ContestFault>
        ensures { PassedDown (switch_pile C.Contest.pile D.Contest.pile P.Service.rule) switch_layer (switch_standing C.Contest.standing D.Contest.standing) self.old self.new side result }
    {
        if self.decides {
            self.deciding.point(side)
        } else {
            self.ordinary.point(side)
        }
    }

    // Counts the contest below for its winner, where it has one.
    fn count_below(&mut self)
        requires { winner_by self.old.tally.goal self.old.tally.counts ≡ None }
        ensures { Counted (switch_pile C.Contest.pile D.Contest.pile P.Service.rule) switch_layer (switch_standing C.Contest.standing D.Contest.standing) self.old self.new }
    {
        if let Some(winner) = self.winner_below() {
            self.tally.count(winner);
        }
    }
}

impl<C: Contest, D: Contest, P: Service> Contest for Switch<C, D, P> {
    ghost shape = { switch_of C.Contest.shape D.Contest.shape };

    ghost pile = { switch_pile C.Contest.pile D.Contest.pile P.Service.rule };

    ghost standing = { switch_standing C.Contest.standing D.Contest.standing };

    ghost sound = { λ s. (
      no_switch_fault s.tally.goal s.threshold (goal_allowed s.tally.goal s.tally.allowed) s.allowed,
      P.Service.fair s.service,
      C.Contest.sound s.ordinary,
      D.Contest.sound s.deciding,
    ) };

    fn open(&mut self, opener: Side)
        ensures own { (switch_pile C.Contest.pile D.Contest.pile P.Service.rule self.new ≡ switch_pile C.Contest.pile D.Contest.pile P.Service.rule self.old) × (switch_standing C.Contest.standing D.Contest.standing self.new ≡ (contest_of (switch_pile C.Contest.pile D.Contest.pile P.Service.rule self.old)).opening opener) }
    {
        self.tally.clear();
        self.opener = opener;
        self.open_below(opener);
    }

    #[tactic(auto, using(crate::proofs::Points::not_refused))]
    fn point(&mut self, side: Side) -> Result<(), ContestFault>
        ensures own { (switch_pile C.Contest.pile D.Contest.pile P.Service.rule self.new ≡ switch_pile C.Contest.pile D.Contest.pile P.Service.rule self.old) × (switch_standing C.Contest.standing D.Contest.standing self.new ≡ given (contest_of (switch_pile C.Contest.pile D.Contest.pile P.Service.rule self.old)) (switch_standing C.Contest.standing D.Contest.standing self.old) side) × (result ≡ answered ((contest_of (switch_pile C.Contest.pile D.Contest.pile P.Service.rule self.old)).play.winner (switch_standing C.Contest.standing D.Contest.standing self.old))) }
    {
        if self.tally.winner().is_some() {
            return Err(ContestFault::Decided);
        }
        self.reopen();
        self.point_below(side)?;
        self.count_below();
        Ok(())
    }

    fn winner(&self) -> Option<Side>
        ensures { result ≡ (contest_of (switch_pile C.Contest.pile D.Contest.pile P.Service.rule self.now)).play.winner (switch_standing C.Contest.standing D.Contest.standing self.now) }
    {
        self.tally.winner()
    }

    fn opener(&self) -> Side
        ensures { result ≡ (contest_of (switch_pile C.Contest.pile D.Contest.pile P.Service.rule self.now)).play.opener (switch_standing C.Contest.standing D.Contest.standing self.now) }
    {
        self.opener
    }

    fn server(&self) -> Side
        ensures { result ≡ (contest_of (switch_pile C.Contest.pile D.Contest.pile P.Service.rule self.now)).play.server (switch_standing C.Contest.standing D.Contest.standing self.now) }
    {
        match self.winner_below() {
            None => self.server_below(),
            Some(winner) => self.next_opener(winner),
        }
    }

    fn level(&self, depth: u16) -> Option<Level>
        ensures { result ≡ (contest_of (switch_pile C.Contest.pile D.Contest.pile P.Service.rule self.now)).play.level (switch_standing C.Contest.standing D.Contest.standing self.now) depth }
    {
        if depth == 0 {
            return Some(self.tally.level());
        }
        if self.decides {
            self.deciding.level(depth - 1)
        } else {
            self.ordinary.level(depth - 1)
        }
    }

    fn levels(&self) -> u16
        ensures { LevelsWithin (contest_of (switch_pile C.Contest.pile D.Contest.pile P.Service.rule self.now)).play (switch_standing C.Contest.standing D.Contest.standing self.now) result }
    {
        self.levels_below().saturating_add(1)
    }

    fn closed(&self) -> u16
        ensures { Closed (contest_of (switch_pile C.Contest.pile D.Contest.pile P.Service.rule self.now)).play (switch_standing C.Contest.standing D.Contest.standing self.now) result }
    {
        closed_above(self.closed_below(), self.tally.winner())
    }
}
