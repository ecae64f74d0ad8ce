ghost use Rattle.std.specs.Prelude.{◌≡◌, ◌+◌};
ghost use Rattle.contest.specs.Service.{stay, turn, to_winner, carry, pairs, twos, even, side_if};
ghost use Rattle.std.proofs.Common.{rules};

use super::{Service, Situation};
use crate::side::Side;

// The opener of the contest above opens every lower contest.
#[derive(Clone, Copy)]
pub struct Stay;

// The sides open in turn.
#[derive(Clone, Copy)]
pub struct Turn;

// The winner of the last lower contest opens the next.
#[derive(Clone, Copy)]
pub struct Winner;

// The server that the last lower contest names, now that it is decided, opens the next.
#[derive(Clone, Copy)]
pub struct Carry;

// The opener opens once, then each side twice in turn.
#[derive(Clone, Copy)]
pub struct Pairs;

// Each side opens twice in turn, and once in turn as soon as both counts are at least ten.
#[derive(Clone, Copy)]
pub struct Twos;

impl Situation {
    // How many lower contests were played.
    fn played(&self) -> u32
        ensures { result ≡ self.now.a + self.now.b }
    {
        u32::from(self.a) + u32::from(self.b)
    }
}

// The opener after an even number of turns, else the other side.
fn after_turns(opener: Side, turns: u32) -> Side
    ensures { result ≡ side_if (even turns) opener }
{
    if turns % 2 == 0 {
        opener
    } else {
        opener.opponent()
    }
}

impl Service for Stay {
    ghost rule = { λ _. stay };

    ghost fair = { Prim.search rules };

    fn next(&self, situation: Situation) -> Side
        ensures { result ≡ stay situation }
    {
        situation.opener
    }
}

impl Service for Turn {
    ghost rule = { λ _. turn };

    ghost fair = { Prim.search rules };

    fn next(&self, situation: Situation) -> Side
        ensures { result ≡ turn situation }
    {
        situation.last_opener.opponent()
    }
}

impl Service for Winner {
    ghost rule = { λ _. to_winner };

    ghost fair = { Prim.search rules };

    fn next(&self, situation: Situation) -> Side
        ensures { result ≡ to_winner situation }
    {
        situation.winner
    }
}

impl Service for Carry {
    ghost rule = { λ _. carry };

    ghost fair = { Prim.search rules };

    fn next(&self, situation: Situation) -> Side
        ensures { result ≡ carry situation }
    {
        situation.server
    }
}

impl Service for Pairs {
    ghost rule = { λ _. pairs };

    ghost fair = { Prim.search rules };

    fn next(&self, situation: Situation) -> Side
        ensures { result ≡ pairs situation }
    {
        after_turns(situation.opener, (situation.played() + 1) / 2)
    }
}

impl Service for Twos {
    ghost rule = { λ _. twos };

    ghost fair = { Prim.search rules };

    fn next(&self, situation: Situation) -> Side
        ensures { result ≡ twos situation }
    {
        let played = situation.played();
        let turns = if situation.a >= 10 && situation.b >= 10 {
            played
        } else {
            played / 2
        };
        after_turns(situation.opener, turns)
    }
}
