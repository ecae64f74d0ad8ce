ghost use Rattle.contest.specs.Plays.{Plays, Tells};

use crate::contest::Contest;
use crate::level::Level;
use crate::side::Side;

// What is told of a contest that was opened and given points: how many it took, and what can be asked of it then.
#[derive(Clone, Copy)]
pub struct Outcome {
    pub taken: usize,
    pub winner: Option<Side>,
    pub opener: Side,
    pub server: Side,
    pub level: Option<Level>,
}

// Opens the pile for `opener`, gives it the points in turn up to the first that it refuses, and says how many it took.
pub fn play_points<C: Contest>(pile: &mut C, opener: Side, points: &[Side]) -> usize
    ensures { Plays C.Contest.pile C.Contest.standing pile.old pile.new opener points.now result }
{
    pile.open(opener);
    // a loop and no `position`: of a chain whose closure gives points, no contract says how the pile is left
    for (i, side) in points.iter().enumerate() {
        if pile.point(*side).is_err() {
            return i;
        }
    }
    points.len()
}

// The same, and asks the pile everything then, its level at `depth`. The three arguments stand one by one: a struct of them would be made by a caller only to be taken apart here.
pub fn outcome_of<C: Contest>(pile: &mut C, opener: Side, points: &[Side], depth: u16) -> Outcome
    ensures plays { Plays C.Contest.pile C.Contest.standing pile.old pile.new opener points.now result.taken }
    ensures tells { Tells (C.Contest.pile pile.old) opener points.now depth result }
{
    let taken = play_points(pile, opener, points);
    Outcome {
        taken,
        winner: pile.winner(),
        opener: pile.opener(),
        server: pile.server(),
        level: pile.level(depth),
    }
}
