ghost use Rattle.std.specs.Prelude.{◌≡◌, true};
ghost use Rattle.contest.specs.Faults.{threshold_allowed};

use crate::side::Side;
use crate::tally::Tally;

pub mod layer;

// A layer over two contests: while both counts are at least the threshold it opens the deciding one, otherwise the ordinary one.
// It is no instance of one type with `Race`, whose methods are alike: a trait for what stands below would repeat all of `Contest`, and `allowed`
// would name it, so that each definition in specs/ which speaks of a race or a switch would have to take the trait's members too.
#[derive(Drop)]
pub struct Switch<C, D, P> {
    tally: Tally,
    threshold: u16,
    opener: Side,
    service: P,
    ordinary: C,
    deciding: D,
    // the deciding contest was opened last; a flag and no enum around the contest, since both stay, with their rules
    decides: bool,
    ghost allowed: { threshold_allowed tally.goal threshold ≡ true },
}
