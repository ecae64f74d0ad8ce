ghost use Rattle.std.specs.Prelude.{◌≡◌};
ghost use Rattle.contest.specs.Depths.{closed_above};

use crate::side::Side;

// How far down a layer's levels have winners: by how far down those below it do, and by its own winner.
pub(crate) fn closed_above(below: u16, winner: Option<Side>) -> u16
    ensures { result ≡ closed_above below winner }
{
    match winner {
        None if below == 0 => 0,
        _ => below.saturating_add(1),
    }
}
