ghost use Rattle.std.specs.Prelude.{◌≡◌, ◌+◌, ◌≤◌};
ghost use Rattle.umpire.specs.Sums.{while_open};

use crate::calls::Totals;

pub mod asking;
pub mod calling;
mod checking;
pub mod opening;
pub mod settling;

// A match over a pile of contests. Its log is not part of it: each call that needs the log is lent it.
#[derive(Drop)]
pub struct Match<C> {
    number: u16,
    pile: C,
    totals: Totals,
    // the rallies called are those settled, and one more while a rally is open
    ghost sum: { totals.called ≡ totals.a + totals.b + totals.lets + while_open totals.in_play },
    // no log holds more entries
    ghost few: { totals.a + totals.b + totals.lets ≤ 30000 },
}
