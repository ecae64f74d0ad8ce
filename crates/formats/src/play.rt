ghost use Rattle.contest.specs.Plays.{Tells};
ghost use Rattle.formats.specs.Table.{InFormat};

use crate::format::Format;
use crate::piles::{badminton, game, sideout, table5, tennis3, tennis5, tennismt, volleyball};
use contest::play::{Outcome, outcome_of};
use contest::side::Side;

// Opens the pile of a format for `opener`, gives it the points in turn up to the first that it refuses, and tells what came of
// it, with the level at `depth`. The contract names the table's pile and nothing of the code. Each arm has a pile of another type,
// and no closure is generic.
pub fn play_format(format: Format, opener: Side, points: &[Side], depth: u16) -> Outcome
    ensures { InFormat format (λ h p. Tells p opener points.now depth result) }
{
    match format {
        Format::Game => outcome_of(&mut game(), opener, points, depth),
        Format::Tennis3 => outcome_of(&mut tennis3(), opener, points, depth),
        Format::Tennis5 => outcome_of(&mut tennis5(), opener, points, depth),
        Format::TennisMt => outcome_of(&mut tennismt(), opener, points, depth),
        Format::Badminton => outcome_of(&mut badminton(), opener, points, depth),
        Format::Volleyball => outcome_of(&mut volleyball(), opener, points, depth),
        Format::Table5 => outcome_of(&mut table5(), opener, points, depth),
        Format::SideOut => outcome_of(&mut sideout(), opener, points, depth),
    }
}
