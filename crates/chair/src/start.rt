// What the arguments say.
ghost use Rattle.std.specs.Prelude.{MatchOption};
ghost use Rattle.chair.specs.Starts.{Names};

use contest::side::Side;
use formats::format::Format;

// The match that is to be played: what a sheet's heading says too, which this program does not write.
#[derive(Clone, Copy)]
pub struct Start {
    pub format: Format,
    pub number: u16,
    pub opener: Side,
}

// The match of three words, if they name one: no `FromStr`, which has one.
pub fn start_of(format: &str, number: &str, opener: &str) -> Option<Start>
    ensures { MatchOption result ((start : Start) → Names format.now number.now opener.now start → ⊥) (λ start. Names format.now number.now opener.now start) }
{
    Some(Start {
        format: format.parse().ok()?,
        number: number.parse().ok()?,
        opener: opener.parse().ok()?,
    })
}
