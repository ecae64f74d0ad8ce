ghost use Rattle.std.specs.Prelude.{◌≡◌, Some, codes};
ghost use Rattle.roll.specs.Rolls.{full_number};

use crate::Full;
use std::error::Error;
use std::fmt;

impl Full {
    // The number of the refusal, of which there is only one.
    pub fn number(self) -> u8
        ensures { result ≡ full_number }
    {
        9
    }
}

impl fmt::Display for Full {
    ghost output = { λ _. Some (codes "no place is free") };

    fn fmt<W: fmt::Write>(&self, f: &mut fmt::Formatter<W>) -> fmt::Result {
        f.write_str("no place is free")
    }
}

impl Error for Full {}
