ghost use Rattle.std.specs.Prelude.{◌≡◌, [], ◌∷◌, Some, codes};
ghost use Rattle.contest.specs.Sides.{opposite, letter, ReadsSide};

use std::error::Error;
use std::fmt;
use std::str::FromStr;

// One of the two sides of a match.
#[derive(Clone, Copy, PartialEq, Eq, Debug)]
pub enum Side {
    A,
    B,
}

// What is no side's letter.
#[derive(Clone, Copy, PartialEq, Eq, Debug)]
pub struct NoSide;

impl Side {
    // The other side.
    pub fn opponent(self) -> Side
        ensures { result ≡ opposite self }
    {
        match self {
            Side::A => Side::B,
            Side::B => Side::A,
        }
    }
}

// A side is written by its letter.
impl From<Side> for u8 {
    ghost from_gives = { λ side byte. byte ≡ letter side };

    fn from(side: Side) -> u8 {
        match side {
            Side::A => b'A',
            Side::B => b'B',
        }
    }
}

impl TryFrom<u8> for Side {
    type Error = NoSide;

    ghost try_from_gives = { ReadsSide letter };

    fn try_from(byte: u8) -> Result<Side, NoSide> {
        match byte {
            b'A' => Ok(Side::A),
            b'B' => Ok(Side::B),
            _ => Err(NoSide),
        }
    }
}

// The same letter as a word: a text and a byte are matched by patterns of different types.
impl FromStr for Side {
    type Err = NoSide;

    ghost from_str_gives = { ReadsSide (λ side. letter side ∷ []) };

    fn from_str(word: &str) -> Result<Side, NoSide> {
        match word {
            "A" => Ok(Side::A),
            "B" => Ok(Side::B),
            _ => Err(NoSide),
        }
    }
}

impl fmt::Display for Side {
    ghost output = { λ side. Some (letter side ∷ []) };

    fn fmt<W: fmt::Write>(&self, f: &mut fmt::Formatter<W>) -> fmt::Result {
        f.write_str(match self {
            Side::A => "A",
            Side::B => "B",
        })
    }
}

impl fmt::Display for NoSide {
    ghost output = { λ _. Some (codes "a side is neither A nor B") };

    fn fmt<W: fmt::Write>(&self, f: &mut fmt::Formatter<W>) -> fmt::Result {
        f.write_str("a side is neither A nor B")
    }
}

impl Error for NoSide {}
