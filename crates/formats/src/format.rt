ghost use Rattle.std.specs.Cmp.Lexicographic.{pointwise};
ghost use Rattle.std.specs.List.{find};
ghost use Rattle.std.specs.Prelude.{◌≡◌, Some, codes, nat_eq};
ghost use Rattle.formats.specs.Formats.{code_of, name_of, ReadsCode, ReadsFormat};

use std::error::Error;
use std::fmt;
use std::str::FromStr;

// A format, in the order of the codes.
#[derive(Clone, Copy, PartialEq, Eq, Debug)]
pub enum Format {
    Game,
    Tennis3,
    Tennis5,
    TennisMt,
    Badminton,
    Volleyball,
    Table5,
    SideOut,
}

// The formats in the order of their codes.
const FORMATS: [Format; 8] = [
    Format::Game,
    Format::Tennis3,
    Format::Tennis5,
    Format::TennisMt,
    Format::Badminton,
    Format::Volleyball,
    Format::Table5,
    Format::SideOut,
];

// What is no format's code or name.
#[derive(Clone, Copy, PartialEq, Eq, Debug)]
pub struct NoFormat;

impl Format {
    // The name of the format, for those who put it into bytes or pad it.
    pub fn name(self) -> &'static str
        ensures { result.now ≡ name_of self }
    {
        match self {
            Format::Game => "game",
            Format::Tennis3 => "tennis3",
            Format::Tennis5 => "tennis5",
            Format::TennisMt => "tennismt",
            Format::Badminton => "badminton",
            Format::Volleyball => "volleyball",
            Format::Table5 => "table5",
            Format::SideOut => "sideout",
        }
    }
}

// The first of these formats that has the name.
fn first_named(formats: &[Format], name: &str) -> Option<Format>
    ensures { result ≡ find (λ format. pointwise nat_eq (name_of format) name.now) formats.now }
{
    formats.iter().copied().find(|format| format.name() == name)
}

// A format's code is its place in the order.
impl From<Format> for u8 {
    ghost from_gives = { λ format code. code ≡ code_of format };

    fn from(format: Format) -> u8 {
        format as u8
    }
}

impl TryFrom<u8> for Format {
    type Error = NoFormat;

    ghost try_from_gives = { ReadsCode };

    fn try_from(code: u8) -> Result<Format, NoFormat> {
        FORMATS.get(usize::from(code)).copied().ok_or(NoFormat)
    }
}

impl FromStr for Format {
    type Err = NoFormat;

    ghost from_str_gives = { ReadsFormat name_of };

    fn from_str(name: &str) -> Result<Format, NoFormat> {
        first_named(&FORMATS, name).ok_or(NoFormat)
    }
}

// A format is shown by its name.
impl fmt::Display for Format {
    ghost output = { λ format. Some (name_of format) };

    fn fmt<W: fmt::Write>(&self, f: &mut fmt::Formatter<W>) -> fmt::Result {
        f.write_str(self.name())
    }
}

impl fmt::Display for NoFormat {
    ghost output = { λ _. Some (codes "there is no such format") };

    fn fmt<W: fmt::Write>(&self, f: &mut fmt::Formatter<W>) -> fmt::Result {
        f.write_str("there is no such format")
    }
}

impl Error for NoFormat {}
