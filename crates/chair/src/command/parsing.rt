ghost use Rattle.std.specs.Prelude.{◌≡◌, ◌++◌, Some, codes};
ghost use Rattle.chair.specs.Commands.{is_blank, unindented, unpadded, trimmed, ReadsCommand};

use super::{Command, NoCommand};
use crate::text::COMMANDS;
use contest::side::Side;
use rally_log::entry::Entry;
use std::error::Error;
use std::fmt;
use std::str::{FromStr, from_utf8};

fn is_blank(byte: u8) -> bool
    ensures { result ≡ is_blank byte }
{
    byte == b' ' || byte == b'\t' || byte == b'\r'
}

// The line without the blanks before its first word. The library's `trim_ascii` takes more than these three for blanks.
fn skip_blanks(mut line: &[u8]) -> &[u8]
    ensures { result.now ≡ unindented line.entry.now }
{
    while let [first, rest @ ..] = line
        && is_blank(*first)
    {
        line = rest;
    }
    line
}

// The line without the blanks behind its last word.
#[tactic(auto, using(crate::proofs::Blanks::end_more, crate::proofs::Blanks::end_found))]
fn cut_blanks(mut line: &[u8]) -> &[u8]
    ensures { result.now ≡ unpadded line.entry.now }
{
    while let [rest @ .., last] = line
        && is_blank(*last)
    {
        line = rest;
    }
    line
}

// The line without the blanks around it.
pub fn without_blanks(line: &[u8]) -> &[u8]
    ensures { result.now ≡ trimmed line.now }
{
    cut_blanks(skip_blanks(line))
}

// The command of a word or of its short form.
impl FromStr for Command {
    type Err = NoCommand;

    ghost from_str_gives = { ReadsCommand };

    fn from_str(word: &str) -> Result<Command, NoCommand> {
        match word {
            "rally" | "r" => Ok(Command::Rally),
            "A" | "a" => Ok(Command::Settle(Entry::Point(Side::A))),
            "B" | "b" => Ok(Command::Settle(Entry::Point(Side::B))),
            "let" | "l" => Ok(Command::Settle(Entry::Let)),
            "score" | "s" => Ok(Command::Score),
            "quit" | "q" => Ok(Command::Quit),
            _ => Err(NoCommand),
        }
    }
}

// The command that a line says, with or without blanks around it.
pub fn command_of(line: &[u8]) -> Result<Command, NoCommand>
    ensures { ReadsCommand (trimmed line.now) result }
{
    // a match, since after `map_err` and `?` it is no longer at hand why the bytes are no text
    match from_utf8(without_blanks(line)) {
        Ok(word) => word.parse(),
        Err(_) => Err(NoCommand),
    }
}

impl fmt::Display for NoCommand {
    ghost use Rattle.chair.specs.declared.text.TheConstants.{COMMANDS};

    ghost output = { λ _. Some (codes "not a command; " ++ COMMANDS.now) };

    fn fmt<W: fmt::Write>(&self, f: &mut fmt::Formatter<W>) -> fmt::Result {
        write!(f, "not a command; {COMMANDS}")
    }
}

impl Error for NoCommand {}
