ghost use Rattle.std.specs.Prelude.{◌≡◌, Some};
ghost use Rattle.contest.specs.Faults.{contest_fault_number, contest_fault_words, rule_fault_number, rule_fault_words};

use std::error::Error;
use std::fmt;

// Why a contest refuses a point.
#[derive(Clone, Copy, PartialEq, Eq, Debug)]
pub enum ContestFault {
    // It has a winner.
    Decided = 6,
}

impl ContestFault {
    // Every refusal has such a method of its own: in a trait the clause would name a ghost member in place of the definition.
    pub fn number(self) -> u8
        ensures { result ≡ contest_fault_number self }
    {
        self as u8
    }
}

impl fmt::Display for ContestFault {
    ghost output = { λ fault. Some (contest_fault_words fault) };

    fn fmt<W: fmt::Write>(&self, f: &mut fmt::Formatter<W>) -> fmt::Result {
        f.write_str("the contest has a winner")
    }
}

impl Error for ContestFault {}

// Which number of a layer's rules is not allowed.
#[derive(Clone, Copy, PartialEq, Eq, Debug)]
pub enum RuleFault {
    Target = 1,
    Lead = 2,
    Cap = 3,
    Threshold = 4,
}

impl RuleFault {
    pub fn number(self) -> u8
        ensures { result ≡ rule_fault_number self }
    {
        self as u8 // 1 to 4
    }
}

impl fmt::Display for RuleFault {
    ghost output = { λ fault. Some (rule_fault_words fault) };

    fn fmt<W: fmt::Write>(&self, f: &mut fmt::Formatter<W>) -> fmt::Result {
        f.write_str(match self {
            RuleFault::Target => "the target is not allowed",
            RuleFault::Lead => "the lead is not allowed",
            RuleFault::Cap => "the cap is not allowed",
            RuleFault::Threshold => "the threshold is not allowed",
        })
    }
}

impl Error for RuleFault {}
