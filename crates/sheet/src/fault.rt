ghost use Rattle.std.specs.Prelude.{◌≡◌, Some};
ghost use Rattle.sheet.specs.Faults.{score_fault_number, score_fault_place, log_fault_number, log_fault_place, fault_text};
ghost use Rattle.sheet.specs.declared.fault.LogFault.TheVariants.{Reading, Scoring};
ghost use Rattle.sheet.specs.declared.fault.ScoreFault.TheVariants.{Code};

use formats::format::NoFormat;
use rally_log::faults::ReadFault;
use std::error::Error;
use std::fmt;

// Why a log was not scored: its code is no format's, an entry could not be scored (by its index: its point comes after the end of
// the match, or a closing has no place), or the sheet does not fit.
#[derive(Clone, Copy, Debug)]
pub enum ScoreFault {
    Code,
    AfterEnd(usize),
    NoPlace(usize),
    Space,
}

impl ScoreFault {
    // A match, since a fault that holds a place cannot be cast to its number.
    pub fn number(self) -> u8
        ensures { result ≡ score_fault_number self }
    {
        match self {
            ScoreFault::Code => 13,
            ScoreFault::AfterEnd(_) => 14,
            ScoreFault::NoPlace(_) => 9,
            ScoreFault::Space => 15,
        }
    }

    // The index of the entry, or 0 where it is none: it is told beside the number, as 0.
    pub fn place(self) -> usize
        ensures { result ≡ score_fault_place self }
    {
        match self {
            ScoreFault::AfterEnd(index) | ScoreFault::NoPlace(index) => index,
            ScoreFault::Code | ScoreFault::Space => 0,
        }
    }
}

impl From<NoFormat> for ScoreFault {
    ghost from_gives = { λ _ result. result ≡ Code };

    fn from(_: NoFormat) -> ScoreFault {
        Self::Code
    }
}

// Why there is no sheet of a log's bytes: they could not be read, or what was read could not be scored.
#[derive(Clone, Copy, Debug)]
pub enum LogFault {
    Reading(ReadFault),
    Scoring(ScoreFault),
}

impl LogFault {
    // The number of the fault that it holds.
    pub fn number(self) -> u8
        ensures { result ≡ log_fault_number self }
    {
        match self {
            LogFault::Reading(fault) => fault.number(),
            LogFault::Scoring(fault) => fault.number(),
        }
    }

    // The offset of the record that could not be read, or the index of the entry that could not be scored, or 0.
    pub fn place(self) -> usize
        ensures { result ≡ log_fault_place self }
    {
        match self {
            LogFault::Reading(fault) => fault.place,
            LogFault::Scoring(fault) => fault.place(),
        }
    }
}

impl From<ReadFault> for LogFault {
    ghost from_gives = { λ fault result. result ≡ Reading fault };

    fn from(reading: ReadFault) -> LogFault {
        LogFault::Reading(reading)
    }
}

impl From<ScoreFault> for LogFault {
    ghost from_gives = { λ fault result. result ≡ Scoring fault };

    fn from(scoring: ScoreFault) -> LogFault {
        LogFault::Scoring(scoring)
    }
}

// A fault is told by its number and its place.
impl fmt::Display for ScoreFault {
    ghost output = { λ fault. Some (fault_text (score_fault_number fault) (score_fault_place fault)) };

    fn fmt<W: fmt::Write>(&self, f: &mut fmt::Formatter<W>) -> fmt::Result {
        write!(f, "fault {} at {}", self.number(), self.place())
    }
}

impl Error for ScoreFault {}

impl fmt::Display for LogFault {
    ghost output = { λ fault. Some (fault_text (log_fault_number fault) (log_fault_place fault)) };

    fn fmt<W: fmt::Write>(&self, f: &mut fmt::Formatter<W>) -> fmt::Result {
        match self {
            LogFault::Reading(fault) => write!(f, "fault {} at {}", fault.number(), fault.place),
            LogFault::Scoring(fault) => fault.fmt(f),
        }
    }
}

impl Error for LogFault {}
