ghost use Rattle.std.specs.Prelude.{◌≡◌, Some};
ghost use Rattle.umpire.specs.Calls.{numbers_of, rally_with};
ghost use Rattle.umpire.specs.Faults.{call_fault_number, call_fault_words};
ghost use Rattle.umpire.specs.declared.rally.CallFault.TheVariants.{Decided};

use contest::fault::ContestFault;
use std::error::Error;
use std::fmt;

// A rally by its numbers: that of its match, and its own, counted from 1.
#[derive(Clone, Copy)]
pub struct RallyNumbers {
    pub match_number: u16,
    pub number: u16,
}

// A rally that was called and is still to be settled: it can be neither copied nor dropped.
pub struct Rally {
    numbers: RallyNumbers,
}

// Why a call is refused.
#[derive(Clone, Copy, PartialEq, Eq, Debug)]
pub enum CallFault {
    // There is a winner.
    Decided = 6,
    // A rally is open.
    RallyOpen = 7,
    // The log does not hold as many entries as the match has points and lets.
    LogCount = 8,
    // The log has no free place.
    LogFull = 9,
    // It is not the open rally of this match.
    OtherRally = 10,
}

// A rally that could not be settled, handed back, and why.
pub struct Unsettled {
    pub rally: Rally,
    pub fault: CallFault,
}

impl Rally {
    // The rally of these numbers. It is made in this crate alone: by a match that calls it, and by `play` from the numbers handed in.
    pub(crate) fn new(numbers: RallyNumbers) -> Rally
        ensures { result ≡ rally_with numbers }
    {
        Rally { numbers }
    }

    // Its numbers.
    pub fn numbers(&self) -> RallyNumbers
        ensures { result ≡ numbers_of self.now }
    {
        self.numbers
    }

    // Spends the rally: its numbers are left. It is no public conversion, by which a rally could be let go unsettled.
    pub(crate) fn spend(self) -> RallyNumbers
        ensures { result ≡ numbers_of self }
    {
        let Rally { numbers } = self;
        numbers
    }
}

impl Unsettled {
    // Spends the rally that came back: the refusal is left.
    pub(crate) fn spend(self) -> CallFault
        ensures { result ≡ self.fault }
    {
        let Unsettled { rally, fault } = self;
        let _ = rally.spend();
        fault
    }
}

impl CallFault {
    // The number of the refusal.
    pub fn number(self) -> u8
        ensures { result ≡ call_fault_number self }
    {
        self as u8
    }
}

// A point that the pile refuses: there is a winner.
impl From<ContestFault> for CallFault {
    ghost from_gives = { λ _ fault. fault ≡ Decided };

    fn from(fault: ContestFault) -> CallFault {
        match fault {
            ContestFault::Decided => CallFault::Decided,
        }
    }
}

impl fmt::Display for CallFault {
    ghost output = { λ fault. Some (call_fault_words fault) };

    fn fmt<W: fmt::Write>(&self, f: &mut fmt::Formatter<W>) -> fmt::Result {
        f.write_str(match self {
            CallFault::Decided => "there is a winner",
            CallFault::RallyOpen => "a rally is open",
            CallFault::LogCount => "the log is not this match's",
            CallFault::LogFull => "the log is full",
            CallFault::OtherRally => "it is not the open rally",
        })
    }
}

impl Error for CallFault {}
