ghost use Rattle.std.specs.Prelude.{◌≡◌, ◌+◌, ◌<◌};
ghost use Rattle.umpire.specs.Calls.{call_answer, settle_answer, one_settled};

use crate::rally::{CallFault, RallyNumbers};
use contest::level::Level;
use contest::side::Side;
use rally_log::entry::Entry;

// What a match has counted.
#[derive(Clone, Copy, Default)]
pub struct Totals {
    // the rallies called
    pub called: u16,
    // the points of each side
    pub a: u16,
    pub b: u16,
    pub lets: u16,
    // the number of the open rally, if one is open
    pub in_play: Option<u16>,
}

// A call that a match can meet.
#[derive(Clone, Copy)]
pub enum Call {
    // Call a rally.
    Rally,
    // Settle this rally as a point of the side.
    Point(Side, RallyNumbers),
    // Settle it as a let.
    Let(RallyNumbers),
    // Who has won?
    Winner,
    // Who serves next?
    Server,
    // What is the level at this depth?
    Level(u16),
    // What is counted?
    Totals,
}

// What a call is answered. A refusal is one of the answers and no `Err`, since all of them are told in one list.
#[derive(Clone, Copy)]
pub enum Answer {
    // The rally is called.
    Called(RallyNumbers),
    // The rally is settled.
    Settled,
    // Nothing has changed.
    Refused(CallFault),
    Winner(Option<Side>),
    Server(Side),
    Level(Option<Level>),
    Totals(Totals),
}

// What a match leaves when it has ended.
#[derive(Drop)]
pub struct Played<C> {
    pub pile: C,
    pub totals: Totals,
}

impl Totals {
    // The rallies settled: the points and the lets.
    pub(crate) fn settled(&self) -> usize
        ensures { result ≡ self.now.a + self.now.b + self.now.lets }
    {
        usize::from(self.a) + usize::from(self.b) + usize::from(self.lets)
    }

    // Counts the open rally, which is settled so.
    pub(crate) fn count(&mut self, outcome: Entry)
        requires { self.old.a + self.old.b + self.old.lets < 65535 }
        ensures { self.new ≡ one_settled self.old outcome }
    {
        match outcome {
            Entry::Let => self.lets += 1,
            Entry::Point(Side::A) => self.a += 1,
            Entry::Point(Side::B) => self.b += 1,
        }
        self.in_play = None;
    }
}

// What calling gave: the numbers of the rally, or the refusal.
impl From<Result<RallyNumbers, CallFault>> for Answer {
    ghost from_gives = { λ res answer. answer ≡ call_answer res };

    fn from(res: Result<RallyNumbers, CallFault>) -> Answer {
        res.map_or_else(Answer::Refused, Answer::Called)
    }
}

// What settling gave: nothing, or the refusal.
impl From<Result<(), CallFault>> for Answer {
    ghost from_gives = { λ res answer. answer ≡ settle_answer res };

    fn from(res: Result<(), CallFault>) -> Answer {
        res.map_or_else(Answer::Refused, |()| Answer::Settled)
    }
}
