ghost use Rattle.std.specs.Prelude.{◌≡◌, Some};
ghost use Rattle.chair.specs.Boards.{note_of, note_written};

use crate::session::reply::Reply;
use crate::text::reason_text;
use std::fmt;
use umpire::rally::CallFault;

// What is said under a score.
#[derive(Clone, Copy)]
pub enum Note {
    // The command was refused.
    Refused(CallFault),
    // The rally of this number was open when the session ended.
    LetAtEnd(u16),
}

impl Note {
    // What is said of what a command came to: why it was refused.
    pub fn of_reply(reply: Reply) -> Option<Note>
        ensures { result ≡ note_of reply }
    {
        match reply {
            Reply::Refused(fault) => Some(Note::Refused(fault)),
            Reply::Called | Reply::Settled(_) | Reply::Asked => None,
        }
    }
}

impl fmt::Display for Note {
    ghost output = { λ note. Some (note_written note) };

    fn fmt<W: fmt::Write>(&self, f: &mut fmt::Formatter<W>) -> fmt::Result {
        match *self {
            Note::Refused(fault) => {
                write!(f, "refused ({}): {}\n", fault.number(), reason_text(fault))
            }
            Note::LetAtEnd(number) => write!(f, "rally {number} was open: it is a let\n"),
        }
    }
}
