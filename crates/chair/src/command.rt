// What the umpire can say.
use rally_log::entry::Entry;

pub mod parsing;

#[derive(Clone, Copy)]
pub enum Command {
    // Call a rally.
    Rally,
    // The open rally ended so.
    Settle(Entry),
    // Show the score.
    Score,
    // End the session.
    Quit,
}

// What is no command.
#[derive(Clone, Copy, Debug)]
pub struct NoCommand;
