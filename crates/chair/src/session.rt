// A match in the umpire's hands.
ghost use Rattle.std.specs.Prelude.{◌≡◌, false, is_some};
ghost use Rattle.chair.specs.Ready.{hindrance};

use rally_log::entry::Entry;
use roll::Roll;
use umpire::matches::Match;
use umpire::rally::Rally;

pub mod obeying;
pub mod reply;

// The match, its log, and the rally that was called and is still to be settled.
pub struct Session<'a, 'b, C> {
    pub(crate) ongoing: Match<C>,
    pub(crate) log: &'a mut Roll<'b, Entry>,
    pub(crate) held: Option<Rally>,
    // the held rally is the match's open one, and can be settled
    ghost ready: { is_some (hindrance ongoing log.now held) ≡ false },
}
