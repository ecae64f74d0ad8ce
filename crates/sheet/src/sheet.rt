ghost use Rattle.std.specs.Prelude.{◌≤◌, length};

use crate::closing::Closing;
use crate::text::Heading;
use rally_log::entry::Entry;

// What a sheet tells of: its heading, the pile where it stands after the log, the log's entries and their closings.
#[derive(Drop)]
pub(crate) struct Sheet<'a, C> {
    pub(crate) heading: Heading,
    pub(crate) pile: &'a C,
    pub(crate) log: &'a [Entry],
    pub(crate) closings: &'a [Closing],
    ghost few: { length log.now ≤ 30000 },
}
