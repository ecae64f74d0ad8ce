// Whole matches in the formats, each over the pile of its format. The contract names the table's piles and nothing that a pile
// says of itself.
#![tactic(auto)]

ghost use Rattle.format_matches.specs.Formats.{WholeMatchIn};

use contest::side::Side;
use formats::format::Format;
use formats::piles::{
    Badminton, Game, SideOut, Table5, Tennis, TennisMt, Volleyball, badminton, game, sideout,
    table5, tennis3, tennis5, tennismt, volleyball,
};
use rally_log::entry::Entry;
use roll::Roll;
use umpire::calls::{Answer, Call, Played};
use umpire::play::play;

// What a match in a format left.
#[derive(Drop)]
pub enum PlayedFormat {
    Game(Played<Game>),
    Tennis3(Played<Tennis>),
    Tennis5(Played<Tennis>),
    TennisMt(Played<TennisMt>),
    Badminton(Played<Badminton>),
    Volleyball(Played<Volleyball>),
    Table5(Played<Table5>),
    SideOut(Played<SideOut>),
}

// Plays a match in a format. A line for each format, as in the table: each has a pile of another type, and no closure is generic.
#[rattlefmt::skip]
pub fn play_format(
    format: Format,
    number: u16,
    opener: Side,
    log: &mut Roll<Entry>,
    calls: &[Call],
    answers: &mut Roll<Answer>,
) -> PlayedFormat
    ensures { WholeMatchIn format number opener calls.now log.old log.new answers.old answers.new result }
{
    match format {
        Format::Game => PlayedFormat::Game(play(number, game(), opener, log, calls, answers)),
        Format::Tennis3 => PlayedFormat::Tennis3(play(number, tennis3(), opener, log, calls, answers)),
        Format::Tennis5 => PlayedFormat::Tennis5(play(number, tennis5(), opener, log, calls, answers)),
        Format::TennisMt => PlayedFormat::TennisMt(play(number, tennismt(), opener, log, calls, answers)),
        Format::Badminton => PlayedFormat::Badminton(play(number, badminton(), opener, log, calls, answers)),
        Format::Volleyball => PlayedFormat::Volleyball(play(number, volleyball(), opener, log, calls, answers)),
        Format::Table5 => PlayedFormat::Table5(play(number, table5(), opener, log, calls, answers)),
        Format::SideOut => PlayedFormat::SideOut(play(number, sideout(), opener, log, calls, answers)),
    }
}
