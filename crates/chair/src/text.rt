// The words that the umpire reads.
ghost use Rattle.std.specs.Prelude.{◌≡◌};
ghost use Rattle.chair.specs.Texts.{counts_above, label, reason_written};

use formats::format::Format;
use umpire::rally::CallFault;

pub const COMMANDS: &str = "commands: rally, A, B, let, score, quit (in short: r, a, b, l, s, q)";

pub const USAGE: &str = "\
usage: chair FORMAT NUMBER OPENER

  FORMAT   game tennis3 tennis5 tennismt badminton volleyball table5 sideout
  NUMBER   the number of the match, 0 to 65535
  OPENER   the side that serves first, A or B

as in: chair tennis3 7 A
The log is written to rally.log in the current folder. Then type one command a line:

  rally    call a rally
  A, B     the open rally is a point for that side
  let      the open rally is a let
  score    show the score
  quit     end the session; an open rally is then a let

in short: r, a, b, l, s, q
";

// What a format counts at a depth, above its points.
fn counted_above(format: Format, depth: u16) -> &'static str
    ensures { result.now ≡ counts_above format depth }
{
    match format {
        Format::Tennis3 | Format::Tennis5 | Format::TennisMt if depth > 0 => "games",
        Format::Tennis3 | Format::Tennis5 | Format::TennisMt | Format::Volleyball => "sets",
        Format::Game | Format::Badminton | Format::Table5 | Format::SideOut => "games",
    }
}

// The label of a level.
pub fn level_label(format: Format, depth: u16, innermost: bool) -> &'static str
    ensures { result.now ≡ label format depth innermost }
{
    if innermost {
        "points"
    } else {
        counted_above(format, depth)
    }
}

// Why a command is refused, and what to do. The umpire's own `Display` is shorter: it knows of no commands.
pub fn reason_text(fault: CallFault) -> &'static str
    ensures { result.now ≡ reason_written fault }
{
    match fault {
        CallFault::Decided => "the match is won; quit ends the session",
        CallFault::RallyOpen => "a rally is open; settle it first",
        CallFault::LogCount => "the log is not that of this match",
        CallFault::LogFull => "the log is full, at 30000 rallies; quit ends the session",
        CallFault::OtherRally => "no rally is open; call one with rally",
    }
}
