ghost use Rattle.std.specs.Prelude.{◌≡◌, decimal};
ghost use Rattle.std.specs.List.{flat_map};
ghost use Rattle.contest.specs.Piles.{contest_of};
ghost use Rattle.sheet.specs.Headings.{heading_of};
ghost use Rattle.sheet.specs.Sinks.{Puts};
ghost use Rattle.sheet.specs.Text.{counts, side as side_field, match_line, closing_line, totals_line, open_field, open_fields, spaced, last_line, text_of_sheet};
ghost use Rattle.formats.specs.Formats.{name_of};

use crate::closing::Closing;
use crate::fault::ScoreFault;
use crate::sheet::Sheet;
use crate::sink::Sink;
use crate::totals::LogTotals;
use contest::contest::Contest;
use contest::level::Level;
use contest::side::Side;
use formats::format::Format;
use itoa::Buffer;
use rally_log::entry::Header;

// What the first line of a sheet says.
#[derive(Clone, Copy)]
pub struct Heading {
    pub number: u16,
    pub format: Format,
    pub opener: Side,
}

impl TryFrom<Header> for Heading {
    type Error = ScoreFault;

    ghost try_from_gives = { λ header result. result ≡ heading_of header };

    fn try_from(header: Header) -> Result<Heading, ScoreFault> {
        let format = Format::try_from(header.code)?;
        Ok(Heading {
            number: header.number,
            format,
            opener: header.opener,
        })
    }
}

// The functions that follow put bytes into a sink, which takes each. `write!` might answer `Err`: no contract of `fmt` says when it
// does not, and a sheet that fits is never refused.
fn put_bytes<S: Sink>(sink: &mut S, bytes: &[u8])
    ensures { Puts S.Sink.takes sink.old bytes.now sink.new }
{
    for byte in bytes {
        sink.put(*byte);
    }
}

fn put_text<S: Sink>(sink: &mut S, text: &str)
    ensures { Puts S.Sink.takes sink.old text.now sink.new }
{
    put_bytes(sink, text.as_bytes());
}

// A number in decimal digits.
fn put_number<S: Sink>(sink: &mut S, n: u16)
    ensures { Puts S.Sink.takes sink.old (decimal n) sink.new }
{
    put_text(sink, Buffer::new().format(n));
}

fn put_counts<S: Sink>(sink: &mut S, a: u16, b: u16)
    ensures { Puts S.Sink.takes sink.old (counts a b) sink.new }
{
    put_number(sink, a);
    sink.put(b'-');
    put_number(sink, b);
}

fn put_side<S: Sink>(sink: &mut S, side: Side)
    ensures { Puts S.Sink.takes sink.old (side_field side) sink.new }
{
    sink.put(u8::from(side));
}

fn put_closing<S: Sink>(sink: &mut S, closing: Closing)
    ensures { Puts S.Sink.takes sink.old (closing_line closing) sink.new }
{
    put_number(sink, closing.depth);
    sink.put(b' ');
    put_counts(sink, closing.a, closing.b);
    sink.put(b' ');
    put_side(sink, closing.winner);
    sink.put(b'\n');
}

fn put_heading<S: Sink>(sink: &mut S, heading: Heading)
    ensures { Puts S.Sink.takes sink.old (match_line heading.number (name_of heading.format) heading.opener) sink.new }
{
    put_text(sink, "match ");
    put_number(sink, heading.number);
    sink.put(b' ');
    put_text(sink, heading.format.name());
    put_text(sink, " opener ");
    put_side(sink, heading.opener);
    sink.put(b'\n');
}

fn put_totals<S: Sink>(sink: &mut S, totals: LogTotals)
    ensures { Puts S.Sink.takes sink.old (totals_line totals.a totals.b totals.lets) sink.new }
{
    put_text(sink, "rallies ");
    put_number(sink, totals.a + totals.b + totals.lets);
    put_text(sink, " points ");
    put_counts(sink, totals.a, totals.b);
    put_text(sink, " lets ");
    put_number(sink, totals.lets);
    sink.put(b'\n');
}

fn put_closings<S: Sink>(sink: &mut S, closings: &[Closing])
    ensures { Puts S.Sink.takes sink.old (flat_map closing_line closings.now) sink.new }
{
    for closing in closings {
        put_closing(sink, *closing);
    }
}

// The field of a level without a winner, behind others.
fn put_open_level<S: Sink>(sink: &mut S, level: Option<Level>)
    ensures { Puts S.Sink.takes sink.old (spaced (open_field level)) sink.new }
{
    if let Some(Level { a, b, winner: None }) = level {
        sink.put(b' ');
        put_counts(sink, a, b);
    }
}

fn put_open_levels<S: Sink, C: Contest>(sink: &mut S, pile: &C)
    ensures { Puts S.Sink.takes sink.old (spaced (open_fields (contest_of (C.Contest.pile pile.now)).play (C.Contest.standing pile.now) 16)) sink.new }
{
    let levels = pile.levels().min(16);
    for depth in 0..levels {
        put_open_level(sink, pile.level(depth));
    }
}

fn put_end<S: Sink, C: Contest>(sink: &mut S, pile: &C)
    ensures { Puts S.Sink.takes sink.old (last_line (contest_of (C.Contest.pile pile.now)).play (C.Contest.standing pile.now) ((contest_of (C.Contest.pile pile.now)).play.winner (C.Contest.standing pile.now))) sink.new }
{
    match pile.winner() {
        Some(winner) => {
            put_text(sink, "won ");
            put_side(sink, winner);
        }
        None => {
            put_text(sink, "serves ");
            put_side(sink, pile.server());
            put_open_levels(sink, pile);
        }
    }
    sink.put(b'\n');
}

impl<C: Contest> Sheet<'_, C> {
    // Puts the whole text into a sink.
    pub(crate) fn put<S: Sink>(&self, sink: &mut S)
        ensures { Puts S.Sink.takes sink.old (text_of_sheet C.Contest.pile C.Contest.standing self.now) sink.new }
    {
        put_heading(sink, self.heading);
        put_closings(sink, self.closings);
        put_totals(sink, LogTotals::of(self.log));
        put_end(sink, self.pile);
    }
}
