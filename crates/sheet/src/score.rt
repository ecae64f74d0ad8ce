ghost use Rattle.roll.specs.Rolls.{entries};
ghost use Rattle.sheet.specs.Scores.{Scores, ScoresOn};

use crate::closing::Closing;
use crate::fault::ScoreFault;
use crate::scoring::score_entries;
use crate::sheet::Sheet;
use crate::text::Heading;
use contest::contest::Contest;
use contest::side::Side;
use rally_log::entry::{Entry, Header};
use roll::Roll;

// What a sheet says in short: its length, and the winner or nobody.
#[derive(Clone, Copy)]
pub struct Scored {
    pub length: usize,
    pub winner: Option<Side>,
}

// Scores a log in a format. The log, the closings and the sheet are lent one by one: in a struct, each would need a clause that it is still the lender's.
pub(crate) fn score_in<C: Contest + Drop>(
    mut pile: C,
    heading: Heading,
    log: &Roll<Entry>,
    closings: &mut Roll<Closing>,
    sheet: &mut [u8],
) -> Result<Scored, ScoreFault>
    ensures { ScoresOn (C.Contest.pile pile) heading (entries log.now) closings.old sheet.old result closings.new sheet.new }
{
    pile.open(heading.opener);
    score_entries(&mut pile, log.as_slice(), closings)?;
    let score_sheet = Sheet {
        heading,
        pile: &pile,
        log: log.as_slice(),
        closings: closings.as_slice(),
    };
    score_sheet.write_fitting(sheet)
}

// Scores a log with a pile, which is used up: puts the closings on a roll and writes the sheet over the first bytes.
pub fn score<C: Contest + Drop>(
    pile: C,
    header: Header,
    log: &Roll<Entry>,
    closings: &mut Roll<Closing>,
    sheet: &mut [u8],
) -> Result<Scored, ScoreFault>
    ensures { Scores (C.Contest.pile pile) header (entries log.now) closings.old sheet.old result closings.new sheet.new }
{
    score_in(pile, Heading::try_from(header)?, log, closings, sheet)
}
