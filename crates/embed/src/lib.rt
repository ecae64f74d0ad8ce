// The scorer for programs in C: one call from the bytes of a log to the bytes of its sheet, without a heap and without input or
// output. embed/cibraduc.h declares it.
#![tactic(auto)]

ghost use Rattle.std.specs.Prelude.{◌≡◌, ◌≤◌, MatchOption};
ghost use Rattle.embed.specs.Answers.{told, short_of_places, ScoredWith, Scores};

use contest::side::Side;
use rally_log::entry::Entry;
use rally_log::faults::{Check, ReadFault};
use sheet::closing::Closing;
use sheet::fault::{LogFault, ScoreFault};
use sheet::score::Scored;
use sheet::sheets::score_log;

// What C is told of a log: the length of its sheet and the winner, as `A`, `B` or 0 for nobody yet; or the fault's number and place.
// They are numbers, since C has no `Result`.
#[repr(C)]
#[derive(Clone, Copy)]
pub struct SheetAnswer {
    pub length: usize,
    pub place: usize,
    pub fault: u8,
    pub winner: u8,
}

// A sheet is told by its length and its winner, and a fault by its number and place; what the other has is 0.
impl From<Result<Scored, LogFault>> for SheetAnswer {
    ghost from_gives = { λ result answer. answer ≡ told result };

    fn from(res: Result<Scored, LogFault>) -> SheetAnswer {
        match res {
            Ok(scored) => SheetAnswer {
                length: scored.length,
                place: 0,
                fault: 0,
                winner: scored.winner.map_or(0, u8::from),
            },
            Err(fault) => SheetAnswer {
                length: 0,
                place: fault.place(),
                fault: fault.number(),
                winner: 0,
            },
        }
    }
}

// Whether the log was refused because a record had no free place.
fn is_short(res: Result<Scored, LogFault>) -> bool
    ensures { result ≡ short_of_places res }
{
    matches!(
        res,
        Err(LogFault::Reading(ReadFault {
            check: Check::Room,
            ..
        })) | Err(LogFault::Scoring(ScoreFault::NoPlace(_)))
    )
}

// Scores a log with so many places for its entries and for its closings.
fn score_with<const ENTRIES: usize, const CLOSINGS: usize>(
    log: &[u8],
    sheet: &mut [u8],
) -> Result<Scored, LogFault>
    requires { (ENTRIES ≤ 30000) × (CLOSINGS ≤ 4000) }
    ensures { ScoredWith ENTRIES CLOSINGS log.now sheet.old sheet.new result }
{
    // what the places hold at first is never read: this is what is written fastest
    let mut entries = [Entry::Point(Side::A); ENTRIES];
    let mut closings = [Closing {
        depth: 0,
        a: 0,
        b: 0,
        winner: Side::A,
    }; CLOSINGS];
    score_log(log, &mut entries, &mut closings, sheet)
}

// The answer with few places, or none where they do not suffice; then nothing was written.
fn answer_with<const ENTRIES: usize, const CLOSINGS: usize>(
    log: &[u8],
    sheet: &mut [u8],
) -> Option<SheetAnswer>
    requires { (ENTRIES ≤ 30000) × (CLOSINGS ≤ 4000) }
    ensures { MatchOption result (sheet.new ≡ sheet.old) (λ answer. Scores log.now sheet.old sheet.new answer) }
{
    let result = score_with::<ENTRIES, CLOSINGS>(log, sheet);
    if is_short(result) {
        None
    } else {
        Some(SheetAnswer::from(result))
    }
}

// Writes the sheet of a log over the first of the caller's bytes. Most logs need few places, and to set up many takes longer than
// to score a short log, so few are tried first.
#[unsafe(no_mangle)]
pub extern "C" fn cibraduc_sheet(log: &[u8], sheet: &mut [u8]) -> SheetAnswer
    ensures { Scores log.now sheet.old sheet.new result }
{
    let first = match log.len() {
        0..=256 => answer_with::<256, 64>(log, sheet),
        257..=4096 => answer_with::<4096, 128>(log, sheet),
        _ => None,
    };
    // a match and no `unwrap_or_else`, of whose closure no contract says what it wrote to the sheet
    match first {
        Some(answer) => answer,
        None => SheetAnswer::from(score_with::<30_000, 4_000>(log, sheet)),
    }
}
