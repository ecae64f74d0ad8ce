ghost use Rattle.std.specs.Prelude.{◌≡◌, ◌≤◌, ◌++◌, length, drop};
ghost use Rattle.sheet.specs.Scores.{Written};
ghost use Rattle.sheet.specs.Sinks.{Measures};
ghost use Rattle.sheet.specs.Text.{text_of_sheet, winner_of_sheet};

use crate::fault::ScoreFault;
use crate::score::Scored;
use crate::sheet::Sheet;
use crate::sink::{Measure, Pen};
use contest::contest::Contest;

impl<C: Contest> Sheet<'_, C> {
    // How many bytes the sheet has.
    fn length(&self) -> usize
        ensures { Measures result (text_of_sheet C.Contest.pile C.Contest.standing self.now) }
    {
        let mut measure = Measure { length: 0 };
        self.put(&mut measure);
        measure.length
    }

    // Writes the sheet over the first bytes.
    fn write(&self, bytes: &mut [u8])
        requires { length (text_of_sheet C.Contest.pile C.Contest.standing self.now) ≤ length bytes.old }
        ensures { let text = text_of_sheet C.Contest.pile C.Contest.standing self.now in bytes.new ≡ text ++ drop (length text) bytes.old }
    {
        let mut pen = Pen { bytes, at: 0 };
        self.put(&mut pen);
    }

    // Writes the sheet over the first bytes, where it fits.
    pub(crate) fn write_fitting(&self, bytes: &mut [u8]) -> Result<Scored, ScoreFault>
        ensures { Written (text_of_sheet C.Contest.pile C.Contest.standing self.now) (winner_of_sheet C.Contest.pile C.Contest.standing self.now) bytes.old result bytes.new }
    {
        let length = self.length();
        if length > bytes.len() {
            return Err(ScoreFault::Space);
        }
        self.write(bytes);
        Ok(Scored {
            length,
            winner: self.pile.winner(),
        })
    }
}
