ghost use Rattle.std.specs.Prelude.{◌≡◌};
ghost use Rattle.umpire.specs.Calls.{call_result, next_rally, call_refusal, left_after, Settles};
ghost use Rattle.umpire.specs.States.{state_of, rules_of, Steps};
ghost use Rattle.umpire.specs.declared.calls.Call.TheVariants.{Rally as RallyCall};

use super::Match;
use crate::rally::{CallFault, Rally, RallyNumbers};
use contest::contest::Contest;
use rally_log::entry::Entry;
use roll::Roll;

impl<C: Contest> Match<C> {
    // Calls a rally, to be settled with the same log. Settled next, it is not refused.
    #[tactic(auto, using(crate::proofs::Refusals::fresh_settles, crate::proofs::Refusals::fresh_point_settles))]
    pub fn call(&mut self, log: &Roll<Entry>) -> Result<Rally, CallFault>
        ensures answer { result ≡ call_result (next_rally (state_of C.Contest.standing self.old log.now)) (call_refusal (rules_of C.Contest.pile self.old) (state_of C.Contest.standing self.old log.now)) }
        ensures steps { Steps C.Contest.pile C.Contest.standing self.old log.now self.new log.now (λ r c. left_after r c RallyCall) }
        ensures settles { Settles (rules_of C.Contest.pile self.old) (state_of C.Contest.standing self.new log.now) result }
    {
        if self.pile.winner().is_some() {
            return Err(CallFault::Decided);
        }
        if self.totals.in_play.is_some() {
            return Err(CallFault::RallyOpen);
        }
        self.check_log(log)?;
        let number = self.totals.called + 1;
        self.totals.called = number;
        self.totals.in_play = Some(number);
        Ok(Rally::new(RallyNumbers {
            match_number: self.number,
            number,
        }))
    }
}
