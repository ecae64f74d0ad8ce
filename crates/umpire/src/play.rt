ghost use Rattle.std.specs.Prelude.{◌≡◌};
ghost use Rattle.umpire.specs.Calls.{answer_to, left_after};
ghost use Rattle.umpire.specs.Matches.{WholeMatch};
ghost use Rattle.umpire.specs.States.{state_of, rules_of, Steps};

use crate::calls::{Answer, Call, Played};
use crate::matches::Match;
use crate::rally::{Rally, Unsettled};
use contest::contest::Contest;
use contest::side::Side;
use rally_log::entry::Entry;
use roll::Roll;

// Makes one call. A rally to be settled is made from its numbers.
fn make_call<C: Contest>(ongoing: &mut Match<C>, log: &mut Roll<Entry>, call: Call) -> Answer
    ensures answer { result ≡ answer_to (rules_of C.Contest.pile ongoing.old) (state_of C.Contest.standing ongoing.old log.old) call }
    ensures steps { Steps C.Contest.pile C.Contest.standing ongoing.old log.old ongoing.new log.new (λ r c. left_after r c call) }
{
    match call {
        Call::Rally => ongoing.call(log).map(Rally::spend).into(),
        Call::Point(side, numbers) => {
            let res = ongoing.settle_point(log, Rally::new(numbers), side);
            res.map_err(Unsettled::spend).into()
        }
        Call::Let(numbers) => {
            let res = ongoing.settle_let(log, Rally::new(numbers));
            res.map_err(Unsettled::spend).into()
        }
        Call::Winner => Answer::Winner(ongoing.winner()),
        Call::Server => Answer::Server(ongoing.server()),
        Call::Level(depth) => Answer::Level(ongoing.level(depth)),
        Call::Totals => Answer::Totals(ongoing.totals()),
    }
}

// Plays a whole match: empties both rolls, opens the match, makes the calls in turn, as many as there are places for their
// answers, and ends the match.
pub fn play<C: Contest>(
    number: u16,
    pile: C,
    opener: Side,
    log: &mut Roll<Entry>,
    calls: &[Call],
    answers: &mut Roll<Answer>,
) -> Played<C>
    ensures { WholeMatch C.Contest.pile C.Contest.standing (C.Contest.pile pile) number opener calls.now log.old log.new answers.old answers.new result }
{
    log.clear();
    answers.clear();
    let mut ongoing = Match::new(number, pile, opener);
    let count = answers.capacity().min(calls.len());
    for call in &calls[..count] {
        answers.push(make_call(&mut ongoing, log, *call)).unwrap();
    }
    let totals = ongoing.totals();
    Played {
        pile: ongoing.end(),
        totals,
    }
}
