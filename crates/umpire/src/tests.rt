use crate::calls::{Answer, Call};
use crate::matches::Match;
use crate::play::play;
use crate::rally::{CallFault, RallyNumbers};
use contest::rally::Rally;
use contest::side::Side;
use rally_log::entry::Entry;
use roll::Roll;

// A match that is one rally, after a let.
#[test]
fn a_let_and_a_point(rt: HostRuntime) {
    let mut places = [Entry::Let; 3];
    let mut log = Roll::new(&mut places);
    let mut answer_places = [Answer::Settled; 7];
    let mut answers = Roll::new(&mut answer_places);
    let calls = [
        Call::Rally,
        Call::Let(numbers(7, 1)),
        Call::Rally,
        Call::Rally,
        Call::Point(Side::B, numbers(8, 2)),
        Call::Point(Side::A, numbers(7, 2)),
        Call::Rally,
        Call::Totals,
    ];
    let played = play(7, Rally::new(), Side::A, &mut log, &calls, &mut answers);
    assert_eq!(rt; played.totals.called, 2);
    assert_eq!(rt; played.totals.a, 1);
    assert_eq!(rt; played.totals.b, 0);
    assert_eq!(rt; played.totals.lets, 1);
    assert_eq!(rt; log.len(), 2);
    assert_eq!(rt; answers.len(), 7);
    assert_eq!(rt; refusal(answers.get(3)), Some(7));
    assert_eq!(rt; refusal(answers.get(4)), Some(10));
    assert_eq!(rt; refusal(answers.get(5)), None);
    assert_eq!(rt; refusal(answers.get(6)), Some(6));
}

// A log with one place, and then a log that another match may have written.
#[test]
fn logs_that_are_refused(rt: HostRuntime) {
    let mut places = [Entry::Let; 1];
    let mut log = Roll::new(&mut places);
    let mut ongoing = Match::new(7, Rally::new(), Side::A);
    assert_eq!(rt; number(ongoing.call_and_settle(&mut log, Entry::Let)), None);
    assert_eq!(rt;
        number(ongoing.call_and_settle(&mut log, Entry::Let)),
        Some(9)
    );
    log.clear();
    assert_eq!(rt;
        number(ongoing.call_and_settle(&mut log, Entry::Let)),
        Some(8)
    );
}

fn numbers(match_number: u16, number: u16) -> RallyNumbers {
    RallyNumbers {
        match_number,
        number,
    }
}

// The number of a refusal, if it is one.
fn refusal(answer: Option<Answer>) -> Option<u8> {
    match answer {
        Some(Answer::Refused(fault)) => Some(fault.number()),
        _ => None,
    }
}

fn number(res: Result<(), CallFault>) -> Option<u8> {
    res.err().map(CallFault::number)
}
