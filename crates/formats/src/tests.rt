// The numbers that a layer's rules may have: at each bound, one that is allowed and one that is refused.
use crate::piles::game;
use contest::fault::RuleFault;
use contest::goal::Goal;
use contest::race::Race;
use contest::rally::Rally;
use contest::service::rules::Stay;
use contest::switch::Switch;

// The number of the refusal of such a race, where it is refused.
fn race(target: u16, lead: u16, cap: u16) -> Option<u8> {
    let goal = Goal::new(target, lead, cap);
    let race = Race::new(goal, Stay, Rally::new());
    race.err().map(RuleFault::number)
}

// The same of a switch.
fn switch(target: u16, lead: u16, cap: u16, threshold: u16) -> Option<u8> {
    let goal = Goal::new(target, lead, cap);
    let switch = Switch::new(goal, threshold, Stay, game(), game());
    switch.err().map(RuleFault::number)
}

#[test]
fn targets(rt: HostRuntime) {
    assert_eq!(rt; race(0, 1, 1), Some(1));
    assert_eq!(rt; race(1, 1, 1), None);
    assert_eq!(rt; race(9999, 1, 9999), None);
    assert_eq!(rt; race(10_000, 1, 10_000), Some(1));
}

#[test]
fn leads(rt: HostRuntime) {
    assert_eq!(rt; race(4, 0, 9), Some(2));
    assert_eq!(rt; race(4, 4, 9), None);
    assert_eq!(rt; race(4, 5, 9), Some(2));
}

#[test]
fn caps(rt: HostRuntime) {
    assert_eq!(rt; race(4, 2, 3), Some(3));
    assert_eq!(rt; race(4, 2, 4), None);
    assert_eq!(rt; race(4, 2, 10_000), Some(3));
    assert_eq!(rt; race(0, 0, 10_000), Some(1));
    assert_eq!(rt; race(4, 0, 3), Some(2));
}

#[test]
fn thresholds(rt: HostRuntime) {
    assert_eq!(rt; switch(6, 2, 7, 0), Some(4));
    assert_eq!(rt; switch(6, 2, 7, 6), None);
    assert_eq!(rt; switch(6, 2, 7, 7), Some(4));
    assert_eq!(rt; switch(3, 1, 5, 2), None);
    assert_eq!(rt; switch(3, 1, 5, 3), Some(4));
    assert_eq!(rt; switch(0, 2, 7, 7), Some(1));
}
