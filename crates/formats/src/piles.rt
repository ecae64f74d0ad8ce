ghost use Rattle.std.specs.Prelude.{◌≤◌};
ghost use Rattle.contest.specs.Built.{race_pile, race_standing, switch_pile, switch_standing, Opened};
ghost use Rattle.contest.specs.Service.{stay, turn, to_winner, carry, pairs, twos};
ghost use Rattle.formats.specs.Models.{rallies_pile, rallies_standing, sets_pile, sets_standing, hands_pile, hands_standing};
ghost use Rattle.formats.specs.Table as table;

use contest::contest::Contest;
use contest::goal::Goal;
use contest::hand::Hand;
use contest::race::Race;
use contest::rally::Rally;
use contest::service::Service;
use contest::service::rules::{Carry, Pairs, Stay, Turn, Twos, Winner};
use contest::switch::Switch;

// A game of tennis: its opener serves throughout.
pub type Game = Race<Rally, Stay>;

// A tie-break of tennis: one point is served, then two by each side in turn.
pub type TieBreak = Race<Rally, Pairs>;

// A set of tennis: games, and a tie-break at six all.
pub type Set = Switch<Game, TieBreak, Turn>;

// A race in which the winner of a rally serves the next.
pub type RallyScored = Race<Rally, Winner>;

// A tennis match of sets.
pub type Tennis = Race<Set, Carry>;

// A tennis match whose last set is a tie-break.
pub type TennisMt = Switch<Set, TieBreak, Carry>;

pub type Badminton = Race<RallyScored, Winner>;

pub type Volleyball = Switch<RallyScored, RallyScored, Turn>;

pub type Table5 = Race<Race<Rally, Twos>, Turn>;

pub type SideOut = Race<Race<Hand, Winner>, Winner>;

// The cap of a race that goes on until one side leads.
const NO_CAP: u16 = 9999;

// A race over rallies to `target` by two.
fn by_two<P: Service + Drop>(target: u16, service: P) -> Race<Rally, P>
    requires enough { 2 ≤ target }
    requires allowed { target ≤ 9999 }
    ensures { Opened (race_pile (λ _. table.rally) P.Service.rule) rallies_standing (table.R target 2 9999 (P.Service.rule service) table.rally) result }
{
    Race::new(Goal::new(target, 2, NO_CAP), service, Rally::new()).unwrap()
}

// A race that a side wins with its `wins`th contest below, whatever the other has won.
fn first_to<C: Contest + Drop, P: Service + Drop>(wins: u16, service: P, below: C) -> Race<C, P>
    requires enough { 1 ≤ wins }
    requires allowed { wins ≤ 9999 }
    ensures { Opened (race_pile C.Contest.pile P.Service.rule) (race_standing C.Contest.standing) (table.R wins 1 wins (P.Service.rule service) (C.Contest.pile below)) result }
{
    Race::new(Goal::new(wins, 1, wins), service, below).unwrap()
}

pub fn game() -> Game
    ensures { Opened (rallies_pile stay) rallies_standing table.game result }
{
    by_two(4, Stay)
}

pub fn set() -> Set
    ensures { Opened (sets_pile stay pairs turn) sets_standing table.set result }
{
    Switch::new(Goal::new(6, 2, 7), 6, Turn, game(), by_two(7, Pairs)).unwrap()
}

pub fn tennis3() -> Tennis
    ensures { Opened (race_pile (sets_pile stay pairs turn) (λ _. carry)) (race_standing sets_standing) table.tennis3 result }
{
    first_to(2, Carry, set())
}

pub fn tennis5() -> Tennis
    ensures { Opened (race_pile (sets_pile stay pairs turn) (λ _. carry)) (race_standing sets_standing) table.tennis5 result }
{
    first_to(3, Carry, set())
}

pub fn tennismt() -> TennisMt
    ensures { Opened (switch_pile (sets_pile stay pairs turn) (rallies_pile pairs) (λ _. carry)) (switch_standing sets_standing rallies_standing) table.tennismt result }
{
    Switch::new(Goal::new(2, 1, 2), 1, Carry, set(), by_two(10, Pairs)).unwrap()
}

pub fn badminton() -> Badminton
    ensures { Opened (race_pile (rallies_pile to_winner) (λ _. to_winner)) (race_standing rallies_standing) table.badminton result }
{
    let game = Race::new(Goal::new(21, 2, 30), Winner, Rally::new()).unwrap();
    first_to(2, Winner, game)
}

pub fn volleyball() -> Volleyball
    ensures { Opened (sets_pile to_winner to_winner turn) sets_standing table.volleyball result }
{
    let set = by_two(25, Winner);
    let fifth = by_two(15, Winner);
    Switch::new(Goal::new(3, 1, 3), 2, Turn, set, fifth).unwrap()
}

pub fn table5() -> Table5
    ensures { Opened (race_pile (rallies_pile twos) (λ _. turn)) (race_standing rallies_standing) table.table5 result }
{
    first_to(3, Turn, by_two(11, Twos))
}

pub fn sideout() -> SideOut
    ensures { Opened (race_pile (hands_pile to_winner) (λ _. to_winner)) (race_standing hands_standing) table.sideout result }
{
    first_to(2, Winner, first_to(15, Winner, Hand::new()))
}
