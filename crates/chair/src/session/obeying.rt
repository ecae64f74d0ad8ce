ghost use Rattle.std.specs.Prelude.{◌≡◌, None};
ghost use Rattle.contest.specs.Piles.{contest_of};
ghost use Rattle.umpire.specs.Calls.{opened};
ghost use Rattle.umpire.specs.States.{places_of};
ghost use Rattle.rally_log.specs.declared.entry.Entry.TheVariants.{Let as LetEntry};
ghost use Rattle.chair.specs.declared.command.Command.TheVariants.{Rally as RallyCommand, Settle as SettleCommand};
ghost use Rattle.chair.specs.Sessions.{session_state, logged, Did, close_reply, left_at_close, Grows};

use super::Session;
use super::reply::Reply;
use crate::command::Command;
use contest::contest::Contest;
use contest::side::Side;
use rally_log::entry::Entry;
use roll::Roll;
use umpire::matches::Match;
use umpire::rally::{CallFault, Unsettled};

impl<'a, 'b, C: Contest> Session<'a, 'b, C> {
    // Opens a match with this number over the pile, for `opener`. The log is emptied.
    pub fn new(
        number: u16,
        pile: C,
        opener: Side,
        log: &'a mut Roll<'b, Entry>,
    ) -> Session<'a, 'b, C>
        ensures kept { C.Contest.pile result.ongoing.pile ≡ C.Contest.pile pile }
        ensures opened { session_state C.Contest.standing result ≡ opened (contest_of (C.Contest.pile pile)) number opener (places_of log.old) }
        ensures held { result.held ≡ None }
    {
        log.clear();
        Session {
            ongoing: Match::new(number, pile, opener),
            log,
            held: None,
        }
    }

    // The match.
    pub fn ongoing(&self) -> &Match<C>
        ensures { result.now ≡ self.now.ongoing }
    {
        &self.ongoing
    }

    // Calls a rally.
    fn call(&mut self) -> Reply
        ensures { Did C.Contest.pile C.Contest.standing self.old self.new RallyCommand result }
    {
        match self.ongoing.call(self.log) {
            Ok(rally) => match self.held.replace(rally) {
                None => Reply::Called,
                Some(_other) => unreachable!(),
            },
            Err(fault) => Reply::Refused(fault),
        }
    }

    // Settles the held rally. One that is not settled is held again.
    fn settle(&mut self, outcome: Entry) -> Reply
        ensures { Did C.Contest.pile C.Contest.standing self.old self.new (SettleCommand outcome) result }
    {
        let Some(rally) = self.held.take() else {
            return Reply::Refused(CallFault::OtherRally);
        };
        match self.ongoing.settle(self.log, rally, outcome) {
            Ok(()) => Reply::Settled(outcome),
            Err(Unsettled { rally, fault }) => match self.held.replace(rally) {
                None => Reply::Refused(fault),
                Some(_other) => unreachable!(),
            },
        }
    }

    // Does what the umpire says.
    pub fn obey(&mut self, command: Command) -> Reply
        ensures did { Did C.Contest.pile C.Contest.standing self.old self.new command result }
        ensures grows { Grows (logged self.old) (logged self.new) result }
    {
        match command {
            Command::Rally => self.call(),
            Command::Settle(outcome) => self.settle(outcome),
            Command::Score | Command::Quit => Reply::Asked,
        }
    }

    // Settles the rally that is open as a let, if one is.
    pub fn close(&mut self) -> Reply
        ensures kept { C.Contest.pile self.new.ongoing.pile ≡ C.Contest.pile self.old.ongoing.pile }
        ensures reply { result ≡ close_reply self.old.held }
        ensures after { session_state C.Contest.standing self.new ≡ left_at_close (session_state C.Contest.standing self.old) self.old.held }
        ensures held { self.new.held ≡ None }
        ensures grows { Grows (logged self.old) (logged self.new) result }
    {
        let Some(rally) = self.held.take() else {
            return Reply::Asked;
        };
        match self.ongoing.settle_let(self.log, rally) {
            Ok(()) => Reply::Settled(Entry::Let),
            Err(_unsettled) => unreachable!(),
        }
    }
}
