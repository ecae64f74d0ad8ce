ghost use Rattle.std.specs.Prelude.{◌≡◌, ◌+◌, ◌<◌, ◌≤◌, ◌↔◌, Some, None, MatchResult};
ghost use Rattle.contest.specs.Faults.{goal_fault, threshold_allowed};
ghost use Rattle.contest.specs.Goals.{Within, Wins, reaches, winner_by, none_yet, tallied};
ghost use Rattle.contest.specs.Layers.{own_level};

use crate::counts::Counts;
use crate::fault::RuleFault;
use crate::goal::Goal;
use crate::level::Level;
use crate::side::Side;

// The counts of a layer, under its goal. Only one side can be at the cap.
#[derive(Clone, Copy)]
pub(crate) struct Tally {
    goal: Goal,
    counts: Counts,
    ghost allowed: { goal_fault goal ≡ None },
    ghost within: { Within goal counts },
}

impl Tally {
    // No counts yet, under a goal.
    pub(crate) fn new(goal: Goal) -> Result<Tally, RuleFault>
        ensures { MatchResult result (λ t. (goal_fault goal ≡ None) × (t.goal ≡ goal) × (t.counts ≡ none_yet)) (λ e. goal_fault goal ≡ Some e) }
    {
        if !(1..=9999).contains(&goal.target) {
            return Err(RuleFault::Target);
        }
        if !(1..=goal.target).contains(&goal.lead) {
            return Err(RuleFault::Lead);
        }
        if !(goal.target..=9999).contains(&goal.cap) {
            return Err(RuleFault::Cap);
        }
        Ok(Tally {
            goal,
            counts: Counts::default(),
        })
    }

    // A switch may have this threshold under the tally's goal.
    pub(crate) fn allows(&self, threshold: u16) -> bool
        ensures { result ≡ threshold_allowed self.now.goal threshold }
    {
        (1..self.goal.cap).contains(&threshold)
            && (self.goal.lead != 1 || threshold < self.goal.target)
    }

    // A count x against y is at least the target and ahead by the lead, or equal to the cap.
    fn reaches(&self, x: u16, y: u16) -> bool
        ensures { result ≡ reaches self.now.goal x y }
    {
        (x >= self.goal.target && u32::from(x) >= u32::from(y) + u32::from(self.goal.lead))
            || x == self.goal.cap
    }

    // The winner by the counts, which is exactly the side whose count reaches the goal.
    pub(crate) fn winner(&self) -> Option<Side>
        ensures ahead { result ≡ winner_by self.now.goal self.now.counts }
        ensures exactly { (x : Side) → (result ≡ Some x) ↔ Wins self.now.goal x self.now.counts }
    {
        if self.a() > self.b() && self.reaches(self.a(), self.b()) {
            Some(Side::A)
        } else if self.b() > self.a() && self.reaches(self.b(), self.a()) {
            Some(Side::B)
        } else {
            None
        }
    }

    // The counts one by one: a copy of both would be read across the last write to one of them, for which the processor has to wait.
    pub(crate) fn a(&self) -> u16
        ensures { result ≡ self.now.counts.a }
    {
        self.counts.a
    }

    pub(crate) fn b(&self) -> u16
        ensures { result ≡ self.now.counts.b }
    {
        self.counts.b
    }

    // Both counts at 0.
    pub(crate) fn clear(&mut self)
        ensures goal { self.new.goal ≡ self.old.goal }
        ensures counts { self.new.counts ≡ none_yet }
    {
        self.counts = Counts::default();
    }

    // One more for a side. Nobody has won yet, so both counts are below the cap: asked of the two layers and no invariant, since a tally whose
    // counts have a winner is one too.
    pub(crate) fn count(&mut self, side: Side)
        requires { winner_by self.old.goal self.old.counts ≡ None }
        ensures goal { self.new.goal ≡ self.old.goal }
        ensures counts { self.new.counts ≡ tallied self.old.counts side }
    {
        match side {
            Side::A => self.counts.a += 1,
            Side::B => self.counts.b += 1,
        }
    }

    // The level of the layer that has these counts.
    pub(crate) fn level(&self) -> Level
        ensures { result ≡ own_level self.now.goal self.now.counts }
    {
        Level {
            a: self.counts.a,
            b: self.counts.b,
            winner: self.winner(),
        }
    }
}
