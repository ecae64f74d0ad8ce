ghost use Rattle.std.specs.Prelude.{◌≡◌};
ghost use Rattle.contest.specs.Goals.{goal};

// How a layer is won: by the target with the lead, or by the cap whatever the lead.
#[derive(Clone, Copy, PartialEq, Eq, Debug)]
pub struct Goal {
    pub target: u16,
    pub lead: u16,
    pub cap: u16,
}

impl Goal {
    // To `target` by `lead`, capped at `cap`.
    pub fn new(target: u16, lead: u16, cap: u16) -> Goal
        ensures { result ≡ goal target lead «cap» }
    {
        Goal { target, lead, cap }
    }
}
