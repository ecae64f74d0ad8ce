ghost use Rattle.formats.specs.Cases.{AsTheRuleBooksSay};

// The cases that decide: at each of them the definitions of the piles answer what the rule books say.
pub fn deciding_cases()
    ensures { AsTheRuleBooksSay }
{}
