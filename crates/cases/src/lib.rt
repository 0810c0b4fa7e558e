// The cases worked by hand, all as one result.
#![tactic(auto)]

ghost use Rattle.cases.specs.Worked.{AllWorked};

// The definitions of lists, costs, arms, filters and the book give what the worked cases say.
pub fn worked_cases()
    ensures { AllWorked }
{}
