// Cases worked by hand.
ghost use Rattle.filters.specs.Cases.{Worked};

// The worked cases hold of the definitions. A call does nothing: its contract is the theorem.
pub fn reversals_worked()
    ensures { Worked }
{}
