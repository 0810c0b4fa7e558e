// What holds of the directions and of an arm's offers. A call does nothing: its contract is the theorem.
ghost use Rattle.sources.specs.Cases.{Worked};
ghost use Rattle.sources.specs.Directions.{sine, Circle};
ghost use Rattle.sources.specs.Offers.{OneList};

// The sines keep the rules of the circle.
pub fn directions_stand()
    ensures { Circle sine }
{}

// No two lists are what an arm offers for a position.
pub fn offers_are_unique()
    ensures { OneList }
{}

// The worked cases hold of the definitions.
pub fn arm_worked()
    ensures { Worked }
{}
