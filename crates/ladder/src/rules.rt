// What a cost is, and what it owes.
ghost use Rattle.std.specs.Prelude.{◌≡◌};
ghost use Rattle.ladder.specs.Rules.{Rules, Lawful, Keeps};

use crate::poses::Turns;
use std::cmp::Ordering;

// The costs of tracks. A value of the type is a cost; the calls answer by the rules, refuse nothing, and the rules are lawful.
pub trait Cost: Copy {
    type Price;

    ghost rules: { Rules Self Self.Price };

    // The letter that stands for the cost in print.
    const LETTER: u8;

    // `LETTER`, as contracts name it: `rules.letter`. A cost gives both itself: a constant that the trait ties to its rules by a law would ask for a number and a
    // proof more of each cost.
    fn letter_byte() -> u8
        ensures { result ≡ rules.letter };

    // The cost of a track of one rung.
    fn zero() -> Self
        ensures { result ≡ rules.zero };

    // The price of a move.
    fn price(turns: Turns) -> Self::Price
        ensures { result ≡ rules.price turns };

    // The cost of a track and one move more.
    fn join(self, price: Self::Price) -> Self
        ensures { result ≡ rules.join self price };

    // Which of two costs is the lower. It orders the costs that tracks reach, and owes nothing of others, so it is not `Ord`.
    fn compare(self, other: Self) -> Ordering
        ensures { result ≡ rules.compare self other };

    ghost lawful: { Lawful rules };
}

// A cost of which the lower stays the lower when both are joined with one price.
pub trait Keeping: Cost {
    ghost keeps: { Keeps Self.Cost.rules };
}
