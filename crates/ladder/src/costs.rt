// The costs: travel, the worst step, and pairs.
ghost use Rattle.std.specs.Prelude.{◌≡◌};
ghost use Rattle.ladder.specs.Costs.{travel, worst, pair};
ghost use Rattle.ladder.specs.Laws.{travel_lawful, travel_keeps, worst_lawful, pair_lawful};

use crate::poses::Turns;
use crate::rules::{Cost, Keeping};
use std::cmp::Ordering;

// The sum of all turns.
#[derive(Clone, Copy, PartialEq, Eq, PartialOrd, Ord, Debug)]
pub struct Travel {
    pub total: u32,
}

impl Cost for Travel {
    type Price = u32;

    ghost rules = { travel };

    const LETTER: u8 = b'T';

    ghost lawful = { travel_lawful };

    fn letter_byte() -> u8 {
        Self::LETTER
    }

    fn zero() -> Travel {
        Travel { total: 0 }
    }

    fn price(turns: Turns) -> u32 {
        turns.shoulder as u32 + turns.elbow as u32
    }

    fn join(self, price: u32) -> Travel {
        Travel {
            total: self.total.saturating_add(price),
        }
    }

    fn compare(self, other: Travel) -> Ordering {
        Ord::cmp(&self, &other)
    }
}

impl Keeping for Travel {
    ghost keeps = { travel_keeps };
}

// The largest turn of a joint in one move.
#[derive(Clone, Copy, PartialEq, Eq, PartialOrd, Ord, Debug)]
pub struct Worst {
    pub turn: u16,
}

impl Cost for Worst {
    type Price = u16;

    ghost rules = { worst };

    const LETTER: u8 = b'W';

    ghost lawful = { worst_lawful };

    fn letter_byte() -> u8 {
        Self::LETTER
    }

    fn zero() -> Worst {
        Worst { turn: 0 }
    }

    fn price(turns: Turns) -> u16 {
        turns.shoulder.max(turns.elbow)
    }

    fn join(self, price: u16) -> Worst {
        Worst {
            turn: self.turn.max(price),
        }
    }

    fn compare(self, other: Worst) -> Ordering {
        self.cmp(&other)
    }
}

// A keeping cost first, and any second cost, which counts where the firsts are the same.
#[derive(Clone, Copy, PartialEq, Eq, Debug)]
pub struct Pair<A, B> {
    pub first: A,
    pub second: B,
}

// The letter of a pair. In a generic impl `Self::LETTER` has no known value, and this has.
const PAIR: u8 = b'P';

impl<A: Keeping, B: Cost> Cost for Pair<A, B> {
    type Price = (A::Price, B::Price);

    ghost rules = { pair A.Cost.rules B.Cost.rules };

    const LETTER: u8 = PAIR;

    ghost lawful = { pair_lawful A.Cost.rules B.Cost.rules A.Cost.lawful A.Keeping.keeps B.Cost.lawful };

    fn letter_byte() -> u8 {
        PAIR
    }

    fn zero() -> Pair<A, B> {
        Pair {
            first: A::zero(),
            second: B::zero(),
        }
    }

    fn price(turns: Turns) -> (A::Price, B::Price) {
        (A::price(turns), B::price(turns))
    }

    fn join(self, price: (A::Price, B::Price)) -> Pair<A, B> {
        Pair {
            first: self.first.join(price.0),
            second: self.second.join(price.1),
        }
    }

    // A cost orders the reached costs alone, so a pair of costs has no `Ord` to derive.
    fn compare(self, other: Pair<A, B>) -> Ordering {
        self.first
            .compare(other.first)
            .then(self.second.compare(other.second))
    }
}
