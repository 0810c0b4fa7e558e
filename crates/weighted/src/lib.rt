// A cost of its own, made outside the crate of the costs: turns of the shoulder, which carries the whole arm, count three times.
#![tactic(auto)]

ghost use Rattle.weighted.specs.Weighing.{weighing};
ghost use Rattle.weighted.specs.Weighs.{weighing_lawful, weighing_keeps};

use ladder::poses::Turns;
use ladder::rules::{Cost, Keeping};
use std::cmp::Ordering;

// How often a turn of the shoulder counts.
const SHOULDER: u32 = 3;

// The weighted sum of all turns. It is made as travel is, with another factor, and stays a type of its own: it shows that a cost can be made outside.
#[derive(Clone, Copy, PartialEq, Eq, PartialOrd, Ord, Debug)]
pub struct Weighted {
    pub total: u32,
}

impl Cost for Weighted {
    type Price = u32;

    ghost rules = { weighing };

    const LETTER: u8 = b'S';

    ghost lawful = { weighing_lawful };

    fn letter_byte() -> u8 {
        Self::LETTER
    }

    fn zero() -> Weighted {
        Weighted { total: 0 }
    }

    fn price(turns: Turns) -> u32 {
        SHOULDER * turns.shoulder as u32 + turns.elbow as u32
    }

    fn join(self, price: u32) -> Weighted {
        Weighted {
            total: self.total.saturating_add(price),
        }
    }

    fn compare(self, other: Weighted) -> Ordering {
        self.cmp(&other)
    }
}

impl Keeping for Weighted {
    ghost keeps = { weighing_keeps };
}

#[cfg(test)]
mod tests {
    use super::*;
    use ladder::costs::{Pair, Worst};

    #[test]
    fn shoulder_counts_three_times(rt: HostRuntime) {
        let cost = Weighted::zero().join(Weighted::price(Turns {
            shoulder: 2,
            elbow: 5,
        }));
        assert_eq!(rt; cost.total, 11);
        assert_eq!(rt; Weighted::letter_byte(), b'S');
    }

    // As the first of a pair it decides before the worst step.
    #[test]
    fn leads_a_pair(rt: HostRuntime) {
        let zero = Pair::<Weighted, Worst>::zero();
        let high = zero.join(Pair::<Weighted, Worst>::price(Turns {
            shoulder: 4,
            elbow: 0,
        }));
        let low = zero.join(Pair::<Weighted, Worst>::price(Turns {
            shoulder: 0,
            elbow: 9,
        }));
        assert!(rt; low.compare(high).is_lt());
        assert!(rt; high.second.compare(low.second).is_lt());
    }
}
