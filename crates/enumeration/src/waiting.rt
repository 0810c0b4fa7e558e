// The order of the candidates that wait at a pose, and how one is made.
ghost use Rattle.std.specs.Prelude.{◌≡◌};
ghost use Rattle.enumeration.specs.Waiting.{ReachedBoth, earlier, extended};

use crate::records::{Back, Candidate, Place, Ranked};
use heap::Ordered;
use ladder::poses::{Limits, Pose, Turns};
use ladder::rules::Cost;

// By `compare` of the costs, which orders reached costs alone: an `Ord` cannot be derived.
impl<C: Cost> Ordered for Candidate<C> {
    ghost valid = { ReachedBoth C.Cost.rules };

    ghost before = { earlier C.Cost.rules };

    fn is_before(self, other: Candidate<C>) -> bool {
        self.whole
            .compare(other.whole)
            .then(self.front.compare(other.front))
            .then(self.back.cmp(&other.back))
            .is_lt()
    }
}

// The candidate at pose `to` that extends the track `front`, which ends at pose `from` and lies at `place`; none where the move is not admissible.
pub fn extension<C: Cost>(
    limits: Limits,
    from: Pose,
    to: Pose,
    front: Ranked<C>,
    place: Place,
) -> Option<Candidate<C>>
    ensures { result ≡ extended C.Cost.rules limits from to front place }
{
    let turns = Turns::between(from, to);
    limits.allow(turns).then(|| Candidate {
        whole: front.cost.join(C::price(turns)),
        front: front.cost,
        back: Back {
            pose: front.pose,
            rank: front.rank,
        },
        place,
    })
}
