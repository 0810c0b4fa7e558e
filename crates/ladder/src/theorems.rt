// What holds of every ladder and every cost. A call does nothing: its contract is the theorem.
ghost use Rattle.ladder.specs.Rules.{Lawful, Keeps};
ghost use Rattle.ladder.specs.Costs.{travel, worst, pair, NeverSaturates, KeepingIsNeeded};
ghost use Rattle.ladder.specs.Listed.{OneList};
ghost use Rattle.ladder.specs.Plain.{CostIsFold, AdmissibleIsMoves};
ghost use Rattle.ladder.specs.Ranking.{RanksMerge, ListMerges};
ghost use Rattle.ladder.specs.Cases.{Worked};

use crate::rules::{Cost, Keeping};

// Travel and the worst step are lawful, and so is every pair of a keeping cost and a cost; travel keeps.
pub fn costs_are_lawful<A: Keeping, B: Cost>()
    ensures lawful_travel { Lawful travel }
    ensures keeping_travel { Keeps travel }
    ensures lawful_worst { Lawful worst }
    ensures lawful_pair { Lawful (pair A.Cost.rules B.Cost.rules) }
{}

// The travel of up to 128 rungs is a plain sum: it never comes near the greatest 32-bit number.
pub fn travel_never_saturates()
    ensures { NeverSaturates }
{}

// The worst step does not keep, and first in a pair it breaks the laws: why a pair asks for a keeping first cost.
pub fn keeping_is_needed()
    ensures { KeepingIsNeeded }
{}

// The peel order is a total order of a ladder's admissible tracks, and the ladder has one list, which `tracks_of` computes.
pub fn each_ladder_has_one_list<C: Cost>()
    ensures { OneList C.Cost.rules }
{}

// A track's cost is zero joined with the prices of its moves in track order.
pub fn cost_is_the_fold_over_the_moves<C: Cost>()
    ensures { CostIsFold C.Cost.rules }
{}

// A track is admissible exactly when all its moves in track order are within the limits.
pub fn admissible_is_every_move_within_the_limits()
    ensures { AdmissibleIsMoves }
{}

// The tracks that end at a pose, by rank, are the merge of its predecessors' tracks under the candidate order.
pub fn ranks_are_merged_from_the_rung_before<C: Cost>()
    ensures { RanksMerge C.Cost.rules }
{}

// The list of a ladder is the merge of the tracks that end at the poses of its last rung.
pub fn list_is_merged_from_the_last_rung<C: Cost>()
    ensures { ListMerges C.Cost.rules }
{}

// Ladders worked by hand have the lists that they should.
pub fn worked_ladders()
    ensures { Worked }
{}
