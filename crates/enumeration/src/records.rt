// The records of the resolver's three tables.
ghost use Rattle.std.specs.Prelude.{◌≡◌};
ghost use Rattle.enumeration.specs.Blanks.{blank_station, blank_track, blank_candidate};

use ladder::poses::{Pose, PoseNumber};

// The rank of a track among those that end at one pose, from 0.
#[derive(Clone, Copy, PartialEq, Eq, PartialOrd, Ord, Debug, Default)]
pub struct Rank(pub u16);

// A place within the ranked block of one rung. Records point to one another by places: they lie in lent tables, and nothing is allocated.
#[derive(Clone, Copy, PartialEq, Eq, PartialOrd, Ord, Debug, Default)]
pub struct Place(pub u16);

// A back-pointer: which track of the rung before is extended.
#[derive(Clone, Copy, PartialEq, Eq, PartialOrd, Ord, Debug, Default)]
pub struct Back {
    pub pose: PoseNumber,
    pub rank: Rank,
}

// A found track: its cost, the pose where it ends and its rank there, the track that it extends and where that one lies
// in the block of the rung before, and where the next rank at the same pose lies, once that is found:
// how many are found says so, so `after` is no `Option`.
#[derive(Clone, Copy, PartialEq, Eq, Debug)]
pub struct Ranked<C> {
    pub cost: C,
    pub pose: PoseNumber,
    pub rank: Rank,
    pub back: Back,
    pub front: Place,
    pub after: Place,
}

// A candidate for the next rank at a pose: its cost there, the cost of the track that it extends (its front), which one that is,
// and where that one lies.
#[derive(Clone, Copy, PartialEq, Eq, Debug)]
pub struct Candidate<C> {
    pub whole: C,
    pub front: C,
    pub back: Back,
    pub place: Place,
}

// A pose of a rung: how many candidates wait at it, how many ranks are found there and where the last of them lies, and whether the
// successor of that one's front has yet to be entered as a candidate. `found` says whether `last` means
// anything, which an `Option` would say again; `pending` says what is still to be done, and no value goes with it.
#[derive(Clone, Copy, PartialEq, Eq, Debug, Default)]
pub struct Station {
    pub pose: Pose,
    pub waiting: u8,
    pub found: u16,
    pub last: Place,
    pub pending: bool,
}

// How many poses a rung has, and how many places of its ranked block are in use.
#[derive(Clone, Copy, PartialEq, Eq, Debug, Default)]
pub struct Extent {
    pub poses: u8,
    pub ranked: u16,
}

impl Station {
    // A station to fill a new table with; what it holds plays no part. The three fillers go by one name, and a cost has no default.
    pub fn blank() -> Station
        ensures { result ≡ blank_station }
    {
        Station::default()
    }
}

impl<C> Ranked<C> {
    // A ranked place to fill a new table with; what it holds plays no part.
    pub fn blank(cost: C) -> Ranked<C>
        ensures { result ≡ blank_track cost }
    {
        Ranked {
            cost,
            pose: PoseNumber(0),
            rank: Rank(0),
            back: Back::default(),
            front: Place(0),
            after: Place(0),
        }
    }
}

impl<C: Copy> Candidate<C> {
    // A candidate place to fill a new table with; what it holds plays no part.
    pub fn blank(cost: C) -> Candidate<C>
        ensures { result ≡ blank_candidate cost }
    {
        Candidate {
            whole: cost,
            front: cost,
            back: Back::default(),
            place: Place(0),
        }
    }
}
