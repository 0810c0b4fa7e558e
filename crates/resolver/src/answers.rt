// What the calls answer.
ghost use Rattle.std.specs.Prelude.{◌≡◌};
ghost use Rattle.resolver.specs.Answers.{number};

// Why a call is refused: the question that got a no, by its number.
#[derive(Clone, Copy, PartialEq, Eq, Debug)]
pub enum Refusal {
    // the rung limit is not 1 to 128, or the ration not 1 to 4,096
    OutOfRange = 1,
    // a table is too short
    ShortTable = 2,
    // the ladder is closed
    Closed = 3,
    // there are as many rungs as the limit allows
    NoRungLeft = 4,
    // the source has no pose for the waypoint
    NoPose = 5,
    // the source has more than 16 poses for the waypoint
    TooManyPoses = 6,
    // the ladder is not closed
    StillOpen = 7,
    // the output has fewer places than there are rungs
    ShortOutput = 8,
    // as many tracks are taken as the ration allows
    RationSpent = 9,
    // no admissible track is untaken
    NoTrackLeft = 10,
}

impl Refusal {
    // The number of the question. Each crate numbers its own; a trait for one cast would be no plainer.
    pub fn number(self) -> u8
        ensures { result ≡ number self }
    {
        self as u8
    }
}

// A track that was taken: its number in the list, from 1, and its cost.
#[derive(Clone, Copy, PartialEq, Eq, Debug)]
pub struct Taken<C> {
    pub number: usize,
    pub cost: C,
}
