// Poses of an arm with two joints, and the moves between them. `Pose`, `Turns` and `Limits` each hold a value for each joint; they are types of their
// own, and not one with a parameter, so that no turns can stand for limits.
ghost use Rattle.std.specs.Prelude.{◌≡◌};
ghost use Rattle.ladder.specs.Moves.{turns, within};

// The detent counts of the two joints.
#[derive(Clone, Copy, PartialEq, Eq, Debug, Default)]
pub struct Pose {
    pub shoulder: i16,
    pub elbow: i16,
}

// The number of a pose within its rung, from 0.
#[derive(Clone, Copy, PartialEq, Eq, PartialOrd, Ord, Debug, Default)]
pub struct PoseNumber(pub u8);

// A pose number with its pose.
#[derive(Clone, Copy, PartialEq, Eq, Debug, Default)]
pub struct Step {
    pub number: PoseNumber,
    pub pose: Pose,
}

// How far each joint turns in one move.
#[derive(Clone, Copy, PartialEq, Eq, Debug)]
pub struct Turns {
    pub shoulder: u16,
    pub elbow: u16,
}

// How far each joint may turn in one move.
#[derive(Clone, Copy, PartialEq, Eq, Debug)]
pub struct Limits {
    pub shoulder: u16,
    pub elbow: u16,
}

impl Turns {
    // The turns of the move from one pose to another. Counts do not wrap.
    pub fn between(from: Pose, to: Pose) -> Turns
        ensures { result ≡ turns from to }
    {
        Turns {
            shoulder: from.shoulder.abs_diff(to.shoulder),
            elbow: from.elbow.abs_diff(to.elbow),
        }
    }
}

impl Limits {
    // Whether a move that turns the joints so far is admissible.
    pub fn allow(self, turned: Turns) -> bool
        ensures { result ≡ within self turned }
    {
        turned.shoulder <= self.shoulder && turned.elbow <= self.elbow
    }
}
