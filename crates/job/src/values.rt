use ladder::poses::{Limits, Pose};

// The ladder's limits, by their name in a job.
pub type StepLimits = Limits;

// The ladder's pose, by its name in a pose list.
pub type Counts = Pose;

// The arm's two link lengths and the half side of the window around a position.
#[derive(Clone, Copy, PartialEq, Eq, Debug)]
pub struct Arm {
    pub first: u16,
    pub second: u16,
    pub window: u16,
}

// Where a waypoint lies on the board.
#[derive(Clone, Copy, PartialEq, Eq, Debug, Default)]
pub struct Position {
    pub x: i16,
    pub y: i16,
}
