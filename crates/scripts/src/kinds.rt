// The sources and the filters that a script can name, each kind in one type.
ghost use Rattle.std.specs.Prelude.{◌≡◌};
ghost use Rattle.scripts.specs.Kinds.{offered, judged};

use filters::{Envelope, Filter, TurnCount};
use ladder::poses::{Pose, Step};
use sources::{Armed, Source, Tabled};

// Which source of a job file is asked.
#[derive(Clone, Copy, PartialEq, Eq, Debug)]
pub enum Kind {
    Listed,
    Reached,
}

// The two sources of a job file, of which one is asked. A struct: an enum of the two would hold their jobs' arrays, which no proof covers.
#[derive(Drop)]
pub struct Offers<'a> {
    kind: Kind,
    listed: Tabled<'a>,
    reached: Armed<'a>,
}

impl<'a> Offers<'a> {
    // A source of a file, which may be any bytes.
    pub(crate) fn new(kind: Kind, file: &'a [u8]) -> Offers<'a>
        ensures { result.kind ≡ kind }
    {
        Offers {
            kind,
            listed: Tabled::new(file),
            reached: Armed::new(file),
        }
    }
}

impl<'a> Source for Offers<'a> {
    ghost meaning = { offered };

    fn count(&mut self, waypoint: u16) -> usize {
        match self.kind {
            Kind::Listed => self.listed.count(waypoint),
            Kind::Reached => self.reached.count(waypoint),
        }
    }

    fn pose(&mut self, waypoint: u16, number: usize) -> Option<Pose> {
        match self.kind {
            Kind::Listed => self.listed.pose(waypoint, number),
            Kind::Reached => self.reached.pose(waypoint, number),
        }
    }
}

// A filter.
#[derive(Clone, Copy)]
pub enum Judge {
    Within(Envelope),
    Turns(TurnCount),
}

impl Filter for Judge {
    ghost passes = { judged };

    fn judge(&mut self, steps: &[Step]) -> bool {
        match self {
            Judge::Within(filter) => filter.judge(steps),
            Judge::Turns(filter) => filter.judge(steps),
        }
    }
}
