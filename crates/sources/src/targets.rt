// What an arm is to reach, and the poses that do.
ghost use Rattle.std.specs.Prelude.{◌≡◌};
ghost use Rattle.sources.specs.Reach.{reaching};
ghost use Rattle.sources.specs.Pages.{Shows};

use crate::pages::Page;
use crate::reach::reaches;
use job::{Arm, Position};
use ladder::poses::Pose;

// An arm, and a position that its end is to reach.
#[derive(Clone, Copy)]
pub struct Target {
    pub arm: Arm,
    pub at: Position,
}

impl Target {
    // The page of all poses that reach, by rising shoulder and then by rising elbow, with the numbers from `from` on.
    pub fn page(self, from: usize) -> Page
        ensures shows { Shows result (reaching self.arm self.at) }
        ensures from { result.from ≡ from }
    {
        let mut found = Page::new(from);
        for s in 0..64 {
            for e in 0..64 {
                if reaches(self.arm, self.at, s, e) {
                    found.put(Pose {
                        shoulder: i16::from(s),
                        elbow: i16::from(e),
                    });
                }
            }
        }
        found
    }
}
