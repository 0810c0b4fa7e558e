// A count of the poses found, with some of them.
ghost use Rattle.std.specs.Prelude.{◌≡◌, ◌+◌, ◌^◌, ◌<◌, List, [], length, IsTrue, ◌↔◌};
ghost use Rattle.std.specs.List.{slice_get};
ghost use Rattle.ladder.specs.declared.poses.Pose.{Pose};
ghost use Rattle.sources.specs.Pages.{with_pose, page_of, Shows, Covers};

use ladder::poses::Pose;

// How many poses were found, and those with the sixteen numbers from `from` on. Nothing is allocated, so the places are fixed;
// `count` is the number of all poses found, and not of the places in use.
#[derive(Clone, Copy)]
pub struct Page {
    from: usize,
    count: usize,
    poses: [Pose; 16],
}

impl Page {
    // Nothing found yet.
    pub fn new(from: usize) -> Page
        ensures { result ≡ page_of from [] }
    {
        Page {
            from,
            count: 0,
            poses: [Pose::default(); 16],
        }
    }

    // One pose more.
    pub(crate) fn put(&mut self, found: Pose)
        requires { self.old.count + 1 < 2 ^ 64 }
        ensures { self.new ≡ with_pose self.old found }
    {
        if self.covers(self.count) {
            self.poses[self.count - self.from] = found;
        }
        self.count += 1;
    }

    // Whether a number is one of the sixteen.
    pub fn covers(&self, number: usize) -> bool
        ensures { IsTrue result ↔ Covers self.now number }
    {
        self.from <= number && number - self.from < 16
    }

    // How many poses were found.
    pub fn count(&self) -> usize
        ensures { (ps : List Pose) → Shows self.now ps → result ≡ length ps }
    {
        self.count
    }

    // The pose with one of the sixteen numbers, if so many were found.
    pub fn get(&self, number: usize) -> Option<Pose>
        requires { Covers self.now number }
        ensures { (ps : List Pose) → Shows self.now ps → result ≡ slice_get ps number }
    {
        (number < self.count).then(|| self.poses[number - self.from])
    }
}
