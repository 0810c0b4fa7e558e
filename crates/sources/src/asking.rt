// What a source owes.
ghost use Rattle.std.specs.Prelude.{◌≡◌, ℕ, List, length};
ghost use Rattle.std.specs.List.{slice_get};
ghost use Rattle.ladder.specs.declared.poses.Pose.{Pose};

use ladder::poses::Pose;

// A source means a list of poses for each waypoint. It answers how many there are and which has a number,
// and leaves the meaning as it was.
pub trait Source {
    ghost meaning: { Self → ℕ → List Pose };

    fn count(&mut self, waypoint: u16) -> usize
        ensures value { result ≡ length (meaning self.old waypoint) }
        ensures same { meaning self.new ≡ meaning self.old };

    fn pose(&mut self, waypoint: u16, number: usize) -> Option<Pose>
        ensures value { result ≡ slice_get (meaning self.old waypoint) number }
        ensures same { meaning self.new ≡ meaning self.old };
}
