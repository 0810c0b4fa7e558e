// A source and a filter of another crate, and code over every source and every filter.
#![tactic(auto)]

ghost use Rattle.std.specs.Prelude.{◌≡◌, ◌-◌, true, length, nat_le};
ghost use Rattle.std.specs.List.{slice_get};

use filters::Filter;
use ladder::poses::{Pose, Step};
use sources::Source;

// Offers the same poses at each waypoint.
#[derive(Drop)]
pub struct Fixed<'a> {
    pub poses: &'a [Pose],
}

impl<'a> Source for Fixed<'a> {
    ghost meaning = { λ s _. s.poses.now };

    fn count(&mut self, _waypoint: u16) -> usize {
        self.poses.len()
    }

    fn pose(&mut self, _waypoint: u16, number: usize) -> Option<Pose> {
        self.poses.get(number).copied()
    }
}

// Offers what another source does, and counts the questions.
#[derive(Drop)]
pub struct Asked<S> {
    pub source: S,
    pub questions: u64,
}

impl<S: Source> Source for Asked<S> {
    ghost meaning = { λ s. S.Source.meaning s.source };

    fn count(&mut self, waypoint: u16) -> usize {
        self.questions = self.questions.saturating_add(1);
        self.source.count(waypoint)
    }

    fn pose(&mut self, waypoint: u16, number: usize) -> Option<Pose> {
        self.questions = self.questions.saturating_add(1);
        self.source.pose(waypoint, number)
    }
}

// Passes the lists of at most so many steps, and counts what it judged.
#[derive(Clone, Copy, PartialEq, Eq, Debug)]
pub struct AtMost {
    pub steps: usize,
    pub judged: u64,
}

impl Filter for AtMost {
    ghost passes = { λ f steps. nat_le (length steps) f.steps };

    fn judge(&mut self, steps: &[Step]) -> bool {
        self.judged = self.judged.saturating_add(1);
        steps.len() <= self.steps
    }
}

// The last pose of a waypoint, of any source.
pub fn last_pose<S: Source>(source: &mut S, waypoint: u16) -> Option<Pose>
    ensures value { result ≡ slice_get (S.Source.meaning source.old waypoint) (length (S.Source.meaning source.old waypoint) - 1) }
    ensures same { S.Source.meaning source.new ≡ S.Source.meaning source.old }
{
    let count = source.count(waypoint);
    source.pose(waypoint, count.saturating_sub(1))
}

// Any filter judges the same steps in the same way again.
pub fn judges_alike<F: Filter>(filter: &mut F, steps: &[Step]) -> bool
    ensures value { result ≡ true }
    ensures same { F.Filter.passes filter.new ≡ F.Filter.passes filter.old }
{
    let first = filter.judge(steps);
    let second = filter.judge(steps);
    first == second
}

#[cfg(test)]
mod tests {
    use super::*;
    use filters::{Envelope, Span, TurnCount};
    use ladder::poses::PoseNumber;
    use sources::{Armed, Tabled};
    use std::test::Fail;

    fn at<S: Source>(source: &mut S, waypoint: u16, number: usize) -> Option<(i16, i16)> {
        source
            .pose(waypoint, number)
            .map(|pose| (pose.shoulder, pose.elbow))
    }

    // links of 100, a window of h, and the positions (100,100), (0,0) and (201,0)
    fn arm_job(h: u8) -> [u8; 28] {
        [
            84, 76, 65, 68, 2, 100, 0, 100, 0, h, 0, 3, 0, 3, 100, 0, 100, 0, 3, 0, 0, 0, 0, 3,
            201, 0, 0, 0,
        ]
    }

    #[test]
    fn arm_poses(rt: HostRuntime) {
        let job = arm_job(0);
        let mut arm = Armed::new(&job);
        assert_eq!(rt; arm.count(0), 2);
        assert_eq!(rt; at(&mut arm, 0, 0), Some((0, 16)));
        assert_eq!(rt; at(&mut arm, 0, 1), Some((16, 48)));
        assert_eq!(rt; at(&mut arm, 0, 2), None);
        assert_eq!(rt; arm.count(1), 64);
        assert_eq!(rt; at(&mut arm, 1, 5), Some((5, 32)));
        assert_eq!(rt; at(&mut arm, 1, 63), Some((63, 32)));
        assert_eq!(rt; at(&mut arm, 1, 64), None);
        assert_eq!(rt; at(&mut arm, 1, 5), Some((5, 32)));
        assert_eq!(rt; arm.count(2), 0);
        assert_eq!(rt; arm.count(3), 0);
        assert_eq!(rt; arm.count(0), 2);
    }

    #[test]
    fn a_wider_window(rt: HostRuntime) {
        let job = arm_job(1);
        let mut arm = Asked {
            source: Armed::new(&job),
            questions: 0,
        };
        assert_eq!(rt; arm.count(2), 1);
        assert_eq!(rt; at(&mut arm, 2, 0), Some((0, 0)));
        assert_eq!(rt; arm.questions, 2);
    }

    // how many poses a file lists for a waypoint
    fn listed(file: &[u8], waypoint: u16) -> usize {
        let mut tabled = Tabled::new(file);
        tabled.count(waypoint)
    }

    #[test]
    fn tabled_poses(rt: HostRuntime) {
        let job = [
            84, 76, 65, 68, 0, 3, 0, 4, 2, 0, 0, 0, 0, 4, 0, 0, 0, 4, 1, 4, 0, 0, 0, 4, 1, 14, 0,
            255, 255,
        ];
        let mut tabled = Tabled::new(&job);
        assert_eq!(rt; tabled.count(0), 2);
        assert_eq!(rt; at(&mut tabled, 0, 1), Some((4, 0)));
        assert_eq!(rt; at(&mut tabled, 0, 2), None);
        assert_eq!(rt; at(&mut tabled, 2, 0), Some((14, -1)));
        assert_eq!(rt; tabled.count(3), 0);
        let mut arm = Armed::new(&job);
        assert_eq!(rt; arm.count(0), 0);
        assert_eq!(rt; listed(&job[0..28], 0), 0);
        assert_eq!(rt; listed(b"", 65535), 0);
    }

    fn step(shoulder: i16, elbow: i16) -> Step {
        Step {
            number: PoseNumber(0),
            pose: Pose { shoulder, elbow },
        }
    }

    #[test]
    fn judgements(rt: HostRuntime) -> Result<(), Fail> {
        let steps = [step(0, 0), step(3, 0), step(3, 5), step(1, 0), step(4, 0)];
        assert!(rt; TurnCount { limit: 2 }.judge(&steps));
        assert!(rt; !TurnCount { limit: 1 }.judge(&steps));
        assert!(rt; TurnCount { limit: 0 }.judge(&steps[0..3]));
        let joint = Span { low: 0, high: 4 };
        let Ok(mut low) = Envelope::new(joint, joint) else {
            return Err(Fail::new("an envelope was refused"));
        };
        assert!(rt; !low.judge(&steps));
        assert!(rt; low.judge(&steps[0..2]));
        assert!(rt; Envelope::new(joint, Span { low: 1, high: 0 }).is_err());
        let mut few = AtMost {
            steps: 4,
            judged: 0,
        };
        assert!(rt; judges_alike(&mut few, &steps));
        assert!(rt; !few.judge(&steps));
        assert_eq!(rt; few.judged, 3);
        Ok(())
    }
}
