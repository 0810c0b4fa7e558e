// Lists of calls, made one after another on a new resolver, with a record of all that they answer and write.
#![tactic(auto)]

mod calls;
mod making;
mod replaying;

pub use calls::{Answer, Call, Reply};
pub use replaying::replay;

#[cfg(test)]
mod tests {
    use super::*;
    use enumeration::{Candidate, Ranked, Station};
    use filters::{Envelope, Span};
    use ladder::costs::Travel;
    use ladder::poses::{Limits, Pose, PoseNumber, Step};
    use ladder::rules::Cost;
    use resolver::{LentTables, Setup};
    use sources::Tabled;
    use std::test::Fail;

    // The rungs (0,0) (4,0), then (4,0), then (14,0): track 1 0 0 costs 10, track 0 0 0 costs 14.
    const JOB: [u8; 29] = [
        84, 76, 65, 68, 0, 3, 0, 4, 2, 0, 0, 0, 0, 4, 0, 0, 0, 4, 1, 4, 0, 0, 0, 4, 1, 14, 0, 0, 0,
    ];

    // A step that no envelope here passes.
    fn spare() -> Step {
        Step {
            number: PoseNumber(7),
            pose: Pose {
                shoulder: 99,
                elbow: 0,
            },
        }
    }

    // Adds the three rungs, closes, and seeks with an envelope of shoulder 0 to `high`; answers what seeking answered.
    fn sought(ration: usize, high: i16, outputs: &mut [Step; 4]) -> Option<Answer<Travel>> {
        let envelope = Envelope::new(Span { low: 0, high }, Span { low: 0, high: 0 }).ok()?;
        let mut stations = [Station::blank(); 48];
        let mut ranked = [Ranked::blank(Travel::zero()); 64];
        let mut candidates = [Candidate::blank(Travel::zero()); 768];
        let calls = [
            Call::Add {
                source: 0,
                waypoint: 0,
            },
            Call::Add {
                source: 0,
                waypoint: 1,
            },
            Call::Add {
                source: 0,
                waypoint: 2,
            },
            Call::Close,
            Call::Seek {
                filter: 0,
                places: 4,
            },
        ];
        let mut answers = [Ok(Reply::Counted(0)); 5];
        let made = replay(
            Setup {
                limits: Limits {
                    shoulder: 65535,
                    elbow: 65535,
                },
                rung_limit: 3,
                ration,
            },
            LentTables {
                stations: &mut stations,
                ranked: &mut ranked,
                candidates: &mut candidates,
            },
            &calls,
            &mut [Tabled::new(&JOB)],
            &mut [envelope],
            &mut answers,
            outputs,
        );
        (made == 5).then(|| answers[4])
    }

    // An envelope that passes neither track: with places left in the ration the list ends, and else the ration.
    #[test]
    fn neither_track_passes(rt: HostRuntime) -> Result<(), Fail> {
        let mut outputs = [spare(); 4];
        let Some(Err(ended)) = sought(3, 13, &mut outputs) else {
            return Err(Fail::new("a track was given"));
        };
        assert_eq!(rt; ended.number(), 10);
        assert_eq!(rt; outputs[0].number.0, 0);
        assert_eq!(rt; outputs[2].pose.shoulder, 14);
        assert_eq!(rt; outputs[3].number.0, 7);
        let Some(Err(spent)) = sought(2, 13, &mut outputs) else {
            return Err(Fail::new("a track was given"));
        };
        assert_eq!(rt; spent.number(), 9);
        Ok(())
    }

    // The filter is given the track's own steps: the spare place of the output would not pass.
    #[test]
    fn the_first_track_passes(rt: HostRuntime) -> Result<(), Fail> {
        let mut outputs = [spare(); 4];
        let Some(Ok(Reply::Given(taken))) = sought(3, 14, &mut outputs) else {
            return Err(Fail::new("no track was given"));
        };
        assert_eq!(rt; taken.number, 1);
        assert_eq!(rt; taken.cost.total, 10);
        assert_eq!(rt; outputs[0].number.0, 1);
        assert_eq!(rt; outputs[3].pose.shoulder, 99);
        Ok(())
    }
}
