ghost use Rattle.std.specs.Prelude.{◌≡◌, length};
ghost use Rattle.std.specs.List.{slice_get};
ghost use Rattle.job.specs.Bytes.{poses_of_bytes};
ghost use Rattle.job.specs.Resolved.{position_in, poses_in};
ghost use Rattle.job.specs.Jobs.{view};

use crate::rows::Table;
use crate::values::{Arm, Position};
use ladder::poses::{Limits, Pose};

// A job that was read: its values, and its pose lists where they lie in the file.
#[derive(Clone, Copy)]
pub struct Job<'a> {
    // first, so that a job is moved as one piece
    pub(crate) table: Table<'a>,
    pub(crate) limits: Limits,
    pub(crate) arm: Option<Arm>,
    pub(crate) ration: u16,
}

impl<'a> Job<'a> {
    // The step limits.
    pub fn limits(&self) -> Limits
        ensures { result ≡ (view self.now).limits }
    {
        self.limits
    }

    // The ration: at most how many tracks may be taken.
    pub fn ration(&self) -> u16
        ensures { result ≡ (view self.now).ration }
    {
        self.ration
    }

    // The arm's numbers, if the file has them.
    pub fn arm(&self) -> Option<Arm>
        ensures { result ≡ (view self.now).arm }
    {
        self.arm
    }

    // How many records the file has.
    pub fn len(&self) -> u16
        ensures { result ≡ length (view self.now).waypoints }
    {
        self.table.len()
    }

    // Where waypoint w lies; None where there is no such record.
    pub fn position(&self, w: u16) -> Option<Position>
        ensures { result ≡ position_in (view self.now) w }
    {
        self.table.get(w).map(|row| row.position)
    }

    // The bytes of the pose list of waypoint w.
    fn list(&self, w: u16) -> &'a [u8]
        ensures { poses_of_bytes result.now ≡ poses_in (view self.now) w }
    {
        self.table.get(w).and_then(|row| row.poses).unwrap_or(&[])
    }

    // How many poses waypoint w has.
    pub fn pose_count(&self, w: u16) -> usize
        ensures { result ≡ length (poses_in (view self.now) w) }
    {
        self.list(w).len() / 4
    }

    // Pose j of waypoint w, if it has so many.
    pub fn pose(&self, w: u16, j: usize) -> Option<Pose>
        ensures { result ≡ slice_get (poses_in (view self.now) w) j }
    {
        let (poses, _) = self.list(w).as_chunks::<4>();
        let [a, b, c, d] = *poses.get(j)?;
        Some(Pose {
            shoulder: i16::from_le_bytes([a, b]),
            elbow: i16::from_le_bytes([c, d]),
        })
    }
}
