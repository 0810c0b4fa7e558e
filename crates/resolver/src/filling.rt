// Adding a rung.
ghost use Rattle.std.specs.Prelude.{◌≡◌, ◌+◌, ◌<◌, ◌≤◌, length};
ghost use Rattle.resolver.specs.Adding.{AddsRung, EntersEach, EntersFirstOf, GrownByARung, PlacesRung, SettlesPose};
ghost use Rattle.resolver.specs.Kept.{Same};

use crate::tables::Core;
use enumeration::{Back, Candidate, Extent, Place, Rank, Station};
use ladder::poses::{Pose, PoseNumber};
use ladder::rules::Cost;

impl<'t, C: Cost> Core<'t, C> {
    // Writes the poses of rung r, where nothing is found yet and nothing waits.
    fn place(&mut self, r: usize, poses: &[Pose])
        requires rung { r < self.old.rung_limit }
        requires few { length poses.now ≤ 16 }
        ensures same { Same self.old self.new }
        ensures effect { PlacesRung C.Cost.rules self.old self.new r poses.now }
    {
        // by its place in the table: tried with `zip` over that part, and the proof of what its places hold then did not close
        for (j, p) in poses.iter().enumerate() {
            self.stations[16 * r + j] = Station {
                pose: *p,
                ..Station::blank()
            };
        }
        self.extents[r] = Extent {
            poses: poses.len() as u8,
            ranked: 0,
        };
    }

    // Enters the first rank at pose u of the rung before, if it has one, as a candidate at pose v of rung r.
    fn enter_from(&mut self, r: usize, v: PoseNumber, u: PoseNumber)
        requires rung { r < self.old.rung_limit }
        requires above { 0 < r }
        ensures same { Same self.old self.new }
        ensures effect { EntersFirstOf C.Cost.rules self.old self.new r v.0 u.0 }
    {
        let s = self.station(r - 1, u);
        if s.found > 0 {
            self.enter(r, v, s.last);
        }
    }

    // Enters the first rank of each pose of the rung before.
    fn enter_all(&mut self, r: usize, v: PoseNumber)
        requires rung { r < self.old.rung_limit }
        requires above { 0 < r }
        ensures same { Same self.old self.new }
        ensures effect { EntersEach C.Cost.rules self.old self.new r v.0 }
    {
        let size = self.extents[r - 1].poses;
        // u is a pose number, and no place of a slice
        for u in 0..size {
            self.enter_from(r, v, PoseNumber(u));
        }
    }

    // Finds the first rank at pose v of rung r.
    fn settle(&mut self, r: usize, v: PoseNumber)
        requires { r < self.old.rung_limit }
        ensures same { Same self.old self.new }
        ensures effect { SettlesPose C.Cost.rules self.old self.new r v.0 }
    {
        if r > 0 {
            self.enter_all(r, v);
            self.draw(r, v);
            return;
        }
        // a track of the first rung extends none: its back-pointer and place play no part, and an `Option` would be opened on every other rung
        let back = Back {
            pose: v,
            rank: Rank(0),
        };
        let start = Candidate {
            whole: C::zero(),
            front: C::zero(),
            back,
            place: Place(0),
        };
        let s = self.station(0, v);
        self.append(0, v, s, start);
    }

    // Appends a rung of these poses.
    pub(crate) fn append_rung(&mut self, poses: &[Pose]) -> usize
        requires rung { self.old.rungs < self.old.rung_limit }
        requires few { length poses.now ≤ 16 }
        ensures count { (result ≡ self.old.rungs + 1) × (self.new.rungs ≡ result) }
        ensures grown { GrownByARung self.old self.new }
        ensures effect { AddsRung C.Cost.rules self.old self.new poses.now }
    {
        let r = self.rungs;
        self.place(r, poses);
        // v is a pose number: what the pose is stands in the table by now
        for v in 0..poses.len() as u8 {
            self.settle(r, PoseNumber(v));
        }
        self.rungs = r + 1;
        r + 1
    }
}
