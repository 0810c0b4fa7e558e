// Taking the next track of the list.
ghost use Rattle.std.specs.Prelude.{◌≡◌, ◌+◌, ◌<◌, ◌≤◌, length, MatchOption, slice_index};
ghost use Rattle.resolver.specs.Kept.{Same, settled};
ghost use Rattle.resolver.specs.Sound.{Betters, IsBest, WritesSteps, Renews, SetupKept, Takes, Counted, taken_at};
ghost use Rattle.resolver.specs.Tables.{station_at, track_at, width};

use crate::answers::Taken;
use crate::tables::Core;
use enumeration::Place;
use ladder::poses::{PoseNumber, Step};
use ladder::rules::Cost;

impl<'t, C: Cost> Core<'t, C> {
    // How many tracks are taken at pose v of the last rung.
    fn taken_at(&self, v: PoseNumber) -> u16
        ensures { v.0 < 16 → result ≡ slice_index self.now.counts v.0 }
    {
        // in range whatever v is, as in the tables
        self.counts[(v.0 as usize).min(15)]
    }

    // The cost of the track found last at pose v of rung r.
    fn last_cost(&self, r: usize, v: PoseNumber) -> C
        requires { r < self.now.rung_limit }
        ensures { v.0 < 16 → (station_at self.now r v.0).last.0 < width self.now → result ≡ (track_at self.now C.Cost.rules r (station_at self.now r v.0).last.0).cost }
    {
        let s = self.station(r, v);
        self.track(r, s.last).cost
    }

    // The better of the best so far and the first untaken track at pose v of rung r; of two that cost the same, the best so far.
    fn better(&self, r: usize, best: Option<PoseNumber>, v: PoseNumber) -> Option<PoseNumber>
        requires { r < self.now.rung_limit }
        ensures { Betters C.Cost.rules self.now r best v.0 result }
    {
        let s = self.station(r, v);
        if self.taken_at(v) >= s.found {
            return best;
        }
        let Some(w) = best else {
            return Some(v);
        };
        let cost = self.last_cost(r, v);
        let least = self.last_cost(r, w);
        if cost.compare(least).is_lt() {
            return Some(v);
        }
        best
    }

    // The pose of rung r whose first untaken track is the next of the list.
    fn best(&self, r: usize) -> Option<PoseNumber>
        requires { r < self.now.rung_limit }
        ensures { IsBest C.Cost.rules self.now r result }
    {
        let mut best = None;
        // tried as a fold: the proof did not close, since what the closure's calls gave could not be read there
        for v in 0..self.extents[r].poses {
            best = self.better(r, best, PoseNumber(v));
        }
        best
    }

    // Writes the steps of the track at a place of rung r.
    fn write(&self, r: usize, at: Place, out: &mut [Step])
        requires rung { r < self.now.rung_limit }
        requires out { r < length out.old }
        ensures { WritesSteps C.Cost.rules self.now r at.0 out.old out.new }
    {
        let mut place = at;
        // i is a rung, by which the tables are read, and not only a place of `out`
        for i in (0..r + 1).rev() {
            let e = self.track(i, place);
            let pose = self.station(i, e.pose).pose;
            out[i] = Step {
                number: e.pose,
                pose,
            };
            place = e.front;
        }
    }

    // Finds the next rank at the pose of rung r that was taken last.
    fn renew(&mut self, r: usize)
        requires { r < self.old.rung_limit }
        ensures same { Same (settled self.old) self.new }
        ensures effect { Renews C.Cost.rules self.old self.new r }
    {
        if let Some(v) = self.recent.take() {
            self.find_next(r, v);
        }
    }

    // Counts the first untaken track at pose v of the last rung as taken; answers its number in the list.
    fn count_taken(&mut self, v: PoseNumber) -> usize
        requires { self.old.taken < self.old.ration }
        ensures kept { SetupKept self.old self.new }
        ensures number { result ≡ self.old.taken + 1 }
        ensures counts { self.new.taken ≡ self.old.taken + 1 }
        ensures effect { v.0 < 16 → taken_at self.old v.0 < 65535 → Counted C.Cost.rules self.old self.new v }
    {
        let i = (v.0 as usize).min(15);
        self.counts[i] = self.counts[i].saturating_add(1);
        self.recent = Some(v);
        self.taken += 1;
        self.taken
    }

    // Takes the next track of the list, and writes its steps; none where the list is at its end.
    pub(crate) fn take_next(&mut self, out: &mut [Step]) -> Option<Taken<C>>
        requires left { self.old.taken < self.old.ration }
        requires out { self.old.rungs ≤ length out.old }
        ensures kept { SetupKept self.old self.new }
        ensures counts { MatchOption result (self.new.taken ≡ self.old.taken) (λ _. self.new.taken ≡ self.old.taken + 1) }
        ensures effect { Takes C.Cost.rules self.old self.new out.old out.new result }
    {
        let r = self.rungs.checked_sub(1)?;
        self.renew(r);
        let v = self.best(r)?;
        let at = self.station(r, v).last;
        let cost = self.last_cost(r, v);
        self.write(r, at, out);
        let number = self.count_taken(v);
        Some(Taken { number, cost })
    }
}
