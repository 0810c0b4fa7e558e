// Finding the next rank at a pose, and what it needs on the rungs before.
ghost use Rattle.std.specs.Prelude.{◌≡◌, ◌+◌, ◌<◌, ◌≤◌, true, length, is_some};
ghost use Rattle.resolver.specs.Kept.{Same};
ghost use Rattle.resolver.specs.Finding.{FindsNext};
ghost use Rattle.resolver.specs.Effects.{AdvancesPose, AppendsTrack, Descends, DrawsLeast, EntersSuccessor, EntersTrack, ExtendsTrack, IsFollowed, IsNeeded, IsPending, LetsWait, LinksLast, RanksTrack};

use crate::parts::{draw_part, enter_part};
use crate::tables::Core;
use enumeration::{Back, Candidate, Place, Rank, Ranked, Station, extension};
use ladder::poses::PoseNumber;
use ladder::rules::Cost;

impl<'t, C: Cost> Core<'t, C> {
    // Lets x wait at pose v of rung r.
    fn wait(&mut self, r: usize, v: PoseNumber, x: Candidate<C>)
        requires { r < self.old.rung_limit }
        ensures same { Same self.old self.new }
        ensures effect { LetsWait C.Cost.rules self.old self.new r v.0 x }
    {
        let mut s = self.station(r, v);
        let i = self.station_place(r, v);
        let n = (s.waiting as usize).min(16);
        let waiting = enter_part(self.candidates, i, n, x);
        s.waiting = waiting as u8;
        self.put_station(r, v, s);
    }

    // The candidate at pose v of rung r that extends the track at a place of the rung before; none where the move is not admissible.
    fn candidate(&self, r: usize, v: PoseNumber, at: Place) -> Option<Candidate<C>>
        requires rung { r < self.now.rung_limit }
        requires above { 0 < r }
        ensures { ExtendsTrack C.Cost.rules self.now r v.0 at.0 result }
    {
        let front = self.track(r - 1, at);
        let from = self.station(r - 1, front.pose).pose;
        let to = self.station(r, v).pose;
        extension(self.limits, from, to, front, at)
    }

    // Enters the track at a place of the rung before as a candidate at pose v of rung r, where the move is admissible.
    pub(crate) fn enter(&mut self, r: usize, v: PoseNumber, at: Place)
        requires rung { r < self.old.rung_limit }
        requires above { 0 < r }
        ensures same { Same self.old self.new }
        ensures effect { EntersTrack C.Cost.rules self.old self.new r v.0 at.0 }
    {
        if let Some(x) = self.candidate(r, v, at) {
            self.wait(r, v, x);
        }
    }

    // Links the last found rank at a pose of rung r, whose station is s, to the place of the next.
    fn link(&mut self, r: usize, s: Station, next: Place)
        requires { r < self.old.rung_limit }
        ensures same { Same self.old self.new }
        ensures effect { LinksLast C.Cost.rules self.old self.new r s next.0 }
    {
        if s.found == 0 {
            return;
        }
        let mut e = self.track(r, s.last);
        e.after = next;
        self.put_track(r, s.last, e);
    }

    // Writes the track that candidate x stands for as rank n at pose v of rung r; answers where it lies.
    fn rank(&mut self, r: usize, v: PoseNumber, n: u16, x: Candidate<C>) -> Place
        requires { r < self.old.rung_limit }
        ensures same { Same self.old self.new }
        ensures effect { RanksTrack C.Cost.rules self.old self.new r v.0 n x result.0 }
    {
        let extent = &mut self.extents[r];
        let at = Place(extent.ranked);
        extent.ranked = extent.ranked.saturating_add(1);
        let track = Ranked {
            cost: x.whole,
            pose: v,
            rank: Rank(n),
            back: x.back,
            front: x.place,
            after: at,
        };
        self.put_track(r, at, track);
        at
    }

    // Appends the track that candidate x stands for as the next rank at pose v of rung r, whose station is s.
    pub(crate) fn append(&mut self, r: usize, v: PoseNumber, s: Station, x: Candidate<C>)
        requires { r < self.old.rung_limit }
        ensures same { Same self.old self.new }
        ensures effect { AppendsTrack C.Cost.rules self.old self.new r v.0 s x }
    {
        let at = self.rank(r, v, s.found, x);
        self.link(r, s, at);
        let grown = Station {
            found: s.found.saturating_add(1),
            last: at,
            pending: r > 0,
            ..s
        };
        self.put_station(r, v, grown);
    }

    // Draws the least candidate of pose v of rung r as its next rank; where none waits the pose has no further rank.
    pub(crate) fn draw(&mut self, r: usize, v: PoseNumber)
        requires { r < self.old.rung_limit }
        ensures same { Same self.old self.new }
        ensures effect { DrawsLeast C.Cost.rules self.old self.new r v.0 }
    {
        let mut s = self.station(r, v);
        let i = self.station_place(r, v);
        let n = s.waiting.min(16);
        s.pending = false;
        s.waiting = n.saturating_sub(1);
        match draw_part(self.candidates, i, n as usize) {
            Some(x) => self.append(r, v, s, x),
            None => self.put_station(r, v, s),
        }
    }

    // The last rank at pose v of rung r, where the successor of its front has yet to be entered.
    fn pending(&self, r: usize, v: PoseNumber) -> Option<Ranked<C>>
        requires { r < self.now.rung_limit }
        ensures above { is_some result ≡ true → 0 < r }
        ensures value { IsPending C.Cost.rules self.now r v.0 result }
    {
        if r == 0 {
            return None;
        }
        let s = self.station(r, v);
        if !s.pending {
            return None;
        }
        Some(self.track(r, s.last))
    }

    // Whether the track after the one that a back-pointer into rung p means is found.
    fn followed(&self, p: usize, back: Back) -> bool
        requires { p < self.now.rung_limit }
        ensures { IsFollowed C.Cost.rules self.now p back result }
    {
        back.rank.0.saturating_add(1) < self.station(p, back.pose).found
    }

    // Enters the successor of the front of e, the last rank at pose v of rung r, if it is found.
    fn enter_successor(&mut self, r: usize, v: PoseNumber, e: Ranked<C>)
        requires rung { r < self.old.rung_limit }
        requires above { 0 < r }
        ensures same { Same self.old self.new }
        ensures effect { EntersSuccessor C.Cost.rules self.old self.new r v.0 e }
    {
        if !self.followed(r - 1, e.back) {
            return;
        }
        let front = self.track(r - 1, e.front);
        self.enter(r, v, front.after);
    }

    // Finds the next rank at pose v of rung r, where the track that its pending successor extends is found or does not exist.
    fn advance(&mut self, r: usize, v: PoseNumber)
        requires { r < self.old.rung_limit }
        ensures same { Same self.old self.new }
        ensures effect { AdvancesPose C.Cost.rules self.old self.new r v.0 }
    {
        let Some(e) = self.pending(r, v) else {
            return;
        };
        self.enter_successor(r, v, e);
        self.draw(r, v);
    }

    // The pose of the rung before whose next rank pose v of rung r waits for, if that rank is not found.
    fn needed(&self, r: usize, v: PoseNumber) -> Option<PoseNumber>
        requires { r < self.now.rung_limit }
        ensures { IsNeeded C.Cost.rules self.now r v.0 result }
    {
        let e = self.pending(r, v)?;
        if self.followed(r - 1, e.back) {
            return None;
        }
        Some(e.back.pose)
    }

    // Goes down from pose v of rung r to the rung where the search can begin; `path` has the pose to advance on each rung from there to r.
    fn descend(&self, r: usize, v: PoseNumber, path: &mut [PoseNumber]) -> usize
        requires rung { r < self.now.rung_limit }
        requires path { r < length path.old }
        ensures low { result ≤ r }
        ensures path { Descends C.Cost.rules self.now r v path.new result }
    {
        path[r] = v;
        // p is a rung, and each is asked for by the pose that the one above it gave
        for p in (0..r).rev() {
            let Some(u) = self.needed(p + 1, path[p + 1]) else {
                return p + 1;
            };
            path[p] = u;
        }
        0
    }

    // Finds the next rank at pose v of rung r, and before it what it needs on the rungs before.
    pub(crate) fn find_next(&mut self, r: usize, v: PoseNumber)
        requires { r < self.old.rung_limit }
        ensures same { Same self.old self.new }
        ensures effect { FindsNext C.Cost.rules self.old self.new r v.0 }
    {
        // a place for each rung there may be: it is filled from rung r down, and the library allocates nothing
        let mut path = [v; 128];
        let low = self.descend(r, v, &mut path);
        // i is a rung, which the call needs beside the pose that `path` has for it
        for i in low..r + 1 {
            self.advance(i, path[i]);
        }
    }
}
