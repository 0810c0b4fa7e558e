// Adding, closing, next and seeking.
ghost use Rattle.std.specs.Prelude.{◌≡◌, ◌+◌, ◌<◌, ◌≤◌, true, false, [], length, MatchResult, OnOk};
ghost use Rattle.book.specs.Book.{adding, closing, nexting, seeking};
ghost use Rattle.resolver.specs.Sound.{Sound, SetupKept};
ghost use Rattle.resolver.specs.Answers.{count_answer, track_answer};
ghost use Rattle.resolver.specs.Adding.{AddsRung, GrownByARung};
ghost use Rattle.resolver.specs.Calls.{Unready};
ghost use Rattle.resolver.specs.Standing.{book};

use crate::answers::{Refusal, Taken};
use crate::held::Resolver;
use crate::tables::Core;
use filters::Filter;
use ladder::poses::{Pose, Step};
use ladder::rules::Cost;
use sources::Source;

// The source's list at a waypoint, written into just as many places.
fn copy_poses<S: Source>(source: &mut S, waypoint: u16, into: &mut [Pose])
    requires { length into.old ≡ length (S.Source.meaning source.old waypoint) }
    ensures into { into.new ≡ S.Source.meaning source.old waypoint }
    ensures same { S.Source.meaning source.new ≡ S.Source.meaning source.old }
{
    for (j, place) in into.iter_mut().enumerate() {
        if let Some(p) = source.pose(waypoint, j) {
            *place = p;
        }
    }
}

impl<'t, C: Cost> Core<'t, C> {
    // Appends the rung of the source's list at a waypoint, which `poses` has just the places for. The source and the waypoint are the call's own
    // arguments, passed on; that a rung is short is a fact about an argument.
    fn append_from<S: Source>(&mut self, source: &mut S, waypoint: u16, poses: &mut [Pose]) -> usize
        requires rung { self.old.rungs < self.old.rung_limit }
        requires few { length poses.old ≤ 16 }
        requires long { length poses.old ≡ length (S.Source.meaning source.old waypoint) }
        ensures count { (result ≡ self.old.rungs + 1) × (self.new.rungs ≡ result) }
        ensures grown { GrownByARung self.old self.new }
        ensures effect { AddsRung C.Cost.rules self.old self.new (S.Source.meaning source.old waypoint) }
        ensures same { S.Source.meaning source.new ≡ S.Source.meaning source.old }
    {
        copy_poses(source, waypoint, poses);
        self.append_rung(poses)
    }
}

impl<'t, C: Cost> Resolver<'t, C> {
    // Adds a rung that holds the source's list at the waypoint; answers the new rung count.
    pub fn add<S: Source>(&mut self, source: &mut S, waypoint: u16) -> Result<usize, Refusal>
        ensures outcome { record { answer = count_answer {V = C} result; output = []; book = book self.new.core } ≡ adding (book self.old.core) (S.Source.meaning source.old waypoint) }
        ensures sound { Sound C.Cost.rules self.old.core → Sound C.Cost.rules self.new.core }
        ensures same { S.Source.meaning source.new ≡ S.Source.meaning source.old }
    {
        if self.core.closed {
            return Err(Refusal::Closed);
        }
        if self.core.rungs >= self.core.rung_limit {
            return Err(Refusal::NoRungLeft);
        }
        let n = source.count(waypoint);
        if n == 0 {
            return Err(Refusal::NoPose);
        }
        if n > 16 {
            return Err(Refusal::TooManyPoses);
        }
        // the first n of an array: nothing is allocated
        let mut poses = [Pose::default(); 16];
        Ok(self.core.append_from(source, waypoint, &mut poses[0..n]))
    }

    // Closes the ladder; answers the rung count.
    pub fn close(&mut self) -> Result<usize, Refusal>
        ensures outcome { record { answer = count_answer {V = C} result; output = []; book = book self.new.core } ≡ closing (book self.old.core) }
        ensures sound { Sound C.Cost.rules self.old.core → Sound C.Cost.rules self.new.core }
    {
        if self.core.closed {
            return Err(Refusal::Closed);
        }
        self.core.closed = true;
        Ok(self.core.rungs)
    }

    // Whether a track can be asked for: the ladder is closed, and the output has a place for each rung.
    fn ready(&self, places: usize) -> Result<(), Refusal>
        ensures { MatchResult result (λ _. (self.now.core.closed ≡ true) × (self.now.core.rungs ≤ places)) (λ e. Unready self.now.core places e) }
    {
        if !self.core.closed {
            return Err(Refusal::StillOpen);
        }
        if places < self.core.rungs {
            return Err(Refusal::ShortOutput);
        }
        Ok(())
    }

    // Takes the first untaken track, where one can be asked for.
    fn take(&mut self, out: &mut [Step]) -> Result<Taken<C>, Refusal>
        requires closed { self.old.core.closed ≡ true }
        requires out { self.old.core.rungs ≤ length out.old }
        ensures outcome { record { answer = track_answer result; output = out.new; book = book self.new.core } ≡ nexting C.Cost.rules (book self.old.core) out.old }
        ensures sound { Sound C.Cost.rules self.old.core → Sound C.Cost.rules self.new.core }
        ensures kept { SetupKept self.old.core self.new.core }
        ensures counts { OnOk result (self.new.core.taken ≡ self.old.core.taken + 1) }
    {
        if self.core.taken >= self.core.ration {
            return Err(Refusal::RationSpent);
        }
        self.core.take_next(out).ok_or(Refusal::NoTrackLeft)
    }

    // Takes the first untaken track of the list: answers its number and cost, and writes its steps to the first places of `out`.
    pub fn next(&mut self, out: &mut [Step]) -> Result<Taken<C>, Refusal>
        ensures outcome { record { answer = track_answer result; output = out.new; book = book self.new.core } ≡ nexting C.Cost.rules (book self.old.core) out.old }
        ensures sound { Sound C.Cost.rules self.old.core → Sound C.Cost.rules self.new.core }
    {
        self.ready(out.len())?;
        self.take(out)
    }

    // Takes untaken tracks in the order of the list until one passes the filter: answers its number and cost, and writes its steps to the first
    // places of `out`. Those that are turned down are taken too, and where none passes the last of them stays in `out`.
    pub fn seek<F: Filter>(&mut self, filter: &mut F, out: &mut [Step]) -> Result<Taken<C>, Refusal>
        ensures outcome { record { answer = track_answer result; output = out.new; book = book self.new.core } ≡ seeking C.Cost.rules (book self.old.core) (F.Filter.passes filter.old) out.old }
        ensures sound { Sound C.Cost.rules self.old.core → Sound C.Cost.rules self.new.core }
        ensures same { F.Filter.passes filter.new ≡ F.Filter.passes filter.old }
    {
        self.ready(out.len())?;
        loop {
            let taken = self.take(out)?;
            if filter.judge(&out[0..self.core.rungs]) {
                return Ok(taken);
            }
        }
    }
}
