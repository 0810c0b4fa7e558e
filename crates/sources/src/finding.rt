// How an arm's source finds its poses.
ghost use Rattle.std.specs.Prelude.{◌≡◌, ℕ};
ghost use Rattle.std.specs.Option.{option_map};
ghost use Rattle.job.specs.Jobs.{view};
ghost use Rattle.sources.specs.Files.{armed, arm_in, place_in, reached_by, Offered, OffersFor};
ghost use Rattle.sources.specs.Meant.{meant};
ghost use Rattle.sources.specs.Pages.{Shows, Covers};

use crate::arms::{Armed, Memory};
use crate::asking::Source;
use crate::files::opened;
use crate::pages::Page;
use crate::targets::Target;
use job::Job;
use ladder::poses::Pose;

// The source of a job, with nothing remembered.
fn unasked<'a>(job: Option<Job<'a>>) -> Armed<'a>
    ensures means { option_map view result.job ≡ option_map view job.entry }
    ensures offers { (w : ℕ) → Offered (arm_in (option_map view job.entry)) (place_in (option_map view job.entry) w) (meant result w) }
{
    Armed { job, memory: None }
}

impl<'a> Armed<'a> {
    // The source of a job file, which may be any bytes. The file is read here, and not again.
    pub fn new(file: &'a [u8]) -> Armed<'a>
        ensures means { meant result ≡ armed file.now }
        ensures offers { OffersFor file.now (meant result) }
    {
        unasked(opened(file))
    }

    // What the job's arm is to reach for a waypoint; None without an arm or a position.
    fn target(&self, waypoint: u16) -> Option<Target>
        ensures { reached_by result ≡ meant self.now waypoint }
    {
        let job = self.job.as_ref()?;
        Some(Target {
            arm: job.arm()?,
            at: job.position(waypoint)?,
        })
    }

    // The page of a waypoint, with the numbers from `from` on.
    fn find(&self, waypoint: u16, from: usize) -> Page
        ensures shows { Shows result (meant self.now waypoint) }
        ensures from { result.from ≡ from }
    {
        self.target(waypoint)
            .map_or_else(|| Page::new(from), |target| target.page(from))
    }

    // The page of a waypoint that covers a number: the one that is remembered if it does.
    fn recall(&mut self, waypoint: u16, number: usize) -> Page
        ensures shows { Shows result (meant self.old waypoint) }
        ensures covers { Covers result number }
        ensures same { self.new.job ≡ self.old.job }
    {
        if let Some(memory) = self.memory
            && memory.waypoint == waypoint
            && memory.page.covers(number)
        {
            return memory.page;
        }
        let page = self.find(waypoint, number - number % 16);
        self.memory = Some(Memory { waypoint, page });
        page
    }
}

impl<'a> Source for Armed<'a> {
    ghost meaning = { meant };

    fn count(&mut self, waypoint: u16) -> usize {
        self.recall(waypoint, 0).count()
    }

    fn pose(&mut self, waypoint: u16, number: usize) -> Option<Pose> {
        self.recall(waypoint, number).get(number)
    }
}
