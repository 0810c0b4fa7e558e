// The source of the poses by which an arm reaches the waypoints of a job file.
ghost use Rattle.std.specs.Prelude.{◌≡◌};
ghost use Rattle.std.specs.Option.{option_map};
ghost use Rattle.job.specs.Jobs.{view};
ghost use Rattle.sources.specs.Memories.{recalled};

use crate::pages::Page;
use job::Job;

// The poses that were found last, and for which waypoint.
#[derive(Clone, Copy)]
pub struct Memory {
    pub(crate) waypoint: u16,
    pub(crate) page: Page,
}

// Offers for each waypoint the poses of the job's arm that reach it. What it remembers is right.
#[derive(Drop)]
pub struct Armed<'a> {
    pub(crate) job: Option<Job<'a>>,
    pub(crate) memory: Option<Memory>,
    ghost right: { memory ≡ recalled (option_map view job) memory },
}
