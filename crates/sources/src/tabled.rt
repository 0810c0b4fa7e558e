// The source of the pose lists in a job file.
ghost use Rattle.std.specs.Prelude.{◌≡◌};
ghost use Rattle.std.specs.Option.{option_map};
ghost use Rattle.job.specs.Jobs.{view};
ghost use Rattle.sources.specs.Files.{tabled, tabled_in};

use crate::asking::Source;
use crate::files::opened;
use job::Job;
use ladder::poses::Pose;

// Offers for each waypoint the pose list of its record.
#[derive(Drop)]
pub struct Tabled<'a> {
    job: Option<Job<'a>>,
}

impl<'a> Tabled<'a> {
    // The source of a job file, which may be any bytes. The file is read here, and not again.
    pub fn new(file: &'a [u8]) -> Tabled<'a>
        ensures { tabled_in (option_map view result.job) ≡ tabled file.now }
    {
        Tabled { job: opened(file) }
    }
}

impl<'a> Source for Tabled<'a> {
    ghost meaning = { λ s. tabled_in (option_map view s.job) };

    fn count(&mut self, waypoint: u16) -> usize {
        self.job.as_ref().map_or(0, |job| job.pose_count(waypoint))
    }

    fn pose(&mut self, waypoint: u16, number: usize) -> Option<Pose> {
        self.job.as_ref()?.pose(waypoint, number)
    }
}
