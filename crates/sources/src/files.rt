// Job files as the sources read them.
ghost use Rattle.std.specs.Prelude.{◌≡◌};
ghost use Rattle.std.specs.Option.{option_map};
ghost use Rattle.job.specs.Jobs.{view};
ghost use Rattle.job.specs.Resolved.{values_of};

use job::{Job, read};

// The job of a file, which may be any bytes; None where the file is refused.
pub fn opened<'a>(file: &'a [u8]) -> Option<Job<'a>>
    ensures { option_map view result ≡ values_of file.now }
{
    read(file).ok()
}
