ghost use Rattle.std.specs.Prelude.{◌≡◌, ℕ, ◌+◌, ◌≤◌, List, length, IfOk, IfErr, Some};
ghost use Rattle.std.specs.Option.{option_map};
ghost use Rattle.std.specs.Result.{result_ok};
ghost use Rattle.job.specs.Reading.{file_out, fault};
ghost use Rattle.job.specs.Resolved.{values_of};
ghost use Rattle.job.specs.Jobs.{view};
ghost use Rattle.job.specs.Outcomes.{Outcome};

use crate::faults::{Fault, Question};
use crate::header::open;
use crate::jobs::Job;
use crate::rows::Table;
use crate::table::read_rows;
use ladder::poses::Limits;

// The job of a whole file, from its header, its records and its end.
fn scan<'a>(file: &'a [u8]) -> Result<Job<'a>, Fault>
    ensures means { IfOk result (λ j. values_of file.now ≡ Some (view j)) }
    ensures stops { IfErr result (λ e. file_out file.now ≡ fault e.question e.place) }
{
    let (header, mut records) = open(file)?;
    let limits = header.limits.unwrap_or(Limits {
        shoulder: u16::MAX,
        elbow: u16::MAX,
    });
    let ration = header.ration.unwrap_or(4096);
    let mut table = Table::new();
    read_rows(&mut records, &mut table)?;
    if records.cursor.at != file.len() {
        return Err(records.cursor.fault(Question::End));
    }
    Ok(Job {
        limits,
        arm: header.arm,
        ration,
        table,
    })
}

// Reads a whole job file: a job, or the first question in file order that gets a no.
pub fn read<'a>(file: &'a [u8]) -> Result<Job<'a>, Fault>
    ensures outcome { Outcome file.now result }
    ensures values { values_of file.now ≡ option_map view (result_ok result) }
{
    scan(file)
}
