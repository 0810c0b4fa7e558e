// The job file: read whole, or record by record.
#![tactic(auto)]

pub mod cursor;
pub mod faults;
pub mod header;
pub mod jobs;
pub mod reader;
pub mod reading;
pub mod records;
mod rows;
mod table;
pub mod values;

pub use cursor::Part;
pub use faults::{Fault, Question};
pub use header::{Header, open};
pub use jobs::Job;
pub use reader::Records;
pub use reading::read;
pub use records::{Field, Record};
pub use values::{Arm, Counts, Position, StepLimits};
