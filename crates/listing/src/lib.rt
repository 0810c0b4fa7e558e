// The listing of a job's tracks as text.
#![tactic(auto)]

mod lines;
mod listings;
mod printing;
mod text;

pub use listings::{list, write_listing};
pub use printing::Printed;
pub use text::Text;
