// The records that the resolver's tables hold, the order of candidates, and the theory of finding tracks rank by rank.
#![tactic(auto)]

mod records;
mod theorems;
mod waiting;

pub use records::{Back, Candidate, Extent, Place, Rank, Ranked, Station};
pub use theorems::{adding_keeps_the_tables_sound, advancing_keeps_the_tables_sound};
pub use waiting::extension;
