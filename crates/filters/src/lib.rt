// Filters: a yes or no for each list of steps.
#![tactic(auto)]

mod cases;
mod envelopes;
mod judging;
mod turning;

pub use cases::reversals_worked;
pub use envelopes::{Envelope, Refusal, Span};
pub use judging::Filter;
pub use turning::TurnCount;
