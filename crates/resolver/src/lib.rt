// The resolver: it lists the tracks of a ladder cheapest first, one by one, over three lent tables.
#![tactic(auto)]

mod answers;
mod calls;
mod filling;
mod held;
mod opening;
mod parts;
mod ranking;
mod tables;
mod taking;

pub use answers::{Refusal, Taken};
pub use held::Resolver;
pub use opening::{LentTables, Setup, sizes};
