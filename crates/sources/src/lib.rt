// Sources: a list of poses for each waypoint.
#![tactic(auto)]

mod arms;
mod asking;
mod directions;
mod files;
mod finding;
mod pages;
mod reach;
mod tabled;
mod targets;
mod theorems;

pub use arms::Armed;
pub use asking::Source;
pub use reach::reaches;
pub use tabled::Tabled;
pub use theorems::{arm_worked, directions_stand, offers_are_unique};
