// Ladders of poses: what a move, a cost, a track and the list of a ladder are, and the theorems that a resolver rests on.
#![tactic(auto)]

pub mod costs;
pub mod poses;
pub mod rules;
pub mod theorems;
