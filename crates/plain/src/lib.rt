// The plain engine: takes messages as the hand-held does, keeps the requests that it took, and no table.
#![tactic(auto)]

pub mod answers;
mod asked;
pub mod desk;
mod replying;
