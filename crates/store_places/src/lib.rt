// The parts of a store that have a place for each entry: what each setting does to them.
#![tactic(auto)]

pub mod fixed;
pub mod line_slots;
pub mod members;
mod overwriting;
pub mod texts;
