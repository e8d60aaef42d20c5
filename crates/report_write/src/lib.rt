// Writes one parameter of a report, from the slot of the store that keeps its entry.
#![tactic(auto)]

mod fixed;
mod heads;
pub mod items;
mod listed;
