// The rows of the screen: a row's own name, or its number.
#![tactic(auto)]

pub mod answers;
mod areas;
pub mod handheld;
pub mod names;
pub mod numbers;
pub mod rows;
pub mod show;
mod spots;
pub mod vehicle;
