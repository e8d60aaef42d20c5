// Writes a set's settings out again, part by part.
#![tactic(auto)]

pub mod exporting;
pub mod handheld;
pub mod parts;
pub mod vehicle;
