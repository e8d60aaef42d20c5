// Joins two requests under one header, for dispatch software.
#![tactic(auto)]

pub mod answers;
mod checks;
pub mod handheld;
pub mod joins;
pub mod vehicle;
