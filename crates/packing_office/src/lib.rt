// What the office's C answers are packed as.
#![tactic(auto)]

pub mod join;
pub mod message;
pub mod parameter;
pub mod places;
pub mod update;
