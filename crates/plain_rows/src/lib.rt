// Rows of the screen with no table: found in the requests that were kept, and written at the start of the scratch.
#![tactic(auto)]

pub mod desk;
pub mod names;
pub mod spots;
mod writing_out;
