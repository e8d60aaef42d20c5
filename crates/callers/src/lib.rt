// Who is calling: the row of the line contact that has a number.
#![tactic(auto)]

pub mod handheld;
pub mod lookup;
pub mod vehicle;
