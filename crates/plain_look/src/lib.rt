// Looks in deeds for what a table has, with no table: one key of it, or one of its rows.
#![tactic(auto)]

pub mod known;
pub mod look;
pub mod rows;
