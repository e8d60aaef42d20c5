// Reads what the entries of settings do, one deed at a time, with no table.
#![tactic(auto)]

pub mod beginnings;
mod codes;
pub mod cursors;
pub mod deeds;
pub mod entries;
