// Makes another set hold the same tables: each part exported, and taken.
#![tactic(auto)]

pub mod handheld;
pub mod restore;
pub mod vehicle;
