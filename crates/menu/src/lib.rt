// What the menu shows of a store: how many line contacts and channels it holds.
#![tactic(auto)]

pub mod counting;
pub mod handheld;
pub mod vehicle;
