// An order of slots by their keys, kept beside them; and lists with their count that keep it.
#![tactic(auto)]

pub mod changes;
mod entries;
mod keys;
pub mod orders;
pub mod search;
