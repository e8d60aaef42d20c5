// The calls of a set with any limits, each answer packed for C. Judging and committing, which own a working copy of a set's size, are packed by the set's own crate.
#![tactic(auto)]

pub mod caller;
pub mod counts;
pub mod entries;
pub mod exports;
pub mod messages;
pub mod queries;
pub mod radio;
pub mod rows;
