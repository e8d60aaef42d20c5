// What C answers are packed as, for sets of any limits.
#![tactic(auto)]

pub mod bits;
pub mod caller;
pub mod conversions;
pub mod counts;
pub mod digits;
pub mod entries;
pub mod exports;
pub mod fixed;
pub mod messages;
pub mod report;
pub mod rows;
pub mod tuning;
