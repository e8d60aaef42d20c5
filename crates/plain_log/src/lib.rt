// The area of a set that keeps no table: the requests that it took, one after another.
#![tactic(auto)]

pub mod areas;
pub mod checks;
pub mod keeping;
