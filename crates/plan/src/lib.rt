// The number plan and the channels of GA/T 1056-2013: conversions both ways, for every u32.
#![tactic(auto)]

pub mod channels;
pub mod numbers;
