// Functions on lent bytes that are made of slots, of whatever format.
#![tactic(auto)]

pub mod bytes;
pub mod slots;
