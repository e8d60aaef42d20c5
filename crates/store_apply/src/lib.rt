// A setting that was read, applied to the whole store.
#![tactic(auto)]

pub mod store;
