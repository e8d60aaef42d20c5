// Reads what carries the settings: which kind of message the bytes are, and where its settings or its hash stand.
#![tactic(auto)]

pub mod carrier;
