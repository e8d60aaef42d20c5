// Reads settings at a place of a message: a setting is read exactly when one is written there.
#![tactic(auto)]

pub mod reader;
