// Takes the settings of a request in turn.
#![tactic(auto)]

pub mod part;
pub mod run;
pub mod trying;
