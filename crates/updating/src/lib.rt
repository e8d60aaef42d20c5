// Whether a request makes one store's tables another's, and one that does where the tables of a single export part differ.
#![tactic(auto)]

pub mod answers;
pub mod checking;
pub mod handheld;
pub mod proposing;
pub mod vehicle;
