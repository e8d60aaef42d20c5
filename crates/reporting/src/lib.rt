// Answers queries: writes the message of a report that is asked for.
#![tactic(auto)]

pub mod answers;
mod asking;
pub mod handheld;
mod message;
mod planning;
pub mod report;
pub mod vehicle;
mod walk;
