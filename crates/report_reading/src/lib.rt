// Reads reports for the office: a message's head, and its parameters one at a time.
#![tactic(auto)]

mod contacts;
mod fixed;
pub mod handheld;
mod heads;
pub mod items;
pub mod messages;
mod texts;
pub mod types;
pub mod vehicle;
