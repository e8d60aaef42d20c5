// Judges and commits messages: takes requests, answers result queries and writes the replies.
#![tactic(auto)]

pub mod answers;
pub mod commit;
pub mod handheld;
mod judge;
pub mod queries;
pub mod replies;
pub mod vehicle;
