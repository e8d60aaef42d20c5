// What the programs print on standard output: bytes, numbers, and texts as UTF-8.
#![tactic(auto)]

pub mod output;
pub mod utf8;
