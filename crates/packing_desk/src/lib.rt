// How the answers of the desk emulator's calls are packed in one number for C.
#![tactic(auto)]

pub mod answers;
