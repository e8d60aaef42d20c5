// Cases as lines of text: what a case is, a colon, and its message in digits. The programs of cases take them and print what they come to.
#![tactic(auto)]

pub mod building;
pub mod sets;
pub mod showing;
pub mod taking;
