// Writes what a set holds as settings, table by table.
#![tactic(auto)]

pub mod channels;
pub mod contacts;
mod entries;
pub mod fields;
pub mod fixed;
pub mod line_slots;
pub mod lines;
pub mod members;
pub mod text_lists;
mod texts;
pub mod writers;
