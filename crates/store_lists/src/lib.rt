// The tables that are lists: contacts, channels and lines stand in their region behind their count, and can be full.
#![tactic(auto)]

pub mod channels;
pub mod contacts;
mod keyed;
mod line_slots;
pub mod lines;
mod marks;
