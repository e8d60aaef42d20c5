// Judges the settings of a request with no table: by what deeds before them put, and by how many entries and bytes of text each table has.
#![tactic(auto)]

pub mod judge;
pub mod trying;
