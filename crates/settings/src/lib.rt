// What a setting is once it was read, and the table of the thirteen types.
#![tactic(auto)]

pub mod settings;
pub mod type_table;
