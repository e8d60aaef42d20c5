// Reads the fields after DataLength, by the type of the setting.
#![tactic(auto)]

pub mod contact_bodies;
pub mod fixed_bodies;
mod flags;
mod heads;
pub mod list_bodies;
pub mod slot_bodies;
