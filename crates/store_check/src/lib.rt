// Whether lent bytes are a store of the limits, region by region.
#![tactic(auto)]

pub mod checks;
pub mod checks_entries;
mod checks_fixed;
mod checks_lists;
mod checks_regions;
mod checks_shared;
mod checks_slots;
mod checks_tables;
mod forms;
