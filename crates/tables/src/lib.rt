// The tables of a set in lent bytes: their limits, a fresh store, and how a head and a text are kept.
#![tactic(auto)]

pub mod filling;
pub mod forms;
pub mod head_places;
pub mod heads;
pub mod limits;
pub mod line_heads;
pub mod list_places;
pub mod members;
pub mod places;
pub mod replacing;
pub mod start;
pub mod texts;
