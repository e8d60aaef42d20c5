// The functions that the firmware of a hand-held calls, in C or Rust. Crate packing says which bits of an answer are what.
#![tactic(auto)]

mod caller;
mod conversions;
mod counts;
mod entries;
mod exports;
mod messages;
mod queries;
mod radio;
mod rows;
