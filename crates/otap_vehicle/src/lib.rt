// The functions that the firmware of a vehicle set calls, in C or Rust. Crate packing says which bits of an answer are what.
// C names each set's calls apart: each is one line, of the function for any limits or any message size.
#![tactic(auto)]

mod caller;
mod counts;
mod entries;
mod exports;
mod messages;
mod queries;
mod radio;
mod rows;
