// The functions that the office's software calls, in C or Rust. Crate packing_office says which bits of an answer are what.
// C names each set's calls apart: each is one line, of the function for any limits or any message size.
#![tactic(auto)]

mod handheld;
mod packed;
mod parameters;
mod vehicle;
