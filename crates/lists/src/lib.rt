#![tactic(auto)]

// Ladders of answers and properties of lists (specs/), and laws that the kit lacks (proofs/). There is no code.
