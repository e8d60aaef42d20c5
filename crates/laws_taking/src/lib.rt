#![tactic(auto)]

// Demands 1 to 3 for taking a message, and judging it before: laws only.
