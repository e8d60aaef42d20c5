#![tactic(auto)]

// Requests that share no table: laws only.
