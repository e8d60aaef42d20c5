#![tactic(auto)]

// Queries, reports and taking together: laws only.
