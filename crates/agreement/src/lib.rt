// Demand 3: every list of calls commits what the in-order run does. Definitions and proofs alone; no code.
#![tactic(auto)]
