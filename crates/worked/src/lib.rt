// Document 01's worked values: see specs.
#![tactic(auto)]
