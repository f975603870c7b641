//! Removal of a set of slots at once, and one after another: definitions and proofs. There is no code here.
#![tactic(auto)]
