//! How objects, slots, page tables and the bytes of memory agree, and what keeps it so. There is no code here:
//! definitions and proofs.
#![tactic(auto)]
