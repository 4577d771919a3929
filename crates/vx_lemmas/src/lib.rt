//! Lemmas about plain bools, numbers, lists, options and results, for the proofs of all crates.
#![tactic(auto)]
