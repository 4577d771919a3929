//! What contracts see of a column, of its validity and of its parts: definitions and lemmas alone.
//!
//! A layout has a file in `specs/`: its parts, why they are no column, and the column that they
//! make. The lemmas that a step's parts make the step's column are in `proofs/`.
#![tactic(auto)]
