//! What a block's listing carries for one vreg, and what follows for every path.
//!
//! A crate of definitions and lemmas: `specs/` has the definitions, which the proofs of the crates above cite, and `proofs/` what
//! follows from them.
#![tactic(auto)]
