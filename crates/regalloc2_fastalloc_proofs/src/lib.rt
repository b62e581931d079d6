//! What the steps of the allocator's walk do to its tables, as relations, and what a walk of such
//! steps preserves and guarantees.
//!
//! A crate of definitions and lemmas: `specs/` has the relations, which the contracts of the
//! allocator's functions are stated in, and `proofs/` what follows from them alone.
#![tactic(auto)]
