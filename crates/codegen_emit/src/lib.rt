//! From an allocated function to the machine's instructions.
//!
//! `specs/Emitted.antt` has the code of each operation and move, `specs/Pinned.antt` the machine's
//! place for each of the allocator's.
#![tactic(auto)]

pub mod emit;
pub mod placement;
