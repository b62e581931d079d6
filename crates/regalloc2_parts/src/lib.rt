//! Parts that don't depend on the allocator: move resolvers and their scratch places, the LRU ring
//! of registers, the list of live vregs, operand filters.
#![tactic(auto)]

pub mod callmoves;
pub mod iter;
pub mod lru;
pub mod moves;
pub mod scratch_pool;
pub mod vregset;
