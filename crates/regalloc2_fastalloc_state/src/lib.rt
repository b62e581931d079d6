//! The parts of the fast allocator's state: locations of vregs, their spill slots, the registers that may be allocated,
//! the moves that are added, and the registers of one instruction.
//!
//! [`validate`] has the tests of a function that come before the walk.
#![tactic(auto)]

pub mod allocatable;
pub mod edits;
pub mod inst_regs;
pub mod masks;
pub mod positions;
pub mod request;
pub mod spillslots;
pub mod validate;
pub mod vreg_allocs;
