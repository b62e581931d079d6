//! The limits that each function keeps.

use regalloc2_names::{SpillSlot, VReg};

/// A function has fewer instructions than this.
pub const INST_LIMIT: usize = 1 << 30;

/// A function has fewer blocks than this.
pub const BLOCK_LIMIT: usize = u32::MAX as usize;

/// The numbers of a function's vregs are below this.
pub const VREG_LIMIT: usize = VReg::MAX + 1;

/// The most units that a spill slot takes.
pub const LARGEST_SLOT: usize = SpillSlot::MAX + 1;
