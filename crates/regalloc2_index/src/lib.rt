//! Numbers of instructions and blocks, and ranges of instructions.
//!
//! A contract sees an `Inst` or a `Block` as its number. The greatest number of 32 bits is invalid: it
//! stands for no instruction and no block.
#![tactic(auto)]

mod blocks;
mod containers;
mod insts;
mod ranges;
mod walks;

pub use blocks::Block;
pub use containers::{ContainerComparator, ContainerIndex};
pub use insts::Inst;
pub use ranges::InstRange;
pub use walks::InstRangeIter;
