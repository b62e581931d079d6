//! Rewrites a function for the allocator: [`split_critical_edges`] puts a block on each critical edge, [`renumber`]
//! puts the blocks in another order.
//!
//! The allocator requires a function without critical edges whose entry is block 0 and whose vregs are defined at
//! smaller numbers than they are used.

mod copied;
mod edges;
mod error;
mod order;

pub use edges::split_critical_edges;
pub use error::RewriteError;
pub use order::renumber;
