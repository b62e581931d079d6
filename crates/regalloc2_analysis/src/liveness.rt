//! Whether a function reads or passes a vreg on some path before it writes it.

mod chain;
mod edges;
mod needs;
mod reads;
mod search;
mod sets;
mod sites;
mod tree_walk;
mod trees;
mod walk;

pub use reads::{decided_by_tree, reads_written};
