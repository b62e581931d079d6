//! The edges on paths from the entry.

use crate::named::list_at;
use regalloc2_serialize::StoredFunction;
use std::alloc::{AllocError, Global};
use std::fmt;

/// The blocks that are reached from the entry, with the edges between them.
#[derive(Drop)]
struct Reached {
    /// The reached blocks, nearest first.
    order: Vec<u32>,
    /// Whether each block is reached.
    is_reached: Vec<bool>,
    /// The reached predecessors of each block, once for each edge.
    preds: Vec<Vec<u32>>,
}

impl Reached {
    /// Adds `block`, unless it is reached already.
    fn add(&mut self, block: u32) -> Result<(), AllocError> {
        if let Some(is_reached) = self.is_reached.get_mut(block as usize) {
            if !*is_reached {
                *is_reached = true;
                self.order.push(block)?;
            }
        }
        Ok(())
    }

    /// Follows the edges from `block` to its successors, `succs`.
    fn follow(&mut self, block: u32, succs: &[u32]) -> Result<(), AllocError> {
        for succ in succs {
            if let Some(preds) = self.preds.get_mut(*succ as usize) {
                preds.push(block)?;
            }
            self.add(*succ)?;
        }
        Ok(())
    }

    /// Follows the edges of the reached blocks of `function`.
    fn run(&mut self, function: &StoredFunction) -> Result<(), AllocError> {
        let mut index = 0;
        while index < self.order.len() {
            let block = self.order[index];
            let succs = list_at(function.block_succs.as_slice(), block as usize);
            self.follow(block, succs)?;
            index += 1;
        }
        Ok(())
    }
}

/// Returns the predecessors of each block of `function` on paths from the entry, once for each edge. Linear in the
/// edges.
pub(crate) fn edges_into(
    alloc: Global,
    function: &StoredFunction,
) -> Result<Vec<Vec<u32>>, AllocError> {
    let mut reached = Reached {
        order: Vec::new(alloc),
        is_reached: Vec::new(alloc),
        preds: Vec::new(alloc),
    };
    for _ in 0..function.blocks.len() {
        reached.is_reached.push(false)?;
        reached.preds.push(Vec::new(alloc))?;
    }
    reached.add(function.entry_block)?;
    reached.run(function)?;
    let Reached { preds, .. } = reached;
    Ok(preds)
}

/// The blocks of a path.
#[derive(Clone, Copy)]
pub(crate) struct Along<'p>(pub &'p [u32]);

/// As ` along block0, block2`; nothing if there are no blocks.
impl fmt::Display for Along<'_> {
    fn fmt<W: fmt::Write>(&self, f: &mut fmt::Formatter<W>) -> fmt::Result {
        let mut before = " along ";
        for block in self.0 {
            write!(f, "{before}block{block}")?;
            before = ", ";
        }
        Ok(())
    }
}
