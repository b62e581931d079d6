//! Whether predecessors follow from the successors.

use std::alloc::{AllocError, Allocator};

/// The number of a block's predecessors that were met, in the order of the list, going through the successors block by
/// block; `None` once a block was met out of this order.
#[derive(Clone, Copy)]
pub(crate) struct Following(Option<usize>);

impl Following {
    /// Returns whether all of `preds` were met.
    pub(crate) fn is_all(self, preds: &[u32]) -> bool {
        self.0 == Some(preds.len())
    }

    /// Meets the predecessor `pred`, of the list `preds`.
    fn meet(self, preds: &[u32], pred: usize) -> Following {
        let Some(met) = self.0 else {
            return self;
        };
        match preds.get(met) {
            Some(next) if *next as usize == pred => Following(met.checked_add(1)),
            _ => Following(None),
        }
    }
}

/// Meets `block` as the predecessor of each of its successors, `targets`.
fn meet_all<A: Allocator>(
    preds: &[Vec<u32, A>],
    following: &mut [Following],
    block: usize,
    targets: &[u32],
) {
    for target in targets {
        let target = *target as usize;
        if target < following.len() && target < preds.len() {
            following[target] = following[target].meet(preds[target].as_slice(), block);
        }
    }
}

/// Returns for each list of `preds` how far it follows from the successors, `succs`. Linear in both.
///
/// The whole list follows if it has each block, by rising number, once for each edge from that block.
pub(crate) fn follow<A: Allocator>(
    alloc: A,
    preds: &[Vec<u32, A>],
    succs: &[Vec<u32, A>],
) -> Result<Vec<Following, A>, AllocError> {
    let mut following = vec![in alloc; Following(Some(0)); preds.len()]?;
    for (block, targets) in succs.iter().enumerate() {
        meet_all(preds, following.as_mut_slice(), block, targets.as_slice());
    }
    Ok(following)
}
