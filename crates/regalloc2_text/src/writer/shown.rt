//! What of a function is shown line by line.

use super::preds::{Following, follow};
use crate::named::list_at;
use crate::spell::{StoredOperand, StoredVReg};
use regalloc2_serialize::{StoredFunction, StoredInst};
use std::alloc::{AllocError, Allocator};

/// A function with the lists that are shown line by line. A list by block that doesn't have an item for each block is
/// empty here, and is written as numbers after the lines.
#[derive(Drop)]
pub(crate) struct Shown<'a, A: Allocator> {
    pub function: &'a StoredFunction<A>,
    /// The successors by block.
    pub succs: &'a [Vec<u32, A>],
    /// The arguments by block and successor; each block has a list for each of its successors.
    pub params_out: &'a [Vec<Vec<u32, A>, A>],
    /// The parameters by block.
    pub params_in: &'a [Vec<u32, A>],
    /// The predecessors by block.
    pub preds: &'a [Vec<u32, A>],
    /// How far the predecessors follow from the successors.
    pub following: Vec<Following, A>,
    /// Whether each block begins where the one before ends, from the first instruction to the last.
    pub is_in_line: bool,
}

/// Returns whether each block that is in both `succs` and `params_out` has a list of arguments for each successor.
fn agree<A: Allocator>(succs: &[Vec<u32, A>], params_out: &[Vec<Vec<u32, A>, A>]) -> bool {
    for k in 0..succs.len().min(params_out.len()) {
        if succs[k].len() != params_out[k].len() {
            return false;
        }
    }
    true
}

/// Returns whether one of `lists` has items.
pub(crate) fn have_items<T, A: Allocator>(lists: &[Vec<T, A>]) -> bool {
    for list in lists {
        if !list.is_empty() {
            return true;
        }
    }
    false
}

/// Returns whether the successors and arguments of `function`, of which at least one has an item for each block,
/// can't be shown together.
pub(crate) fn targets_disagree<A: Allocator>(function: &StoredFunction<A>) -> bool {
    let blocks = function.blocks.len();
    let succs = function.block_succs.as_slice();
    let params_out = function.block_params_out.as_slice();
    match (succs.len() == blocks, params_out.len() == blocks) {
        (true, true) => !agree(succs, params_out),
        (true, false) => have_items(succs),
        (false, true) => have_items(params_out),
        (false, false) => false,
    }
}

/// Returns whether each of `blocks` begins where the block before it ends, from the first of `insts` instructions to
/// the last.
fn blocks_follow(blocks: &[(u32, u32)], insts: usize) -> bool {
    let mut end = 0;
    for (first, past) in blocks {
        if *first != end || *past < *first {
            return false;
        }
        end = *past;
    }
    !blocks.is_empty() && end as usize == insts
}

/// Returns `list` if it has an item for each of `blocks` blocks, else an empty list.
fn by_block<T>(list: &[T], blocks: usize) -> &[T] {
    if list.len() == blocks {
        list
    } else {
        &list[..0]
    }
}

impl<'a, A: Allocator + Copy> Shown<'a, A> {
    /// Returns what of `function` is shown line by line. Linear in the function.
    ///
    /// An error means out of memory.
    pub(crate) fn of(
        alloc: A,
        function: &'a StoredFunction<A>,
    ) -> Result<Shown<'a, A>, AllocError> {
        let blocks = function.blocks.len();
        let mut succs = by_block(function.block_succs.as_slice(), blocks);
        let mut params_out = by_block(function.block_params_out.as_slice(), blocks);
        if succs.len() != params_out.len() || !agree(succs, params_out) {
            succs = &succs[..0];
            params_out = &params_out[..0];
        }
        let preds = by_block(function.block_preds.as_slice(), blocks);
        Ok(Shown {
            function,
            succs,
            params_out,
            params_in: by_block(function.block_params_in.as_slice(), blocks),
            preds,
            following: follow(alloc, preds, succs)?,
            is_in_line: blocks_follow(function.blocks.as_slice(), function.insts.len()),
        })
    }

    /// Returns the successors of `block`, and the arguments for each.
    pub(crate) fn targets(&self, block: usize) -> (&'a [u32], &'a [Vec<u32, A>]) {
        (list_at(self.succs, block), list_at(self.params_out, block))
    }

    /// Returns the predecessors of `block`, if they don't follow from the successors.
    pub(crate) fn odd_preds(&self, block: usize) -> Option<&'a [u32]> {
        let preds = self.preds.get(block)?.as_slice();
        match self.following.get(block) {
            Some(following) if following.is_all(preds) => None,
            _ => Some(preds),
        }
    }

    /// One more than the greatest vreg number that the text shows; 0 if it shows none.
    pub(crate) fn count_vregs(&self) -> u64 {
        let insts = count_in_insts(self.function.insts.as_slice());
        let labels = count_in_labels(self.function.debug_value_labels.as_slice());
        let params = count_in_lists(self.params_in);
        insts
            .max(labels)
            .max(params)
            .max(count_in_arguments(self.params_out))
    }
}

/// Returns one more than the greatest vreg number that `words` show; 0 if they show none.
fn count_in_words(words: &[u32]) -> u64 {
    let counts = words.iter().map(|bits| StoredVReg(*bits).vregs());
    counts.max().unwrap_or(0)
}

/// Returns one more than the greatest vreg number that the words of `lists` show; 0 if they show none.
fn count_in_lists<A: Allocator>(lists: &[Vec<u32, A>]) -> u64 {
    let mut count = 0;
    for words in lists {
        count = count.max(count_in_words(words.as_slice()));
    }
    count
}

/// Returns one more than the greatest vreg number that `params_out`, the arguments of all blocks, show; 0 if they
/// show none.
fn count_in_arguments<A: Allocator>(params_out: &[Vec<Vec<u32, A>, A>]) -> u64 {
    let mut count = 0;
    for lists in params_out {
        count = count.max(count_in_lists(lists.as_slice()));
    }
    count
}

/// Returns one more than the greatest vreg number that `labels` show; 0 if they show none.
fn count_in_labels(labels: &[(u32, u32, u32, u32)]) -> u64 {
    let counts = labels.iter().map(|label| StoredVReg(label.0).vregs());
    counts.max().unwrap_or(0)
}

/// Returns one more than the greatest vreg number that `operands` show; 0 if they show none.
fn count_in_operands(operands: &[u64]) -> u64 {
    let counts = operands.iter().map(|bits| StoredOperand(*bits).vregs());
    counts.max().unwrap_or(0)
}

/// Returns one more than the greatest vreg number that the operands of `insts` show; 0 if they show none.
fn count_in_insts<A: Allocator>(insts: &[StoredInst<A>]) -> u64 {
    let mut count = 0;
    for inst in insts {
        count = count.max(count_in_operands(inst.operands.as_slice()));
    }
    count
}
