//! The order in which blocks are visited.

ghost use Rattle.regalloc2_function.specs.WellFormed.{IsFramed};

use regalloc2_function::Function;
use regalloc2_index::Block;
use std::alloc::{AllocError, Allocator};

/// A block that a walk is in, and how many of its successors it has taken.
#[derive(Clone, Copy)]
struct Frame {
    block: Block,
    taken: usize,
}

/// Returns the successor that a walk takes after `taken` others: of two successors the one laid out later first, of more
/// the last one that is left.
fn successor(succs: &[Block], taken: usize) -> Option<Block> {
    if let [first, second] = succs {
        if first.index() > second.index() {
            return succs.get(taken).copied();
        }
    }
    let left = succs.len().checked_sub(taken)?;
    succs.get(left.checked_sub(1)?).copied()
}

/// Marks `block` as visited. Returns whether it wasn't.
fn is_new(visited: &mut [bool], block: Block) -> bool {
    let index = block.index();
    if index >= visited.len() {
        return false;
    }
    if visited[index] {
        return false;
    }
    visited[index] = true;
    true
}

/// A walk in depth: the blocks that it is in, a mark for each visited block, and the blocks that it left, in that order.
#[derive(Drop)]
struct Walk<A: Allocator> {
    stack: Vec<Frame, A>,
    visited: Vec<bool, A>,
    order: Vec<Block, A>,
}

impl<A: Allocator> Walk<A> {
    /// Enters `block`, unless it was visited.
    fn enter(&mut self, block: Block) -> Result<(), AllocError> {
        if is_new(&mut self.visited, block) {
            self.stack.push(Frame { block, taken: 0 })?;
        }
        Ok(())
    }

    /// Goes on from the block of `frame` to its next successor, or leaves it.
    fn go_on<F: Function>(&mut self, f: &F, frame: Frame) -> Result<(), AllocError> {
        let Frame { block, taken } = frame;
        if block.index() >= f.num_blocks() {
            return Ok(());
        }
        let Some(succ) = successor(f.block_succs(block), taken) else {
            self.order.push(block)?;
            return Ok(());
        };
        let taken = taken.wrapping_add(1);
        self.stack.push(Frame { block, taken })?;
        self.enter(succ)
    }
}

/// Returns the blocks that a path reaches, in the order in which a walk in depth leaves them.
///
/// The walk takes the exit of a loop before its body, where the body is laid out first. In the reversed order, therefore,
/// a loop's blocks come before the blocks past the loop.
fn leave_order<F: Function, A: Allocator + Copy>(
    alloc: A,
    f: &F,
) -> Result<Vec<Block, A>, AllocError> {
    let visited = Vec::from_elem(alloc, false, f.num_blocks())?;
    let mut walk = Walk {
        stack: Vec::new(alloc),
        visited,
        order: Vec::new(alloc),
    };
    walk.enter(f.entry_block())?;
    for _ in 0..u64::MAX {
        let Some(frame) = walk.stack.pop() else {
            break;
        };
        walk.go_on(f, frame)?;
    }
    let Walk { order, .. } = walk;
    Ok(order)
}

/// Returns each block's rank in reverse postorder. A block that no path reaches has rank 0.
pub fn ranks<F: Function, A: Allocator + Copy>(alloc: A, f: &F) -> Result<Vec<usize, A>, AllocError>
    requires { IsFramed (F.function f.now) }
{
    let order = leave_order(alloc, f)?;
    let mut ranks = Vec::from_elem(alloc, 0, f.num_blocks())?;
    for k in 0..order.len() {
        if let Some(rank) = ranks.get_mut(order[k].index()) {
            *rank = order.len() - k;
        }
    }
    Ok(ranks)
}
