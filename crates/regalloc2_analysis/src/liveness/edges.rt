//! The blocks with an edge to each block.

ghost use Rattle.std.specs.Prelude.{◌≡◌, ◌<◌, ◌&&◌, ◌||◌, ℕ, [], All, length, nat_eq, IfOk, OnOk};
ghost use Rattle.regalloc2_function.specs.FunctionValue.{block_at};
ghost use Rattle.regalloc2_function.specs.WellFormed.{SuccessorsAreBlocks};
ghost use Rattle.regalloc2_analysis.specs.Liveness.Edges.{blocks_of, names_block};

use regalloc2_function::Function;
use regalloc2_index::Block;
use std::alloc::{AllocError, Allocator};

/// Returns `num` empty lists.
fn no_edges<A: Allocator + Copy>(alloc: A, num: usize) -> Result<Vec<Vec<Block, A>, A>, AllocError>
    ensures len { IfOk result (λ w. length w.items ≡ num) }
    ensures none { IfOk result (λ w. (n : ℕ) → blocks_of w.items n ≡ []) }
{
    let mut edges: Vec<Vec<Block, A>, A> = Vec::with_capacity(alloc, num)?;
    for _ in 0..num {
        edges.push(Vec::new(alloc))?;
    }
    Ok(edges)
}

/// Adds `block` to the lists of its successors `succs`, once for each position.
fn add_edges<A: Allocator + Copy>(
    edges: &mut [Vec<Block, A>],
    succs: &[Block],
    block: Block,
) -> Result<(), AllocError>
    requires { All (λ s. s < length edges.old) succs.now }
    ensures { OnOk result ((n p : ℕ) → names_block (blocks_of edges.new n)
        p ≡ (names_block (blocks_of edges.old n) p || (nat_eq block p && names_block succs.now n))) }
{
    for succ in succs {
        edges[succ.index()].push(block)?;
    }
    Ok(())
}

/// Adds each block to the lists of its successors.
fn add_all_edges<A: Allocator + Copy, F: Function>(
    edges: &mut [Vec<Block, A>],
    f: &F,
) -> Result<(), AllocError>
    requires blocks { SuccessorsAreBlocks (F.function f.now) }
    requires len { length edges.old ≡ length (F.function f.now).blocks }
    requires none { (n : ℕ) → blocks_of edges.old n ≡ [] }
    ensures { OnOk result ((n p : ℕ) → names_block (blocks_of edges.new n) p ≡ names_block (block_at (F.function f.now) p).succs n) }
{
    for b in 0..f.num_blocks() {
        let block = Block::new(b);
        add_edges(edges, f.block_succs(block), block)?;
    }
    Ok(())
}

/// Returns, for each block, the blocks with an edge to it, found by successors: the predecessors that
/// `f` names needn't be right. Linear in the blocks and edges.
pub fn predecessors<A: Allocator + Copy, F: Function>(
    alloc: A,
    f: &F,
) -> Result<Vec<Vec<Block, A>, A>, AllocError>
    requires { SuccessorsAreBlocks (F.function f.now) }
    ensures len { IfOk result (λ w. length w.items ≡ length (F.function f.now).blocks) }
    ensures edges { IfOk result (λ w. (n p : ℕ) → names_block (blocks_of w.items n) p ≡ names_block (block_at (F.function f.now) p).succs n) }
{
    let mut edges = no_edges(alloc, f.num_blocks())?;
    add_all_edges(edges.as_mut_slice(), f)?;
    Ok(edges)
}
