//! The order in which a depth-first walk leaves blocks.

ghost use Rattle.std.specs.Prelude.{◌≡◌, ◌<◌, ◌≤◌, ◌↔◌, ◌⊎◌, ℕ, List, [], ◌∷◌, length, false, true, IfErr, OnErr, OnOk};
ghost use Rattle.regalloc2_index.specs.Range.{number_limit};
ghost use Rattle.regalloc2_function.specs.Reasons.{IsFirstIn};
ghost use Rattle.regalloc2_function.specs.WellFormed.{SuccessorsAreBlocks};
ghost use Rattle.regalloc2_function.specs.Leaves.{Leaves, ListsOnce, Reaches, met, succs_in};
ghost use Rattle.regalloc2_function.specs.Listed.{AreBlocks, AreSuccessors, named_blocks};
ghost use Rattle.regalloc2_function.specs.Inside.DepthFirst.{CanWalk};

use super::blocks::first_outside;
use crate::Function;
use regalloc2_index::Block;
use regalloc2_names::RegAllocError;
use std::alloc::{AllocError, Allocator};

/// A block that the walk has entered, and the position of the next successor to look at.
#[derive(Clone, Copy)]
struct Frame {
    block: Block,
    next: usize,
}

/// Returns the successors that `succ_blocks` returns for `block`.
fn succs_of<'a, F: Fn(Block) -> &'a [Block]>(succ_blocks: &F, block: Block) -> &'a [Block]
    requires { F.pre succ_blocks.now block }
    ensures { F.post succ_blocks.now block result }
{
    succ_blocks(block)
}

/// Tests that `entry` and each successor is one of the `num_blocks` blocks.
fn test_named<'a, F: Fn(Block) -> &'a [Block]>(
    num_blocks: usize,
    entry: Block,
    succ_blocks: &F,
) -> Result<(), RegAllocError>
    requires few { num_blocks ≤ number_limit }
    requires callable { (b : ℕ) → b < num_blocks → F.pre succ_blocks.now b }
    ensures ok { (succs : ℕ → List ℕ) → AreSuccessors (F.post succ_blocks.now) num_blocks succs → OnOk result (AreBlocks succs num_blocks entry) }
    ensures err { (succs : ℕ → List ℕ) → AreSuccessors (F.post succ_blocks.now) num_blocks succs →
        IfErr result (λ e. (s : ℕ) × (e ≡ RegAllocError.BB s) × IsFirstIn (λ s. s < num_blocks) (named_blocks succs num_blocks entry) s) }
{
    if entry.index() >= num_blocks {
        return Err(RegAllocError::BB(entry));
    }
    for b in 0..num_blocks {
        if let Some(succ) = first_outside(num_blocks, succs_of(succ_blocks, Block::new(b))) {
            return Err(RegAllocError::BB(succ));
        }
    }
    Ok(())
}

/// Walks depth first from `entry` over blocks that aren't visited, and adds each block to `out` as the
/// walk leaves it.
fn walk<'a, A: Allocator + Copy, F: Fn(Block) -> &'a [Block]>(
    alloc: A,
    entry: Block,
    visited: &mut [bool],
    out: &mut Vec<Block, A>,
    succ_blocks: &F,
) -> Result<(), AllocError>
    requires { CanWalk (λ b. F.pre succ_blocks.now b) (F.post succ_blocks.now) entry visited.old out.old.items }
    ensures { (succs : ℕ → List ℕ) → AreSuccessors (F.post succ_blocks.now) (length visited.old) succs → AreBlocks succs (length visited.old) entry →
        OnOk result (Leaves succs [] (entry ∷ []) out.new.items) }
{
    let mut stack: Vec<Frame, A> = Vec::new(alloc);
    visited[entry.index()] = true;
    stack.push(Frame {
        block: entry,
        next: 0,
    })?;
    while let Some(frame) = stack.pop() {
        let succs = succs_of(succ_blocks, frame.block);
        if frame.next < succs.len() {
            let succ = succs[frame.next];
            let met = visited[succ.index()];
            stack.push(Frame {
                block: frame.block,
                next: frame.next + 1,
            })?;
            if !met {
                visited[succ.index()] = true;
                stack.push(Frame {
                    block: succ,
                    next: 0,
                })?;
            }
        } else {
            out.push(frame.block)?;
        }
    }
    Ok(())
}

/// Lists the blocks that the entry reaches, in the order in which a depth-first walk that takes
/// successors in listed order leaves them, each once.
///
/// For each of the `num_blocks` blocks, numbered from 0, `succ_blocks` returns the same successors at
/// every call. It is called for each block, reached or not: `entry` and each successor has to be a
/// block, and `BB` names the first that isn't: `entry`, or else the first in the lists of successors
/// by rising block. The error is `Memory` if memory ran out. After an error `out` is empty.
/// `visited_scratch` holds nothing that is needed again.
///
/// Linear in the blocks and their successors. The walk has its own stack, so it handles a chain of
/// any length. Upstream tests only the blocks that the walk meets.
pub fn calculate<'a, A: Allocator + Copy, F: Fn(Block) -> &'a [Block]>(
    alloc: A,
    num_blocks: usize,
    entry: Block,
    visited_scratch: &mut Vec<bool, A>,
    out: &mut Vec<Block, A>,
    succ_blocks: F,
) -> Result<(), RegAllocError>
    requires few { num_blocks ≤ number_limit }
    requires callable { (b : ℕ) → b < num_blocks → F.pre succ_blocks b }
    requires same { (succs : ℕ → List ℕ) × AreSuccessors (F.post succ_blocks) num_blocks succs }
    ensures blocks { (succs : ℕ → List ℕ) → AreSuccessors (F.post succ_blocks) num_blocks succs → OnOk result (AreBlocks succs num_blocks entry) }
    ensures order { (succs : ℕ → List ℕ) → AreSuccessors (F.post succ_blocks) num_blocks succs → OnOk result (Leaves succs [] (entry ∷ []) out.new.items) }
    ensures once { OnOk result (ListsOnce out.new.items) }
    ensures reached { (succs : ℕ → List ℕ) → AreSuccessors (F.post succ_blocks) num_blocks succs →
        OnOk result ((b : ℕ) → ((met out.new.items b ≡ true) ↔ Reaches succs entry b)) }
    ensures refused { (succs : ℕ → List ℕ) → AreSuccessors (F.post succ_blocks) num_blocks succs →
        IfErr result (λ e. (e ≡ RegAllocError.Memory) ⊎ ((s : ℕ) × (e ≡ RegAllocError.BB s)
        × IsFirstIn (λ s. s < num_blocks) (named_blocks succs num_blocks entry) s)) }
    ensures accepted { (succs : ℕ → List ℕ) → AreSuccessors (F.post succ_blocks) num_blocks succs → AreBlocks succs num_blocks entry →
        IfErr result (λ e. e ≡ RegAllocError.Memory) }
    ensures empty { OnErr result (out.new.items ≡ []) }
{
    out.clear();
    visited_scratch.clear();
    test_named(num_blocks, entry, &succ_blocks)?;
    visited_scratch.resize(num_blocks, false)?;
    match walk(
        alloc,
        entry,
        visited_scratch.as_mut_slice(),
        out,
        &succ_blocks,
    ) {
        Ok(()) => Ok(()),
        Err(AllocError) => {
            out.clear();
            Err(RegAllocError::Memory)
        }
    }
}

/// Lists the blocks that the entry reaches, in the order in which a depth-first walk that takes
/// successors in listed order leaves them, each once.
///
/// The entry and each successor is a block, as `cfg` tests. Linear in the blocks that are reached
/// and their edges. The walk has its own stack, so it handles a chain of any length. If memory runs
/// out, `out` is empty; `visited_scratch` holds nothing that is needed again.
pub fn leave_order<A: Allocator + Copy, F: Function>(
    alloc: A,
    f: &F,
    visited_scratch: &mut Vec<bool, A>,
    out: &mut Vec<Block, A>,
) -> Result<(), AllocError>
    requires { SuccessorsAreBlocks (F.function f.now) }
    ensures order { OnOk result (Leaves (succs_in (F.function f.now)) [] ((F.function f.now).entry ∷ []) out.new.items) }
    ensures once { OnOk result (ListsOnce out.new.items) }
    ensures reached { OnOk result ((b : ℕ) → ((met out.new.items b ≡ true) ↔ Reaches (succs_in (F.function f.now)) (F.function f.now).entry b)) }
    ensures empty { OnErr result (out.new.items ≡ []) }
{
    out.clear();
    visited_scratch.clear();
    visited_scratch.resize(f.num_blocks(), false)?;
    let entry = f.entry_block();
    match walk(
        alloc,
        entry,
        visited_scratch.as_mut_slice(),
        out,
        &|block| f.block_succs(block),
    ) {
        Ok(()) => Ok(()),
        Err(refused) => {
            out.clear();
            Err(refused)
        }
    }
}
