//! Splits a function's critical edges.

ghost use Rattle.std.specs.Prelude.{◌≡◌, ℕ, ◌+◌, ◌<◌, ◌∷◌, [], true, false, All, IfOk, IfErr, OnOk, length, map, slice_index};
ghost use Rattle.regalloc2_names.specs.Register.{empty_set};
ghost use Rattle.regalloc2_function.specs.FunctionValue.{block_at};
ghost use Rattle.regalloc2_function.specs.WellFormed.{IsFramed, SuccessorsAreBlocks, times_in};
ghost use Rattle.regalloc2_serialize.specs.TableFunction.Table.{function_of_table};
ghost use Rattle.regalloc2_serialize.specs.TableFunction.Draft.{draft_of};
ghost use Rattle.regalloc2_serialize.specs.Rewrite.SplitEdges.{AgreeUpToTwo, AreEntryCounts, AreJumps, HasSplitEdges, IsCountedBlock, IsToSplit, IsUnsplit, is_critical, kept_block, split_arguments, split_drafts, split_succ};

use crate::InstOpcode;
use crate::limits::BLOCK_LIMIT;
use crate::rewrite::copied::{copied_insts, laid_like};
use crate::rewrite::error::RewriteError;
use crate::table_function::{BlockDraft, TableFunction, TableInst};
use regalloc2_function::{Function, is_framed};
use regalloc2_index::Block;
use regalloc2_names::{PRegSet, VReg};
use std::alloc::{AllocError, Allocator};

/// Counts one more edge into `block`.
fn count_entry<A: Allocator>(counts: &mut Vec<usize, A>, block: Block)
    requires { block < length counts.old.items }
    ensures long { length counts.new.items ≡ length counts.old.items }
    ensures counted { (t : ℕ) → t < length counts.old.items → AgreeUpToTwo (slice_index counts.new.items t) (slice_index counts.old.items t + times_in t (block ∷ [])) }
{
    let count = counts[block.index()];
    counts[block.index()] = count.saturating_add(1);
}

/// Counts one more edge into each of the blocks `succs`.
fn count_entries<A: Allocator>(counts: &mut Vec<usize, A>, succs: &[Block])
    requires { All (λ s. s < length counts.old.items) succs.now }
    ensures long { length counts.new.items ≡ length counts.old.items }
    ensures counted { (t : ℕ) → t < length counts.old.items → AgreeUpToTwo (slice_index counts.new.items t) (slice_index counts.old.items t + times_in t succs.now) }
{
    for succ in succs {
        count_entry(counts, *succ);
    }
}

/// Returns how many edges enter each block of `f`; the function's start is an edge into the entry.
///
/// Only whether there are none, one or several matters, so the contract speaks of counts up to two.
fn entries_of<F: Function, A: Allocator>(alloc: A, f: &F) -> Result<Vec<usize, A>, AllocError>
    requires { SuccessorsAreBlocks (F.function f.now) }
    ensures { IfOk result (λ counts. AreEntryCounts (F.function f.now) counts.items) }
{
    let mut counts = Vec::from_elem(alloc, 0usize, f.num_blocks())?;
    for block in 0..f.num_blocks() {
        count_entries(&mut counts, f.block_succs(Block::new(block)));
    }
    count_entry(&mut counts, f.entry_block());
    Ok(counts)
}

/// Returns whether the edge from `block` to its successor `k` is critical. `entries` counts the edges into each
/// block.
fn has_critical_edge<F: Function>(f: &F, block: Block, k: usize, entries: &[usize]) -> bool
    requires counted { IsCountedBlock (F.function f.now) block entries.now }
    requires position { k < length (block_at (F.function f.now) block).succs }
    ensures { result ≡ is_critical (F.function f.now) block k }
{
    let succs = f.block_succs(block);
    if succs.len() <= 1 {
        return false;
    }
    let entered = entries[succs[k].index()];
    entered > 1
}

/// Returns a block that jumps to `to` and passes `arguments`.
fn jump_to<A: Allocator + Copy>(
    alloc: A,
    to: Block,
    arguments: Vec<VReg, A>,
) -> Result<BlockDraft<A>, AllocError>
    ensures { IfOk result (λ draft. draft_of draft ≡ record {
      params = [];
      insts = record { operands = []; clobbers = empty_set; is_branch = true; is_ret = false } ∷ [];
      succs = to ∷ [];
      arguments = arguments.items ∷ [];
    }) }
{
    let (mut insts, mut succs, mut lists) = (Vec::new(alloc), Vec::new(alloc), Vec::new(alloc));
    insts.push(TableInst {
        operands: Vec::new(alloc),
        clobbers: PRegSet::empty(),
        op: InstOpcode::Branch,
    })?;
    succs.push(to)?;
    lists.push(arguments)?;
    Ok(BlockDraft {
        params: Vec::new(alloc),
        insts,
        succs,
        arguments: lists,
    })
}

/// Returns the block to which the edge from `block` to its successor `k` leads in the result, with the arguments that
/// it passes. If the edge is critical, adds a block on it to `jumps`.
fn split_edge<F: Function, A: Allocator + Copy>(
    alloc: A,
    f: &F,
    block: Block,
    k: usize,
    entries: &[usize],
    jumps: &mut Vec<BlockDraft<A>, A>,
) -> Result<(Block, Vec<VReg, A>), RewriteError>
    requires to_split { IsToSplit (F.function f.now) block k entries.now (map draft_of jumps.old.items) }
    requires position { k < length (block_at (F.function f.now) block).succs }
    ensures ends { IfOk result (λ r. (r.0 ≡ split_succ (F.function f.now) block k) × (r.1.items ≡ split_arguments (F.function f.now) block k)) }
    ensures jumps { OnOk result (AreJumps (F.function f.now) block (k + 1) (map draft_of jumps.new.items)) }
    ensures err { IfErr result (λ e. IsUnsplit (F.function f.now) e) }
{
    let to = f.block_succs(block)[k];
    let last = f.block_insns(block).last();
    let arguments = f.branch_blockparams(block, last, k).to_vec(alloc)?;
    if !has_critical_edge(f, block, k, entries) {
        return Ok((to, arguments));
    }
    let number = f.num_blocks() + jumps.len();
    if number >= BLOCK_LIMIT {
        return Err(RewriteError::TooManyBlocks);
    }
    let jump = jump_to(alloc, to, arguments)?;
    jumps.push(jump)?;
    Ok((Block::new(number), Vec::new(alloc)))
}

/// Returns the blocks to which the edges of `block` lead in the result, with the arguments that they pass. Adds a
/// block on each critical edge to `jumps`.
fn split_edges<F: Function, A: Allocator + Copy>(
    alloc: A,
    f: &F,
    block: Block,
    entries: &[usize],
    jumps: &mut Vec<BlockDraft<A>, A>,
) -> Result<(Vec<Block, A>, Vec<Vec<VReg, A>, A>), RewriteError>
    requires { IsToSplit (F.function f.now) block 0 entries.now (map draft_of jumps.old.items) }
    ensures ends { IfOk result (λ r. (r.0.items ≡ (kept_block (F.function f.now) block).succs) × (map (λ v. v.items) r.1.items ≡ (kept_block (F.function f.now) block).arguments)) }
    ensures jumps { OnOk result (AreJumps (F.function f.now) (block + 1) 0 (map draft_of jumps.new.items)) }
    ensures err { IfErr result (λ e. IsUnsplit (F.function f.now) e) }
{
    let (mut succs, mut lists) = (Vec::new(alloc), Vec::new(alloc));
    for k in 0..f.block_succs(block).len() {
        let (succ, arguments) = split_edge(alloc, f, block, k, entries, jumps)?;
        lists.push(arguments)?;
        succs.push(succ)?;
    }
    Ok((succs, lists))
}

/// Returns `block` with its critical edges split. Adds the new blocks to `jumps`.
fn split_block<F: Function, A: Allocator + Copy>(
    alloc: A,
    f: &F,
    block: Block,
    entries: &[usize],
    jumps: &mut Vec<BlockDraft<A>, A>,
) -> Result<BlockDraft<A>, RewriteError>
    requires { IsToSplit (F.function f.now) block 0 entries.now (map draft_of jumps.old.items) }
    ensures ok { IfOk result (λ draft. draft_of draft ≡ kept_block (F.function f.now) block) }
    ensures jumps { OnOk result (AreJumps (F.function f.now) (block + 1) 0 (map draft_of jumps.new.items)) }
    ensures err { IfErr result (λ e. IsUnsplit (F.function f.now) e) }
{
    let (succs, arguments) = split_edges(alloc, f, block, entries, jumps)?;
    Ok(BlockDraft {
        params: f.block_params(block).to_vec(alloc)?,
        insts: copied_insts(alloc, f, block)?,
        succs,
        arguments,
    })
}

/// Returns the blocks of `f` with their critical edges split, followed by the new blocks.
fn split_blocks<F: Function, A: Allocator + Copy>(
    alloc: A,
    f: &F,
) -> Result<Vec<BlockDraft<A>, A>, RewriteError>
    requires framed { IsFramed (F.function f.now) }
    ensures ok { IfOk result (λ drafts. map draft_of drafts.items ≡ split_drafts (F.function f.now)) }
    ensures err { IfErr result (λ e. IsUnsplit (F.function f.now) e) }
{
    let entries = entries_of(alloc, f)?;
    let (mut drafts, mut jumps) = (Vec::new(alloc), Vec::new(alloc));
    for block in 0..f.num_blocks() {
        let draft = split_block(alloc, f, Block::new(block), entries.as_slice(), &mut jumps)?;
        drafts.push(draft)?;
    }
    drafts.extend(jumps)?;
    Ok(drafts)
}

/// Returns a function with a new block on each critical edge.
///
/// An edge is critical if its block has several successors and its end is entered in several ways; the function's
/// start is a way into the entry. Blocks and instructions of `f` keep their numbers. The new blocks follow them, by
/// the number of the block that the edge leaves and the position of the edge: each has no parameters and one
/// instruction, a branch without operands, and passes the arguments of its edge. Predecessors are listed anew, by the
/// successors of all blocks. Each path of `f` is a path of the result with a step more on each split edge: it
/// executes the same instructions besides, and each vreg has the same last write.
///
/// `f` is structurally valid: [`is_framed`] tests it. Linear in the function.
///
/// # Errors
///
/// `Unframed`; `TooManyBlocks` or `TooManyInsts` if the result passes a limit; `Memory` if memory runs out. `f` is
/// unchanged.
pub fn split_critical_edges<F: Function, A: Allocator + Copy>(
    alloc: A,
    f: &F,
) -> Result<TableFunction<A>, RewriteError>
    ensures ok { IfOk result (λ g. HasSplitEdges (F.function f.now) (function_of_table g)) }
    ensures err { IfErr result (λ e. IsUnsplit (F.function f.now) e) }
{
    if !is_framed(f) {
        return Err(RewriteError::Unframed);
    }
    let drafts = split_blocks(alloc, f)?;
    let labels = f.debug_value_labels().to_vec(alloc)?;
    Ok(laid_like(alloc, f, drafts, f.entry_block(), labels)?)
}
