//! The tests of a function's blocks and edges.

ghost use Rattle.std.specs.Prelude.{◌≡◌, ◌+◌, ◌<◌, ◌≤◌, ◌^◌, ◌↔◌, ◌⊎◌, ℕ, [], All, length, replicate, slice_index, IfErr, IfNone, IfOk, IfSome, IsTrue, OnOk};
ghost use Rattle.std.specs.Prelude.{◌∷◌, flat_map, if◌then◌else◌, nat_eq};
ghost use Rattle.std.specs.Bool.{OnTrue};
ghost use Rattle.regalloc2_function.specs.FunctionValue.{block_at, EachBlock, last_of};
ghost use Rattle.regalloc2_function.specs.Reasons.{HasShape, IsFirst, IsFirstIn, IsShapeFault};
ghost use Rattle.regalloc2_function.specs.WellFormed.{BlocksFollow, NoOperandsAt, NotCriticalAt};
ghost use Rattle.regalloc2_function.specs.WellFormed.{PredecessorsAt, SuccessorsAreBlocks, times_in, ways_into};
ghost use Rattle.regalloc2_function.specs.Inside.Ways.{ListedInOrder, MetSoFar, listed_of};

use crate::Function;
use regalloc2_index::{Block, Inst};
use regalloc2_names::RegAllocError;
use std::alloc::{AllocError, Allocator};

/// Returns the first of `blocks` whose number isn't below `num_blocks`.
pub fn first_outside(num_blocks: usize, blocks: &[Block]) -> Option<Block>
    ensures none { IfNone result (All (λ s. s < num_blocks) blocks.now) }
    ensures first { IfSome result (IsFirstIn (λ s. s < num_blocks) blocks.now) }
{
    for block in blocks {
        if block.index() >= num_blocks {
            return Some(*block);
        }
    }
    None
}

/// Tests that the entry and each successor is a block.
pub fn test_successors<F: Function>(f: &F) -> Result<(), RegAllocError>
    ensures ok { OnOk result (SuccessorsAreBlocks (F.function f.now)) }
    ensures err { IfErr result (λ e. (s : ℕ) × (e ≡ RegAllocError.BB s)
        × IsFirstIn (λ s. s < length (F.function f.now).blocks) ((F.function f.now).entry ∷ flat_map (λ b. b.succs) (F.function f.now).blocks) s) }
{
    let num_blocks = f.num_blocks();
    let entry = f.entry_block();
    if entry.index() >= num_blocks {
        return Err(RegAllocError::BB(entry));
    }
    for b in 0..num_blocks {
        if let Some(succ) = first_outside(num_blocks, f.block_succs(Block::new(b))) {
            return Err(RegAllocError::BB(succ));
        }
    }
    Ok(())
}

/// Adds `block` to the list in `ways` of each of its successors `succs`, once for each position.
fn add_ways<A: Allocator + Copy>(
    ways: &mut [Vec<Block, A>],
    succs: &[Block],
    block: Block,
) -> Result<(), AllocError>
    requires { All (λ s. s < length ways.old) succs.now }
    ensures { OnOk result ((n p : ℕ) → times_in p (listed_of ways.new n) ≡ times_in p
        (listed_of ways.old n) + (if nat_eq block p then times_in n succs.now else 0)) }
{
    for succ in succs {
        ways[succ.index()].push(block)?;
    }
    Ok(())
}

/// Returns `num` empty lists.
fn no_ways<A: Allocator + Copy>(alloc: A, num: usize) -> Result<Vec<Vec<Block, A>, A>, AllocError>
    ensures len { IfOk result (λ w. length w.items ≡ num) }
    ensures none { IfOk result (λ w. (n : ℕ) → listed_of w.items n ≡ []) }
{
    let mut ways: Vec<Vec<Block, A>, A> = Vec::with_capacity(alloc, num)?;
    for _ in 0..num {
        ways.push(Vec::new(alloc))?;
    }
    Ok(ways)
}

/// Adds to the list of each block the blocks that name it as a successor, once for each position.
fn add_all_ways<A: Allocator + Copy, F: Function>(
    ways: &mut [Vec<Block, A>],
    f: &F,
) -> Result<(), AllocError>
    requires blocks { SuccessorsAreBlocks (F.function f.now) }
    requires long { length ways.old ≡ length (F.function f.now).blocks }
    requires none { (n : ℕ) → listed_of ways.old n ≡ [] }
    ensures { OnOk result ((n p : ℕ) → times_in p (listed_of ways.new n) ≡ times_in n (block_at (F.function f.now) p).succs) }
{
    for b in 0..f.num_blocks() {
        let block = Block::new(b);
        add_ways(ways, f.block_succs(block), block)?;
    }
    Ok(())
}

/// Adds to each block's count how often the block is in `blocks`.
fn count_in(counts: &mut [usize], blocks: &[Block])
    requires within { All (λ b. b < length counts.old) blocks.now }
    requires room { (b : ℕ) → b < length counts.old → slice_index counts.old b + length blocks.now < 2 ^ 64 }
    ensures { (b : ℕ) → slice_index counts.new b ≡ slice_index counts.old b + times_in b blocks.now }
{
    for block in blocks {
        counts[block.index()] += 1;
    }
}

/// Subtracts from each block's count how often the block is in `blocks`. Returns `false` as soon as a
/// count is too low.
fn count_out(counts: &mut [usize], blocks: &[Block]) -> bool
    ensures enough { IsTrue result ↔ ((b : ℕ) → times_in b blocks.now ≤ slice_index counts.old b) }
    ensures taken { OnTrue result ((b : ℕ) → slice_index counts.new b + times_in b blocks.now ≡ slice_index counts.old b) }
{
    for block in blocks {
        if block.index() >= counts.len() || counts[block.index()] == 0 {
            return false;
        }
        counts[block.index()] -= 1;
    }
    true
}

/// Returns `true` if the count of each of `blocks` is 0.
fn are_used_up(counts: &[usize], blocks: &[Block]) -> bool
    requires { All (λ b. b < length counts.now) blocks.now }
    ensures { IsTrue result ↔ All (λ b. slice_index counts.now b ≡ 0) blocks.now }
{
    for block in blocks {
        if counts[block.index()] != 0 {
            return false;
        }
    }
    true
}

/// Returns `true` if `listed` and `preds` have each block equally often. All counts are 0 before the
/// call, and after a call that returns `true`.
fn same_blocks(counts: &mut [usize], listed: &[Block], preds: &[Block]) -> bool
    requires within { All (λ b. b < length counts.old) listed.now }
    requires zero { (b : ℕ) → slice_index counts.old b ≡ 0 }
    ensures same { IsTrue result ↔ ((b : ℕ) → times_in b preds.now ≡ times_in b listed.now) }
    ensures zero { OnTrue result ((b : ℕ) → slice_index counts.new b ≡ 0) }
{
    count_in(counts, listed);
    if !count_out(counts, preds) {
        return false;
    }
    are_used_up(counts, listed)
}

/// Compares the predecessors of each block with its list in `ways`, which has the blocks that name it
/// as a successor.
fn compare_ways<A: Allocator + Copy, F: Function>(
    counts: &mut [usize],
    ways: &[Vec<Block, A>],
    f: &F,
) -> Result<(), RegAllocError>
    requires zero { counts.old ≡ replicate (length (F.function f.now).blocks) 0 }
    requires long { length ways.now ≡ length (F.function f.now).blocks }
    requires ways { (n p : ℕ) → times_in p (listed_of ways.now n) ≡ times_in n (block_at (F.function f.now) p).succs }
    ensures ok { OnOk result (EachBlock (F.function f.now) (PredecessorsAt (F.function f.now))) }
    ensures err { IfErr result (λ e. (b : ℕ) × (e ≡ RegAllocError.BB b)
        × IsFirst (length (F.function f.now).blocks) (λ n. PredecessorsAt (F.function f.now) n (block_at (F.function f.now) n)) b) }
{
    for b in 0..f.num_blocks() {
        let block = Block::new(b);
        if !same_blocks(counts, ways[b].as_slice(), f.block_preds(block)) {
            return Err(RegAllocError::BB(block));
        }
    }
    Ok(())
}

/// Returns `true` if each successor of `block` has `block` as its next predecessor. Counts the
/// predecessor as met.
fn meets_in_order<F: Function>(counts: &mut [usize], f: &F, block: Block) -> bool
    requires block { block < length (F.function f.now).blocks }
    requires blocks { SuccessorsAreBlocks (F.function f.now) }
    requires long { length counts.old ≡ length (F.function f.now).blocks }
    requires met { MetSoFar (F.function f.now) block counts.old }
    ensures met { OnTrue result (MetSoFar (F.function f.now) (block + 1) counts.new) }
    ensures order { ListedInOrder (F.function f.now) → IsTrue result }
{
    for succ in f.block_succs(block) {
        let preds = f.block_preds(*succ);
        let met = counts[succ.index()];
        if met >= preds.len() || preds[met] != block {
            return false;
        }
        counts[succ.index()] = met + 1;
    }
    true
}

/// Returns `true` if `counts` has, for each block, as many met predecessors as the block lists.
fn are_all_met<F: Function>(counts: &[usize], f: &F) -> bool
    requires { length counts.now ≡ length (F.function f.now).blocks }
    ensures { IsTrue result ↔ EachBlock (F.function f.now) (λ n b. slice_index counts.now n ≡ length b.preds) }
{
    for b in 0..f.num_blocks() {
        if counts[b] != f.block_preds(Block::new(b)).len() {
            return false;
        }
    }
    true
}

/// Returns `true` if a pass over all successors meets the predecessors of each block in the order of
/// its list.
fn pass_in_order<F: Function>(counts: &mut [usize], f: &F) -> bool
    requires blocks { SuccessorsAreBlocks (F.function f.now) }
    requires zero { counts.old ≡ replicate (length (F.function f.now).blocks) 0 }
    ensures { IsTrue result ↔ ListedInOrder (F.function f.now) }
{
    for b in 0..f.num_blocks() {
        if !meets_in_order(counts, f, Block::new(b)) {
            return false;
        }
    }
    are_all_met(counts, f)
}

/// Returns `true` if the predecessors of each block are listed in the order of blocks and their
/// successors.
fn are_in_order<A: Allocator + Copy, F: Function>(alloc: A, f: &F) -> Result<bool, AllocError>
    requires { SuccessorsAreBlocks (F.function f.now) }
    ensures { IfOk result (λ yes. IsTrue yes ↔ ListedInOrder (F.function f.now)) }
{
    let mut counts = Vec::from_elem(alloc, 0, f.num_blocks())?;
    Ok(pass_in_order(counts.as_mut_slice(), f))
}

/// Compares the predecessors of each block with the blocks that name it as a successor, counted.
fn test_counted<A: Allocator + Copy, F: Function>(alloc: A, f: &F) -> Result<(), RegAllocError>
    requires { SuccessorsAreBlocks (F.function f.now) }
    ensures ok { OnOk result (EachBlock (F.function f.now) (PredecessorsAt (F.function f.now))) }
    ensures err { IfErr result (λ e. (e ≡ RegAllocError.Memory) ⊎ ((b : ℕ) × (e ≡ RegAllocError.BB b)
        × IsFirst (length (F.function f.now).blocks) (λ n. PredecessorsAt (F.function f.now) n (block_at (F.function f.now) n)) b)) }
{
    let mut ways = no_ways(alloc, f.num_blocks())?;
    add_all_ways(ways.as_mut_slice(), f)?;
    let mut counts = Vec::from_elem(alloc, 0, f.num_blocks())?;
    compare_ways(counts.as_mut_slice(), ways.as_slice(), f)
}

/// Tests that each block's predecessors are its listings among successors, counted.
pub fn test_predecessors<A: Allocator + Copy, F: Function>(
    alloc: A,
    f: &F,
) -> Result<(), RegAllocError>
    requires { SuccessorsAreBlocks (F.function f.now) }
    ensures ok { OnOk result (EachBlock (F.function f.now) (PredecessorsAt (F.function f.now))) }
    ensures err { IfErr result (λ e. (e ≡ RegAllocError.Memory) ⊎ ((b : ℕ) × (e ≡ RegAllocError.BB b)
        × IsFirst (length (F.function f.now).blocks) (λ n. PredecessorsAt (F.function f.now) n (block_at (F.function f.now) n)) b)) }
{
    // Front ends list predecessors in this order, and the pass needs no lists.
    if are_in_order(alloc, f)? {
        return Ok(());
    }
    test_counted(alloc, f)
}

/// Returns `true` if `block` has several incoming edges. The function's start counts as an edge into
/// the entry.
fn is_join<F: Function>(f: &F, block: Block) -> bool
    requires { block < length (F.function f.now).blocks }
    ensures { IsTrue result ↔ (1 < ways_into (F.function f.now) block) }
{
    let preds = f.block_preds(block).len();
    if block == f.entry_block() {
        preds > 0
    } else {
        preds > 1
    }
}

/// Returns the first of `preds` that has several successors.
fn first_fork<F: Function>(f: &F, preds: &[Block]) -> Option<Block>
    requires { All (λ p. p < length (F.function f.now).blocks) preds.now }
    ensures none { IfNone result (All (λ p. length (block_at (F.function f.now) p).succs ≤ 1) preds.now) }
    ensures first { IfSome result (IsFirstIn (λ p. length (block_at (F.function f.now) p).succs ≤ 1) preds.now) }
{
    for pred in preds {
        if f.block_succs(*pred).len() > 1 {
            return Some(*pred);
        }
    }
    None
}

/// Tests that no block with several incoming edges has a predecessor with several successors.
pub fn test_edges<F: Function>(f: &F) -> Result<(), RegAllocError>
    requires { EachBlock (F.function f.now) (λ n b. All (λ p. p < length (F.function f.now).blocks) b.preds) }
    ensures ok { OnOk result (EachBlock (F.function f.now) (NotCriticalAt (F.function f.now))) }
    ensures err { IfErr result (λ e. (b p : ℕ) × (e ≡ RegAllocError.CritEdge p b)
        × (IsFirst (length (F.function f.now).blocks) (λ n. NotCriticalAt (F.function f.now) n (block_at (F.function f.now) n)) b)
        × IsFirstIn (λ p. length (block_at (F.function f.now) p).succs ≤ 1) (block_at (F.function f.now) b).preds p) }
{
    for b in 0..f.num_blocks() {
        let block = Block::new(b);
        if is_join(f, block) {
            if let Some(pred) = first_fork(f, f.block_preds(block)) {
                return Err(RegAllocError::CritEdge(pred, block));
            }
        }
    }
    Ok(())
}

/// Returns `true` if `last`, the last instruction of `block`, has no operands, or no successor of
/// `block` has several incoming edges.
fn may_branch<F: Function>(f: &F, block: Block, last: Inst) -> bool
    requires block { block < length (F.function f.now).blocks }
    requires last { last ≡ last_of (block_at (F.function f.now) block) }
    requires within { last < length (F.function f.now).insts }
    requires blocks { SuccessorsAreBlocks (F.function f.now) }
    ensures { IsTrue result ↔ NoOperandsAt (F.function f.now) block (block_at (F.function f.now) block) }
{
    if f.inst_operands(last).is_empty() {
        return true;
    }
    for succ in f.block_succs(block) {
        if is_join(f, *succ) {
            return false;
        }
    }
    true
}

/// Tests that no branch into a block with several incoming edges has operands.
pub fn test_branches<F: Function>(f: &F) -> Result<(), RegAllocError>
    requires blocks { SuccessorsAreBlocks (F.function f.now) }
    requires follow { BlocksFollow (F.function f.now) }
    ensures ok { OnOk result (EachBlock (F.function f.now) (NoOperandsAt (F.function f.now))) }
    ensures err { IfErr result (λ e. (b : ℕ) × (e ≡ RegAllocError.DisallowedBranchArg (last_of (block_at (F.function f.now) b)))
        × IsFirst (length (F.function f.now).blocks) (λ n. NoOperandsAt (F.function f.now) n (block_at (F.function f.now) n)) b) }
{
    for b in 0..f.num_blocks() {
        let block = Block::new(b);
        let last = f.block_insns(block).last();
        if !may_branch(f, block, last) {
            return Err(RegAllocError::DisallowedBranchArg(last));
        }
    }
    Ok(())
}

/// Tests a function's blocks and edges: the tests of [`CFGInfo::init`](crate::cfg::CFGInfo::init),
/// which says what they are and what errors name, without its tables. Returns `Memory` if memory
/// ran out.
pub fn test_shape<A: Allocator + Copy, F: Function>(alloc: A, f: &F) -> Result<(), RegAllocError>
    ensures ok { OnOk result (HasShape (F.function f.now)) }
    ensures err { IfErr result (λ e. (e ≡ RegAllocError.Memory) ⊎ IsShapeFault (F.function f.now) e) }
    ensures accepted { HasShape (F.function f.now) → IfErr result (λ e. e ≡ RegAllocError.Memory) }
{
    test_successors(f)?;
    crate::test_blocks(f)?;
    test_predecessors(alloc, f)?;
    test_edges(f)?;
    test_branches(f)
}
