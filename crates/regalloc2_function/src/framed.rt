//! Tests of whether a function is structurally valid (`IsFramed`).

ghost use Rattle.std.specs.Prelude.{◌≡◌, ◌+◌, ◌<◌, ◌≤◌, ◌↔◌, ℕ, false, IsTrue, IsOk, IfErr, length};
ghost use Rattle.regalloc2_function.specs.FunctionValue.{block_at, inst_at, EachBlock};
ghost use Rattle.regalloc2_function.specs.WellFormed.{SuccessorsAreBlocks, BlocksFollow, FollowsAt, EndsAt, EndsBlock};
ghost use Rattle.regalloc2_function.specs.WellFormed.{CountedAt, IsFramed};
ghost use Rattle.regalloc2_function.specs.Reasons.{IsFirst};

use super::Function;
use regalloc2_index::{Block, Inst};
use regalloc2_names::RegAllocError;

/// Returns `true` if the entry and each successor is a block.
fn successors_are_blocks<F: Function>(f: &F) -> bool
    ensures { IsTrue result ↔ SuccessorsAreBlocks (F.function f.now) }
{
    let blocks = f.num_blocks();
    if f.entry_block().index() >= blocks {
        return false;
    }
    for b in 0..blocks {
        if !f
            .block_succs(Block::new(b))
            .iter()
            .all(|s| s.index() < blocks)
        {
            return false;
        }
    }
    true
}

/// Returns `true` if `block` is nonempty and begins where the block before it ends.
fn follows<F: Function>(f: &F, block: Block) -> bool
    requires { block < length (F.function f.now).blocks }
    ensures { IsTrue result ↔ FollowsAt (F.function f.now) block (block_at (F.function f.now) block) }
{
    let range = f.block_insns(block);
    if range.len() == 0 {
        return false;
    }
    let begins = if block.index() == 0 {
        range.first().index() == 0
    } else {
        f.block_insns(block.prev()).end() == range.first()
    };
    begins && (block.index() + 1 < f.num_blocks() || range.end().index() == f.num_insts())
}

/// Tests that each block is nonempty and begins where the block before it ends, from the first
/// instruction to the last.
///
/// # Errors
///
/// `BB` with the first block that fails.
pub fn test_blocks<F: Function>(f: &F) -> Result<(), RegAllocError>
    ensures ok { IsOk result ↔ BlocksFollow (F.function f.now) }
    ensures first { IfErr result (λ e. (b : ℕ) × (e ≡ RegAllocError.BB b)
        × IsFirst (length (F.function f.now).blocks) (λ n. FollowsAt (F.function f.now) n (block_at (F.function f.now) n)) b) }
{
    for b in 0..f.num_blocks() {
        let block = Block::new(b);
        if !follows(f, block) {
            return Err(RegAllocError::BB(block));
        }
    }
    Ok(())
}

/// Returns `true` if `inst` may end a block with `succs` successors: a branch, or a return if `succs`
/// is 0.
fn ends_block<F: Function>(f: &F, inst: Inst, succs: usize) -> bool
    requires { inst < length (F.function f.now).insts }
    ensures { IsTrue result ↔ EndsBlock (inst_at (F.function f.now) inst) succs }
{
    let is_ret = f.is_ret(inst);
    if f.is_branch(inst) {
        !is_ret
    } else {
        is_ret && succs == 0
    }
}

/// Returns `true` if no instruction from `first` up to but without `end` branches or returns.
fn goes_on<F: Function>(f: &F, first: usize, end: usize) -> bool
    requires { end ≤ length (F.function f.now).insts }
    ensures { IsTrue result ↔ ((i : ℕ) → first ≤ i → i < end → ((inst_at (F.function f.now) i).is_branch ≡ false)
        × ((inst_at (F.function f.now) i).is_ret ≡ false)) }
{
    for i in first..end {
        let inst = Inst::new(i);
        if f.is_branch(inst) || f.is_ret(inst) {
            return false;
        }
    }
    true
}

/// Returns `true` if `block` ends, and only ends, in a branch or in a return without successors.
fn ends<F: Function>(f: &F, block: Block) -> bool
    requires block { block < length (F.function f.now).blocks }
    requires nonempty { (block_at (F.function f.now) block).range.first < (block_at (F.function f.now) block).range.end }
    requires within { (block_at (F.function f.now) block).range.end ≤ length (F.function f.now).insts }
    ensures { IsTrue result ↔ EndsAt (F.function f.now) block (block_at (F.function f.now) block) }
{
    let range = f.block_insns(block);
    let last = range.last();
    ends_block(f, last, f.block_succs(block).len())
        && goes_on(f, range.first().index(), last.index())
}

/// Tests that each block ends, and only ends, in a branch or in a return without successors.
///
/// Linear in the number of instructions. Blocks follow one another, as [`test_blocks`] tests.
///
/// # Errors
///
/// `BB` with the first block that fails.
pub fn test_ends<F: Function>(f: &F) -> Result<(), RegAllocError>
    requires { BlocksFollow (F.function f.now) }
    ensures ok { IsOk result ↔ EachBlock (F.function f.now) (EndsAt (F.function f.now)) }
    ensures first { IfErr result (λ e. (b : ℕ) × (e ≡ RegAllocError.BB b)
        × IsFirst (length (F.function f.now).blocks) (λ n. EndsAt (F.function f.now) n (block_at (F.function f.now) n)) b) }
{
    for b in 0..f.num_blocks() {
        let block = Block::new(b);
        if !ends(f, block) {
            return Err(RegAllocError::BB(block));
        }
    }
    Ok(())
}

/// Returns `true` if `last`, the last instruction of `block`, passes each successor as many arguments
/// as the successor has parameters.
fn counts_arguments<F: Function>(f: &F, block: Block, last: Inst) -> bool
    requires block { block < length (F.function f.now).blocks }
    requires last { last + 1 ≡ (block_at (F.function f.now) block).range.end }
    requires nonempty { (block_at (F.function f.now) block).range.first ≤ last }
    requires blocks { SuccessorsAreBlocks (F.function f.now) }
    ensures { IsTrue result ↔ CountedAt (F.function f.now) block (block_at (F.function f.now) block) }
{
    let succs = f.block_succs(block);
    for k in 0..succs.len() {
        if f.branch_blockparams(block, last, k).len() != f.block_params(succs[k]).len() {
            return false;
        }
    }
    true
}

/// Returns `true` if each successor of each block is passed as many arguments as it has parameters.
fn arguments_counted<F: Function>(f: &F) -> bool
    requires blocks { SuccessorsAreBlocks (F.function f.now) }
    requires follow { BlocksFollow (F.function f.now) }
    ensures { IsTrue result ↔ EachBlock (F.function f.now) (CountedAt (F.function f.now)) }
{
    for b in 0..f.num_blocks() {
        let block = Block::new(b);
        if !counts_arguments(f, block, f.block_insns(block).last()) {
            return false;
        }
    }
    true
}

/// Returns `true` if `f` is structurally valid (`IsFramed`): its entry and each successor is a block,
/// blocks are nonempty and follow one another from the first instruction to the last, each ends,
/// and only ends, in a branch or in a return without successors, and each successor is passed as
/// many arguments as it has parameters.
///
/// Linear in the blocks, edges and instructions. The checker and `reads_written` require a
/// structurally valid function; upstream tests less.
pub fn is_framed<F: Function>(f: &F) -> bool
    ensures { IsTrue result ↔ IsFramed (F.function f.now) }
{
    if !successors_are_blocks(f) {
        return false;
    }
    if test_blocks(f).is_err() {
        return false;
    }
    test_ends(f).is_ok() && arguments_counted(f)
}
