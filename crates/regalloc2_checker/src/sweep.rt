//! A check that drops the tables of blocks that can't change any more, once these are checked.

ghost use Rattle.std.specs.Prelude.{◌≡◌, ◌<◌, ◌+◌, ℕ, [], true, false, OnOk, IfOk, length, get_or, None};
ghost use Rattle.std.specs.BinaryHeap.{heap_items};
ghost use Rattle.std.specs.Bool.{OnTrue, OnFalse};
ghost use Rattle.regalloc2_names.specs.declared.sets.PRegSet.{PRegSet};
ghost use Rattle.regalloc2_function.specs.Machine.{MachineValue};
ghost use Rattle.regalloc2_function.specs.OutputValue.{OutputValue, IsInOrder};
ghost use Rattle.regalloc2_function.specs.Views.{output_of};
ghost use Rattle.regalloc2_function.specs.WellFormed.{IsFramed};
ghost use Rattle.regalloc2_checker.specs.CheckInputs.{AreStackSlots};
ghost use Rattle.regalloc2_checker.specs.Listing.{IsListing};
ghost use Rattle.regalloc2_checker.specs.Report.{IsReport};
ghost use Rattle.regalloc2_checker.specs.Swept.{done_at, AreSweepTables, LeadsToNoneDone, IsSweptOn, IsFurther, IsSweepReady, IsSweepUnderWay};
ghost use Rattle.regalloc2_checker.specs.Tables.{views};

use crate::analyze::{no_marks, propagate_block, start};
use crate::check::Judging;
use crate::edges::Analysis;
use crate::find_errors::check_block;
use crate::listing::Listing;
use regalloc2_function::{Function, Output};
use regalloc2_index::Block;
use regalloc2_names::PRegSet;
use regalloc2_semantics::finds_earlier_writes;
use std::alloc::{AllocError, Allocator};

/// How many words tables may take before some are dropped, also in a small function.
const LEAST_ROOM: usize = 3 << 16;

/// An analysis, which of its blocks are done, and how many words its tables may take before some are dropped.
///
/// A block that is done was checked, and nothing is passed on from it or to it any more.
#[derive(Drop)]
struct Sweep<A: Allocator> {
    state: Analysis<A>,
    is_done: Vec<bool, A>,
    room: usize,
    limit: usize,
}

/// Checks `block`, if a path reaches it and it isn't done. Returns whether it has no error.
fn finish<F: Function, A: Allocator + Copy>(
    by: &Judging<'_, '_, F, A>,
    sweep: &mut Sweep<A>,
    block: Block,
) -> Result<bool, AllocError>
    ghost o: { OutputValue }
    requires listing { IsListing (F.function by.now.f.now) o by.now.listing.now }
    requires framed { IsFramed (F.function by.now.f.now) }
    requires tables { AreSweepTables (F.function by.now.f.now) o sweep.old.state.values sweep.old.state.reached.items sweep.old.is_done.items }
    requires block { block < length (F.function by.now.f.now).blocks }
    ensures further { OnOk result (IsFurther sweep.old.state.values sweep.new.state.values sweep.old.state.reached.items sweep.new.state.reached.items
        sweep.old.is_done.items sweep.new.is_done.items) }
    ensures queue { OnOk result (sweep.new.state.queue ≡ sweep.old.state.queue) }
    ensures swept { IfOk result (λ clean. OnTrue clean (IsSweptOn A (F.function by.now.f.now) o by.now.slots sweep.old.is_done.items sweep.new.is_done.items
        (views sweep.old.state.values sweep.old.state.reached.items) (views sweep.new.state.values sweep.new.state.reached.items))) }
    ensures here { IfOk result (λ clean. OnTrue clean (get_or sweep.old.state.reached.items block false ≡ true
        → done_at sweep.new.is_done.items block ≡ true)) }
{
    let index = block.index();
    if !sweep.state.reached[index] {
        return Ok(true);
    }
    if sweep.is_done[index] {
        return Ok(true);
    }
    let mut errors = Vec::new(by.alloc);
    check_block(by, block, &mut sweep.state.values, &mut errors)?;
    sweep.is_done[index] = true;
    Ok(errors.is_empty())
}

/// Returns whether the rank of `block` is below `rank`, or there is no `rank`.
fn is_below(ranks: &[usize], block: usize, rank: Option<usize>) -> bool
    ensures { rank ≡ None → result ≡ true }
{
    let Some(rank) = rank else {
        return true;
    };
    ranks.get(block).copied().unwrap_or(rank) < rank
}

/// Checks the blocks below `rank`, or all of them if there is no `rank`. Returns whether they have no errors.
fn finish_below<F: Function, A: Allocator + Copy>(
    by: &Judging<'_, '_, F, A>,
    sweep: &mut Sweep<A>,
    rank: Option<usize>,
) -> Result<bool, AllocError>
    ghost o: { OutputValue }
    requires listing { IsListing (F.function by.now.f.now) o by.now.listing.now }
    requires framed { IsFramed (F.function by.now.f.now) }
    requires tables { AreSweepTables (F.function by.now.f.now) o sweep.old.state.values sweep.old.state.reached.items sweep.old.is_done.items }
    ensures further { OnOk result (IsFurther sweep.old.state.values sweep.new.state.values sweep.old.state.reached.items sweep.new.state.reached.items
        sweep.old.is_done.items sweep.new.is_done.items) }
    ensures queue { OnOk result (sweep.new.state.queue ≡ sweep.old.state.queue) }
    ensures swept { IfOk result (λ clean. OnTrue clean (IsSweptOn A (F.function by.now.f.now) o by.now.slots sweep.old.is_done.items sweep.new.is_done.items
        (views sweep.old.state.values sweep.old.state.reached.items) (views sweep.new.state.values sweep.new.state.reached.items))) }
    ensures all { IfOk result (λ clean. OnTrue clean (rank ≡ None → (b : ℕ) → b < length (F.function by.now.f.now).blocks
        → get_or sweep.old.state.reached.items b false ≡ true → done_at sweep.new.is_done.items b ≡ true)) }
{
    for b in 0..by.f.num_blocks() {
        if !is_below(&sweep.state.queue.ranks, b, rank) {
            continue;
        }
        if !finish(by, sweep, Block::new(b))? {
            return Ok(false);
        }
    }
    Ok(true)
}

/// Returns the lowest rank of a successor of `block`, or `rank` if it is lower.
fn lowest_successor<F: Function>(f: &F, ranks: &[usize], block: Block, rank: usize) -> usize
    requires { block < length (F.function f.now).blocks }
{
    let mut lowest = rank;
    for succ in f.block_succs(block) {
        lowest = std::cmp::min(lowest, ranks.get(succ.index()).copied().unwrap_or(0));
    }
    lowest
}

/// Returns the lowest rank of a successor of the blocks from `rank` on, or `rank` if it is lower. Blocks below the result
/// can't change while no block below `rank` does.
fn lowest_rank<F: Function>(f: &F, ranks: &[usize], rank: usize) -> usize {
    let mut lowest = rank;
    for b in 0..f.num_blocks() {
        if is_below(ranks, b, Some(rank)) {
            continue;
        }
        lowest = lowest_successor(f, ranks, Block::new(b), lowest);
    }
    lowest
}

/// Makes room if the tables take more words than they may: checks the blocks that can't change any more, and drops the
/// tables of the blocks that are done. Returns whether no error was found.
fn make_room<F: Function, A: Allocator + Copy>(
    by: &Judging<'_, '_, F, A>,
    sweep: &mut Sweep<A>,
    block: usize,
) -> Result<bool, AllocError>
    ghost o: { OutputValue }
    requires listing { IsListing (F.function by.now.f.now) o by.now.listing.now }
    requires framed { IsFramed (F.function by.now.f.now) }
    requires tables { AreSweepTables (F.function by.now.f.now) o sweep.old.state.values sweep.old.state.reached.items sweep.old.is_done.items }
    ensures further { OnOk result (IsFurther sweep.old.state.values sweep.new.state.values sweep.old.state.reached.items sweep.new.state.reached.items
        sweep.old.is_done.items sweep.new.is_done.items) }
    ensures queue { OnOk result (sweep.new.state.queue ≡ sweep.old.state.queue) }
    ensures swept { IfOk result (λ clean. OnTrue clean (IsSweptOn A (F.function by.now.f.now) o by.now.slots sweep.old.is_done.items sweep.new.is_done.items
        (views sweep.old.state.values sweep.old.state.reached.items) (views sweep.new.state.values sweep.new.state.reached.items))) }
{
    if sweep.state.values.word_count() <= sweep.limit {
        return Ok(true);
    }
    let ranks = &sweep.state.queue.ranks;
    let rank = lowest_rank(by.f, ranks, ranks.get(block).copied().unwrap_or(0));
    if !finish_below(by, sweep, Some(rank))? {
        return Ok(false);
    }
    sweep.state.values.drop_marked(&sweep.is_done)?;
    let left = sweep.state.values.word_count();
    sweep.limit = left.saturating_mul(2).saturating_add(sweep.room);
    Ok(true)
}

/// Returns whether `block` or one of its successors is done.
fn leads_to_done<F: Function>(f: &F, is_done: &[bool], block: Block) -> bool
    requires framed { IsFramed (F.function f.now) }
    requires block { block < length (F.function f.now).blocks }
    requires done { length is_done.now ≡ length (F.function f.now).blocks }
    ensures { OnFalse result (LeadsToNoneDone (F.function f.now) is_done.now block) }
{
    if is_done[block.index()] {
        return true;
    }
    let succs = f.block_succs(block);
    for k in 0..succs.len() {
        if is_done[succs[k].index()] {
            return true;
        }
    }
    false
}

/// Returns how many words the tables may take before some are dropped. The number grows with the blocks and edges,
/// because dropping tables walks over all of them.
fn room_for<F: Function>(f: &F) -> usize {
    let mut count: usize = 0;
    for b in 0..f.num_blocks() {
        let edges = f.block_succs(Block::new(b)).len();
        count = count.saturating_add(1).saturating_add(edges);
    }
    std::cmp::max(LEAST_ROOM, count.saturating_mul(4))
}

/// Propagates the facts of `block`. Returns `false` if an error was found, or if `block` or one of its successors is
/// done.
fn pass_on<F: Function, A: Allocator + Copy>(
    by: &Judging<'_, '_, F, A>,
    sweep: &mut Sweep<A>,
    block: Block,
) -> Result<bool, AllocError>
    ghost o: { OutputValue }
    requires listing { IsListing (F.function by.now.f.now) o by.now.listing.now }
    requires framed { IsFramed (F.function by.now.f.now) }
    requires block { block < length (F.function by.now.f.now).blocks }
    requires ready { IsSweepReady A (F.function by.now.f.now) o by.now.slots sweep.old.state.values sweep.old.state.reached.items sweep.old.is_done.items
        sweep.old.state.queue.is_queued.items (heap_items sweep.old.state.queue.heap) block }
    ensures { IfOk result (λ on. OnTrue on (IsSweepUnderWay A (F.function by.now.f.now) o by.now.slots sweep.new.state.values
        sweep.new.state.reached.items sweep.new.is_done.items sweep.new.state.queue.is_queued.items (heap_items sweep.new.state.queue.heap))) }
{
    if !make_room(by, sweep, block.index())? {
        return Ok(false);
    }
    if leads_to_done(by.f, &sweep.is_done, block) {
        return Ok(false);
    }
    propagate_block(by.alloc, by.f, by.listing, &mut sweep.state, block)?;
    Ok(true)
}

/// Propagates the facts until nothing changes, and checks the blocks. Returns whether they have no errors.
fn pass_all_on<F: Function, A: Allocator + Copy>(
    by: &Judging<'_, '_, F, A>,
    sweep: &mut Sweep<A>,
) -> Result<bool, AllocError>
    ghost o: { OutputValue }
    requires listing { IsListing (F.function by.now.f.now) o by.now.listing.now }
    requires framed { IsFramed (F.function by.now.f.now) }
    requires on_way { IsSweepUnderWay A (F.function by.now.f.now) o by.now.slots sweep.old.state.values sweep.old.state.reached.items
        sweep.old.is_done.items sweep.old.state.queue.is_queued.items (heap_items sweep.old.state.queue.heap) }
    ensures { IfOk result (λ clean. OnTrue clean ((env : MachineValue) → AreStackSlots env by.now.slots
        → IsReport {A = A} (F.function by.now.f.now) env o [])) }
{
    finds_earlier_writes();
    for _ in 0..u64::MAX {
        let Some(block) = sweep.state.queue.pop() else {
            let is_clean = finish_below(by, sweep, None)?;
            return Ok(is_clean);
        };
        if !pass_on(by, sweep, Block::new(block))? {
            return Ok(false);
        }
    }
    Ok(false)
}

/// Returns a check before the first propagation.
fn start_sweep<F: Function, A: Allocator + Copy, C: Allocator>(
    alloc: A,
    f: &F,
    out: &Output<C>,
) -> Result<Sweep<A>, AllocError>
    requires framed { IsFramed (F.function f.now) }
    requires in_order { IsInOrder (F.function f.now) (output_of out.now) }
    ensures { IfOk result (λ s. (slots : PRegSet) → IsSweepUnderWay A (F.function f.now) (output_of out.now) slots
        s.state.values s.state.reached.items s.is_done.items s.state.queue.is_queued.items (heap_items s.state.queue.heap)) }
{
    let room = room_for(f);
    let is_done = no_marks(alloc, f.num_blocks())?;
    let state = start(alloc, f, out)?;
    Ok(Sweep {
        state,
        is_done,
        room,
        limit: room,
    })
}

/// Returns whether `out` has no errors. Returns `false` too if an edge from a block that changed leads to a block whose
/// table was dropped.
pub fn is_clean<F: Function, A: Allocator + Copy, C: Allocator>(
    alloc: A,
    f: &F,
    slots: PRegSet,
    listing: &Listing<'_>,
    out: &Output<C>,
) -> Result<bool, AllocError>
    ghost o: { OutputValue }
    requires listing { IsListing (F.function f.now) o listing.now }
    requires framed { IsFramed (F.function f.now) }
    requires output { output_of out.now ≡ o }
    requires in_order { IsInOrder (F.function f.now) (output_of out.now) }
    ensures { IfOk result (λ clean. OnTrue clean ((env : MachineValue) → AreStackSlots env slots → IsReport {A = A} (F.function f.now) env o [])) }
{
    let mut sweep = start_sweep(alloc, f, out)?;
    let by = Judging {
        alloc,
        f,
        slots,
        listing,
    };
    pass_all_on(&by, &mut sweep)
}
