//! Propagates the facts at the blocks' beginnings until nothing changes.

ghost use Rattle.std.specs.Prelude.{◌≡◌, ◌<◌, ◌≤◌, ◌+◌, ℕ, List, Bool, true, false, IfOk, OnOk, length, get_or, nat_eq, sum_by};
ghost use Rattle.std.specs.BinaryHeap.{heap_items, heap_len};
ghost use Rattle.regalloc2_function.specs.OutputValue.{OutputValue, IsInOrder};
ghost use Rattle.regalloc2_function.specs.Views.{output_of};
ghost use Rattle.regalloc2_function.specs.WellFormed.{IsFramed};
ghost use Rattle.regalloc2_checker.specs.Showing.{table_count, shows_in};
ghost use Rattle.regalloc2_checker.specs.Listing.{IsListing};
ghost use Rattle.regalloc2_checker.specs.Propagation.{IsBlockEnd, IsQueue, IsReady, IsUnderWay, AreSized};
ghost use Rattle.regalloc2_checker.specs.Swept.{laid, LeadsToNoneDone};
ghost use Rattle.regalloc2_checker.specs.TableFacts.{facts_now, AreNamed};
ghost use Rattle.regalloc2_checker.specs.Beginning.{IsEntryQueued};
ghost use Rattle.regalloc2_checker.specs.Tables.{BlockView, facts_at, weight, ListTheSame, IsSolved, views};

use crate::PassingTables;
use crate::edges::{Analysis, propagate_over};
use crate::listing::Listing;
use crate::names::{named_places, named_vregs};
use crate::order::ranks;
use crate::queue::Queue;
use crate::transfer_block::transfer_block;
use regalloc2_function::{Function, Output};
use regalloc2_index::Block;
use regalloc2_semantics::finds_earlier_writes;
use std::alloc::{AllocError, Allocator};
use std::collections::BinaryHeap;

/// Propagates the current table, the facts at the end of `block`, along each of its edges.
fn propagate_edges<F: Function, A: Allocator + Copy>(
    alloc: A,
    f: &F,
    state: &mut Analysis<A>,
    block: Block,
) -> Result<(), AllocError>
    ghost o: { OutputValue }
    requires framed { IsFramed (F.function f.now) }
    requires named { AreNamed (F.function f.now) o state.old.values }
    requires block { block < length (F.function f.now).blocks }
    requires sized { AreSized (F.function f.now) state.old.values state.old.reached.items state.old.queue.is_queued.items }
    requires queue { IsQueue state.old.queue.is_queued.items (heap_items state.old.queue.heap) }
    ensures alike { OnOk result (ListTheSame state.old.values state.new.values) }
    ensures sized { OnOk result (AreSized (F.function f.now) state.new.values state.new.reached.items state.new.queue.is_queued.items) }
    ensures queue { OnOk result (IsQueue state.new.queue.is_queued.items (heap_items state.new.queue.heap)) }
    ensures on_way { OnOk result ((done : List Bool) (vs : List BlockView) → LeadsToNoneDone (F.function f.now) done block
        → IsReady (F.function f.now) o (laid done vs (views state.old.values state.old.reached.items)) state.old.queue.is_queued.items
        (heap_items state.old.queue.heap) block
        → IsBlockEnd (F.function f.now) o block (facts_at (laid done vs (views state.old.values state.old.reached.items)) block)
        (facts_now state.old.values)
        → IsUnderWay (F.function f.now) o (laid done vs (views state.new.values state.new.reached.items)) state.new.queue.is_queued.items
        (heap_items state.new.queue.heap)) }
    ensures falls { OnOk result (sum_by weight (views state.new.values state.new.reached.items) + heap_len state.new.queue.heap
        ≤ sum_by weight (views state.old.values state.old.reached.items) + heap_len state.old.queue.heap) }
{
    finds_earlier_writes();
    let end = f.num_blocks();
    state.values.save(end)?;
    for k in 0..f.block_succs(block).len() {
        state.values.load(end);
        propagate_over(alloc, f, state, block, k)?;
    }
    Ok(())
}

/// Propagates the facts at the beginning of `block` through its instructions and along its edges.
pub fn propagate_block<F: Function, A: Allocator + Copy>(
    alloc: A,
    f: &F,
    listing: &Listing<'_>,
    state: &mut Analysis<A>,
    block: Block,
) -> Result<(), AllocError>
    ghost o: { OutputValue }
    requires listing { IsListing (F.function f.now) o listing.now }
    requires framed { IsFramed (F.function f.now) }
    requires named { AreNamed (F.function f.now) o state.old.values }
    requires block { block < length (F.function f.now).blocks }
    requires sized { AreSized (F.function f.now) state.old.values state.old.reached.items state.old.queue.is_queued.items }
    requires queue { IsQueue state.old.queue.is_queued.items (heap_items state.old.queue.heap) }
    ensures alike { OnOk result (ListTheSame state.old.values state.new.values) }
    ensures sized { OnOk result (AreSized (F.function f.now) state.new.values state.new.reached.items state.new.queue.is_queued.items) }
    ensures queue { OnOk result (IsQueue state.new.queue.is_queued.items (heap_items state.new.queue.heap)) }
    ensures on_way { OnOk result ((done : List Bool) (vs : List BlockView) → LeadsToNoneDone (F.function f.now) done block
        → IsReady (F.function f.now) o (laid done vs (views state.old.values state.old.reached.items)) state.old.queue.is_queued.items
        (heap_items state.old.queue.heap) block
        → IsUnderWay (F.function f.now) o (laid done vs (views state.new.values state.new.reached.items)) state.new.queue.is_queued.items
        (heap_items state.new.queue.heap)) }
    ensures falls { OnOk result (sum_by weight (views state.new.values state.new.reached.items) + heap_len state.new.queue.heap
        ≤ sum_by weight (views state.old.values state.old.reached.items) + heap_len state.old.queue.heap) }
{
    finds_earlier_writes();
    let count = f.block_succs(block).len();
    if count == 0 {
        return Ok(());
    }
    state.values.load(block.index());
    transfer_block(f, listing, block, &mut state.values)?;
    if count == 1 {
        propagate_over(alloc, f, state, block, 0)?;
        return Ok(());
    }
    propagate_edges(alloc, f, state, block)?;
    Ok(())
}

/// Returns `count` marks, none of them set.
pub fn no_marks<A: Allocator>(alloc: A, count: usize) -> Result<Vec<bool, A>, AllocError>
    ensures long { IfOk result (λ marks. length marks.items ≡ count) }
    ensures none { IfOk result (λ marks. (b : ℕ) (d : Bool) → b < count → get_or marks.items b d ≡ false) }
{
    Vec::from_elem(alloc, false, count)
}

/// Returns `count` marks, with the mark `at` alone set.
fn one_mark<A: Allocator>(alloc: A, count: usize, at: usize) -> Result<Vec<bool, A>, AllocError>
    requires { at < count }
    ensures long { IfOk result (λ marks. length marks.items ≡ count) }
    ensures one { IfOk result (λ marks. (b : ℕ) (d : Bool) → b < count → get_or marks.items b d ≡ nat_eq b at) }
{
    let mut marks = no_marks(alloc, count)?;
    marks[at] = true;
    Ok(marks)
}

/// Returns the state of a propagation that begins: the entry block alone is marked as reached, and queued.
fn first_marks<F: Function, A: Allocator + Copy>(
    alloc: A,
    f: &F,
) -> Result<(Vec<bool, A>, Queue<A>), AllocError>
    requires { IsFramed (F.function f.now) }
    ensures { IfOk result (λ r. IsEntryQueued (F.function f.now) r.0.items r.1.is_queued.items (heap_items r.1.heap)) }
{
    let entry = f.entry_block().index();
    let reached = one_mark(alloc, f.num_blocks(), entry)?;
    let mut queue = Queue {
        ranks: ranks(alloc, f)?,
        is_queued: no_marks(alloc, f.num_blocks())?,
        heap: BinaryHeap::new(alloc),
    };
    queue.push(entry)?;
    Ok((reached, queue))
}

/// Returns empty tables over the places and vregs that `f` and `out` name: one for each block, and a spare one.
fn tables_of<F: Function, A: Allocator + Copy, C: Allocator>(
    alloc: A,
    f: &F,
    out: &Output<C>,
) -> Result<PassingTables<A>, AllocError>
    requires framed { IsFramed (F.function f.now) }
    requires in_order { IsInOrder (F.function f.now) (output_of out.now) }
    ensures named { IfOk result (λ t. AreNamed (F.function f.now) (output_of out.now) t) }
    ensures count { IfOk result (λ t. table_count t ≡ length (F.function f.now).blocks + 1) }
    ensures empty { IfOk result (λ t. (k i y : ℕ) → shows_in t k i y ≡ false) }
{
    let places = named_places(alloc, f, out)?;
    let vregs = named_vregs(alloc, f)?;
    let tables = PassingTables::new(alloc, f.num_blocks() + 1, places, vregs)?;
    Ok(tables)
}

/// Returns the analysis before the first propagation: a path reaches the entry, where nothing holds. The tables are made
/// last, because an error would drop them.
pub fn start<F: Function, A: Allocator + Copy, C: Allocator>(
    alloc: A,
    f: &F,
    out: &Output<C>,
) -> Result<Analysis<A>, AllocError>
    requires framed { IsFramed (F.function f.now) }
    requires in_order { IsInOrder (F.function f.now) (output_of out.now) }
    ensures named { IfOk result (λ s. AreNamed (F.function f.now) (output_of out.now) s.values) }
    ensures sized { IfOk result (λ s. AreSized (F.function f.now) s.values s.reached.items s.queue.is_queued.items) }
    ensures on_way { IfOk result (λ s. (o : OutputValue) → IsUnderWay (F.function f.now) o (views s.values s.reached.items) s.queue.is_queued.items
        (heap_items s.queue.heap)) }
{
    let (reached, queue) = first_marks(alloc, f)?;
    let values = tables_of(alloc, f, out)?;
    Ok(Analysis {
        values,
        reached,
        queue,
    })
}

/// Propagates the facts at the blocks' beginnings until nothing changes.
pub fn analyze<F: Function, A: Allocator + Copy, C: Allocator>(
    alloc: A,
    f: &F,
    listing: &Listing<'_>,
    out: &Output<C>,
) -> Result<Analysis<A>, AllocError>
    ghost o: { OutputValue }
    requires listing { IsListing (F.function f.now) o listing.now }
    requires framed { IsFramed (F.function f.now) }
    requires output { output_of out.now ≡ o }
    requires in_order { IsInOrder (F.function f.now) (output_of out.now) }
    ensures named { IfOk result (λ s. AreNamed (F.function f.now) o s.values) }
    ensures count { IfOk result (λ s. table_count s.values ≡ length (F.function f.now).blocks + 1) }
    ensures long { IfOk result (λ s. length s.reached.items ≡ length (F.function f.now).blocks) }
    ensures solved { IfOk result (λ s. IsSolved (F.function f.now) o (views s.values s.reached.items)) }
{
    let mut state = start(alloc, f, out)?;
    'passes: while let Some(block) = state.queue.pop() {
        propagate_block(alloc, f, listing, &mut state, Block::new(block))?;
    }
    Ok(state)
}
