//! The edges that leave a block.

ghost use Rattle.std.specs.Prelude.{◌≡◌, ◌≢◌, ◌<◌, ◌≤◌, ◌+◌, ℕ, List, slice_index, Bool, true, false, IfOk, OnOk, length, sum_by};
ghost use Rattle.std.specs.BinaryHeap.{heap_items, heap_len};
ghost use Rattle.regalloc2_function.specs.FunctionValue.{block_at};
ghost use Rattle.regalloc2_function.specs.WellFormed.{IsFramed};
ghost use Rattle.regalloc2_checker.specs.Showing.{table_count, AreTablesKept};
ghost use Rattle.regalloc2_checker.specs.Propagation.{IsQueue, AreSized};
ghost use Rattle.regalloc2_checker.specs.Swept.{done_at, IsPassedOver};
ghost use Rattle.regalloc2_checker.specs.TableFacts.{facts_now, facts_table, AreNamedVRegs};
ghost use Rattle.regalloc2_checker.specs.Tables.{BlockView, weight, ListTheSame, IsMeet, views};
ghost use Rattle.regalloc2_checker.specs.Propagation.{over};

use crate::PassingTables;
use crate::queue::Queue;
use crate::transfer::take_arguments;
use regalloc2_function::Function;
use regalloc2_index::Block;
use std::alloc::{AllocError, Allocator};

/// The facts at the blocks' beginnings: a table for each block and a spare one, whether a path reaches each block, and
/// the blocks whose facts changed since they were propagated.
#[derive(Drop)]
pub struct Analysis<A: Allocator> {
    pub values: PassingTables<A>,
    pub reached: Vec<bool, A>,
    pub queue: Queue<A>,
}

/// Transfers the current table along edge `position` of `block`: the parameters of its successor take what the arguments
/// have at the end of `block`.
pub fn transfer_edge<F: Function, A: Allocator + Copy>(
    alloc: A,
    f: &F,
    block: Block,
    position: usize,
    values: &mut PassingTables<A>,
) -> Result<(), AllocError>
    requires framed { IsFramed (F.function f.now) }
    requires named { AreNamedVRegs (F.function f.now) values.old.vregs }
    requires block { block < length (F.function f.now).blocks }
    requires position { position < length (block_at (F.function f.now) block).succs }
    ensures kept { OnOk result (AreTablesKept values.old values.new) }
    ensures now { OnOk result (facts_now values.new ≡ over (F.function f.now) block position (facts_now values.old)) }
{
    let target = f.block_succs(block)[position];
    let params = f.block_params(target);
    let arguments = f.branch_blockparams(block, f.block_insns(block).last(), position);
    let is_entered_once = f.block_preds(target).len() == 1;
    take_arguments(alloc, values, params, arguments, is_entered_once)?;
    Ok(())
}

/// Meets the facts of the block `target` with the current table. Returns whether anything changed.
fn update<A: Allocator + Copy>(
    values: &mut PassingTables<A>,
    reached: &mut Vec<bool, A>,
    target: usize,
) -> Result<bool, AllocError>
    requires target { target < length reached.old.items }
    requires count { length reached.old.items ≤ table_count values.old }
    ensures alike { OnOk result (ListTheSame values.old values.new) }
    ensures long { OnOk result (length reached.new.items ≡ length reached.old.items) }
    ensures others { OnOk result ((k : ℕ) → k ≢ target → facts_table values.new k ≡ facts_table values.old k) }
    ensures met { IfOk result (λ changed. IsMeet (views values.old reached.old.items) (views values.new reached.new.items) target
        (facts_now values.old) changed) }
{
    if reached[target] {
        let changed = values.meet(target)?;
        return Ok(changed);
    }
    values.save(target)?;
    reached[target] = true;
    Ok(true)
}

/// Propagates the facts at the end of `block` along its edge `position`. Queues the successor if its facts changed.
pub fn propagate_over<F: Function, A: Allocator + Copy>(
    alloc: A,
    f: &F,
    state: &mut Analysis<A>,
    block: Block,
    position: usize,
) -> Result<(), AllocError>
    requires framed { IsFramed (F.function f.now) }
    requires named { AreNamedVRegs (F.function f.now) state.old.values.vregs }
    requires block { block < length (F.function f.now).blocks }
    requires position { position < length (block_at (F.function f.now) block).succs }
    requires sized { AreSized (F.function f.now) state.old.values state.old.reached.items state.old.queue.is_queued.items }
    requires queue { IsQueue state.old.queue.is_queued.items (heap_items state.old.queue.heap) }
    ensures alike { OnOk result (ListTheSame state.old.values state.new.values) }
    ensures sized { OnOk result (AreSized (F.function f.now) state.new.values state.new.reached.items state.new.queue.is_queued.items) }
    ensures kept { OnOk result (facts_table state.new.values (length (F.function f.now).blocks)
        ≡ facts_table state.old.values (length (F.function f.now).blocks)) }
    ensures over { OnOk result ((done : List Bool) (vs : List BlockView)
        → done_at done (slice_index (block_at (F.function f.now) block).succs position) ≡ false
        → IsPassedOver (F.function f.now) block position (facts_now state.old.values) done vs
        (views state.old.values state.old.reached.items) (views state.new.values state.new.reached.items)
        state.old.queue.is_queued.items state.new.queue.is_queued.items (heap_items state.old.queue.heap) (heap_items state.new.queue.heap)) }
    ensures queue { OnOk result (IsQueue state.new.queue.is_queued.items (heap_items state.new.queue.heap)) }
    ensures falls { OnOk result (sum_by weight (views state.new.values state.new.reached.items) + heap_len state.new.queue.heap
        ≤ sum_by weight (views state.old.values state.old.reached.items) + heap_len state.old.queue.heap) }
{
    let target = f.block_succs(block)[position].index();
    transfer_edge(alloc, f, block, position, &mut state.values)?;
    let changed = update(&mut state.values, &mut state.reached, target)?;
    if !changed {
        return Ok(());
    }
    state.queue.push(target)?;
    Ok(())
}
