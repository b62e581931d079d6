//! Checks the blocks that a path reaches.

ghost use Rattle.std.specs.Prelude.{◌≡◌, ◌<◌, ◌+◌, OnOk, IfOk, length};
ghost use Rattle.regalloc2_function.specs.Machine.{MachineValue};
ghost use Rattle.regalloc2_function.specs.OutputValue.{OutputValue, IsInOrder};
ghost use Rattle.regalloc2_function.specs.Views.{machine_of, output_of};
ghost use Rattle.regalloc2_function.specs.WellFormed.{IsFramed};
ghost use Rattle.regalloc2_checker.specs.Blocks.{IsBlockJudged};
ghost use Rattle.regalloc2_checker.specs.CheckInputs.{AreStackSlots};
ghost use Rattle.regalloc2_checker.specs.Showing.{table_count, AreTablesKept};
ghost use Rattle.regalloc2_checker.specs.TableFacts.{facts_table, AreNamed};
ghost use Rattle.regalloc2_checker.specs.Report.{IsReport};
ghost use Rattle.regalloc2_checker.specs.Tables.{IsSolved, views};
ghost use Rattle.regalloc2_checker.specs.Listing.{IsListing};

use crate::PassingTables;
use crate::analyze::analyze;
use crate::check::{Judging, check_inst};
use crate::constraints::stack_slots;
use crate::errors::CheckerError;
use crate::listing::Listing;
use crate::output::moves_by_inst;
use crate::sweep::is_clean;
use regalloc2_function::{Function, MachineEnv, Output};
use regalloc2_index::{Block, Inst};
use regalloc2_names::PRegSet;
use regalloc2_semantics::finds_earlier_writes;
use std::alloc::{AllocError, Allocator};

/// Checks the instructions of `block`, from the facts at its beginning, and adds their errors.
#[inline(always)]
pub fn check_block<F: Function, A: Allocator + Copy>(
    by: &Judging<'_, '_, F, A>,
    block: Block,
    values: &mut PassingTables<A>,
    errors: &mut Vec<CheckerError<A>, A>,
) -> Result<(), AllocError>
    ghost o: { OutputValue }
    requires listing { IsListing (F.function by.now.f.now) o by.now.listing.now }
    requires framed { IsFramed (F.function by.now.f.now) }
    requires named { AreNamed (F.function by.now.f.now) o values.old }
    requires block { block < length (F.function by.now.f.now).blocks }
    requires table { block < table_count values.old }
    ensures kept { OnOk result (AreTablesKept values.old values.new) }
    ensures judged { OnOk result ((env : MachineValue) → AreStackSlots env by.now.slots →
        IsBlockJudged (F.function by.now.f.now) env o block (facts_table values.old block) errors.old.items errors.new.items) }
{
    values.load(block.index());
    let f = by.f;
    let range = f.block_insns(block);
    for i in range.first().index()..range.end().index() {
        check_inst(by, block, Inst::new(i), values, errors)?;
    }
    Ok(())
}

/// Returns the errors of the blocks that a path reaches.
fn check_all<F: Function, A: Allocator + Copy>(
    alloc: A,
    f: &F,
    slots: PRegSet,
    listing: &Listing<'_>,
    reached: &[bool],
    values: &mut PassingTables<A>,
) -> Result<Vec<CheckerError<A>, A>, AllocError>
    ghost o: { OutputValue }
    requires listing { IsListing (F.function f.now) o listing.now }
    requires framed { IsFramed (F.function f.now) }
    requires named { AreNamed (F.function f.now) o values.old }
    requires size { length reached.now ≡ length (F.function f.now).blocks }
    requires count { table_count values.old ≡ length (F.function f.now).blocks + 1 }
    requires solved { IsSolved (F.function f.now) o (views values.old reached.now) }
    ensures { IfOk result (λ r. (env : MachineValue) → AreStackSlots env slots → IsReport (F.function f.now) env o r.items) }
{
    // A lemma, which does nothing at run time: each write that a run finds was made at an earlier step.
    finds_earlier_writes();
    let by = Judging {
        alloc,
        f,
        slots,
        listing,
    };
    let mut errors = Vec::new(alloc);
    for b in 0..f.num_blocks() {
        if !reached[b] {
            continue;
        }
        check_block(&by, Block::new(b), values, &mut errors)?;
    }
    Ok(errors)
}

/// Returns the errors of `out`, by a full analysis: every block's table is kept until all are checked.
fn analyzed_errors<F: Function, A: Allocator + Copy, C: Allocator>(
    alloc: A,
    f: &F,
    slots: PRegSet,
    listing: &Listing<'_>,
    out: &Output<C>,
) -> Result<Vec<CheckerError<A>, A>, AllocError>
    ghost o: { OutputValue }
    requires listing { IsListing (F.function f.now) o listing.now }
    requires framed { IsFramed (F.function f.now) }
    requires output { output_of out.now ≡ o }
    requires in_order { IsInOrder (F.function f.now) (output_of out.now) }
    ensures { IfOk result (λ r. (env : MachineValue) → AreStackSlots env slots → IsReport (F.function f.now) env o r.items) }
{
    let mut state = analyze(alloc, f, listing, out)?;
    check_all(alloc, f, slots, listing, &state.reached, &mut state.values)
}

/// Returns the errors of `out`.
pub fn find_errors<F: Function, A: Allocator + Copy, B: Allocator, C: Allocator>(
    alloc: A,
    f: &F,
    env: &MachineEnv<B>,
    out: &Output<C>,
) -> Result<Vec<CheckerError<A>, A>, AllocError>
    ghost o: { OutputValue }
    requires output { output_of out.now ≡ o }
    requires framed { IsFramed (F.function f.now) }
    requires in_order { IsInOrder (F.function f.now) (output_of out.now) }
    ensures { IfOk result (λ r. IsReport (F.function f.now) (machine_of env.now) o r.items) }
{
    let listed = moves_by_inst(alloc, f, out)?;
    let listing = Listing {
        edits: &out.edits,
        listed: &listed,
        allocs: &out.allocs,
        offsets: &out.inst_alloc_offsets,
    };
    let slots = stack_slots(env);
    if is_clean(alloc, f, slots, &listing, out)? {
        return Ok(Vec::new(alloc));
    }
    analyzed_errors(alloc, f, slots, &listing, out)
}
