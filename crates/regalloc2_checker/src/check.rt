//! The errors of an instruction.

ghost use Rattle.std.specs.Prelude.{◌≡◌, ◌<◌, ◌≤◌, ◌+◌, ◌++◌, List, true, map, length, IfOk, OnOk, MatchOption};
ghost use Rattle.std.specs.Option.{option_to_list};
ghost use Rattle.regalloc2_function.specs.FunctionValue.{block_at};
ghost use Rattle.regalloc2_function.specs.Machine.{MachineValue};
ghost use Rattle.regalloc2_function.specs.OutputValue.{OutputValue};
ghost use Rattle.regalloc2_semantics.specs.Faithful.{IsStackToStack};
ghost use Rattle.regalloc2_names.specs.Operand.{is_reading};
ghost use Rattle.regalloc2_function.specs.Views.{move_of};
ghost use Rattle.regalloc2_checker.specs.Facts.{facts_after};
ghost use Rattle.regalloc2_checker.specs.CheckInputs.{AreStackSlots, AreFactsKnown};
ghost use Rattle.regalloc2_checker.specs.Showing.{AreTablesKept};
ghost use Rattle.regalloc2_checker.specs.TableFacts.{facts_now, AreNamed};
ghost use Rattle.regalloc2_checker.specs.Report.{IsValueFault, IsFineAt, IsFaultAt, AreOperandsJudged, AreMoveFaults, InstReport};
ghost use Rattle.regalloc2_checker.specs.Listing.{IsListing, listed_move};
ghost use Rattle.regalloc2_checker.specs.declared.errors.CheckerError.{CheckerError};

use crate::PassingTables;
use crate::constraints::{check_constraint, is_stack};
use crate::errors::CheckerError;
use crate::listing::Listing;
use crate::lookup::place_at;
use crate::transfer::{go_to_early, go_to_late};
use crate::vregs_in::{holds, vregs_in};
use regalloc2_function::{Edit, Function};
use regalloc2_index::{Block, Inst};
use regalloc2_names::{Allocation, Operand, OperandPos, PRegSet, ProgPoint};
use std::alloc::{AllocError, Allocator};

/// What an output is checked against: a function, the fixed stack slots of its machine, and what
/// the output lists.
#[derive(Drop)]
pub struct Judging<'a, 'o, F: Function, A: Allocator> {
    pub alloc: A,
    pub f: &'a F,
    pub slots: PRegSet,
    pub listing: &'a Listing<'o>,
}

/// An instruction's operands and their places.
#[derive(Drop)]
struct Placed<'a> {
    inst: Inst,
    operands: &'a [Operand],
    places: &'a [Allocation],
}

/// Returns the error of what `place` holds, if `op` reads and `place` doesn't hold its vreg.
#[inline(always)]
fn check_val<A: Allocator + Copy>(
    alloc: A,
    values: &PassingTables<A>,
    inst: Inst,
    op: Operand,
    place: Allocation,
) -> Result<Option<CheckerError<A>>, AllocError>
    ensures { IfOk result (λ r. MatchOption r (is_reading op ≡ true → facts_now values.now place op.vreg ≡ true)
        (λ e. (is_reading op ≡ true) × IsValueFault inst op place (λ v. facts_now values.now place v ≡ true) e)) }
{
    if op.is_def() {
        return Ok(None);
    }
    // Nearly every use is right, and then needn't be tested for whether it names a register.
    if holds(values, place, op.vreg()) {
        return Ok(None);
    }
    if !op.is_reading() {
        return Ok(None);
    }
    let actual = vregs_in(alloc, values, place)?;
    if actual.is_empty() {
        return Ok(Some(CheckerError::UnknownValueInAllocation {
            inst,
            op,
            alloc: place,
        }));
    }
    Ok(Some(CheckerError::IncorrectValuesInAllocation {
        inst,
        op,
        alloc: place,
        actual,
    }))
}

/// Returns the error of operand `k`, if what the places hold or its constraint is wrong.
#[inline(always)]
fn check_operand<A: Allocator + Copy>(
    alloc: A,
    values: &PassingTables<A>,
    slots: &PRegSet,
    at: &Placed<'_>,
    k: usize,
) -> Result<Option<CheckerError<A>>, AllocError>
    requires { k < length at.now.operands.now }
    ensures { IfOk result (λ r. (env : MachineValue) → AreStackSlots env slots.now → MatchOption r
        (IsFineAt env at.now.operands.now at.now.places.now (λ p v. facts_now values.now p v ≡ true) k)
        (λ e. IsFaultAt env at.now.inst at.now.operands.now at.now.places.now (λ p v. facts_now values.now p v ≡ true) k e)) }
{
    let inst = at.inst;
    let operands = at.operands;
    let places = at.places;
    let op = operands[k];
    let place = place_at(places, k);
    if place.is_none() {
        return Ok(Some(CheckerError::MissingAllocation { inst, op }));
    }
    let fault = check_val(alloc, values, inst, op, place)?;
    if fault.is_some() {
        return Ok(fault);
    }
    let count = operands.len();
    Ok(check_constraint(slots, inst, op, place, count, places))
}

/// Returns the first error among the operands at `position`, by what the places hold there.
#[inline(always)]
fn check_position<A: Allocator + Copy>(
    alloc: A,
    values: &PassingTables<A>,
    slots: &PRegSet,
    at: &Placed<'_>,
    position: OperandPos,
) -> Result<Option<CheckerError<A>>, AllocError>
    ensures { IfOk result (λ r. (env : MachineValue) → AreStackSlots env slots.now →
        AreOperandsJudged env at.now.inst at.now.operands.now at.now.places.now position (λ p v. facts_now values.now p v ≡ true) r) }
{
    let operands = at.operands;
    for k in 0..operands.len() {
        if !operands[k].is_at(position) {
            continue;
        }
        let fault = check_operand(alloc, values, slots, at, k)?;
        if fault.is_some() {
            return Ok(fault);
        }
    }
    Ok(None)
}

/// Returns the error of `edit`, if it moves from one stack place to another.
#[inline(always)]
fn move_fault<A: Allocator>(slots: &PRegSet, edit: Edit) -> Option<CheckerError<A>>
    ensures { (env : MachineValue) → AreStackSlots env slots.now → MatchOption result (IsStackToStack env (move_of edit) → ⊥)
        (λ e. IsStackToStack env (move_of edit) × (e ≡ CheckerError.StackToStackMove (move_of edit).to (move_of edit).from)) }
{
    let (from, into) = edit.places();
    if !is_stack(slots, from) {
        return None;
    }
    if !is_stack(slots, into) {
        return None;
    }
    Some(CheckerError::StackToStackMove { into, from })
}

/// Adds the errors of `moves`, in their order.
#[inline(always)]
fn check_moves<A: Allocator>(
    slots: &PRegSet,
    moves: &[(ProgPoint, Edit)],
    errors: &mut Vec<CheckerError<A>, A>,
) -> Result<(), AllocError>
    ensures { OnOk result ((env : MachineValue) → AreStackSlots env slots.now →
        (es : List (CheckerError A)) × (errors.new.items ≡ errors.old.items ++ es) × AreMoveFaults env (map listed_move moves.now) es) }
{
    for k in 0..moves.len() {
        let edit = moves[k];
        let Some(fault) = move_fault(slots, edit.1) else {
            continue;
        };
        errors.push(fault)?;
    }
    Ok(())
}

/// Adds `fault`, if there is one.
#[inline(always)]
fn add<A: Allocator>(
    errors: &mut Vec<CheckerError<A>, A>,
    fault: Option<CheckerError<A>>,
) -> Result<(), AllocError>
    ensures { OnOk result (errors.new.items ≡ errors.old.items ++ option_to_list fault) }
{
    if let Some(fault) = fault {
        errors.push(fault)?;
    }
    Ok(())
}

/// Adds the errors of `inst`: of the moves before it, then of its first wrong early operand, then of its first wrong late
/// operand. Goes on past `inst`.
#[inline(always)]
pub fn check_inst<F: Function, A: Allocator + Copy>(
    by: &Judging<'_, '_, F, A>,
    block: Block,
    inst: Inst,
    values: &mut PassingTables<A>,
    errors: &mut Vec<CheckerError<A>, A>,
) -> Result<(), AllocError>
    ghost o: { OutputValue }
    requires listing { IsListing (F.function by.now.f.now) o by.now.listing.now }
    requires named { AreNamed (F.function by.now.f.now) o values.old }
    requires block { block < length (F.function by.now.f.now).blocks }
    requires first { (block_at (F.function by.now.f.now) block).range.first ≤ inst }
    requires end { inst < (block_at (F.function by.now.f.now) block).range.end }
    requires inst { inst < length (F.function by.now.f.now).insts }
    ensures kept { OnOk result (AreTablesKept values.old values.new) }
    ensures now { OnOk result (facts_now values.new ≡ facts_after (F.function by.now.f.now) o (record { block = block; inst = inst }) (facts_now values.old)) }
    ensures judged { OnOk result ((env : MachineValue) → AreStackSlots env by.now.slots
        → AreFactsKnown (F.function by.now.f.now) o (record { block = block; inst = inst }) (facts_now values.old)
        → (es : List (CheckerError A)) × (errors.new.items ≡ errors.old.items ++ es)
        × InstReport (F.function by.now.f.now) env o (record { block = block; inst = inst }) es) }
{
    let f = by.f;
    let slots = &by.slots;
    let listing = by.listing;
    let moves = listing.moves(inst);
    let places = listing.places(inst);
    let operands = f.inst_operands(inst);
    let at = Placed {
        inst,
        operands,
        places,
    };
    check_moves(slots, moves, errors)?;
    go_to_early(values, moves, places, operands)?;
    let early = check_position(by.alloc, values, slots, &at, OperandPos::Early)?;
    add(errors, early)?;
    go_to_late(values, places, operands, f.inst_clobbers(inst))?;
    let late = check_position(by.alloc, values, slots, &at, OperandPos::Late)?;
    add(errors, late)?;
    Ok(())
}
