//! What operands require of their places.

ghost use Rattle.std.specs.Prelude.{◌≢◌, ◌↔◌, ℕ, List, IsTrue, MatchOption};
ghost use Rattle.regalloc2_names.specs.Place.{Place, NoPlace};
ghost use Rattle.regalloc2_function.specs.Machine.{MachineValue, IsStackPlace, IsPlainRegister};
ghost use Rattle.regalloc2_semantics.specs.Faithful.{Meets};
ghost use Rattle.regalloc2_function.specs.Views.{machine_of};
ghost use Rattle.regalloc2_checker.specs.CheckInputs.{AreStackSlots};
ghost use Rattle.regalloc2_checker.specs.Report.{IsConstraintFault, IsNumberedBelow};

use crate::errors::CheckerError;
use crate::lookup::place_at;
use regalloc2_function::MachineEnv;
use regalloc2_index::Inst;
use regalloc2_names::{Allocation, Operand, OperandConstraint, PRegSet};
use std::alloc::Allocator;

/// Returns the fixed stack slots of `env`, as a set.
pub fn stack_slots<B: Allocator>(env: &MachineEnv<B>) -> PRegSet
    ensures { AreStackSlots (machine_of env.now) result }
{
    let mut slots = PRegSet::empty();
    for reg in env.fixed_stack_slots.as_slice() {
        slots.add(*reg);
    }
    slots
}

/// Returns whether `place` is on the stack.
#[inline(always)]
pub fn is_stack(slots: &PRegSet, place: Allocation) -> bool
    ensures { (env : MachineValue) → AreStackSlots env slots.now → IsTrue result ↔ IsStackPlace env place }
{
    match place.as_reg() {
        Some(reg) => slots.contains(reg),
        None => place.is_some(),
    }
}

/// Returns whether `place` is a register that isn't on the stack.
#[inline(always)]
fn is_plain_reg(slots: &PRegSet, place: Allocation) -> bool
    ensures { (env : MachineValue) → AreStackSlots env slots.now → IsTrue result ↔ IsPlainRegister env place }
{
    match place.as_reg() {
        Some(reg) => !slots.contains(reg),
        None => false,
    }
}

/// Returns whether `place` is a register with a number below `bound`.
fn is_numbered_below(place: Allocation, bound: usize) -> bool
    ensures { IsTrue result ↔ IsNumberedBelow place bound }
{
    match place.as_reg() {
        Some(reg) => reg.hw_enc() < bound,
        None => false,
    }
}

/// Returns the error of a reuse of operand `index` of `count`, if `alloc` doesn't meet it.
fn check_reuse<A: Allocator>(
    inst: Inst,
    op: Operand,
    alloc: Allocation,
    index: usize,
    count: usize,
    places: &[Allocation],
) -> Option<CheckerError<A>>
    ensures { (env : MachineValue) → MatchOption result (Meets env count places.now (OperandConstraint.Reuse index) alloc)
        (λ e. IsConstraintFault env inst op count places.now alloc (OperandConstraint.Reuse index) e) }
{
    if !alloc.is_reg() {
        return Some(CheckerError::AllocationIsNotReg { inst, op, alloc });
    }
    if index >= count {
        return Some(CheckerError::ConstraintViolated { inst, op, alloc });
    }
    let expected_alloc = place_at(places, index);
    if alloc == expected_alloc {
        return None;
    }
    Some(CheckerError::AllocationIsNotReuse {
        inst,
        op,
        alloc,
        expected_alloc,
    })
}

/// Returns the error of the bound `max` on the register's number, if `alloc` doesn't meet it.
fn check_limit<A: Allocator>(
    slots: &PRegSet,
    inst: Inst,
    op: Operand,
    alloc: Allocation,
    max: usize,
) -> Option<CheckerError<A>>
    ensures { (env : MachineValue) → AreStackSlots env slots.now → (count : ℕ) (places : List Place) →
        MatchOption result (Meets env count places (OperandConstraint.Limit max) alloc)
        (λ e. IsConstraintFault env inst op count places alloc (OperandConstraint.Limit max) e) }
{
    if !is_plain_reg(slots, alloc) {
        return Some(CheckerError::AllocationIsNotReg { inst, op, alloc });
    }
    if is_numbered_below(alloc, max) {
        return None;
    }
    Some(CheckerError::AllocationOutsideLimit {
        inst,
        op,
        alloc,
        range: 0..max,
    })
}

/// Returns the error of the constraint of `op`, if `alloc`, which isn't missing, doesn't meet it. `count` is the number
/// of the instruction's operands, and `places` are their places.
#[inline(always)]
pub fn check_constraint<A: Allocator>(
    slots: &PRegSet,
    inst: Inst,
    op: Operand,
    alloc: Allocation,
    count: usize,
    places: &[Allocation],
) -> Option<CheckerError<A>>
    ensures { (env : MachineValue) → AreStackSlots env slots.now → alloc ≢ NoPlace → MatchOption result (Meets env count places.now op.constraint alloc)
        (λ e. IsConstraintFault env inst op count places.now alloc op.constraint e) }
{
    match op.constraint() {
        OperandConstraint::Any => None,
        OperandConstraint::Reg => {
            if is_plain_reg(slots, alloc) {
                None
            } else {
                Some(CheckerError::AllocationIsNotReg { inst, op, alloc })
            }
        }
        OperandConstraint::Stack => {
            if is_stack(slots, alloc) {
                None
            } else {
                Some(CheckerError::AllocationIsNotStack { inst, op, alloc })
            }
        }
        OperandConstraint::FixedReg(reg) => {
            if alloc == Allocation::reg(reg) {
                None
            } else {
                Some(CheckerError::AllocationIsNotFixedReg { inst, op, alloc })
            }
        }
        OperandConstraint::Reuse(index) => check_reuse(inst, op, alloc, index, count, places),
        OperandConstraint::Limit(max) => check_limit(slots, inst, op, alloc, max),
    }
}
