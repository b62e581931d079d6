//! Operands of a form that the allocator doesn't support.

use crate::explain::cause::{Cause, ConstraintCause, ReuseCause, Site};
use crate::explain::stored::{is_allocatable, operands_at};
use crate::named::{has_register, operand_of};
use crate::spell::is_early_use;
use regalloc2_names::{Operand, OperandConstraint};
use regalloc2_serialize::{InstOpcode, StoredFunction};

/// Returns whether the reuse `by` may take the place of `operand`.
fn may_be_reused(function: &StoredFunction, by: Operand, operand: Operand) -> bool {
    if !is_early_use(operand) || operand.as_fixed_nonallocatable().is_some() {
        return false;
    }
    if operand.class() != by.class() {
        return false;
    }
    match operand.constraint() {
        OperandConstraint::Reg => true,
        OperandConstraint::FixedReg(register) => { is_allocatable(&function.machine_env, register) }
        _ => false,
    }
}

/// Returns whether `bits` encode an operand that reuses the operand at `index`.
fn reuses(bits: u64, index: usize) -> bool {
    match operand_of(bits) {
        Some(operand) => operand.reused_index() == Some(index),
        None => false,
    }
}

/// Returns whether one of the first `k` of `operands` reuses the operand at `index`.
fn is_reused_before(operands: &[u64], k: usize, index: usize) -> bool {
    operands.iter().take(k).any(|bits| reuses(*bits, index))
}

/// Returns whether one of `operands` reuses the operand at `index`. A reuse names an index below 32.
pub(crate) fn is_reused(operands: &[u64], index: usize) -> bool {
    index < 32 && is_reused_before(operands, operands.len(), index)
}

/// Returns the cause if `operand`, at the index `k` of `inst`, is an invalid reuse.
fn reuse_cause(
    function: &StoredFunction,
    inst: usize,
    k: usize,
    operand: Operand,
) -> Option<ReuseCause> {
    let index = operand.reused_index()?;
    if !operand.is_def() || !operand.is_late() {
        return Some(ReuseCause::ReuseIsNoDef { inst });
    }
    let operands = operands_at(function, inst);
    let Some(bits) = operands.get(index) else {
        return Some(ReuseCause::ReusesNothing {
            inst,
            index,
            operands: operands.len(),
        });
    };
    let is_sound = match operand_of(*bits) {
        Some(other) => may_be_reused(function, operand, other),
        None => false,
    };
    if !is_sound {
        return Some(ReuseCause::ReusesOther { inst, index });
    }
    if is_reused_before(operands, k, index) {
        return Some(ReuseCause::ReusedTwice { inst, index });
    }
    None
}

/// Returns the cause if `operand`, at the index `k` of `inst`, is fixed to a clobber.
fn clobber_cause(
    function: &StoredFunction,
    inst: usize,
    k: usize,
    operand: Operand,
) -> Option<ConstraintCause> {
    let OperandConstraint::FixedReg(register) = operand.constraint() else {
        return None;
    };
    if is_early_use(operand) && !is_reused(operands_at(function, inst), k) {
        return None;
    }
    match function.insts.get(inst) {
        Some(data) if has_register(data.clobbers.as_slice(), register) => {
            Some(ConstraintCause::FixedClobbered { inst, register })
        }
        _ => None,
    }
}

/// Returns the cause if `operand` has a limit constraint.
fn limit_cause(inst: usize, operand: Operand) -> Option<ConstraintCause> {
    match operand.constraint() {
        OperandConstraint::Limit(_) => Some(ConstraintCause::Limited { inst }),
        _ => None,
    }
}

/// Returns the cause if `inst` is a branch and `operand` defines in any register, or by a reuse.
fn branch_definition_cause(
    function: &StoredFunction,
    inst: usize,
    operand: Operand,
) -> Option<ConstraintCause> {
    if function.insts.get(inst)?.op != InstOpcode::Branch || !operand.is_def() {
        return None;
    }
    match operand.constraint() {
        OperandConstraint::Reg | OperandConstraint::Reuse(_) => {
            Some(ConstraintCause::BranchDefines { inst })
        }
        _ => None,
    }
}

/// A test of operands, in the order in which the allocator makes them.
#[derive(Clone, Copy)]
enum Test {
    Reuses,
    Clobbers,
    Limits,
    Branches,
}

impl Test {
    /// Returns the cause if `operand`, at the index `k` of `inst`, fails the test.
    fn cause(
        self,
        function: &StoredFunction,
        inst: usize,
        k: usize,
        operand: Operand,
    ) -> Option<Cause> {
        match self {
            Test::Reuses => reuse_cause(function, inst, k, operand).map(Cause::Reuse),
            Test::Clobbers => clobber_cause(function, inst, k, operand).map(Cause::Constraint),
            Test::Limits => limit_cause(inst, operand).map(Cause::Constraint),
            Test::Branches => {
                branch_definition_cause(function, inst, operand).map(Cause::Constraint)
            }
        }
    }
}

/// Returns the cause at the first operand of `inst` that fails `test`.
fn first_failing(function: &StoredFunction, inst: usize, test: Test) -> Option<(Cause, Site)> {
    for (k, bits) in operands_at(function, inst).iter().enumerate() {
        if let Some(operand) = operand_of(*bits) {
            if let Some(cause) = test.cause(function, inst, k, operand) {
                return Some((cause, Site::Operand(inst, k)));
            }
        }
    }
    None
}

/// Returns the cause of `Unsupported` for `inst`.
pub(crate) fn unsupported_cause(function: &StoredFunction, inst: usize) -> (Cause, Site) {
    for test in [Test::Reuses, Test::Clobbers, Test::Limits, Test::Branches] {
        if let Some(found) = first_failing(function, inst, test) {
            return found;
        }
    }
    (Cause::Other, Site::Inst(inst))
}
