//! The texts of errors.

ghost use Rattle.std.specs.Prelude.{◌≡◌, Some};
ghost use Rattle.std.specs.Fmt.{WritesOnOk};
ghost use Rattle.std.specs.List.{flat_map};
ghost use Rattle.regalloc2_checker.specs.Text.{detail_text, error_text, fault_text, next_vreg_text, operand_fault_text, violated_words, vregs_text, words_for};

use crate::errors::CheckerError;
use regalloc2_index::Inst;
use regalloc2_names::{Allocation, Operand, OperandConstraint, VReg, VRegText};
use std::alloc::Allocator;
use std::fmt;

/// Writes the line of an operand's error.
fn write<W: fmt::Write>(
    f: &mut fmt::Formatter<W>,
    number: u32,
    inst: Inst,
    op: Operand,
    place: Allocation,
) -> fmt::Result
    ensures { WritesOnOk W.write_str_gives f.old result (operand_fault_text number inst op place) f.new }
{
    let index = inst.index();
    write!(f, "error {number} inst{index} {op} [{place}]")
}

/// An error with its number and no words, as a program reads it: `error 2 inst1 Use: v0i reg
/// [p8i]`,
/// `error 10 stack0 -> stack1`, `error 12` or `error 13`.
///
/// The number identifies the kind of error, in the order of the variants but with
/// `AllocationOutsideLimit` as 11.
#[derive(Drop)]
pub struct FaultLine<'a, A: Allocator>(pub &'a CheckerError<A>);

impl<A: Allocator> fmt::Display for FaultLine<'_, A> {
    ghost output = { λ t. Some (fault_text t.0.now) };

    fn fmt<W: fmt::Write>(&self, f: &mut fmt::Formatter<W>) -> fmt::Result {
        match self.0 {
            CheckerError::MissingAllocation { inst, op } => {
                write(f, 1, *inst, *op, Allocation::none())
            }
            CheckerError::UnknownValueInAllocation { inst, op, alloc } => {
                write(f, 2, *inst, *op, *alloc)
            }
            CheckerError::ConflictedValueInAllocation { inst, op, alloc } => {
                write(f, 3, *inst, *op, *alloc)
            }
            CheckerError::IncorrectValuesInAllocation {
                inst,
                op,
                alloc,
                ..
            } => { write(f, 4, *inst, *op, *alloc) }
            CheckerError::ConstraintViolated { inst, op, alloc } => {
                write(f, 5, *inst, *op, *alloc)
            }
            CheckerError::AllocationIsNotReg { inst, op, alloc } => {
                write(f, 6, *inst, *op, *alloc)
            }
            CheckerError::AllocationIsNotFixedReg { inst, op, alloc } => {
                write(f, 7, *inst, *op, *alloc)
            }
            CheckerError::AllocationIsNotReuse {
                inst,
                op,
                alloc,
                ..
            } => { write(f, 8, *inst, *op, *alloc) }
            CheckerError::AllocationIsNotStack { inst, op, alloc } => {
                write(f, 9, *inst, *op, *alloc)
            }
            CheckerError::StackToStackMove { into, from } => {
                write!(f, "error 10 {from} -> {into}")
            }
            CheckerError::AllocationOutsideLimit {
                inst,
                op,
                alloc,
                ..
            } => { write(f, 11, *inst, *op, *alloc) }
            CheckerError::MalformedOutput => write!(f, "error 12"),
            CheckerError::Memory => write!(f, "error 13"),
        }
    }
}

/// Vregs after others, as `, v0i, v3f`.
#[derive(Clone, Copy)]
struct NextVRegs<'a>(&'a [VReg]);

impl fmt::Display for NextVRegs<'_> {
    ghost output = { λ t. Some (flat_map next_vreg_text t.0.now) };

    fn fmt<W: fmt::Write>(&self, f: &mut fmt::Formatter<W>) -> fmt::Result {
        let NextVRegs(vregs) = *self;
        for vreg in vregs {
            let text = VRegText(*vreg);
            write!(f, ", {text}")?;
        }
        Ok(())
    }
}

/// Vregs with their class letters, as `v0i, v3f`.
#[derive(Clone, Copy)]
struct VRegs<'a>(&'a [VReg]);

impl fmt::Display for VRegs<'_> {
    ghost output = { λ t. Some (vregs_text t.0.now) };

    fn fmt<W: fmt::Write>(&self, f: &mut fmt::Formatter<W>) -> fmt::Result {
        let Some((first, rest)) = self.0.split_first() else {
            return write!(f, "");
        };
        let (first, rest) = (VRegText(*first), NextVRegs(rest));
        write!(f, "{first}{rest}")
    }
}

/// Returns the words of the violated `constraint`, up to the operand's number that it names.
fn violated_words(constraint: OperandConstraint) -> &'static str
    ensures { result.now ≡ violated_words constraint }
{
    match constraint {
        OperandConstraint::Reuse(_) => "no operand ",
        _ => "no such operand",
    }
}

/// What is wrong, up to the names in it.
fn words_for<A: Allocator>(error: &CheckerError<A>) -> &'static str
    ensures { result.now ≡ words_for error.now }
{
    match error {
        CheckerError::MissingAllocation { .. } => "no place",
        CheckerError::UnknownValueInAllocation { .. }
        | CheckerError::ConflictedValueInAllocation { .. } => "the place holds nothing known",
        CheckerError::IncorrectValuesInAllocation { .. } => "the place holds ",
        CheckerError::ConstraintViolated { op, .. } => violated_words(op.constraint()),
        CheckerError::AllocationIsNotReg { .. } => "not a register",
        CheckerError::AllocationIsNotFixedReg { .. } => "not the fixed register",
        CheckerError::AllocationIsNotReuse { .. } => "the operand that it reuses stands in ",
        CheckerError::AllocationIsNotStack { .. } => "not in memory",
        CheckerError::StackToStackMove { .. } => "from memory to memory",
        CheckerError::AllocationOutsideLimit { .. } => "past the limit",
        CheckerError::MalformedOutput => "the output is out of order",
        CheckerError::Memory => "out of memory",
    }
}

/// The names after the words: vregs, an operand's index or a place.
#[derive(Drop)]
struct Detail<'a, A: Allocator>(&'a CheckerError<A>);

impl<A: Allocator> fmt::Display for Detail<'_, A> {
    ghost output = { λ t. Some (detail_text t.0.now) };

    fn fmt<W: fmt::Write>(&self, f: &mut fmt::Formatter<W>) -> fmt::Result {
        match self.0 {
            CheckerError::IncorrectValuesInAllocation { actual, .. } => {
                let vregs = VRegs(actual.as_slice());
                write!(f, "{vregs}")
            }
            CheckerError::ConstraintViolated { op, .. } => match op.constraint() {
                OperandConstraint::Reuse(index) => write!(f, "{index}"),
                _ => write!(f, ""),
            },
            CheckerError::AllocationIsNotReuse { expected_alloc, .. } => {
                write!(f, "{expected_alloc}")
            }
            _ => write!(f, ""),
        }
    }
}

/// Writes the error's line, and what is wrong: `error 4 inst3 Use: v1i reg [p9i]: the place holds v0i` or `error 12: the
/// output is out of order`.
impl<A: Allocator> fmt::Display for CheckerError<A> {
    ghost output = { λ e. Some (error_text e) };

    fn fmt<W: fmt::Write>(&self, f: &mut fmt::Formatter<W>) -> fmt::Result {
        let (line, words, detail) = (FaultLine(self), words_for(self), Detail(self));
        write!(f, "{line}: {words}{detail}")
    }
}
