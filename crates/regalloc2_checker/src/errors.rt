//! What a check finds.

ghost use Rattle.std.specs.Prelude.{◌≡◌, ◌<◌, length};
ghost use Rattle.std.specs.Vec.{vec_len};

use regalloc2_index::Inst;
use regalloc2_names::{Allocation, Operand, VReg};
use std::alloc::{Allocator, Global};
use std::fmt;
use std::ops::Range;

/// An error of an output, or why it can't be checked.
///
/// Names and fields are upstream's, with two variants of this port's own at the end.
#[derive(Debug, Drop)]
pub enum CheckerError<A: Allocator = Global> {
    /// An operand has no place.
    MissingAllocation {
        /// The instruction.
        inst: Inst,
        /// The operand.
        op: Operand,
    },
    /// A use reads a place that holds no vreg's value on every path.
    UnknownValueInAllocation {
        /// The instruction.
        inst: Inst,
        /// The operand.
        op: Operand,
        /// The operand's place.
        alloc: Allocation,
    },
    /// Kept from upstream, and never reported.
    ConflictedValueInAllocation {
        /// The instruction.
        inst: Inst,
        /// The operand.
        op: Operand,
        /// The operand's place.
        alloc: Allocation,
    },
    /// A use reads a place that holds values of other vregs on every path, and not of its own.
    IncorrectValuesInAllocation {
        /// The instruction.
        inst: Inst,
        /// The operand.
        op: Operand,
        /// The operand's place.
        alloc: Allocation,
        /// The vregs whose values the place holds, by rising bits.
        actual: Vec<VReg, A>,
    },
    /// A reuse names no operand of its instruction.
    ConstraintViolated {
        /// The instruction.
        inst: Inst,
        /// The operand.
        op: Operand,
        /// The operand's place.
        alloc: Allocation,
    },
    /// The place is no register, or is a fixed stack slot.
    AllocationIsNotReg {
        /// The instruction.
        inst: Inst,
        /// The operand.
        op: Operand,
        /// The operand's place.
        alloc: Allocation,
    },
    /// The place isn't the register that the operand is fixed to.
    AllocationIsNotFixedReg {
        /// The instruction.
        inst: Inst,
        /// The operand.
        op: Operand,
        /// The operand's place.
        alloc: Allocation,
    },
    /// The place isn't that of the operand that is to be reused.
    AllocationIsNotReuse {
        /// The instruction.
        inst: Inst,
        /// The operand.
        op: Operand,
        /// The operand's place.
        alloc: Allocation,
        /// The named operand's place, `none` where it is missing.
        expected_alloc: Allocation,
    },
    /// The place is neither a spill slot nor a fixed stack slot.
    AllocationIsNotStack {
        /// The instruction.
        inst: Inst,
        /// The operand.
        op: Operand,
        /// The operand's place.
        alloc: Allocation,
    },
    /// A move goes from one stack place to another.
    StackToStackMove {
        /// The place that is written.
        into: Allocation,
        /// The place that is read.
        from: Allocation,
    },
    /// The place is a register whose number isn't below the operand's bound.
    AllocationOutsideLimit {
        /// The instruction.
        inst: Inst,
        /// The operand.
        op: Operand,
        /// The operand's place.
        alloc: Allocation,
        /// The numbers below the bound.
        range: Range<usize>,
    },
    /// The output isn't well-ordered, or none was prepared.
    MalformedOutput,
    /// A memory allocation failed.
    Memory,
}

/// What a check found: at least one error.
#[derive(Debug, Drop)]
pub struct CheckerErrors<A: Allocator = Global> {
    errors: Vec<CheckerError<A>, A>,
    ghost some: { 0 < vec_len errors },
}

impl<A: Allocator> CheckerErrors<A> {
    ghost use Rattle.regalloc2_checker.specs.ErrorsFound.{errors_of};

    /// A list of errors.
    pub(crate) fn of(errors: Vec<CheckerError<A>, A>) -> CheckerErrors<A>
        requires { 0 < vec_len errors }
        ensures { errors_of result ≡ errors.items }
    {
        CheckerErrors { errors }
    }

    /// The errors, by rising block and instruction, a move's where the move is listed.
    pub fn errors(&self) -> &[CheckerError<A>]
        ensures errors { result.now ≡ errors_of self.now }
        ensures some { 0 < length result.now }
    {
        &self.errors
    }
}

/// The number of errors after the first, as `, and 2 more faults`; nothing if it is 0.
#[derive(Clone, Copy)]
struct MoreText(usize);

impl fmt::Display for MoreText {
    ghost use Rattle.std.specs.Prelude.{Some};
    ghost use Rattle.regalloc2_checker.specs.ErrorsText.{more_text};

    ghost output = { λ t. Some (more_text t.0) };

    fn fmt<W: fmt::Write>(&self, f: &mut fmt::Formatter<W>) -> fmt::Result {
        match self.0 {
            0 => write!(f, ""),
            1 => write!(f, ", and 1 more fault"),
            more => write!(f, ", and {more} more faults"),
        }
    }
}

/// Writes the first error, and how many more there are.
impl<A: Allocator> fmt::Display for CheckerErrors<A> {
    ghost use Rattle.std.specs.Prelude.{Some};
    ghost use Rattle.regalloc2_checker.specs.ErrorsFound.{errors_of};
    ghost use Rattle.regalloc2_checker.specs.ErrorsText.{errors_text};

    ghost output = { λ es. Some (errors_text (errors_of es)) };

    fn fmt<W: fmt::Write>(&self, f: &mut fmt::Formatter<W>) -> fmt::Result {
        let Some((first, rest)) = self.errors().split_first() else {
            return write!(f, "");
        };
        let more = MoreText(rest.len());
        write!(f, "{first}{more}")
    }
}
