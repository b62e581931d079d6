//! The kinds of the allocator's errors, with their numbers and causes.

ghost use Rattle.std.specs.Prelude.{IfSome, Some, ◌≡◌};
ghost use Rattle.regalloc2_names.specs.ErrorKind.{kind_of, kind_of_number, number_of_kind};
ghost use Rattle.regalloc2_names.specs.Text.{cause_text};

use super::{RegAllocError, RegAllocErrorKind};
use std::fmt;

impl RegAllocError {
    /// Returns the error's reason without the edge, vreg, block or instruction that it names.
    ///
    /// Upstream: none.
    pub fn kind(&self) -> RegAllocErrorKind
        ensures { result ≡ kind_of self.now }
    {
        match self {
            RegAllocError::CritEdge(..) => RegAllocErrorKind::CritEdge,
            RegAllocError::SSA(..) => RegAllocErrorKind::SSA,
            RegAllocError::BB(_) => RegAllocErrorKind::BB,
            RegAllocError::Branch(_) => RegAllocErrorKind::Branch,
            RegAllocError::EntryLivein => RegAllocErrorKind::EntryLivein,
            RegAllocError::DisallowedBranchArg(_) => RegAllocErrorKind::DisallowedBranchArg,
            RegAllocError::TooManyLiveRegs => RegAllocErrorKind::TooManyLiveRegs,
            RegAllocError::TooManyOperands => RegAllocErrorKind::TooManyOperands,
            RegAllocError::Unsupported(_) => RegAllocErrorKind::Unsupported,
            RegAllocError::TooManySpillSlots => RegAllocErrorKind::TooManySpillSlots,
            RegAllocError::Memory => RegAllocErrorKind::Memory,
        }
    }
}

impl RegAllocErrorKind {
    /// Returns the number that programs and the C library print, in `1..=11`.
    ///
    /// Upstream: none.
    pub fn number(self) -> u8
        ensures numbered { result ≡ number_of_kind self }
        ensures found_again { kind_of_number result ≡ Some self }
    {
        self as u8
    }

    /// Returns the kind whose number is `number`, or `None` if there is none.
    ///
    /// Upstream: none.
    pub fn from_number(number: u8) -> Option<RegAllocErrorKind>
        ensures found { result ≡ kind_of_number number }
        ensures numbered { IfSome result (λ kind. number_of_kind kind ≡ number) }
    {
        match number {
            1 => Some(RegAllocErrorKind::CritEdge),
            2 => Some(RegAllocErrorKind::SSA),
            3 => Some(RegAllocErrorKind::BB),
            4 => Some(RegAllocErrorKind::Branch),
            5 => Some(RegAllocErrorKind::EntryLivein),
            6 => Some(RegAllocErrorKind::DisallowedBranchArg),
            7 => Some(RegAllocErrorKind::TooManyLiveRegs),
            8 => Some(RegAllocErrorKind::TooManyOperands),
            9 => Some(RegAllocErrorKind::Unsupported),
            10 => Some(RegAllocErrorKind::TooManySpillSlots),
            11 => Some(RegAllocErrorKind::Memory),
            _ => None,
        }
    }

    /// Returns the cause in words, as `the entry has parameters`.
    ///
    /// Upstream: none.
    pub fn cause(self) -> &'static str
        ensures { result.now ≡ cause_text self }
    {
        match self {
            RegAllocErrorKind::CritEdge => {
                "an edge is critical (its block has several successors, and the successor several incoming edges, counting the start)"
            }
            RegAllocErrorKind::SSA => {
                "a vreg is defined twice, isn't below the count of vregs, or is used without an earlier definition"
            }
            RegAllocErrorKind::BB => {
                "a block doesn't exist, has a wrong instruction range, wrong predecessors or wrong terminators, or is the entry but not block 0"
            }
            RegAllocErrorKind::Branch => "a branch passes arguments that don't fit the parameters",
            RegAllocErrorKind::EntryLivein => "the entry has parameters",
            RegAllocErrorKind::DisallowedBranchArg => {
                "a branch with operands leads to a block with several incoming edges, counting the start"
            }
            RegAllocErrorKind::TooManyLiveRegs =>
                "an instruction needs more registers than there are",
            RegAllocErrorKind::TooManyOperands => "there are 2^32 operands or more",
            RegAllocErrorKind::Unsupported => {
                "an operand isn't supported: a limit, an unsound reuse, a definition or late use fixed to a clobber, or a branch's definition in any register or by a reuse"
            }
            RegAllocErrorKind::TooManySpillSlots => "spill slots would take more than 2^24 units",
            RegAllocErrorKind::Memory => "out of memory",
        }
    }
}

/// Writes the cause in words.
///
/// Upstream: none.
impl fmt::Display for RegAllocErrorKind {
    ghost output = { λ kind. Some (cause_text kind) };

    fn fmt<W: fmt::Write>(&self, f: &mut fmt::Formatter<W>) -> fmt::Result {
        f.write_str(self.cause())
    }
}
