//! The texts of errors.

use super::RegAllocError;
use super::texts::VRegText;
use regalloc2_index::{Block, Inst};
use std::alloc::{AllocError, AllocFailed};
use std::error::Error;
use std::fmt;

/// The text of the place where a vreg is defined or read: an instruction, or a block's parameter
/// for `Inst::invalid()`.
#[derive(Clone, Copy)]
struct SiteText(Inst);

impl fmt::Display for SiteText {
    ghost use Rattle.std.specs.Prelude.{Some};
    ghost use Rattle.regalloc2_names.specs.Text.{site_text};

    ghost output = { λ t. Some (site_text t.0) };

    fn fmt<W: fmt::Write>(&self, f: &mut fmt::Formatter<W>) -> fmt::Result {
        if self.0 == Inst::invalid() {
            return write!(f, "a block's parameter");
        }
        let inst = self.0.index();
        write!(f, "inst{inst}")
    }
}

/// The text of what an error names, followed by a colon: the edge, the vreg with its site, the
/// block or the instruction. It is empty if the error names nothing.
#[derive(Clone, Copy)]
struct HeadingText(RegAllocError);

impl fmt::Display for HeadingText {
    ghost use Rattle.std.specs.Prelude.{Some};
    ghost use Rattle.regalloc2_names.specs.Text.{refusal_heading};

    ghost output = { λ t. Some (refusal_heading t.0) };

    fn fmt<W: fmt::Write>(&self, f: &mut fmt::Formatter<W>) -> fmt::Result {
        match self.0 {
            RegAllocError::CritEdge(Block(from), Block(to)) => {
                write!(f, "block{from} to block{to}: ")
            }
            RegAllocError::SSA(vreg, inst) => {
                let vreg = VRegText(vreg);
                let site = SiteText(inst);
                write!(f, "{vreg} at {site}: ")
            }
            RegAllocError::BB(Block(block)) => write!(f, "block{block}: "),
            RegAllocError::Branch(Inst(inst))
            | RegAllocError::DisallowedBranchArg(Inst(inst))
            | RegAllocError::Unsupported(Inst(inst)) => write!(f, "inst{inst}: "),
            _ => write!(f, ""),
        }
    }
}

/// Writes what the error names and its cause, as `inst4: a branch passes arguments that don't fit
/// the parameters`, or the cause alone if it names nothing.
///
/// Upstream: the text of `Debug`.
impl fmt::Display for RegAllocError {
    ghost use Rattle.std.specs.Prelude.{Some};
    ghost use Rattle.regalloc2_names.specs.Text.{refusal_text};

    ghost output = { λ e. Some (refusal_text e) };

    fn fmt<W: fmt::Write>(&self, f: &mut fmt::Formatter<W>) -> fmt::Result {
        let heading = HeadingText(*self);
        let kind = self.kind();
        write!(f, "{heading}{kind}")
    }
}

impl Error for RegAllocError {}

impl From<AllocError> for RegAllocError {
    ghost use Rattle.std.specs.Prelude.{◌≡◌};
    ghost use Rattle.regalloc2_names.specs.declared.RegAllocError.TheVariants.{Memory};

    ghost from_gives = { λ _ e. e ≡ Memory };

    fn from(_refused: AllocError) -> RegAllocError {
        RegAllocError::Memory
    }
}

impl<T: Drop> From<AllocFailed<T>> for RegAllocError {
    ghost use Rattle.std.specs.Prelude.{◌≡◌};
    ghost use Rattle.regalloc2_names.specs.declared.RegAllocError.TheVariants.{Memory};

    ghost from_gives = { λ _ e. e ≡ Memory };

    fn from(_refused: AllocFailed<T>) -> RegAllocError {
        RegAllocError::from(AllocError)
    }
}
