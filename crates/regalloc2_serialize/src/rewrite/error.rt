//! Why a function isn't rewritten.

use crate::table_function::BuildError;
use std::alloc::{AllocError, AllocFailed};
use std::error::Error;
use std::fmt;

/// Why [`renumber`] or [`split_critical_edges`] returns an error.
///
/// [`renumber`]: crate::rewrite::renumber
/// [`split_critical_edges`]: crate::rewrite::split_critical_edges
#[derive(Clone, Copy, Debug, PartialEq, Eq)]
pub enum RewriteError {
    /// Memory ran out.
    Memory,
    /// The function isn't structurally valid.
    Unframed,
    /// The order doesn't list each block once.
    NoOrder,
    /// The function has labels, and their ranges don't stay together in another order.
    Labels,
    /// There would be 2^32 - 1 blocks or more.
    TooManyBlocks,
    /// There would be 2^30 instructions or more.
    TooManyInsts,
}

/// As `the order doesn't list each block once`.
impl fmt::Display for RewriteError {
    ghost use Rattle.std.specs.Prelude.{Some};
    ghost use Rattle.regalloc2_serialize.specs.Rewrite.RewriteText.{rewrite_text};

    ghost output = { λ e. Some (rewrite_text e) };

    fn fmt<W: fmt::Write>(&self, f: &mut fmt::Formatter<W>) -> fmt::Result {
        f.write_str(match self {
            Self::Memory => "out of memory",
            Self::Unframed => "the function isn't structurally valid",
            Self::NoOrder => "the order doesn't list each block once",
            Self::Labels => "the function has labels",
            Self::TooManyBlocks => "there would be 2^32 - 1 blocks or more",
            Self::TooManyInsts => "there would be 2^30 instructions or more",
        })
    }
}

impl Error for RewriteError {}

impl From<AllocError> for RewriteError {
    ghost use Rattle.std.specs.Prelude.{◌≡◌};
    ghost use Rattle.regalloc2_serialize.specs.declared.rewrite.error.RewriteError.TheVariants.{Memory};

    ghost from_gives = { λ _ e. e ≡ Memory };

    fn from(_refused: AllocError) -> RewriteError {
        RewriteError::Memory
    }
}

impl<T: Drop> From<AllocFailed<T>> for RewriteError {
    ghost use Rattle.std.specs.Prelude.{◌≡◌};
    ghost use Rattle.regalloc2_serialize.specs.declared.rewrite.error.RewriteError.TheVariants.{Memory};

    ghost from_gives = { λ _ e. e ≡ Memory };

    fn from(_refused: AllocFailed<T>) -> RewriteError {
        RewriteError::Memory
    }
}

impl From<BuildError> for RewriteError {
    ghost use Rattle.std.specs.Prelude.{◌≡◌};
    ghost use Rattle.regalloc2_serialize.specs.Rewrite.Rewritten.{rewrite_error};

    ghost from_gives = { λ b e. e ≡ rewrite_error b };

    fn from(error: BuildError) -> RewriteError {
        match error {
            BuildError::Memory => RewriteError::Memory,
            BuildError::NoBlock(_) => RewriteError::Unframed,
            BuildError::TooManyInsts => RewriteError::TooManyInsts,
            BuildError::TooManyBlocks | BuildError::TooManyVRegs => RewriteError::TooManyBlocks,
        }
    }
}
