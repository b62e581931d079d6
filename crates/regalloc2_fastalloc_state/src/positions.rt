//! The positions of an instruction at which an operand holds its register.

ghost use Rattle.std.specs.Prelude.{◌≡◌};
ghost use Rattle.regalloc2_fastalloc_state.specs.Positions.{both_positions, positions_of};

use regalloc2_names::{Operand, OperandKind, OperandPos};

/// The positions of an instruction at which an operand holds its register, at least.
#[derive(Clone, Copy)]
pub struct Positions {
    /// While early uses are read.
    pub early: bool,
    /// While late definitions are written.
    pub late: bool,
}

impl Positions {
    /// Returns both positions.
    #[inline(always)]
    pub fn both() -> Positions
        ensures { result ≡ both_positions }
    {
        Positions {
            early: true,
            late: true,
        }
    }

    /// Returns the positions of `operand`: an early use is read before late definitions are written, and a late
    /// definition comes after the early uses; all other operands hold their registers throughout.
    #[inline(always)]
    pub fn of(operand: Operand) -> Positions
        ensures { result ≡ positions_of operand }
    {
        let is_use = operand.kind() == OperandKind::Use;
        let is_early = operand.pos() == OperandPos::Early;
        Positions {
            early: is_use || is_early,
            late: !(is_use && is_early),
        }
    }
}
