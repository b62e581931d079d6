//! The union of the encodings of several operands.

ghost use Rattle.std.specs.Prelude.{◌≡◌, ◌∷◌, [], List, false};
ghost use Rattle.std.specs.List.{list_any};
ghost use Rattle.regalloc2_names.specs.Operand.{OperandValue, is_fixed_operand, is_limited_operand};
ghost use Rattle.regalloc2_names.specs.OperandUnion.{IsUnionOf};

use super::operands::{FIXED, LIMIT, Operand};

/// The union of the encodings of several operands, which tests them all at once.
///
/// Upstream: none.
#[derive(Clone, Copy)]
pub struct OperandUnion {
    bits: u64,
}

impl OperandUnion {
    /// Returns the union of no encoding.
    #[inline(always)]
    pub fn empty() -> Self
        ensures { IsUnionOf [] result }
    {
        OperandUnion { bits: 0 }
    }

    /// Returns the union with the encoding of `operand`.
    #[inline(always)]
    pub fn with(self, operand: Operand) -> Self
        ensures { (operands : List OperandValue) → IsUnionOf operands self → IsUnionOf (operand ∷ operands) result }
    {
        OperandUnion {
            bits: self.bits | operand.bits(),
        }
    }

    /// Returns `true` if any of the operands is fixed to a register.
    #[inline(always)]
    pub fn any_fixed(self) -> bool
        ensures { (operands : List OperandValue) → IsUnionOf operands self → result ≡ list_any is_fixed_operand operands }
    {
        self.bits >> Operand::CONSTRAINT_SHIFT >= FIXED
    }

    /// Returns `true` if any of the operands may have a limit, and `false` only if none has. Some
    /// reuses and fixed registers share the tested bit with the limits.
    #[inline(always)]
    pub fn may_have_limit(self) -> bool
        ensures { (operands : List OperandValue) → IsUnionOf operands self → result ≡ false → list_any is_limited_operand operands ≡ false }
    {
        self.bits & (LIMIT << Operand::CONSTRAINT_SHIFT) != 0
    }
}
