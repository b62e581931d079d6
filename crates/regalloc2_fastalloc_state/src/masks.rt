//! The late operands, the early operands and the uses of an instruction, each group as the bits of a word.
//!
//! The walk visits each of these groups in turn. Tests of each operand in each loop would be branches
//! that a processor predicts badly. One pass that sets bits has none.

ghost use Rattle.std.specs.Prelude.{◌≡◌, ◌≢◌, ◌<◌, ◌≤◌, ◌^◌, ◌∷◌, [], List, length};
ghost use Rattle.std.specs.Iterator.{YieldsFirst, item_count};
ghost use Rattle.regalloc2_names.specs.Operand.{OperandValue};
ghost use Rattle.regalloc2_function.specs.FunctionValue.{op_at};
ghost use Rattle.regalloc2_parts.specs.Picked.{is_early_operand, is_late_operand, is_use_operand, picked};
ghost use Rattle.regalloc2_fastalloc_state.specs.Masks.{AreMasks, selected};

use regalloc2_names::Operand;
use std::marker::Model;

/// The late operands and the uses of an instruction with at most `MAX_OPERANDS` operands: bit k for the operand k.
#[derive(Clone, Copy)]
pub struct Masks {
    late: u64,
    uses: u64,
}

impl Masks {
    /// The greatest number of operands that have masks: 1 shifted left by this number fits a word.
    pub const MAX_OPERANDS: usize = u64::BITS as usize - 1;

    /// Returns the masks of no operand.
    #[inline(always)]
    pub fn none() -> Masks
        ensures { AreMasks [] result }
    {
        Masks { late: 0, uses: 0 }
    }

    /// Returns the masks of `operand` followed by the operands of `self`.
    #[inline(always)]
    pub fn before(self, operand: Operand) -> Masks
        ensures { (operands : List OperandValue) → length operands < Masks.MAX_OPERANDS → AreMasks operands self → AreMasks (operand ∷ operands) result }
    {
        Masks {
            late: (self.late << 1) | operand.is_late() as u64,
            uses: (self.uses << 1) | !operand.is_def() as u64,
        }
    }

    /// The late operands among `operands`, with their indexes.
    #[inline(always)]
    pub fn late<'o>(&self, operands: &'o [Operand]) -> Selected<'o>
        requires masks { AreMasks operands.now self.now }
        requires few { length operands.now ≤ Masks.MAX_OPERANDS }
        ensures { result ≡ picked is_late_operand operands.now }
    {
        Selected {
            operands,
            left: self.late,
        }
    }

    /// The early operands among `operands`, with their indexes.
    #[inline(always)]
    pub fn early<'o>(&self, operands: &'o [Operand]) -> Selected<'o>
        requires masks { AreMasks operands.now self.now }
        requires few { length operands.now ≤ Masks.MAX_OPERANDS }
        ensures { result ≡ picked is_early_operand operands.now }
    {
        Selected {
            operands,
            left: !self.late & ((1 << operands.len()) - 1),
        }
    }

    /// The uses among `operands`, with their indexes.
    #[inline(always)]
    pub fn uses<'o>(&self, operands: &'o [Operand]) -> Selected<'o>
        requires masks { AreMasks operands.now self.now }
        requires few { length operands.now ≤ Masks.MAX_OPERANDS }
        ensures { result ≡ picked is_use_operand operands.now }
    {
        Selected {
            operands,
            left: self.uses,
        }
    }
}

/// Operands with their indexes, in order. Its value is the list of the operands that are left.
#[derive(Clone, Drop)]
pub struct Selected<'o> {
    operands: &'o [Operand],
    left: u64,
}

impl<'o> Model for Selected<'o> {
    ghost use Rattle.std.specs.Prelude.{List, ℕ, ◌<◌, ◌^◌, length};
    ghost use Rattle.regalloc2_names.specs.Operand.{OperandValue};
    ghost use Rattle.regalloc2_fastalloc_state.specs.Masks.{selected};

    ghost Value = { List (ℕ × OperandValue) };

    ghost view = { λ it. selected it.left it.operands.now };

    ghost invariant = { λ it. it.left < 2 ^ length it.operands.now };
}

/// Clears the lowest bit that is set in `word`, and returns its index.
#[inline(always)]
fn take_lowest(word: &mut u64) -> usize
    requires { word.old ≢ 0 }
    ensures inside { (operands : List OperandValue) → word.old < 2 ^ length operands → result < length operands }
    ensures taken { (operands : List OperandValue) → word.old < 2 ^ length operands →
        selected word.old operands ≡ (result, op_at operands result) ∷ selected word.new operands }
    ensures below { word.new < word.old }
{
    let bit = word.trailing_zeros();
    *word &= *word - 1;
    bit as usize
}

impl<'o> Iterator for Selected<'o> {
    type Item = (usize, Operand);

    ghost next_gives = { YieldsFirst (λ left. left) };

    ghost remaining = { item_count (λ left. left) };

    #[inline(always)]
    fn next(&mut self) -> Option<(usize, Operand)> {
        if self.left == 0 {
            return None;
        }
        let index = take_lowest(&mut self.left);
        Some((index, self.operands[index]))
    }
}
