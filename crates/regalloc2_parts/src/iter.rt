//! The operands of one instruction, selected by what they do.

ghost use Rattle.std.specs.Prelude.{◌≡◌, ◌+◌, ◌-◌, ◌<◌, ◌∷◌, [], IfSome, IfNone, length, slice_index_or};
ghost use Rattle.std.specs.Iterator.{YieldsFirst, item_count, at_most};
ghost use Rattle.regalloc2_names.specs.Operand.{OperandValue, is_fixed_operand};
ghost use Rattle.regalloc2_parts.specs.Picked.{accepts, left_from, picked, is_def_operand, is_use_operand, is_reuse_operand, is_any_reg_operand, is_late_operand, is_early_operand};
ghost use Rattle.regalloc2_parts.specs.Matching.{GivesNextMatch, walked_operands, next_index, predicate_of};

use regalloc2_names::{Operand, OperandConstraint, OperandKind, OperandPos};
use std::marker::Model;
use std::ops::Index;

/// The operands of one instruction.
#[derive(Clone, Copy, Debug)]
pub struct Operands<'a>(pub &'a [Operand]);

impl<'a> Operands<'a> {
    /// Returns the operands of the slice `operands`.
    pub fn new(operands: &'a [Operand]) -> Self
        ensures { result.0.now ≡ operands.now }
    {
        Operands(operands)
    }

    /// The operands that `predicate` accepts, with their indexes.
    pub fn matches<F: Fn(Operand) -> bool>(&self, predicate: F) -> Matches<'a, F>
        ensures operands { walked_operands result ≡ self.now.0.now }
        ensures from_the_first { next_index result ≡ 0 }
        ensures predicate { predicate_of result ≡ predicate }
    {
        let operands = self.0;
        Matches {
            operands,
            from: 0,
            predicate,
        }
    }

    /// The operands that `pick` selects, with their indexes.
    #[inline(always)]
    fn picked(&self, pick: Pick) -> PickedOperands<'a>
        ensures { result ≡ picked (accepts pick) self.now.0.now }
    {
        PickedOperands {
            operands: self.0,
            from: 0,
            pick,
        }
    }

    /// The definitions, with their indexes.
    #[inline(always)]
    pub fn def_ops(&self) -> PickedOperands<'a>
        ensures { result ≡ picked is_def_operand self.now.0.now }
    {
        self.picked(Pick::Def)
    }

    /// The uses, with their indexes.
    #[inline(always)]
    pub fn use_ops(&self) -> PickedOperands<'a>
        ensures { result ≡ picked is_use_operand self.now.0.now }
    {
        self.picked(Pick::Use)
    }

    /// The operands that reuse another operand's place, with their indexes.
    pub fn reuse(&self) -> PickedOperands<'a>
        ensures { result ≡ picked is_reuse_operand self.now.0.now }
    {
        self.picked(Pick::Reuse)
    }

    /// The operands that are fixed to a register, with their indexes.
    pub fn fixed(&self) -> PickedOperands<'a>
        ensures { result ≡ picked is_fixed_operand self.now.0.now }
    {
        self.picked(Pick::Fixed)
    }

    /// The operands that require any register, with their indexes.
    pub fn any_reg(&self) -> PickedOperands<'a>
        ensures { result ≡ picked is_any_reg_operand self.now.0.now }
    {
        self.picked(Pick::AnyReg)
    }

    /// The late operands, with their indexes.
    #[inline(always)]
    pub fn late(&self) -> PickedOperands<'a>
        ensures { result ≡ picked is_late_operand self.now.0.now }
    {
        self.picked(Pick::Late)
    }

    /// The early operands, with their indexes.
    #[inline(always)]
    pub fn early(&self) -> PickedOperands<'a>
        ensures { result ≡ picked is_early_operand self.now.0.now }
    {
        self.picked(Pick::Early)
    }
}

impl<'a> Index<usize> for Operands<'a> {
    type Output = Operand;

    ghost can_index = { λ operands i. i < length operands.0.now };

    ghost index_gives = { λ operands i operand. (other : _) → slice_index_or operands.0.now i other ≡ operand };

    fn index(&self, index: usize) -> &Operand {
        &self.0[index]
    }
}

/// What an operand is selected by.
#[derive(Clone, Copy, Debug)]
enum Pick {
    Def,
    Use,
    Reuse,
    Fixed,
    AnyReg,
    Late,
    Early,
}

impl Pick {
    /// Whether `operand` is selected.
    #[inline(always)]
    fn accepts(self, operand: Operand) -> bool
        ensures { result ≡ accepts self operand }
    {
        match self {
            Pick::Def => matches!(operand.kind(), OperandKind::Def),
            Pick::Use => matches!(operand.kind(), OperandKind::Use),
            Pick::Reuse => matches!(operand.constraint(), OperandConstraint::Reuse(_)),
            Pick::Fixed => matches!(operand.constraint(), OperandConstraint::FixedReg(_)),
            Pick::AnyReg => matches!(operand.constraint(), OperandConstraint::Reg),
            Pick::Late => matches!(operand.pos(), OperandPos::Late),
            Pick::Early => matches!(operand.pos(), OperandPos::Early),
        }
    }
}

/// The first index from `from` on whose operand is selected.
#[inline(always)]
fn next_picked(operands: &[Operand], from: usize, pick: Pick) -> Option<usize>
    ensures none { IfNone result (left_from (accepts pick) from operands.now ≡ []) }
    ensures bound { IfSome result (λ i. i < length operands.now) }
    ensures first { IfSome result (λ i. (other : OperandValue) → left_from (accepts pick) from operands.now ≡ (i, slice_index_or operands.now i other) ∷
        left_from (accepts pick) (i + 1) operands.now) }
{
    for i in from..operands.len() {
        if pick.accepts(operands[i]) {
            return Some(i);
        }
    }
    None
}

/// Selected operands with their indexes, in order; specified as the list of the operands that are
/// left.
#[derive(Clone, Debug, Drop)]
pub struct PickedOperands<'a> {
    operands: &'a [Operand],
    from: usize,
    pick: Pick,
}

impl<'a> Model for PickedOperands<'a> {
    ghost use Rattle.std.specs.Prelude.{List, ℕ};
    ghost use Rattle.regalloc2_names.specs.Operand.{OperandValue};
    ghost use Rattle.regalloc2_parts.specs.Picked.{accepts, left_from};

    ghost Value = { List (ℕ × OperandValue) };

    ghost view = { λ it. left_from (accepts it.pick) it.from it.operands.now };
}

impl<'a> Iterator for PickedOperands<'a> {
    type Item = (usize, Operand);

    ghost next_gives = { YieldsFirst (λ left. left) };

    ghost remaining = { item_count (λ left. left) };

    #[inline(always)]
    fn next(&mut self) -> Option<(usize, Operand)> {
        let index = next_picked(self.operands, self.from, self.pick)?;
        self.from = index + 1;
        Some((index, self.operands[index]))
    }
}

/// The operands that a closure accepts, with their indexes, in order.
#[derive(Drop)]
pub struct Matches<'a, F> {
    operands: &'a [Operand],
    from: usize,
    predicate: F,
}

impl<'a, F: Fn(Operand) -> bool + Drop> Iterator for Matches<'a, F> {
    type Item = (usize, Operand);

    ghost can_next = { λ it. F.IsAlwaysCallable (predicate_of it) };

    ghost next_gives = { GivesNextMatch (λ f operand answer. F.post f operand answer) };

    ghost remaining = { λ it. at_most (length (walked_operands it) - next_index it) };

    fn next(&mut self) -> Option<(usize, Operand)> {
        while self.from < self.operands.len() {
            let index = self.from;
            let operand = self.operands[index];
            self.from += 1;
            if (self.predicate)(operand) {
                return Some((index, operand));
            }
        }
        None
    }
}
