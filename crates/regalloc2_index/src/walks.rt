//! Walks over ranges of instructions.

ghost use Rattle.std.specs.Prelude.{◌≡◌, ℕ, ◌≤◌};
ghost use Rattle.std.specs.Iterator.{YieldsFirst, YieldsLast, item_count};
ghost use Rattle.regalloc2_index.specs.Range.{numbers_of};

use super::Inst;
use std::marker::Model;

/// The remaining instructions of a range. A contract sees the list of their numbers.
#[derive(Debug, Drop)]
pub struct InstRangeIter {
    from: Inst,
    to: Inst,
}

impl Model for InstRangeIter {
    ghost use Rattle.std.specs.Prelude.{ℕ, List, ◌≤◌};
    ghost use Rattle.regalloc2_index.specs.Range.{numbers_of};

    ghost Value = { List ℕ };

    ghost view = { λ it. numbers_of (record { first = it.from; end = it.to }) };

    ghost invariant = { λ it. it.from ≤ it.to };
}

impl InstRangeIter {
    /// Returns the walk over the instructions from `from` on, up to but without `to`.
    pub(crate) fn new(from: Inst, to: Inst) -> InstRangeIter
        requires { from ≤ to }
        ensures { result ≡ numbers_of (record { first = from; end = to }) }
    {
        InstRangeIter { from, to }
    }
}

impl Iterator for InstRangeIter {
    type Item = Inst;

    ghost next_gives = { YieldsFirst (λ rest. rest) };

    ghost remaining = { item_count (λ rest. rest) };

    fn next(&mut self) -> Option<Inst> {
        if self.from == self.to {
            return None;
        }
        let inst = self.from;
        self.from = inst.next();
        Some(inst)
    }
}

impl DoubleEndedIterator for InstRangeIter {
    ghost next_back_gives = { YieldsLast (λ rest. rest) };

    fn next_back(&mut self) -> Option<Inst> {
        if self.from == self.to {
            return None;
        }
        self.to = self.to.prev();
        Some(self.to)
    }
}
