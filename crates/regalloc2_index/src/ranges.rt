//! Ranges of instructions.

ghost use Rattle.std.specs.Prelude.{◌≡◌, ◌+◌, ◌-◌, ◌<◌, ◌≤◌};
ghost use Rattle.regalloc2_index.specs.Range.{numbers_of};

use super::{Inst, InstRangeIter};
use std::marker::Model;

/// The instructions from `from` on, up to but without `to`.
#[derive(Clone, Copy, Debug, PartialEq, Eq)]
pub struct InstRange {
    from: Inst,
    to: Inst,
}

impl Model for InstRange {
    ghost use Rattle.std.specs.Prelude.{◌≤◌};
    ghost use Rattle.regalloc2_index.specs.Range.{Span};

    ghost Value = { Span };

    ghost view = { λ r. record { first = r.from; end = r.to } };

    ghost invariant = { λ r. r.from ≤ r.to };

    ghost inverse = { λ s. record { from = s.first; to = s.end } };
}

impl InstRange {
    /// Returns the range that starts at `from` and ends before `to`.
    pub fn new(from: Inst, to: Inst) -> Self
        requires { from ≤ to }
        ensures { result ≡ record { first = from; end = to } }
    {
        InstRange { from, to }
    }

    /// Returns the first instruction. The range isn't empty.
    pub fn first(self) -> Inst
        requires { self.first < self.end }
        ensures { result ≡ self.first }
    {
        let InstRange { from: first, to: _ } = self;
        first
    }

    /// Returns the last instruction. The range isn't empty.
    pub fn last(self) -> Inst
        requires { self.first < self.end }
        ensures { result ≡ self.end - 1 }
    {
        self.to.prev()
    }

    /// Returns the range without its first instruction. The range isn't empty.
    pub fn rest(self) -> Self
        requires { self.first < self.end }
        ensures { result ≡ record { first = self.first + 1; end = self.end } }
    {
        InstRange {
            from: self.from.next(),
            to: self.to,
        }
    }

    /// Returns the number of instructions.
    pub fn len(self) -> usize
        ensures len { result ≡ self.end - self.first }
        ensures ordered { self.first ≤ self.end }
    {
        self.to.index() - self.from.index()
    }

    /// Returns the instruction before which the range ends.
    ///
    /// Upstream: none.
    pub fn end(self) -> Inst
        ensures { result ≡ self.end }
    {
        let InstRange { from: _, to: end } = self;
        end
    }

    /// Iterates over the instructions in order, from either end.
    pub fn iter(self) -> InstRangeIter
        ensures { result ≡ numbers_of self }
    {
        InstRangeIter::new(self.from, self.to)
    }
}
