//! Program points, before and after instructions.

ghost use Rattle.std.specs.Prelude.{◌≡◌, ◌≢◌, ℕ, ◌+◌, ◌-◌, ◌<◌, ◌↔◌, IsTrue};
ghost use Rattle.regalloc2_names.specs.Place.{IsPointNumber, after, before, inst_limit, inst_of_point, invalid_inst, invalid_point, point_at};
ghost use Rattle.regalloc2_names.specs.Place.{position_of_point};

use super::InstPosition;
use regalloc2_index::Inst;
use std::marker::Model;

/// A program point, before or after an instruction. A contract sees it as its number in the order
/// of points.
///
/// That number is twice the instruction's, and one more for the point after it. `Inst::invalid()`
/// has the two points past all others.
#[derive(Clone, Copy, PartialEq, Eq, PartialOrd, Ord, Hash)]
pub struct ProgPoint {
    bits: u32,
}

impl Model for ProgPoint {
    ghost use Rattle.std.specs.Prelude.{ℕ};
    ghost use Rattle.regalloc2_names.specs.Place.{IsPointNumber};

    ghost Value = { ℕ };

    ghost view = { λ p. p.bits };

    ghost invariant = { λ p. IsPointNumber p.bits };

    ghost inverse = { λ n. record { bits = n } };
}

impl ProgPoint {
    const POS_BITS: usize = 1;

    const POS_MASK: u32 = (1 << Self::POS_BITS) - 1;

    /// The first number past the points of instructions.
    const END: u32 = 1 << 31;

    /// The number of the point before `Inst::invalid()`.
    const INVALID: u32 = u32::MAX - 1;

    /// Returns the point at `pos` of `inst`, whose number is below 2^30, or is the number of
    /// `Inst::invalid()`.
    pub fn new(inst: Inst, pos: InstPosition) -> Self
        requires { inst ≢ invalid_inst → inst < inst_limit }
        ensures point { inst ≢ invalid_inst → result ≡ point_at inst pos }
        ensures invalid { inst ≡ invalid_inst → result ≡ invalid_point pos }
    {
        match pos {
            InstPosition::Before => ProgPoint::before(inst),
            InstPosition::After => ProgPoint::after(inst),
        }
    }

    /// Returns the point before `inst`, as [`ProgPoint::new`] does.
    pub fn before(inst: Inst) -> Self
        requires { inst ≢ invalid_inst → inst < inst_limit }
        ensures point { inst ≢ invalid_inst → result ≡ before inst }
        ensures invalid { inst ≡ invalid_inst → result ≡ invalid_point InstPosition.Before }
    {
        ProgPoint {
            bits: inst.0 << Self::POS_BITS,
        }
    }

    /// Returns the point after `inst`, as [`ProgPoint::new`] does.
    #[tactic(auto, using(crate::proofs::Words::odd_word))]
    pub fn after(inst: Inst) -> Self
        requires { inst ≢ invalid_inst → inst < inst_limit }
        ensures point { inst ≢ invalid_inst → result ≡ after inst }
        ensures invalid { inst ≡ invalid_inst → result ≡ invalid_point InstPosition.After }
    {
        ProgPoint {
            bits: (inst.0 << Self::POS_BITS) | 1,
        }
    }

    /// Returns the instruction of the point.
    pub fn inst(self) -> Inst
        ensures inst { result ≡ inst_of_point self }
        ensures valid { result ≢ invalid_inst → result < inst_limit }
    {
        if self.bits < Self::END {
            Inst(self.bits >> Self::POS_BITS)
        } else {
            Inst::invalid()
        }
    }

    /// Returns whether the point is before or after its instruction.
    pub fn pos(self) -> InstPosition
        ensures { result ≡ position_of_point self }
    {
        if self.bits & Self::POS_MASK == 0 {
            InstPosition::Before
        } else {
            InstPosition::After
        }
    }

    /// Returns the number of the point in the order of points.
    pub fn to_index(self) -> u32
        ensures index { result ≡ self }
        ensures point { IsPointNumber self }
    {
        self.bits
    }

    /// Returns `true` if `index` is the number of a point.
    pub fn is_index(index: u32) -> bool
        ensures { IsTrue result ↔ IsPointNumber index }
    {
        index < Self::END || index >= Self::INVALID
    }

    /// Returns the point of number `index`, which `is_index` accepts.
    pub fn from_index(index: u32) -> Self
        requires { IsPointNumber index }
        ensures { result ≡ index }
    {
        ProgPoint { bits: index }
    }

    /// Returns the next point, which exists. The point after an instruction precedes the point before
    /// the next instruction.
    pub fn next(self) -> Self
        requires { IsPointNumber (self + 1) }
        ensures { result ≡ self + 1 }
    {
        ProgPoint {
            bits: self.bits + 1,
        }
    }

    /// Returns the previous point, which exists.
    pub fn prev(self) -> Self
        requires not_first { 0 < self }
        requires point { IsPointNumber (self - 1) }
        ensures { result ≡ self - 1 }
    {
        ProgPoint {
            bits: self.bits - 1,
        }
    }

    /// Returns the point before `Inst::invalid()`, which stands for none.
    pub fn invalid() -> Self
        ensures { result ≡ invalid_point InstPosition.Before }
    {
        ProgPoint::before(Inst::invalid())
    }
}
