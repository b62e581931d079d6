//! Numbers of instructions.

ghost use Rattle.std.specs.Prelude.{◌≡◌, ◌≢◌, ℕ, ◌+◌, ◌-◌, ◌<◌, ◌↔◌, IsTrue};
ghost use Rattle.regalloc2_index.specs.Range.{invalid_number, number_limit};

use super::ContainerIndex;
use std::marker::Model;

/// The number of an instruction.
#[derive(Clone, Copy, Debug, PartialEq, Eq, PartialOrd, Ord, Hash)]
pub struct Inst(pub u32);

impl Model for Inst {
    ghost use Rattle.std.specs.Prelude.{ℕ};

    ghost Value = { ℕ };

    ghost view = { λ x. x.0 };

    ghost inverse = { λ n. record { 0 = n } };
}

impl Inst {
    /// Returns the instruction of number `i`, which is below 2^32.
    pub fn new(i: usize) -> Self
        requires { i < number_limit }
        ensures { result ≡ i }
    {
        Inst(i as u32)
    }

    /// Returns the number.
    pub fn index(self) -> usize
        ensures { result ≡ self }
    {
        self.0 as usize
    }

    /// Returns the instruction that stands for none: the greatest number.
    pub fn invalid() -> Self
        ensures { result ≡ invalid_number }
    {
        Inst(u32::MAX)
    }

    /// Returns `true` if the number is the number of `Inst::invalid()`.
    pub fn is_invalid(self) -> bool
        ensures { IsTrue result ↔ (self ≡ invalid_number) }
    {
        self == Self::invalid()
    }

    /// Returns `true` if the number isn't the number of `Inst::invalid()`.
    pub fn is_valid(self) -> bool
        ensures { IsTrue result ↔ (self ≢ invalid_number) }
    {
        self != Self::invalid()
    }

    /// Returns the instruction of the next number. This instruction is valid.
    pub fn next(self) -> Self
        requires { self ≢ invalid_number }
        ensures { result ≡ self + 1 }
    {
        Inst(self.0 + 1)
    }

    /// Returns the instruction of the previous number. This instruction isn't the first.
    pub fn prev(self) -> Self
        requires { 0 < self }
        ensures { result ≡ self - 1 }
    {
        Inst(self.0 - 1)
    }

    /// Returns the number, as it is stored.
    pub fn raw_u32(self) -> u32
        ensures { result ≡ self }
    {
        let Inst(raw) = self;
        raw
    }
}

impl ContainerIndex for Inst {}
