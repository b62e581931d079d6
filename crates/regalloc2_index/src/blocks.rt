//! Numbers of blocks.

ghost use Rattle.std.specs.Prelude.{◌≡◌, ◌≢◌, ℕ, ◌+◌, ◌-◌, ◌<◌, ◌↔◌, IsTrue};
ghost use Rattle.regalloc2_index.specs.Range.{invalid_number, number_limit};

use super::ContainerIndex;
use std::marker::Model;

/// The number of a block.
#[derive(Clone, Copy, Debug, PartialEq, Eq, PartialOrd, Ord, Hash)]
pub struct Block(pub u32);

impl Model for Block {
    ghost use Rattle.std.specs.Prelude.{ℕ};

    ghost Value = { ℕ };

    ghost view = { λ x. x.0 };

    ghost inverse = { λ n. record { 0 = n } };
}

impl Block {
    /// Returns the block of number `i`, which is below 2^32.
    pub fn new(i: usize) -> Self
        requires { i < number_limit }
        ensures { result ≡ i }
    {
        Block(i as u32)
    }

    /// Returns the number.
    pub fn index(self) -> usize
        ensures { result ≡ self }
    {
        self.0 as usize
    }

    /// Returns the block that stands for none: the greatest number.
    pub fn invalid() -> Self
        ensures { result ≡ invalid_number }
    {
        Block(u32::MAX)
    }

    /// Returns `true` if the number is the number of `Block::invalid()`.
    pub fn is_invalid(self) -> bool
        ensures { IsTrue result ↔ (self ≡ invalid_number) }
    {
        self == Self::invalid()
    }

    /// Returns `true` if the number isn't the number of `Block::invalid()`.
    pub fn is_valid(self) -> bool
        ensures { IsTrue result ↔ (self ≢ invalid_number) }
    {
        self != Self::invalid()
    }

    /// Returns the block of the next number. This block is valid.
    pub fn next(self) -> Self
        requires { self ≢ invalid_number }
        ensures { result ≡ self + 1 }
    {
        Block(self.0 + 1)
    }

    /// Returns the block of the previous number. This block isn't the first.
    pub fn prev(self) -> Self
        requires { 0 < self }
        ensures { result ≡ self - 1 }
    {
        Block(self.0 - 1)
    }

    /// Returns the number, as it is stored.
    pub fn raw_u32(self) -> u32
        ensures { result ≡ self }
    {
        let Block(raw) = self;
        raw
    }
}

impl ContainerIndex for Block {}
