//! Hardware registers.

ghost use Rattle.std.specs.Prelude.{◌≡◌, ◌≢◌, ℕ, ◌<◌, ◌≤◌, ◌↔◌, IsTrue, MatchOption};
ghost use Rattle.regalloc2_names.specs.RegisterBits.{IsRegisterIndex, bits_of_register, register_of_bits};
ghost use Rattle.regalloc2_names.specs.Register.{IsRegister, class_code, invalid_register};

use super::RegClass;
use std::marker::Model;

/// The classes by their codes. Looking up a class by its code takes one step and no test.
///
/// Upstream: none.
pub static CLASSES: [RegClass; 3] = [RegClass::Int, RegClass::Float, RegClass::Vector];

impl RegClass {
    /// Returns the number of the class, in `0..=2`: the index in a table with one item for each class.
    pub fn code(self) -> usize
        ensures code { result ≡ class_code self }
        ensures small { result < 3 }
    {
        self as usize
    }
}

/// A hardware register: a number in `0..=63` in the register file of a class.
///
/// Packed into one byte, the class in the top two bits and the number below. The byte is also the
/// register's index among all registers.
#[derive(Clone, Copy, PartialEq, Eq, PartialOrd, Ord, Hash)]
pub struct PReg {
    bits: u8,
}

impl Model for PReg {
    ghost use Rattle.std.specs.Prelude.{ℕ};
    ghost use Rattle.std.proofs.Common.{ap};
    ghost use Rattle.regalloc2_names.specs.Register.{Register};
    ghost use Rattle.regalloc2_names.specs.RegisterBits.{IsRegisterIndex, register_of_bits, bits_of_register, bits_of_register-register_of_bits};

    ghost Value = { Register };

    ghost view = { λ r. register_of_bits r.bits };

    ghost invariant = { λ r. IsRegisterIndex r.bits };

    ghost inverse = { λ r. record { bits = bits_of_register r } };

    ghost inverse_ok = { λ r h. ap (λ (b : ℕ). record { bits = b }) (bits_of_register-register_of_bits r.bits h) };
}

impl PReg {
    /// The number of bits of a hardware number.
    pub const MAX_BITS: usize = 6;

    /// The greatest hardware number.
    pub const MAX: usize = (1 << Self::MAX_BITS) - 1;

    /// The number of indexes, including the unused ones of a fourth class.
    pub const NUM_INDEX: usize = 1 << (Self::MAX_BITS + 2);

    /// The index of the invalid register.
    pub const INVALID: u8 = (1 << Self::MAX_BITS) - 1;

    /// The first number past the indexes of registers.
    const INDEX_END: usize = 3 << Self::MAX_BITS;

    /// Returns the register of number `hw_enc`, at most `PReg::MAX`, in the register file of `class`.
    pub const fn new(hw_enc: usize, class: RegClass) -> Self
        requires { hw_enc ≤ PReg.MAX }
        ensures { result ≡ record { number = hw_enc; class = class } }
    {
        PReg {
            bits: ((class as u8) << Self::MAX_BITS) | (hw_enc as u8),
        }
    }

    /// Returns the number in the register file of the register's class.
    pub const fn hw_enc(self) -> usize
        ensures number { result ≡ self.number }
        ensures small { result ≤ PReg.MAX }
    {
        self.bits as usize & Self::MAX
    }

    /// Returns the class of the register file.
    pub const fn class(self) -> RegClass
        ensures { result ≡ self.class }
    {
        CLASSES[(self.bits >> Self::MAX_BITS) as usize]
    }

    /// Returns the index among all registers: the class `Int` first, then `Float`, then `Vector`.
    pub const fn index(self) -> usize
        ensures index { result ≡ bits_of_register self }
        ensures small { IsRegisterIndex result }
        ensures valid { IsRegister self }
    {
        self.bits as usize
    }

    /// Returns `true` if `index` is the index of a register.
    pub fn is_index(index: usize) -> bool
        ensures { IsTrue result ↔ IsRegisterIndex index }
    {
        index < Self::INDEX_END
    }

    /// Returns the register of `index`, which `is_index` accepts.
    pub const fn from_index(index: usize) -> Self
        requires { IsRegisterIndex index }
        ensures register { result ≡ register_of_bits index }
        ensures back { bits_of_register result ≡ index }
    {
        PReg { bits: index as u8 }
    }

    /// Returns the register that stands for none: number `PReg::MAX` of the class `Int`.
    pub const fn invalid() -> Self
        ensures { result ≡ invalid_register }
    {
        PReg {
            bits: Self::INVALID,
        }
    }

    /// Returns the register itself, or `None` for the invalid register.
    pub const fn as_valid(self) -> Option<PReg>
        ensures { MatchOption result (self ≡ invalid_register) (λ r. (r ≡ self) × (self ≢ invalid_register)) }
    {
        if self.bits == Self::INVALID {
            None
        } else {
            Some(self)
        }
    }
}

impl Default for PReg {
    ghost use Rattle.std.specs.Prelude.{◌≡◌};
    ghost use Rattle.regalloc2_names.specs.Register.{invalid_register};

    ghost is_default = { λ r. r ≡ invalid_register };

    fn default() -> PReg {
        PReg::invalid()
    }
}
