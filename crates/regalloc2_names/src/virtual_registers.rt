//! Virtual registers.

ghost use Rattle.std.specs.Prelude.{◌≡◌, ℕ, ◌/◌, ◌<◌, ◌≤◌, ◌↔◌, IsTrue};
ghost use Rattle.regalloc2_index.specs.Range.{number_limit};
ghost use Rattle.regalloc2_names.specs.RegisterBits.{IsVRegBits, bits_of_vreg, vreg_of_bits};
ghost use Rattle.regalloc2_names.specs.Register.{IsVirtualRegister, invalid_vreg};

use super::RegClass;
use super::registers::CLASSES;
use std::marker::Model;

/// A virtual register (vreg): a number below 2^30 and the class of its values.
///
/// Packed into 32 bits, the class in the lower `CLASS_BITS` and the number above.
#[derive(Clone, Copy, PartialEq, Eq, PartialOrd, Ord, Hash)]
pub struct VReg {
    bits: u32,
}

impl Model for VReg {
    ghost use Rattle.std.specs.Prelude.{ℕ};
    ghost use Rattle.std.proofs.Common.{ap};
    ghost use Rattle.regalloc2_names.specs.Register.{VirtualRegister};
    ghost use Rattle.regalloc2_names.specs.RegisterBits.{IsVRegBits, vreg_of_bits, bits_of_vreg, bits_of_vreg-vreg_of_bits};

    ghost Value = { VirtualRegister };

    ghost view = { λ v. vreg_of_bits v.bits };

    ghost invariant = { λ v. IsVRegBits v.bits };

    ghost inverse = { λ v. record { bits = bits_of_vreg v } };

    ghost inverse_ok = { λ v h. ap (λ (b : ℕ). record { bits = b }) (bits_of_vreg-vreg_of_bits v.bits h) };
}

impl VReg {
    /// The number of bits of a vreg's number.
    pub const MAX_BITS: usize = 30;

    /// The greatest number.
    pub const MAX: usize = (1 << Self::MAX_BITS) - 1;

    pub(crate) const CLASS_BITS: usize = 2;

    const CLASS_MASK: u32 = (1 << Self::CLASS_BITS) - 1;

    /// Returns the vreg of number `virt_reg`, at most `VReg::MAX`, and of `class`.
    pub const fn new(virt_reg: usize, class: RegClass) -> Self
        requires { virt_reg ≤ VReg.MAX }
        ensures { result ≡ record { number = virt_reg; class = class } }
    {
        VReg {
            bits: ((virt_reg as u32) << Self::CLASS_BITS) | (class as u8 as u32),
        }
    }

    /// Returns the number.
    pub const fn vreg(self) -> usize
        ensures number { result ≡ self.number }
        ensures small { result ≤ VReg.MAX }
    {
        (self.bits >> Self::CLASS_BITS) as usize
    }

    /// Returns the class of the values.
    pub const fn class(self) -> RegClass
        ensures { result ≡ self.class }
    {
        CLASSES[(self.bits & Self::CLASS_MASK) as usize]
    }

    /// Returns the vreg that stands for none: the greatest number, of the class `Int`.
    pub const fn invalid() -> Self
        ensures { result ≡ invalid_vreg }
    {
        VReg::new(Self::MAX, RegClass::Int)
    }

    /// Returns the encoding of the vreg, which `from_bits` decodes.
    pub const fn bits(self) -> usize
        ensures bits { result ≡ bits_of_vreg self }
        ensures word { IsVRegBits result }
        ensures vreg { vreg_of_bits result ≡ self }
        ensures small { result < number_limit }
        ensures valid { IsVirtualRegister self }
    {
        self.bits as usize
    }

    /// Returns the number in `bits`, which may have the code of no class and then encode no vreg.
    ///
    /// Upstream: none.
    pub const fn number_of_bits(bits: u32) -> u32
        ensures { result ≡ bits / 4 }
    {
        bits >> Self::CLASS_BITS
    }

    /// Returns `true` if `bits` encode a vreg.
    pub fn is_bits(bits: u32) -> bool
        ensures { IsTrue result ↔ IsVRegBits bits }
    {
        bits & Self::CLASS_MASK < CLASSES.len() as u32
    }

    /// Returns the vreg that `bits`, which `is_bits` accepts, encode.
    pub const fn from_bits(bits: u32) -> Self
        requires { IsVRegBits bits }
        ensures vreg { result ≡ vreg_of_bits bits }
        ensures back { bits_of_vreg result ≡ bits }
    {
        VReg { bits }
    }
}
