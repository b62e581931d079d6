//! Places: spill slots, and the places of operands.

ghost use Rattle.std.specs.Prelude.{None, Some, false, ◌≡◌, ℕ, ◌+◌, ◌%◌, ◌<◌, ◌≤◌, ◌↔◌, IsTrue};
ghost use Rattle.regalloc2_names.specs.PlaceBits.{IsPlaceBits, bits_of_place, index_of_place, place_of_bits};
ghost use Rattle.regalloc2_names.specs.Place.{NoPlace, InRegister, InSlot, invalid_slot, is_in_register, is_in_slot, is_on_stack, is_no_place};
ghost use Rattle.regalloc2_names.specs.Place.{kind_of_place, register_of_place, slot_limit, slot_of_place};

use super::{AllocationKind, PReg, PRegSet};
use std::marker::Model;

/// A spill slot, which a contract sees as its number: at most `SpillSlot::MAX`, or that of the
/// invalid slot.
#[derive(Clone, Copy, Debug, PartialEq, Eq, PartialOrd, Ord, Hash)]
pub struct SpillSlot {
    bits: u32,
}

impl Model for SpillSlot {
    ghost use Rattle.std.specs.Prelude.{ℕ};
    ghost use Rattle.regalloc2_names.specs.Place.{IsSlotNumber};

    ghost Value = { ℕ };

    ghost view = { λ s. s.bits };

    ghost invariant = { λ s. IsSlotNumber s.bits };

    ghost inverse = { λ n. record { bits = n } };
}

impl SpillSlot {
    /// The greatest number of a slot.
    pub const MAX: usize = (1 << Self::MAX_BITS) - 1;

    const MAX_BITS: usize = 24;

    const INDEX_MASK: u32 = (1 << Self::MAX_BITS) - 1;

    /// Returns the slot of number `slot`, at most `SpillSlot::MAX`.
    pub fn new(slot: usize) -> Self
        requires { slot ≤ SpillSlot.MAX }
        ensures { result ≡ slot }
    {
        SpillSlot { bits: slot as u32 }
    }

    /// Returns the number of the slot, the lower `MAX_BITS` of its bits: `SpillSlot::MAX` for the
    /// invalid slot.
    pub fn index(self) -> usize
        ensures low { result ≡ self % slot_limit }
        ensures number { self ≤ SpillSlot.MAX → result ≡ self }
        ensures small { result ≤ SpillSlot.MAX }
    {
        (self.bits & Self::INDEX_MASK) as usize
    }

    /// Returns the slot whose number is greater by `offset`.
    pub fn plus(self, offset: usize) -> Self
        requires { self + offset ≤ SpillSlot.MAX }
        ensures { result ≡ self + offset }
    {
        SpillSlot::new(self.index() + offset)
    }

    /// Returns the slot that stands for none.
    pub fn invalid() -> Self
        ensures { result ≡ invalid_slot }
    {
        SpillSlot { bits: u32::MAX }
    }

    /// Returns `true` if the slot stands for none.
    pub fn is_invalid(self) -> bool
        ensures { IsTrue result ↔ (self ≡ invalid_slot) }
    {
        self == Self::invalid()
    }

    /// Returns `true` if the slot has a number.
    pub fn is_valid(self) -> bool
        ensures { IsTrue result ↔ (self ≤ SpillSlot.MAX) }
    {
        !self.is_invalid()
    }
}

/// A place: none, a register or a spill slot.
///
/// Packed into 32 bits: the register's or the slot's index in the lower `INDEX_BITS`, the form from
/// `KIND_SHIFT` on. The bit between them is 0.
#[derive(Clone, Copy, PartialOrd, Ord, Hash)]
pub struct Allocation {
    bits: u32,
}

impl Model for Allocation {
    ghost use Rattle.std.specs.Prelude.{ℕ};
    ghost use Rattle.std.proofs.Common.{ap};
    ghost use Rattle.regalloc2_names.specs.Place.{Place};
    ghost use Rattle.regalloc2_names.specs.PlaceBits.{place_of_bits, bits_of_place, IsPlaceBits, bits_of_place-place_of_bits};

    ghost Value = { Place };

    ghost view = { λ a. place_of_bits a.bits };

    ghost invariant = { λ a. IsPlaceBits a.bits };

    ghost inverse = { λ p. record { bits = bits_of_place p } };

    ghost inverse_ok = { λ a h. ap (λ (b : ℕ). record { bits = b }) (bits_of_place-place_of_bits a.bits h) };
}

#[tactic(auto, unfolding(crate::specs::PlaceBits::place_of_bits))]
impl Allocation {
    const INDEX_BITS: usize = 28;

    const INDEX_MASK: u32 = (1 << Self::INDEX_BITS) - 1;

    const KIND_SHIFT: usize = 29;

    const BELOW_KIND: u32 = (1 << Self::KIND_SHIFT) - 1;

    const NONE: u32 = 0;

    const REG: u32 = 1;

    const STACK: u32 = 2;

    /// Returns no place.
    pub fn none() -> Self
        ensures { result ≡ NoPlace }
    {
        Allocation { bits: 0 }
    }

    /// Returns the place `preg`.
    pub fn reg(preg: PReg) -> Self
        ensures { result ≡ InRegister preg }
    {
        Allocation {
            bits: (Self::REG << Self::KIND_SHIFT) | preg.index() as u32,
        }
    }

    /// Returns the place `slot`, which is valid.
    pub fn stack(slot: SpillSlot) -> Self
        requires { slot ≤ SpillSlot.MAX }
        ensures { result ≡ InSlot slot }
    {
        Allocation {
            bits: (Self::STACK << Self::KIND_SHIFT) | slot.bits,
        }
    }

    /// Returns the form of the place.
    pub fn kind(self) -> AllocationKind
        ensures { result ≡ kind_of_place self }
    {
        match self.bits >> Self::KIND_SHIFT {
            Self::NONE => AllocationKind::None,
            Self::REG => AllocationKind::Reg,
            _ => AllocationKind::Stack,
        }
    }

    /// Returns `true` if there is no place.
    pub fn is_none(self) -> bool
        ensures { result ≡ is_no_place self }
    {
        self.kind() == AllocationKind::None
    }

    /// Returns `true` if there is a place.
    pub fn is_some(self) -> bool
        ensures { IsTrue result ↔ (is_no_place self ≡ false) }
    {
        self.kind() != AllocationKind::None
    }

    /// Returns `true` if the place is a register.
    pub fn is_reg(self) -> bool
        ensures { result ≡ is_in_register self }
    {
        self.kind() == AllocationKind::Reg
    }

    /// Returns `true` if the place is a spill slot.
    pub fn is_stack(self) -> bool
        ensures { result ≡ is_in_slot self }
    {
        self.kind() == AllocationKind::Stack
    }

    /// Returns `true` if the place is on the stack: a spill slot, or a register of `fixed_stack`, which names a
    /// fixed stack slot.
    pub fn is_on_stack(self, fixed_stack: PRegSet) -> bool
        ensures { result ≡ is_on_stack fixed_stack self }
    {
        match self.as_reg() {
            Some(preg) => fixed_stack.contains(preg),
            None => self.is_some(),
        }
    }

    /// Returns the index of the register or the number of the slot; 0 if there is no place.
    pub fn index(self) -> usize
        ensures { result ≡ index_of_place self }
    {
        (self.bits & Self::INDEX_MASK) as usize
    }

    /// Returns the register, if the place is a register.
    pub fn as_reg(self) -> Option<PReg>
        ensures { result ≡ register_of_place self }
    {
        if self.bits >> Self::KIND_SHIFT == Self::REG {
            Some(PReg::from_index(self.index()))
        } else {
            None
        }
    }

    /// Returns the spill slot, if the place is a slot.
    pub fn as_stack(self) -> Option<SpillSlot>
        ensures { result ≡ slot_of_place self }
    {
        if self.bits >> Self::KIND_SHIFT == Self::STACK {
            Some(SpillSlot {
                bits: self.bits & Self::INDEX_MASK,
            })
        } else {
            None
        }
    }

    /// Returns the place's encoding, which `from_bits` decodes.
    pub fn bits(self) -> u32
        ensures bits { result ≡ bits_of_place self }
        ensures word { IsPlaceBits result }
        ensures place { place_of_bits result ≡ self }
    {
        self.bits
    }

    /// Returns `true` if `bits` encode a place.
    pub fn is_bits(bits: u32) -> bool
        ensures { IsTrue result ↔ IsPlaceBits bits }
    {
        let index = (bits & Self::BELOW_KIND) as usize;
        match bits >> Self::KIND_SHIFT {
            Self::NONE => index == 0,
            Self::REG => PReg::is_index(index),
            Self::STACK => index <= SpillSlot::MAX,
            _ => false,
        }
    }

    /// Returns the place that `bits`, which `is_bits` accepts, encode.
    pub fn from_bits(bits: u32) -> Self
        requires { IsPlaceBits bits }
        ensures place { result ≡ place_of_bits bits }
        ensures back { bits_of_place result ≡ bits }
    {
        Allocation { bits }
    }
}

impl PartialEq for Allocation {
    ghost use Rattle.std.specs.Prelude.{◌≡◌, ◌↔◌, ◌==◌, IsTrue};
    ghost use Rattle.std.proofs.Common.{rules};
    ghost use Rattle.std.specs.Cmp.Rules.{comparing};
    ghost use Rattle.regalloc2_names.specs.Place.{is_place};
    ghost use Rattle.regalloc2_names.specs.PlaceBits.{bits_of_place};

    ghost eq = { λ a b. bits_of_place a == bits_of_place b };

    ghost laws = { Prim.search (comparing, rules) };

    /// Returns `true` if the place is `other`.
    fn eq(&self, other: &Allocation) -> bool
        ensures bits { result ≡ (bits_of_place self.now == bits_of_place other.now) }
        ensures test { result ≡ is_place self.now other.now }
        ensures same { IsTrue result ↔ (self.now ≡ other.now) }
    {
        self.bits == other.bits
    }
}

impl Eq for Allocation {
    ghost use Rattle.std.proofs.Common.{rules};
    ghost use Rattle.std.specs.Cmp.Rules.{comparing};

    ghost laws = { Prim.search (comparing, rules) };
}

/// No place, which fills the unused entries of short lists of places.
impl Default for Allocation {
    ghost use Rattle.std.specs.Prelude.{◌≡◌};
    ghost use Rattle.regalloc2_names.specs.Place.{NoPlace};

    ghost is_default = { λ a. a ≡ NoPlace };

    fn default() -> Allocation {
        Allocation::none()
    }
}
