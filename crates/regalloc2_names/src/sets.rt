//! Sets of registers.

ghost use Rattle.std.specs.Prelude.{◌≢◌, ◌∷◌, ◌^◌, slice_index, List, Contains, ◌≡◌, ◌≤◌, ℕ, ◌<◌, ◌↔◌, ◌||◌, ◌&&◌, not, false, true, IsTrue, IfSome, IsNone, length, nat_lt};
ghost use Rattle.regalloc2_names.specs.Register.{IsRegister, Register, class_code, hw_limit, is_register, register_count, empty_set, has_register, word_members};
ghost use Rattle.regalloc2_names.specs.Register.{registers_of};
ghost use Rattle.regalloc2_names.specs.RegisterBits.{bits_of_register, words_have};
ghost use Rattle.std.specs.Int.{bit_at};
ghost use Rattle.regalloc2_names.specs.declared.RegClass.{RegClass};
ghost use Rattle.std.specs.Iterator.{YieldsFirst, item_count};

use super::{PReg, RegClass};
use std::alloc::{AllocError, Global};
use std::marker::Model;
use std::ops::{BitAnd, BitOr};

/// A set of the 192 registers, one word of bits for each class.
#[derive(Clone, Copy, Debug)]
pub struct PRegSet {
    bits: [u64; 3],
}

#[tactic(auto, unfolding(crate::specs::Register::has_register))]
impl PRegSet {
    /// Returns the empty set.
    pub const fn empty() -> Self
        ensures none { (r : Register) → has_register result r ≡ false }
        ensures same { result ≡ empty_set }
    {
        PRegSet { bits: [0; 3] }
    }

    /// Returns the set of the registers whose bits are 1 in `words`, one word for each class.
    ///
    /// Upstream: none.
    pub const fn from_words(words: [u64; 3]) -> Self
        ensures { (r : Register) → has_register result r ≡ words_have words r }
    {
        PRegSet { bits: words }
    }

    /// Returns the set of the registers `regs`.
    ///
    /// Upstream: none.
    pub fn from_slice(regs: &[PReg]) -> Self
        ensures { (r : Register) → (has_register result r ≡ true) ↔ Contains regs.now r }
    {
        let mut set = PRegSet::empty();
        for reg in regs {
            set.add(*reg);
        }
        set
    }

    /// Returns the index of the word of `reg`, and the index of its bit in the word.
    const fn split_index(reg: PReg) -> (usize, usize)
        ensures word { result.0 ≡ class_code reg.class }
        ensures bit { result.1 ≡ reg.number }
        ensures word_small { result.0 < 3 }
        ensures bit_small { result.1 < hw_limit }
    {
        (reg.index() >> PReg::MAX_BITS, reg.hw_enc())
    }

    /// Returns `true` if `reg` is in the set.
    pub fn contains(&self, reg: PReg) -> bool
        ensures member { result ≡ has_register self.now reg }
        ensures in_range { reg.number ≤ PReg.MAX }
    {
        let (index, bit) = Self::split_index(reg);
        self.bits[index] & (1 << bit) != 0
    }

    /// Adds `reg` to the set.
    pub const fn add(&mut self, reg: PReg)
        ensures members { (r : Register) → has_register self.new r ≡ is_register reg r || has_register self.old r }
        ensures in_range { reg.number ≤ PReg.MAX }
    {
        let (index, bit) = Self::split_index(reg);
        self.bits[index] |= 1 << bit;
    }

    /// Returns the set with `reg` added.
    pub const fn with(self, reg: PReg) -> Self
        ensures members { (r : Register) → has_register result r ≡ is_register reg r || has_register self r }
        ensures in_range { reg.number ≤ PReg.MAX }
    {
        let mut out = self;
        out.add(reg);
        out
    }

    /// Removes `reg` from the set.
    pub fn remove(&mut self, reg: PReg)
        ensures members { (r : Register) → has_register self.new r ≡ not (is_register reg r) && has_register self.old r }
        ensures in_range { reg.number ≤ PReg.MAX }
    {
        let (index, bit) = Self::split_index(reg);
        self.bits[index] &= !(1 << bit);
    }

    /// Adds the registers of `other` to the set.
    pub fn union_from(&mut self, other: PRegSet)
        ensures { (r : Register) → has_register self.new r ≡ has_register self.old r || has_register other r }
    {
        let [a, b, c] = self.bits;
        let [d, e, f] = other.bits;
        self.bits = [a | d, b | e, c | f];
    }

    /// Removes the registers that aren't in `other`.
    pub fn intersect_from(&mut self, other: PRegSet)
        ensures { (r : Register) → has_register self.new r ≡ has_register self.old r && has_register other r }
    {
        let [a, b, c] = self.bits;
        let [d, e, f] = other.bits;
        self.bits = [a & d, b & e, c & f];
    }

    /// Returns the registers that aren't in the set.
    pub fn invert(&self) -> PRegSet
        ensures { (r : Register) → IsRegister r → has_register result r ≡ not (has_register self.now r) }
    {
        let [a, b, c] = self.bits;
        PRegSet { bits: [!a, !b, !c] }
    }

    /// Returns the registers of the set that aren't in `other`.
    ///
    /// Upstream: none.
    #[inline(always)]
    pub fn difference(self, other: PRegSet) -> PRegSet
        ensures { (r : Register) → has_register result r ≡ not (has_register other r) && has_register self r }
    {
        let [a, b, c] = self.bits;
        let [d, e, f] = other.bits;
        PRegSet {
            bits: [a & !d, b & !e, c & !f],
        }
    }

    /// Returns `true` if the set has no register of `regclass`.
    pub fn is_empty(&self, regclass: RegClass) -> bool
        ensures { IsTrue result ↔ ((r : Register) → r.class ≡ regclass → has_register self.now r ≡ false) }
    {
        self.bits[regclass.code()] == 0
    }

    /// Returns the number of registers in the set.
    pub fn len(&self) -> u32
        ensures len { result ≡ length (registers_of self.now) }
        ensures small { result ≤ register_count }
    {
        let [a, b, c] = self.bits;
        a.count_ones() + b.count_ones() + c.count_ones()
    }

    /// Returns the register of the greatest index in the set, or `None` if the set is empty.
    pub fn max_preg(&self) -> Option<PReg>
        ensures none { IsNone result ↔ ((r : Register) → has_register self.now r ≡ false) }
        ensures member { IfSome result (λ m. has_register self.now m ≡ true) }
        ensures greatest { IfSome result (λ m. (r : Register) → has_register self.now r ≡ true → bits_of_register r ≤ bits_of_register m) }
    {
        let [int, float, vector] = self.bits;
        if vector != 0 {
            Some(PReg::new(highest_bit(vector), RegClass::Vector))
        } else if float != 0 {
            Some(PReg::new(highest_bit(float), RegClass::Float))
        } else if int != 0 {
            Some(PReg::new(highest_bit(int), RegClass::Int))
        } else {
            None
        }
    }

    /// Adds every register of a lower index than `reg` to the set.
    pub fn add_up_to(&mut self, reg: PReg)
        ensures { (r : Register) → IsRegister r → has_register self.new r ≡ nat_lt (bits_of_register r) (bits_of_register reg) || has_register self.old r }
    {
        let low = (1 << reg.hw_enc()) - 1;
        let [int, float, vector] = self.bits;
        self.bits = match reg.class() {
            RegClass::Int => [int | low, float, vector],
            RegClass::Float => [u64::MAX, float | low, vector],
            RegClass::Vector => [u64::MAX, u64::MAX, vector | low],
        };
    }
}

/// Returns the index of the highest bit set in `word`, which isn't 0.
fn highest_bit(word: u64) -> usize
    requires { word ≢ 0 }
    ensures small { result < hw_limit }
    ensures set { bit_at word result ≡ 1 }
    ensures highest { (n : ℕ) → result < n → bit_at word n ≡ 0 }
{
    (u64::BITS - 1 - word.leading_zeros()) as usize
}

impl PartialEq for PRegSet {
    ghost use Rattle.std.specs.Prelude.{◌≡◌, ◌↔◌, IsTrue};
    ghost use Rattle.regalloc2_names.specs.Register.{Register, has_register};
    ghost use Rattle.regalloc2_names.specs.SameSet.{is_same_set, is_same_set-per};

    ghost eq = { is_same_set };

    ghost laws = { is_same_set-per };

    /// Returns `true` if each register is in both sets or in neither.
    fn eq(&self, other: &PRegSet) -> bool
        ensures listed { result ≡ is_same_set self.now other.now }
        ensures members { IsTrue result ↔ ((r : Register) → has_register self.now r ≡ has_register other.now r) }
    {
        let [a, b, c] = self.bits;
        let [d, e, f] = other.bits;
        a == d && b == e && c == f
    }
}

impl Eq for PRegSet {
    ghost use Rattle.regalloc2_names.specs.SameSet.{is_same_set-equiv};

    ghost laws = { is_same_set-equiv };
}

impl Default for PRegSet {
    ghost use Rattle.std.specs.Prelude.{◌≡◌, false};
    ghost use Rattle.regalloc2_names.specs.Register.{Register, has_register};

    ghost is_default = { λ s. (r : Register) → has_register s r ≡ false };

    fn default() -> PRegSet {
        Self::empty()
    }
}

impl BitAnd<PRegSet> for PRegSet {
    type Output = PRegSet;

    ghost use Rattle.std.specs.Prelude.{◌≡◌, ◌&&◌};
    ghost use Rattle.regalloc2_names.specs.Register.{Register, has_register};

    ghost bitand_gives = { λ a b s. (r : Register) → has_register s r ≡ has_register a r && has_register b r };

    fn bitand(self, rhs: PRegSet) -> PRegSet {
        let mut out = self;
        out.intersect_from(rhs);
        out
    }
}

impl BitOr<PRegSet> for PRegSet {
    type Output = PRegSet;

    ghost use Rattle.std.specs.Prelude.{◌≡◌, ◌||◌};
    ghost use Rattle.regalloc2_names.specs.Register.{Register, has_register};

    ghost bitor_gives = { λ a b s. (r : Register) → has_register s r ≡ has_register a r || has_register b r };

    fn bitor(self, rhs: PRegSet) -> PRegSet {
        let mut out = self;
        out.union_from(rhs);
        out
    }
}

/// The remaining registers of a set, by rising index.
#[derive(Debug, Drop)]
pub struct PRegSetIter {
    int: u64,
    float: u64,
    vector: u64,
}

impl Model for PRegSetIter {
    ghost use Rattle.std.specs.Prelude.{List};
    ghost use Rattle.regalloc2_names.specs.Register.{Register};

    ghost Value = { List Register };

    ghost use Rattle.regalloc2_names.specs.Register.{registers_of_words};

    ghost view = { λ it. registers_of_words it.int it.float it.vector };
}

/// Clears the lowest bit set in `word`, which isn't 0, and returns the bit's index.
fn take_lowest(word: &mut u64) -> usize
    requires { word.old ≢ 0 }
    ensures taken { (class : RegClass) → word_members class 0 hw_limit word.old ≡
        record { number = result; class = class } ∷ word_members class 0 hw_limit word.new }
    ensures small { result < hw_limit }
{
    let bit = word.trailing_zeros();
    *word &= !(1 << bit);
    bit as usize
}

impl Iterator for PRegSetIter {
    type Item = PReg;

    ghost next_gives = { YieldsFirst (λ rest. rest) };

    ghost remaining = { item_count (λ rest. rest) };

    fn next(&mut self) -> Option<PReg> {
        if self.int != 0 {
            return Some(PReg::new(take_lowest(&mut self.int), RegClass::Int));
        }
        if self.float != 0 {
            return Some(PReg::new(take_lowest(&mut self.float), RegClass::Float));
        }
        if self.vector != 0 {
            return Some(PReg::new(take_lowest(&mut self.vector), RegClass::Vector));
        }
        None
    }
}

impl IntoIterator for PRegSet {
    type Item = PReg;

    type IntoIter = PRegSetIter;

    ghost use Rattle.regalloc2_names.specs.Listed.{IsWalkOf};

    ghost into_iter_gives = { λ s it. IsWalkOf s it };

    fn into_iter(self) -> PRegSetIter {
        let [int, float, vector] = self.bits;
        PRegSetIter { int, float, vector }
    }
}

impl<'a> IntoIterator for &'a PRegSet {
    type Item = PReg;

    type IntoIter = PRegSetIter;

    ghost use Rattle.regalloc2_names.specs.Listed.{IsWalkOf};

    ghost into_iter_gives = { λ s it. IsWalkOf s.now it };

    fn into_iter(self) -> PRegSetIter {
        (*self).into_iter()
    }
}

impl FromIterator<PReg> for PRegSet {
    type Alloc = Global;

    ghost use Rattle.std.specs.Prelude.{◌≡◌, ◌↔◌, true, Contains};
    ghost use Rattle.regalloc2_names.specs.Register.{Register, has_register};

    ghost from_iter_gives = { λ xs s. (r : Register) → (has_register s r ≡ true) ↔ Contains xs r };

    fn from_iter<U: IntoIterator<Item = PReg>>(
        _alloc: Global,
        iter: U,
    ) -> Result<PRegSet, AllocError> {
        let mut set = PRegSet::empty();
        for reg in iter {
            set.add(reg);
        }
        Ok(set)
    }
}
