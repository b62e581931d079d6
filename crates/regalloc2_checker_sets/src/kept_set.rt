//! One set of the bits of vregs: two numbers, or a set of any members.

ghost use Rattle.std.specs.Prelude.{◌≡◌, ℕ, ◌<◌, true, ◌&&◌, ◌||◌, nat_eq, length, Option, Some, IfOk};
ghost use Rattle.std.specs.Bool.{OnTrue, OnFalse};
ghost use Rattle.regalloc2_checker_sets.specs.EntrySets.{has_bits, is_member, ListsBits, IsLess};

use crate::sets::Sets;
use regalloc2_function::indexset::IndexSet;
use std::alloc::{AllocError, Allocator};
use std::marker::Model;

/// How many words of 32 bits a set of two numbers takes.
const PAIR_WORDS: usize = 8;

/// How many words of 32 bits another set takes, without its members.
const SET_WORDS: usize = 64;

/// How many words of 32 bits 64 members of a set take that share a word of its bits.
const ENTRY_WORDS: usize = 6;

/// A set of bits: `first` and `second`, unless `many` holds another set.
///
/// `many` holds at most one set. A vector keeps the room of an `IndexSet` out of a set of two.
#[derive(Drop)]
pub struct Kept<A: Allocator> {
    first: u32,
    second: u32,
    many: Vec<IndexSet<A>, A>,
}

impl<A: Allocator> Model for Kept<A> {
    ghost use Rattle.std.specs.Prelude.{◌<◌};
    ghost use Rattle.regalloc2_function.specs.Numbers.{NumberSet};
    ghost use Rattle.regalloc2_checker_sets.specs.EntrySets.{set_of_kept};

    ghost Value = { NumberSet };

    ghost view = { λ k. set_of_kept k.first k.second k.many.items };

    ghost invariant = { λ k. (k.first < 4294967296) × (k.second < 4294967296) };
}

/// Returns whether `bits` are a member of `set`.
pub fn has_bits<A: Allocator + Copy>(set: &IndexSet<A>, bits: u32) -> bool
    ensures { result ≡ has_bits set.now bits }
{
    set.get(bits as usize)
}

/// Returns the members of `set`, in no guaranteed order.
pub fn listed<A: Allocator + Copy>(alloc: A, set: &IndexSet<A>) -> Result<Vec<u32, A>, AllocError>
    ensures { IfOk result (λ members. ListsBits (has_bits set.now) members.items) }
{
    let mut members = Vec::new(alloc);
    for member in set.iter() {
        let Ok(bits) = u32::try_from(member) else {
            continue;
        };
        members.push(bits)?;
    }
    Ok(members)
}

/// Returns whether each member of `set` is a member of `other`.
fn is_part<A: Allocator + Copy>(set: &IndexSet<A>, other: &IndexSet<A>) -> bool
    ensures { result ≡ true → (y : ℕ) → has_bits set.now y ≡ true → has_bits other.now y ≡ true }
{
    for member in set.iter() {
        let Ok(bits) = u32::try_from(member) else {
            continue;
        };
        if !has_bits(other, bits) {
            return false;
        }
    }
    true
}

impl<A: Allocator + Copy> Kept<A> {
    /// Returns the set of `first` and `second`.
    pub fn pair(alloc: A, first: u32, second: u32) -> Kept<A>
        ensures { (y : ℕ) → has_bits result y ≡ (nat_eq y first || nat_eq y second) }
    {
        Kept {
            first,
            second,
            many: Vec::new(alloc),
        }
    }

    /// Returns the set that has the members of `set`.
    pub fn many(alloc: A, set: IndexSet<A>) -> Result<Kept<A>, AllocError>
        ensures { IfOk result (λ k. (y : ℕ) → has_bits k y ≡ has_bits set y) }
    {
        let mut many = Vec::with_capacity(alloc, 1)?;
        many.push(set)?;
        Ok(Kept {
            first: 0,
            second: 0,
            many,
        })
    }

    /// Returns the members, if they are kept as two numbers, which may be equal.
    pub fn two(&self) -> Option<(u32, u32)>
        ensures { (p : ℕ × ℕ) → result ≡ Some p → (y : ℕ) → has_bits self.now y ≡ (nat_eq y p.0 || nat_eq y p.1) }
    {
        if self.many.is_empty() {
            return Some((self.first, self.second));
        }
        None
    }

    /// Returns whether `bits` are a member.
    pub fn has(&self, bits: u32) -> bool
        ensures { result ≡ has_bits self.now bits }
    {
        if self.many.is_empty() {
            return bits == self.first || bits == self.second;
        }
        has_bits(&self.many[0], bits)
    }

    /// Returns the members, in no guaranteed order.
    pub fn members(&self, alloc: A) -> Result<Vec<u32, A>, AllocError>
        ensures { IfOk result (λ members. ListsBits (has_bits self.now) members.items) }
    {
        if !self.many.is_empty() {
            return listed(alloc, &self.many[0]);
        }
        if self.second == self.first {
            return Vec::from_slice(alloc, &[self.first]);
        }
        Vec::from_slice(alloc, &[self.first, self.second])
    }

    /// Returns a copy that can be changed.
    pub fn copied(&self, alloc: A) -> Result<IndexSet<A>, AllocError>
        ensures { IfOk result (λ s. (y : ℕ) → has_bits s y ≡ has_bits self.now y) }
    {
        let mut copy = IndexSet::new(alloc);
        if !self.many.is_empty() {
            copy.assign(&self.many[0])?;
            return Ok(copy);
        }
        copy.set(self.first as usize, true)?;
        copy.set(self.second as usize, true)?;
        Ok(copy)
    }

    /// Returns whether `set` has exactly these members, where they are kept in a set.
    pub fn is_same(&self, set: &IndexSet<A>) -> bool
        ensures { result ≡ true → (y : ℕ) → has_bits self.now y ≡ has_bits set.now y }
    {
        if self.many.is_empty() {
            return false;
        }
        let many = &self.many[0];
        if !is_part(many, set) {
            return false;
        }
        is_part(set, many)
    }

    /// Returns how many words of 32 bits the set takes, at most.
    pub fn word_count(&self) -> usize {
        if self.many.is_empty() {
            return PAIR_WORDS;
        }
        let mut count: usize = SET_WORDS;
        let mut last = usize::MAX;
        for member in self.many[0].iter() {
            if member / 64 == last {
                continue;
            }
            last = member / 64;
            count = count.saturating_add(ENTRY_WORDS);
        }
        count
    }

    /// Returns whether the set `other` has each member.
    pub fn is_within(&self, sets: &Sets<A>, other: u32) -> bool
        requires { other < length sets.now }
        ensures yes { OnTrue result ((y : ℕ) → has_bits self.now y ≡ true → is_member sets.now other y ≡ true) }
        ensures no { OnFalse result (IsLess (has_bits self.now) (is_member sets.now other)) }
    {
        if !self.many.is_empty() {
            return sets.is_subset(&self.many[0], other);
        }
        if !sets.has(other, self.first) {
            return false;
        }
        sets.has(other, self.second)
    }

    /// Returns the members that the set `other` has too.
    pub fn common(&self, sets: &Sets<A>, alloc: A, other: u32) -> Result<IndexSet<A>, AllocError>
        requires { other < length sets.now }
        ensures { IfOk result (λ both. (y : ℕ) → has_bits both y ≡ (has_bits self.now y && is_member sets.now other y)) }
    {
        if !self.many.is_empty() {
            return sets.intersection(&self.many[0], other);
        }
        let set = self.copied(alloc)?;
        sets.intersection(&set, other)
    }
}
