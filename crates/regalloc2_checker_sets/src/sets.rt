//! Sets of the bits of vregs, which are never changed once they are made.

ghost use Rattle.std.specs.Prelude.{◌≡◌, ℕ, ◌<◌, ◌≤◌, ◌+◌, true, false, ◌&&◌, ◌||◌, nat_eq, if◌then◌else◌, length, get_or, IfOk, OnErr};
ghost use Rattle.std.specs.Prelude.{min};
ghost use Rattle.std.specs.Bool.{OnTrue, OnFalse};
ghost use Rattle.regalloc2_checker_sets.specs.EntrySets.{has_bits, is_member, AreMore, IsSetOf, ListsBits, IsLess, IsChangeOf, IsMeetOf, taken_from};
ghost use Rattle.regalloc2_checker_sets.specs.Renumbering.{AreMovedDown, AreMarkedKept};

use crate::kept_set::Kept;
use crate::notes::Memo;
use regalloc2_function::indexset::IndexSet;
use std::alloc::{AllocError, Allocator};
use std::marker::Model;

/// The number of the first set that is kept. A lower number stands for the empty set, or for a set of one member, which
/// is one less than the number.
pub const FIRST: u32 = 1 << 31;

/// Sets of bits, by number. The first set is the empty one.
///
/// Most sets have one member alone, and are kept nowhere, since the number says the member. The set that was last made of
/// another set and one member more is noted, since many places may get that member one after another. A loop that passes
/// its parameters on in another order makes many sets of two members, which `Kept` has as two numbers.
#[derive(Drop)]
pub struct Sets<A: Allocator> {
    kept: Vec<Kept<A>, A>,
    /// Allocated when the first set is noted. Most small functions note none.
    memo: Option<Box<Memo<A>, A>>,
    words: usize,
    alloc: A,
}

impl<A: Allocator> Model for Sets<A> {
    ghost use Rattle.std.specs.Prelude.{List, IfSome};
    ghost use Rattle.regalloc2_function.specs.Numbers.{NumberSet};
    ghost use Rattle.regalloc2_checker_sets.specs.EntrySets.{all_sets, AreNotes};

    ghost Value = { List NumberSet };

    ghost view = { λ s. all_sets s.kept.items };

    ghost invariant = { λ s. IfSome s.memo (λ m. AreNotes (all_sets s.kept.items) m.value.grown m.value.shrunk m.value.met) };
}

/// Returns a member of `set`, if it has one.
fn member_of<A: Allocator + Copy>(set: &IndexSet<A>) -> Option<u32>
    ensures none { result ≡ None → (y : ℕ) → has_bits set.now y ≡ false }
    ensures some { (b : ℕ) → result ≡ Some b → has_bits set.now b ≡ true }
{
    for member in set.iter() {
        if let Ok(bits) = u32::try_from(member) {
            return Some(bits);
        }
    }
    None
}

/// Returns whether `set` has no member but `only`.
fn has_no_other<A: Allocator + Copy>(set: &IndexSet<A>, only: u32) -> bool
    ensures { result ≡ true → (y : ℕ) → has_bits set.now y ≡ true → y ≡ only }
{
    for member in set.iter() {
        let Ok(bits) = u32::try_from(member) else {
            continue;
        };
        if bits != only {
            return false;
        }
    }
    true
}

/// Returns a hash of `number`.
fn spread(number: usize) -> usize {
    let mixed = number.wrapping_mul(0x9e37_79b9_7f4a_7c15);
    mixed ^ (mixed >> 29)
}

/// Returns a hash of the members of `set`.
fn hash_of<A: Allocator + Copy>(set: &IndexSet<A>) -> usize {
    let mut sum: usize = 0;
    for member in set.iter() {
        sum = sum.wrapping_add(spread(member));
    }
    spread(sum) >> 20
}

/// Returns how many words `kept` takes.
fn words_of<A: Allocator + Copy>(kept: &Vec<Kept<A>, A>) -> usize {
    let mut count: usize = 0;
    for set in kept {
        count = count.saturating_add(set.word_count());
    }
    count
}

/// Returns whether the kept set at `index` stays: it has a mark, or is past the marks.
fn stays(marks: &[bool], index: usize) -> bool
    ensures { result ≡ get_or marks.now index true }
{
    if index < marks.len() {
        return marks[index];
    }
    true
}

/// Drops the kept sets without a mark, and moves the others down. `numbers` gets their new numbers.
fn move_down<A: Allocator>(kept: &mut Vec<Kept<A>, A>, marks: &[bool], numbers: &mut [u32])
    requires long { length numbers.old ≡ length kept.old.items }
    requires few { length kept.old.items ≤ 2147483648 }
    ensures long { length numbers.new ≡ length numbers.old }
    ensures moved { AreMovedDown marks.now kept.old.items kept.new.items numbers.new (length kept.old.items) (length kept.new.items) }
{
    let mut next = 0;
    for i in 0..numbers.len() {
        if !stays(marks, i) {
            numbers[i] = 0;
            continue;
        }
        kept.swap(next, i);
        numbers[i] = FIRST + next as u32;
        next += 1;
    }
    kept.truncate(next);
}

impl<A: Allocator + Copy> Sets<A> {
    /// Returns the sets that are kept nowhere: the empty set, and the sets of one member.
    pub fn new(alloc: A) -> Sets<A>
        ensures { IsSetOf result 0 (λ y. false) }
    {
        Sets {
            kept: Vec::new(alloc),
            memo: None,
            words: 0,
            alloc,
        }
    }

    /// Returns the one member of `set`, if it is known to have one alone.
    pub fn only(&self, set: u32) -> Option<u32>
        requires { set < length self.now }
        ensures { (b : ℕ) → result ≡ Some b → IsSetOf self.now set (λ y. nat_eq y b) }
    {
        // Reading a field shows the check the invariant of `self`, here and in the functions below. It does nothing at run time.
        let _ = &self.kept;
        if set >= FIRST {
            return None;
        }
        if set == 0 {
            return None;
        }
        Some(set - 1)
    }

    /// Returns the kept set of the number `set`.
    fn kept(&self, set: u32) -> &Kept<A>
        requires kept { 2147483648 ≤ set }
        requires set { set < length self.now }
        ensures { (y : ℕ) → has_bits result.now y ≡ is_member self.now set y }
    {
        &self.kept[(set - FIRST) as usize]
    }

    /// Returns whether `bits` are a member of `set`.
    pub fn has(&self, set: u32, bits: u32) -> bool
        requires { set < length self.now }
        ensures { result ≡ is_member self.now set bits }
    {
        let _ = &self.kept;
        if set >= FIRST {
            return self.kept(set).has(bits);
        }
        if set == 0 {
            return false;
        }
        bits == set - 1
    }

    /// Returns the members of `set`, in no guaranteed order.
    pub fn members(&self, set: u32) -> Result<Vec<u32, A>, AllocError>
        requires { set < length self.now }
        ensures { IfOk result (λ members. ListsBits (is_member self.now set) members.items) }
    {
        if set >= FIRST {
            return self.kept(set).members(self.alloc);
        }
        if set == 0 {
            return Ok(Vec::new(self.alloc));
        }
        Vec::from_slice(self.alloc, &[set - 1])
    }

    /// Keeps `set`, and returns its number.
    #[inline(always)]
    fn keep(&mut self, set: Kept<A>) -> Result<u32, AllocError>
        ensures more { AreMore self.old self.new }
        ensures found { IfOk result (λ n. IsSetOf self.new n (has_bits set)) }
    {
        let Ok(index) = u32::try_from(self.kept.len()) else {
            return Err(AllocError);
        };
        if index >= FIRST {
            return Err(AllocError);
        }
        self.words = self.words.saturating_add(set.word_count());
        self.kept.push(set)?;
        Ok(FIRST + index)
    }

    /// Makes the memo, if there is none yet.
    #[inline(always)]
    fn make_memo(&mut self) -> Result<(), AllocError>
        ensures { self.new ≡ self.old }
    {
        if self.memo.is_none() {
            self.memo = Some(Box::new(self.alloc, Memo::new(self.alloc))?);
        }
        Ok(())
    }

    /// Returns the number of the kept set that was last known by `hash`.
    fn known_at(&self, hash: usize) -> Option<u32>
        ensures { (n : ℕ) → result ≡ Some n → (2147483648 ≤ n) × (n < length self.now) }
    {
        let Some(memo) = &self.memo else {
            return None;
        };
        let number = memo.known.get(hash)?;
        if number < FIRST {
            return None;
        }
        if (number - FIRST) as usize >= self.kept.len() {
            return None;
        }
        Some(number)
    }

    /// Makes `number` known by `hash`.
    fn know(&mut self, hash: usize, number: u32) -> Result<(), AllocError>
        ensures { self.new ≡ self.old }
    {
        self.make_memo()?;
        let Some(memo) = &mut self.memo else {
            return Ok(());
        };
        memo.known.put(self.alloc, hash, number, self.kept.len())
    }

    /// Keeps `set`, makes it known by `hash`, and returns its number.
    fn keep_known(&mut self, set: Kept<A>, hash: usize) -> Result<u32, AllocError>
        ensures more { AreMore self.old self.new }
        ensures found { IfOk result (λ n. IsSetOf self.new n (has_bits set)) }
    {
        let number = self.keep(set)?;
        self.know(hash, number)?;
        Ok(number)
    }

    /// Returns the number of a kept set with the members of `set`, if it is known by `hash`.
    fn find_set(&self, set: &IndexSet<A>, hash: usize) -> Option<u32>
        ensures { (n : ℕ) → result ≡ Some n → IsSetOf self.now n (has_bits set.now) }
    {
        let Some(number) = self.known_at(hash) else {
            return None;
        };
        if self.kept(number).is_same(set) {
            return Some(number);
        }
        None
    }

    /// Returns the number of `set`, which is added unless a kept set with its members is known.
    fn add(&mut self, set: IndexSet<A>) -> Result<u32, AllocError>
        ensures more { AreMore self.old self.new }
        ensures found { IfOk result (λ n. IsSetOf self.new n (has_bits set)) }
    {
        let hash = hash_of(&set);
        if let Some(number) = self.find_set(&set, hash) {
            return Ok(number);
        }
        let kept = Kept::many(self.alloc, set)?;
        self.keep_known(kept, hash)
    }

    /// Adds the set of `first` and `second`, and returns its number.
    fn add_pair(&mut self, first: u32, second: u32) -> Result<u32, AllocError>
        ensures more { AreMore self.old self.new }
        ensures found { IfOk result (λ n. IsSetOf self.new n (λ y. nat_eq y first || nat_eq y second)) }
    {
        let kept = Kept::pair(self.alloc, first, second);
        self.keep(kept)
    }

    /// Adds the set of `bits` alone, for which no number below `FIRST` stands.
    #[inline(never)]
    fn new_single(&mut self, bits: u32) -> Result<u32, AllocError>
        ensures more { AreMore self.old self.new }
        ensures found { IfOk result (λ n. IsSetOf self.new n (λ y. nat_eq y bits)) }
    {
        let mut set = IndexSet::new(self.alloc);
        set.set(bits as usize, true)?;
        self.add(set)
    }

    /// Returns the number of the set of `bits` alone.
    pub fn single(&mut self, bits: u32) -> Result<u32, AllocError>
        ensures more { AreMore self.old self.new }
        ensures found { IfOk result (λ n. IsSetOf self.new n (λ y. nat_eq y bits)) }
    {
        let _ = &self.kept;
        if bits < FIRST - 1 {
            return Ok(bits + 1);
        }
        self.new_single(bits)
    }

    /// Returns the number of `set`: of the empty set, of a set of one member, or of a kept set, which is added unless it
    /// is known.
    fn settle(&mut self, set: IndexSet<A>) -> Result<u32, AllocError>
        ensures more { AreMore self.old self.new }
        ensures found { IfOk result (λ n. IsSetOf self.new n (has_bits set)) }
    {
        let _ = &self.kept;
        let Some(member) = member_of(&set) else {
            return Ok(0);
        };
        if has_no_other(&set, member) {
            return self.single(member);
        }
        self.add(set)
    }

    /// Returns a copy of `set`.
    #[inline(always)]
    fn copied(&self, set: u32) -> Result<IndexSet<A>, AllocError>
        requires { set < length self.now }
        ensures { IfOk result (λ s. (y : ℕ) → has_bits s y ≡ is_member self.now set y) }
    {
        if set >= FIRST {
            return self.kept(set).copied(self.alloc);
        }
        let mut copy = IndexSet::new(self.alloc);
        if set == 0 {
            return Ok(copy);
        }
        copy.set((set - 1) as usize, true)?;
        Ok(copy)
    }

    /// Returns a copy of `set` in which `bits` is a member if `is_in`, and none otherwise.
    #[inline(always)]
    fn changed(&self, set: u32, bits: u32, is_in: bool) -> Result<IndexSet<A>, AllocError>
        requires { set < length self.now }
        ensures { IfOk result (λ s. (y : ℕ) → has_bits s y ≡ (if nat_eq y bits then is_in else is_member self.now set y)) }
    {
        let mut copy = self.copied(set)?;
        copy.set(bits as usize, is_in)?;
        Ok(copy)
    }

    /// Adds the set of the members of `set`, and of `bits`.
    fn added(&mut self, set: u32, bits: u32) -> Result<u32, AllocError>
        requires { set < length self.old }
        ensures more { AreMore self.old self.new }
        ensures found { IfOk result (λ n. IsSetOf self.new n (λ y. if nat_eq y bits then true else is_member self.old set y)) }
    {
        if let Some(only) = self.only(set) {
            return self.add_pair(bits, only);
        }
        let more = self.changed(set, bits, true)?;
        self.add(more)
    }

    /// Returns the number of `set` with `bits` put in, if it is noted.
    fn find_grown(&self, set: u32, bits: u32) -> Option<u32>
        ensures { (n : ℕ) → result ≡ Some n → IsChangeOf true self.now set bits n }
    {
        let Some(memo) = &self.memo else {
            return None;
        };
        memo.grown.find(set, bits)
    }

    /// Notes that `number` is `set` with `bits` put in.
    fn note_grown(&mut self, set: u32, bits: u32, number: u32) -> Result<(), AllocError>
        requires { IsChangeOf true self.old set bits number }
        ensures { self.new ≡ self.old }
    {
        self.make_memo()?;
        let Some(memo) = &mut self.memo else {
            return Ok(());
        };
        memo.grown.note(self.alloc, set, bits, number)
    }

    /// Adds the set of the members of `set`, and of `bits`, and notes it.
    #[inline(never)]
    fn new_grown(&mut self, set: u32, bits: u32) -> Result<u32, AllocError>
        requires { set < length self.old }
        ensures more { AreMore self.old self.new }
        ensures found { IfOk result (λ n. IsSetOf self.new n (λ y. if nat_eq y bits then true else is_member self.old set y)) }
    {
        let number = self.added(set, bits)?;
        self.note_grown(set, bits, number)?;
        Ok(number)
    }

    /// Returns the number of the set of the members of `set`, and of `bits`.
    pub fn with(&mut self, set: u32, bits: u32) -> Result<u32, AllocError>
        requires { set < length self.old }
        ensures more { AreMore self.old self.new }
        ensures found { IfOk result (λ n. IsSetOf self.new n (λ y. if nat_eq y bits then true else is_member self.old set y)) }
    {
        let _ = &self.kept;
        if self.has(set, bits) {
            return Ok(set);
        }
        if set == 0 {
            return self.single(bits);
        }
        if let Some(number) = self.find_grown(set, bits) {
            return Ok(number);
        }
        self.new_grown(set, bits)
    }

    /// Returns the members of `set`, if it is kept as two numbers.
    pub fn two(&self, set: u32) -> Option<(u32, u32)>
        requires { set < length self.now }
        ensures { (p : ℕ × ℕ) → result ≡ Some p → (y : ℕ) → is_member self.now set y ≡ (nat_eq y p.0 || nat_eq y p.1) }
    {
        if set < FIRST {
            return None;
        }
        self.kept(set).two()
    }

    /// Returns the number of the set of `first` and `second` without `bits`.
    fn other_single(&mut self, first: u32, second: u32, bits: u32) -> Result<u32, AllocError>
        ensures more { AreMore self.old self.new }
        ensures found { IfOk result (λ n. IsSetOf self.new n (λ y. if nat_eq y bits then false else (nat_eq y first || nat_eq y second))) }
    {
        let _ = &self.kept;
        if first != bits {
            if second != bits {
                return self.add_pair(first, second);
            }
            return self.single(first);
        }
        if second == bits {
            return Ok(0);
        }
        self.single(second)
    }

    /// Returns the number of `set` without its member `bits`.
    #[inline(never)]
    fn shrunk(&mut self, set: u32, bits: u32) -> Result<u32, AllocError>
        requires { set < length self.old }
        ensures more { AreMore self.old self.new }
        ensures found { IfOk result (λ n. IsSetOf self.new n (λ y. if nat_eq y bits then false else is_member self.old set y)) }
    {
        if let Some((first, second)) = self.two(set) {
            return self.other_single(first, second, bits);
        }
        let less = self.changed(set, bits, false)?;
        self.settle(less)
    }

    /// Returns the number of `set` with `bits` taken out, if it is noted.
    fn find_shrunk(&self, set: u32, bits: u32) -> Option<u32>
        ensures { (n : ℕ) → result ≡ Some n → IsChangeOf false self.now set bits n }
    {
        let Some(memo) = &self.memo else {
            return None;
        };
        memo.shrunk.find(set, bits)
    }

    /// Notes that `number` is `set` with `bits` taken out.
    fn note_shrunk(&mut self, set: u32, bits: u32, number: u32) -> Result<(), AllocError>
        requires { IsChangeOf false self.old set bits number }
        ensures { self.new ≡ self.old }
    {
        self.make_memo()?;
        let Some(memo) = &mut self.memo else {
            return Ok(());
        };
        memo.shrunk.note(self.alloc, set, bits, number)
    }

    /// Returns the number of `set` without its member `bits`, and notes it.
    fn new_shrunk(&mut self, set: u32, bits: u32) -> Result<u32, AllocError>
        requires { set < length self.old }
        ensures more { AreMore self.old self.new }
        ensures found { IfOk result (λ n. IsSetOf self.new n (λ y. if nat_eq y bits then false else is_member self.old set y)) }
    {
        let number = self.shrunk(set, bits)?;
        self.note_shrunk(set, bits, number)?;
        Ok(number)
    }

    /// Returns the number of `set` without its member `bits`, from the notes if it is there.
    #[inline(never)]
    fn noted_shrunk(&mut self, set: u32, bits: u32) -> Result<u32, AllocError>
        requires { set < length self.old }
        ensures more { AreMore self.old self.new }
        ensures found { IfOk result (λ n. IsSetOf self.new n (λ y. if nat_eq y bits then false else is_member self.old set y)) }
    {
        if let Some(number) = self.find_shrunk(set, bits) {
            return Ok(number);
        }
        self.new_shrunk(set, bits)
    }

    /// Returns the number of `set` without `bits`.
    pub fn without(&mut self, set: u32, bits: u32) -> Result<u32, AllocError>
        requires { set < length self.old }
        ensures more { AreMore self.old self.new }
        ensures found { IfOk result (λ n. IsSetOf self.new n (λ y. if nat_eq y bits then false else is_member self.old set y)) }
    {
        let _ = &self.kept;
        if !self.has(set, bits) {
            return Ok(set);
        }
        if let Some(_only) = self.only(set) {
            return Ok(0);
        }
        self.noted_shrunk(set, bits)
    }

    /// Returns the members of `set` that the set `other` has too.
    pub fn intersection(&self, set: &IndexSet<A>, other: u32) -> Result<IndexSet<A>, AllocError>
        requires { other < length self.now }
        ensures { IfOk result (λ both. (y : ℕ) → has_bits both y ≡ (has_bits set.now y && is_member self.now other y)) }
    {
        let mut both = IndexSet::new(self.alloc);
        for member in set.iter() {
            let Ok(bits) = u32::try_from(member) else {
                continue;
            };
            if !self.has(other, bits) {
                continue;
            }
            both.set(bits as usize, true)?;
        }
        Ok(both)
    }

    /// Returns the number of the set of `first` and `second`, each if `other` has it.
    fn both_of_two(&mut self, first: u32, second: u32, other: u32) -> Result<u32, AllocError>
        requires { other < length self.old }
        ensures more { AreMore self.old self.new }
        ensures found { IfOk result (λ n. IsSetOf self.new n (λ y. (nat_eq y first || nat_eq y second) && is_member self.old other y)) }
    {
        let _ = &self.kept;
        if self.has(other, first) {
            if self.has(other, second) {
                return self.add_pair(first, second);
            }
            return self.single(first);
        }
        if self.has(other, second) {
            return self.single(second);
        }
        Ok(0)
    }

    /// Returns the number of the common members of `set`, which is kept, and `other`.
    #[inline(never)]
    fn both(&mut self, set: u32, other: u32) -> Result<u32, AllocError>
        requires kept { 2147483648 ≤ set }
        requires set { set < length self.old }
        requires other { other < length self.old }
        ensures more { AreMore self.old self.new }
        ensures found { IfOk result (λ n. IsSetOf self.new n (λ y. is_member self.old set y && is_member self.old other y)) }
    {
        if let Some(only) = self.only(other) {
            if self.has(set, only) {
                return Ok(other);
            }
            return Ok(0);
        }
        if let Some((first, second)) = self.two(set) {
            return self.both_of_two(first, second, other);
        }
        let both = self.kept(set).common(self, self.alloc, other)?;
        self.settle(both)
    }

    /// Returns whether the set `other` has each member of `set`.
    pub fn is_subset(&self, set: &IndexSet<A>, other: u32) -> bool
        requires { other < length self.now }
        ensures yes { OnTrue result ((y : ℕ) → has_bits set.now y ≡ true → is_member self.now other y ≡ true) }
        ensures no { OnFalse result (IsLess (has_bits set.now) (is_member self.now other)) }
    {
        for member in set.iter() {
            let Ok(bits) = u32::try_from(member) else {
                continue;
            };
            if !self.has(other, bits) {
                return false;
            }
        }
        true
    }

    /// Returns whether each member of `set` is a member of `other`.
    fn is_within(&self, set: u32, other: u32) -> bool
        requires set { set < length self.now }
        requires other { other < length self.now }
        ensures yes { OnTrue result ((y : ℕ) → is_member self.now set y ≡ true → is_member self.now other y ≡ true) }
        ensures no { OnFalse result (IsLess (is_member self.now set) (is_member self.now other)) }
    {
        let _ = &self.kept;
        if set >= FIRST {
            return self.kept(set).is_within(self, other);
        }
        if set == 0 {
            return true;
        }
        self.has(other, set - 1)
    }

    /// Returns the number of the common members of `set` and `other`, found by a walk over the members of `set`.
    #[inline(always)]
    fn walked_common(&mut self, set: u32, other: u32) -> Result<u32, AllocError>
        requires set { set < length self.old }
        requires other { other < length self.old }
        ensures more { AreMore self.old self.new }
        ensures found { IfOk result (λ n. IsSetOf self.new n (λ y. is_member self.old set y && is_member self.old other y)) }
        ensures less { IfOk result (λ n. (n ≡ set → ⊥) → IsLess (is_member self.old set) (is_member self.old other)) }
    {
        let _ = &self.kept;
        if self.is_within(set, other) {
            return Ok(set);
        }
        if set < FIRST {
            return Ok(0);
        }
        self.both(set, other)
    }

    /// Returns the number of the common members of `set` and `other`, if it is noted.
    fn find_met(&self, set: u32, other: u32) -> Option<u32>
        ensures { (n : ℕ) → result ≡ Some n → IsMeetOf self.now set other n }
    {
        let Some(memo) = &self.memo else {
            return None;
        };
        memo.met.find(set, other)
    }

    /// Notes that `number` is the set of the common members of `set` and `other`.
    fn note_met(&mut self, set: u32, other: u32, number: u32) -> Result<(), AllocError>
        requires { IsMeetOf self.old set other number }
        ensures { self.new ≡ self.old }
    {
        self.make_memo()?;
        let Some(memo) = &mut self.memo else {
            return Ok(());
        };
        memo.met.note(self.alloc, set, other, number)
    }

    /// Returns the number of the common members of `set` and `other`, and notes it.
    #[inline(never)]
    fn new_common(&mut self, set: u32, other: u32) -> Result<u32, AllocError>
        requires set { set < length self.old }
        requires other { other < length self.old }
        ensures more { AreMore self.old self.new }
        ensures found { IfOk result (λ n. IsSetOf self.new n (λ y. is_member self.old set y && is_member self.old other y)) }
        ensures less { IfOk result (λ n. (n ≡ set → ⊥) → IsLess (is_member self.old set) (is_member self.old other)) }
    {
        let number = self.walked_common(set, other)?;
        self.note_met(set, other, number)?;
        Ok(number)
    }

    /// Returns the number of the common members of `set` and `other`. It is `set` exactly where each member of `set` is
    /// one of `other`.
    pub fn common(&mut self, set: u32, other: u32) -> Result<u32, AllocError>
        requires set { set < length self.old }
        requires other { other < length self.old }
        ensures more { AreMore self.old self.new }
        ensures found { IfOk result (λ n. IsSetOf self.new n (λ y. is_member self.old set y && is_member self.old other y)) }
        ensures less { IfOk result (λ n. (n ≡ set → ⊥) → IsLess (is_member self.old set) (is_member self.old other)) }
    {
        if set < FIRST {
            return self.walked_common(set, other);
        }
        if let Some(number) = self.find_met(set, other) {
            return Ok(number);
        }
        self.new_common(set, other)
    }

    /// Returns a copy of `set` in which each parameter is a member if its argument is a member of `set`. Of equal
    /// parameters the last one counts.
    fn passed_copy(
        &self,
        set: u32,
        params: &[u32],
        arguments: &[u32],
    ) -> Result<IndexSet<A>, AllocError>
        requires { set < length self.now }
        ensures { IfOk result (λ s. (y : ℕ) → has_bits s y
            ≡ is_member self.now set (taken_from params.now arguments.now (min (length params.now) (length arguments.now)) y)) }
    {
        let mut copy = self.copied(set)?;
        for k in 0..params.len().min(arguments.len()) {
            let is_in = self.has(set, arguments[k]);
            copy.set(params[k] as usize, is_in)?;
        }
        Ok(copy)
    }

    /// Returns the number of the set in which each parameter is a member if its argument is a member of `set`, and all
    /// else is as in `set`.
    pub fn passed(&mut self, set: u32, params: &[u32], arguments: &[u32]) -> Result<u32, AllocError>
        requires { set < length self.old }
        ensures more { AreMore self.old self.new }
        ensures found { IfOk result (λ n. IsSetOf self.new n
            (λ y. is_member self.old set (taken_from params.now arguments.now (min (length params.now) (length arguments.now)) y))) }
    {
        let copy = self.passed_copy(set, params, arguments)?;
        self.settle(copy)
    }

    /// Returns how many words the kept sets take.
    pub fn word_count(&self) -> usize {
        self.words
    }

    /// Returns how many sets are kept.
    pub fn kept_count(&self) -> usize
        ensures { length self.now ≡ 2147483648 + result }
    {
        self.kept.len()
    }

    /// Drops the kept sets without a mark. Returns the new numbers of the others.
    pub fn keep_marked(&mut self, marks: &[bool]) -> Result<Vec<u32, A>, AllocError>
        ensures kept { IfOk result (λ numbers. AreMarkedKept marks.now self.old self.new numbers.items) }
        ensures err { OnErr result (self.new ≡ self.old) }
    {
        let count = self.kept.len();
        if count > FIRST as usize {
            return Err(AllocError);
        }
        let mut numbers = Vec::from_elem(self.alloc, 0, count)?;
        self.memo = None;
        move_down(&mut self.kept, marks, &mut numbers);
        self.words = words_of(&self.kept);
        Ok(numbers)
    }
}
