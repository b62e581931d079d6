//! Sparse sets of numbers.

ghost use Rattle.std.specs.Prelude.{◌≡◌, ◌≢◌, ◌+◌, ◌<◌, ◌≤◌, ◌/◌, ◌||◌, ℕ, true, false, cond, ◌∷◌, nat_eq, OnOk, OnErr, IfOk, IfSome, IfNone, [], length};
ghost use Rattle.std.specs.Prelude.{slice_index_or, unwrap_or};
ghost use Rattle.std.specs.Int.{bit_at};
ghost use Rattle.std.specs.HashMap.{get};
ghost use Rattle.std.specs.Iterator.{YieldsFirst, item_count};
ghost use Rattle.regalloc2_function.specs.Numbers.{word_of, has_number, bits_of, numbers_of_set, set_limit, times_listed, word_bits, RisesFrom, ListsMembers};
ghost use Rattle.regalloc2_function.specs.Inside.NumberWords.{LacksKey, KeysApart, IsIndexFor, KeysInOneOnly, inline_words};

use std::alloc::{AllocError, Allocator, Global};
use std::collections::{HashMap, hash_map};
use std::fmt;
use std::hash::{BuildHasherDefault, FoldHasher};
use std::marker::Model;

/// The number of words that are inline.
const INLINE: usize = 12;

/// The number of bits of a word.
const WORD_BITS: usize = 64;

/// Returns the index of the word of `key` in `words`, if it has one.
fn index_of(words: &[(u32, u64)], key: u32) -> Option<usize>
    ensures some { IfSome result (λ p. (p < length words.now) × ((slice_index_or words.now p (0, 0)).0 ≡ key)) }
    ensures none { IfNone result (LacksKey key words.now) }
{
    for index in 0..words.len() {
        if words[index].0 == key {
            return Some(index);
        }
    }
    None
}

/// Returns the index of a word of `words` that is zero, if there is one.
fn index_of_zero(words: &[(u32, u64)]) -> Option<usize>
    ensures some { IfSome result (λ p. (p < length words.now) × ((slice_index_or words.now p (0, 0)).1 ≡ 0)) }
{
    for index in 0..words.len() {
        if words[index].1 == 0 {
            return Some(index);
        }
    }
    None
}

/// Returns the index at which to write the word of `key` in `words`: the index of its old word, else
/// of a word that became zero, else past the last.
fn index_for(words: &[(u32, u64)], key: u32) -> usize
    ensures { IsIndexFor words.now key result }
{
    if let Some(index) = index_of(words, key) {
        return index;
    }
    index_of_zero(words).unwrap_or(words.len())
}

/// Up to `INLINE` words with their keys.
#[derive(Debug, Drop)]
struct Few {
    len: usize,
    words: [(u32, u64); INLINE],
}

impl Model for Few {
    ghost use Rattle.std.specs.Prelude.{ℕ, List, ◌≤◌, take};

    ghost Value = { List (ℕ × ℕ) };

    ghost use Rattle.regalloc2_function.specs.Inside.NumberWords.{KeysApart, inline_words};

    ghost view = { λ few. take few.len few.words };

    ghost invariant = { λ few. (few.len ≤ inline_words) × KeysApart (take few.len few.words) };
}

impl Few {
    /// Returns no words.
    fn new() -> Self
        ensures { result ≡ [] }
    {
        Few {
            len: 0,
            words: [(0, 0); INLINE],
        }
    }

    /// Returns a copy of the words.
    fn copy(&self) -> Self
        ensures { result ≡ self.now }
    {
        Few {
            len: self.len,
            words: self.words,
        }
    }

    /// Returns the words with their keys, which differ.
    fn as_slice(&self) -> &[(u32, u64)]
        ensures items { result.now ≡ self.now }
        ensures apart { KeysApart self.now }
        ensures few { length self.now ≤ inline_words }
    {
        &self.words[..self.len]
    }

    /// Returns the word of `key`, 0 if none is stored.
    fn word(&self, key: u32) -> u64
        ensures { result ≡ word_of self.now key }
    {
        let words = self.as_slice();
        match index_of(words, key) {
            Some(index) => words[index].1,
            None => 0,
        }
    }

    /// Writes `word` as the word of `key`, if there is room. Returns whether there was.
    fn put(&mut self, key: u32, word: u64) -> bool
        ensures written { result ≡ true → (k : ℕ) → word_of self.new k ≡ cond (nat_eq k key) word (word_of self.old k) }
        ensures full { result ≡ false → self.new ≡ self.old }
        ensures absent { result ≡ false → word_of self.old key ≡ 0 }
    {
        let index = index_for(self.as_slice(), key);
        if index >= INLINE {
            return false;
        }
        self.words[index] = (key, word);
        if index == self.len {
            self.len += 1;
        }
        true
    }
}

/// The remaining indexes of the bits set in a word, by rising number; a contract sees them as a
/// list.
#[derive(Clone, Debug, Drop)]
pub struct SetBitsIter(u64);

impl Model for SetBitsIter {
    ghost use Rattle.std.specs.Prelude.{List, ℕ};

    ghost Value = { List ℕ };

    ghost use Rattle.regalloc2_function.specs.Numbers.{bits_of};

    ghost view = { λ it. bits_of it.0 };
}

impl SetBitsIter {
    /// Iterates over the indexes of the bits set in `bits`.
    pub fn new(bits: u64) -> Self
        ensures list { result ≡ bits_of bits }
        ensures members { (i : ℕ) → times_listed result i ≡ bit_at bits i }
        ensures rising { RisesFrom 0 result }
    {
        SetBitsIter(bits)
    }
}

/// Clears the lowest bit set in `word`, which isn't 0, and returns the bit's index.
fn take_lowest(word: &mut u64) -> usize
    requires { word.old ≢ 0 }
    ensures taken { bits_of word.old ≡ result ∷ bits_of word.new }
    ensures small { result < word_bits }
{
    let bit = word.trailing_zeros();
    *word &= !(1 << bit);
    bit as usize
}

impl Iterator for SetBitsIter {
    type Item = usize;

    ghost next_gives = { YieldsFirst (λ left. left) };

    ghost remaining = { item_count (λ left. left) };

    fn next(&mut self) -> Option<usize> {
        if self.0 == 0 {
            return None;
        }
        Some(take_lowest(&mut self.0))
    }
}

/// The remaining words with their keys; a contract sees them as a list.
#[derive(Clone, Drop)]
struct WordsIter<'a> {
    few: &'a [(u32, u64)],
    many: hash_map::Iter<'a, u32, u64>,
}

impl<'a> Model for WordsIter<'a> {
    ghost use Rattle.std.specs.Prelude.{List, ℕ, ◌++◌};

    ghost Value = { List (ℕ × ℕ) };

    ghost view = { λ it. it.few.now ++ it.many };
}

impl<'a> Iterator for WordsIter<'a> {
    type Item = (u32, u64);

    ghost next_gives = { YieldsFirst (λ left. left) };

    ghost remaining = { item_count (λ left. left) };

    fn next(&mut self) -> Option<(u32, u64)> {
        if let Some((first, rest)) = self.few.split_first() {
            self.few = rest;
            return Some(*first);
        }
        let (key, word) = self.many.next()?;
        Some((*key, *word))
    }
}

/// The remaining members of a set, each once and in no guaranteed order; a contract sees them as a
/// list.
#[derive(Clone, Drop)]
pub struct IndexSetIter<'a> {
    base: usize,
    bits: u64,
    words: WordsIter<'a>,
}

impl<'a> Model for IndexSetIter<'a> {
    ghost use Rattle.std.specs.Prelude.{List, ℕ, ◌++◌, ◌+◌, ◌<◌, map};

    ghost Value = { List ℕ };

    ghost use Rattle.regalloc2_function.specs.Numbers.{bits_of, numbers_of_set, set_limit};

    ghost view = { λ it. map (λ b. it.base + b) (bits_of it.bits) ++ numbers_of_set it.words };

    ghost invariant = { λ it. it.base < set_limit };
}

impl<'a> Iterator for IndexSetIter<'a> {
    type Item = usize;

    ghost next_gives = { YieldsFirst (λ left. left) };

    ghost remaining = { item_count (λ left. left) };

    fn next(&mut self) -> Option<usize> {
        while self.bits == 0 {
            let (key, word) = self.words.next()?;
            self.base = key as usize * WORD_BITS;
            self.bits = word;
        }
        Some(self.base + take_lowest(&mut self.bits))
    }
}

/// The words of a set that aren't inline.
type Many<A> = HashMap<u32, u64, BuildHasherDefault<FoldHasher>, A>;

/// Returns the word that `many` has at `key`, or 0.
fn stored_in<A: Allocator>(many: &Many<A>, key: u32) -> u64
    ensures { result ≡ unwrap_or (get nat_eq many.now key) 0 }
{
    many.get(&key).copied().unwrap_or(0)
}

/// Returns the word of `key` in `many`, 0 if none is stored. Looks up nothing in an empty map.
fn word_in<A: Allocator>(many: &Many<A>, key: u32) -> u64
    ensures { result ≡ word_of many.now.entries key }
{
    if many.len() == 0 {
        return 0;
    }
    stored_in(many, key)
}

/// Writes `word` as the word of `key`, if `many` has a word of `key`. Returns whether it has.
/// Allocates nothing.
fn rewrite<A: Allocator>(many: &mut Many<A>, key: u32, word: u64) -> bool
    ensures written { result ≡ true → (k : ℕ) → word_of many.new.entries k ≡ cond (nat_eq k key) word (word_of many.old.entries k) }
    ensures unchanged { result ≡ false → many.new.entries ≡ many.old.entries }
    ensures absent { result ≡ false → word_of many.old.entries key ≡ 0 }
{
    if many.len() == 0 {
        return false;
    }
    match many.get_mut(&key) {
        Some(stored) => {
            *stored = word;
            true
        }
        None => false,
    }
}

/// Writes `word` as the word of `key`.
fn insert<A: Allocator + Copy>(many: &mut Many<A>, key: u32, word: u64) -> Result<(), AllocError>
    ensures written { OnOk result ((k : ℕ) → word_of many.new.entries k ≡ cond (nat_eq k key) word (word_of many.old.entries k)) }
    ensures unchanged { OnErr result (many.new.entries ≡ many.old.entries) }
{
    many.insert(key, word)?;
    Ok(())
}

/// Returns a map with the words of `many`, which allocates from `alloc`.
fn copied<A: Allocator + Copy>(alloc: A, many: &Many<A>) -> Result<Many<A>, AllocError>
    ensures { IfOk result (λ copy. (k : ℕ) → word_of copy.entries k ≡ word_of many.now.entries k) }
{
    let mut copy = HashMap::with_capacity(alloc, many.len())?;
    let words = WordsIter {
        few: &[],
        many: many.iter(),
    };
    for (key, word) in words {
        insert(&mut copy, key, word)?;
    }
    Ok(copy)
}

/// Writes `word` as the word of `key`: over its old word, else inline if there is room, else into
/// the map.
fn write<A: Allocator + Copy>(
    few: &mut Few,
    many: &mut Many<A>,
    key: u32,
    word: u64,
) -> Result<(), AllocError>
    requires { KeysInOneOnly few.old many.old.entries }
    ensures once { KeysInOneOnly few.new many.new.entries }
    ensures written { OnOk result ((k : ℕ) → word_of few.new k + word_of many.new.entries k ≡ cond (nat_eq k key) word
        (word_of few.old k + word_of many.old.entries k)) }
    ensures few { OnErr result (few.new ≡ few.old) }
    ensures many { OnErr result (many.new.entries ≡ many.old.entries) }
    ensures absent { OnErr result (word_of few.old key + word_of many.old.entries key ≡ 0) }
    ensures refused { OnErr result (word ≢ 0) }
{
    let had = few.word(key);
    if had == 0 && rewrite(many, key, word) {
        return Ok(());
    }
    if had == 0 && word == 0 {
        return Ok(());
    }
    if few.put(key, word) {
        return Ok(());
    }
    insert(many, key, word)
}

/// A set of numbers below 2^38, sparse by words of 64 numbers.
///
/// Twelve words are inline, and a word that became zero is used again: a set of members in up to
/// twelve words allocates nothing; further words are in a hashed map. Contracts see a set through
/// `has_number`.
#[derive(Drop)]
pub struct IndexSet<A: Allocator = Global> {
    few: Few,
    many: Many<A>,
    alloc: A,
}

impl<A: Allocator> Model for IndexSet<A> {
    ghost use Rattle.std.specs.Prelude.{List, ℕ, ◌++◌};

    ghost Value = { List (ℕ × ℕ) };

    ghost use Rattle.regalloc2_function.specs.Inside.NumberWords.{KeysInOneOnly};

    ghost view = { λ s. s.few ++ s.many.entries };

    ghost invariant = { λ s. KeysInOneOnly s.few s.many.entries };
}

impl<A: Allocator + Copy> IndexSet<A> {
    /// Returns the empty set. Allocates nothing.
    pub fn new(alloc: A) -> Self
        ensures { (i : ℕ) → has_number result i ≡ false }
    {
        IndexSet {
            few: Few::new(),
            many: HashMap::new(alloc),
            alloc,
        }
    }

    /// Returns the word of `key`, 0 if none is stored.
    fn word(&self, key: u32) -> u64
        ensures { result ≡ word_of self.now key }
    {
        let word = self.few.word(key);
        if word != 0 {
            return word;
        }
        word_in(&self.many, key)
    }

    /// Writes `word` as the word of `key`.
    fn put(&mut self, key: u32, word: u64) -> Result<(), AllocError>
        ensures written { OnOk result ((k : ℕ) → word_of self.new k ≡ cond (nat_eq k key) word (word_of self.old k)) }
        ensures err { OnErr result (self.new ≡ self.old) }
        ensures absent { OnErr result (word_of self.old key ≡ 0) }
        ensures refused { OnErr result (word ≢ 0) }
    {
        write(&mut self.few, &mut self.many, key, word)
    }

    /// Returns `true` if `index`, below 2^38, is a member. Allocates nothing.
    pub fn get(&self, index: usize) -> bool
        requires { index < set_limit }
        ensures { result ≡ has_number self.now index }
    {
        self.word((index / WORD_BITS) as u32) >> (index % WORD_BITS) & 1 == 1
    }

    /// Adds `index`, below 2^38, to the set if `val` is true; removes it otherwise.
    ///
    /// If memory runs out, the set is unchanged. It can run out only if `val` is true and none of
    /// the 64 numbers that share the number's word is a member; `set(index, false)` allocates
    /// nothing.
    pub fn set(&mut self, index: usize, val: bool) -> Result<(), AllocError>
        requires { index < set_limit }
        ensures ok { OnOk result ((i : ℕ) → has_number self.new i ≡ cond (nat_eq i index) val (has_number self.old i)) }
        ensures err { OnErr result (self.new ≡ self.old) }
        ensures only_for_a_member { OnErr result (val ≡ true) }
        ensures only_for_a_word { OnErr result ((i : ℕ) → i / 64 ≡ index / 64 → has_number self.old i ≡ false) }
    {
        let key = (index / WORD_BITS) as u32;
        let bit = 1 << (index % WORD_BITS);
        let had = self.word(key);
        if val {
            self.put(key, had | bit)
        } else {
            self.put(key, had & !bit)
        }
    }

    /// Replaces the set's members by the members of `other`.
    ///
    /// If memory runs out, the set is unchanged. It never does if `other`'s words are inline.
    pub fn assign(&mut self, other: &Self) -> Result<(), AllocError>
        ensures ok { OnOk result ((i : ℕ) → has_number self.new i ≡ has_number other.now i) }
        ensures err { OnErr result (self.new ≡ self.old) }
    {
        let many = copied(self.alloc, &other.many)?;
        self.few = other.few.copy();
        self.many = many;
        Ok(())
    }

    /// Adds the members of `other`; returns whether any number became a member.
    ///
    /// If memory runs out, the set is between its old value and the union.
    pub fn union_with(&mut self, other: &Self) -> Result<bool, AllocError>
        ensures ok { OnOk result ((i : ℕ) → has_number self.new i ≡ has_number self.old i || has_number other.now i) }
        ensures added { IfOk result (λ added. added ≡ true → (i : ℕ) × (has_number self.old i ≡ false) × (has_number other.now i ≡ true)) }
        ensures none_added { IfOk result (λ added. added ≡ false → (i : ℕ) → has_number self.new i ≡ has_number self.old i) }
        ensures no_less { OnErr result ((i : ℕ) → has_number self.old i ≡ true → has_number self.new i ≡ true) }
        ensures no_more { OnErr result ((i : ℕ) → has_number self.new i ≡ true → has_number self.old i || has_number other.now i ≡ true) }
    {
        let mut added = false;
        for (key, word) in other.words() {
            let had = self.word(key);
            if word & !had != 0 {
                self.put(key, had | word)?;
                added = true;
            }
        }
        Ok(added)
    }

    /// Iterates over the words of the set with their keys.
    fn words(&self) -> WordsIter<'_>
        ensures list { result ≡ self.now }
        ensures members { ListsMembers self.now (numbers_of_set self.now) }
    {
        WordsIter {
            few: self.few.as_slice(),
            many: self.many.iter(),
        }
    }

    /// Iterates over the members, each once, in no guaranteed order. Allocates nothing.
    pub fn iter(&self) -> IndexSetIter<'_>
        ensures { ListsMembers self.now result }
    {
        IndexSetIter {
            base: 0,
            bits: 0,
            words: self.words(),
        }
    }
}

impl<A: Allocator + Copy> fmt::Debug for IndexSet<A> {
    /// Writes the members, in the order of `iter`.
    fn fmt<W: fmt::Write>(&self, f: &mut fmt::Formatter<W>) -> fmt::Result {
        f.debug_list().entries(self.iter()).finish()
    }
}
