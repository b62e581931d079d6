//! An array of numbers, and saved copies of it, for many copies that each differ little from another.
//!
//! An array is kept in chunks of 64 numbers. The chunks of all saved copies are in one list of words that grows until
//! copies are dropped. Where the chunks of each copy begin is an array of numbers itself, with saved copies. Saving or
//! loading a copy therefore doesn't visit all chunks.

ghost use Rattle.std.specs.Prelude.{◌≡◌, ◌≢◌, ℕ, ◌+◌, ◌*◌, ◌/◌, ◌-◌, ◌^◌, ◌<◌, ◌≤◌, length, get_or, slice_set};
ghost use Rattle.std.specs.Prelude.{◌⊎◌, IfOk, IfSome, OnOk, OnErr, None, Some, [], true, false, Contains};
ghost use Rattle.std.specs.Bool.{OnTrue};
ghost use Rattle.regalloc2_checker_sets.specs.Renumbering.{renamed, IsMarked, AppearsIn};
ghost use Rattle.regalloc2_checker_sets.specs.SavedCopies.{number_in_cell, AreMoreWords};
ghost use Rattle.regalloc2_checker_sets.specs.SavedNumbers.{copy_count, saved_number, number_now, AreAlikeBetween, AreChunksKept, AreCopiesKept, AreLoaded};
ghost use Rattle.regalloc2_checker_sets.specs.SavedNumbers.{AreSaved, AreWrittenTo, AreNumbersSame, IsSomeArray, IsWithout};

use crate::unused_sets::{note_all, rename_all};
use crate::versions::{
    Versions, begins_with_zeros, copy_chunk, is_same_chunk, make_room, zero_chunk,
};
use std::alloc::{AllocError, Allocator};
use std::marker::Model;

/// The base of a chunk that was written since it was last stored.
const UNSAVED: u32 = u32::MAX;

/// An array of numbers, and saved copies of it, by number. `last` is the copy that was last loaded or saved.
#[derive(Drop)]
pub struct Entries<A: Allocator> {
    words: Vec<u32, A>,
    cells: Vec<u32, A>,
    bases: Versions<A>,
    last: usize,
}

impl<A: Allocator> Model for Entries<A> {
    ghost use Rattle.regalloc2_checker_sets.specs.SavedNumbers.{NumberCopies, AreChunksKept};

    ghost Value = { NumberCopies };

    ghost view = { λ v. record { words = v.words.items; base_words = v.bases.words; base_rows = v.bases.saved; cells = v.cells.items } };

    ghost invariant = { λ v. AreChunksKept v.words.items v.cells.items v.bases };
}

/// Copies to the array the chunks in which the saved `copy` differs from it.
fn load_chunks<A: Allocator + Copy>(
    words: &[u32],
    bases: &Versions<A>,
    copy: usize,
    cells: &mut [u32],
)
    requires copy { copy < length bases.now.saved }
    requires kept { AreChunksKept words.now cells.old bases.now }
    ensures { AreLoaded words.now cells.new bases.now copy (length bases.now.cells) }
{
    let mut from = 0;
    while let Some(chunk) = bases.next_difference(copy, from) {
        let base = bases.saved(copy, chunk) as usize;
        copy_chunk(words, base, cells, 64 * chunk);
        from = chunk + 1;
    }
}

/// Stores `chunk` of the array among the words, if it was written since it was last stored.
fn save_chunk<A: Allocator + Copy>(
    words: &mut Vec<u32, A>,
    bases: &mut Versions<A>,
    copy: usize,
    cells: &[u32],
    chunk: usize,
) -> Result<(), AllocError>
    requires copy { copy < length bases.old.saved }
    requires chunk { chunk < length bases.old.cells }
    requires kept { AreChunksKept words.old.items cells.now bases.old }
    ensures words { AreMoreWords words.old.items words.new.items }
    ensures kept { AreChunksKept words.new.items cells.now bases.new }
    ensures copies { AreCopiesKept bases.old bases.new }
    ensures others { (j : ℕ) → j ≢ chunk → number_in_cell bases.new j ≡ number_in_cell bases.old j }
    ensures saved { OnOk result (number_in_cell bases.new chunk < 4294967295) }
{
    if bases.get(chunk) != UNSAVED {
        return Ok(());
    }
    let base = bases.saved(copy, chunk);
    if is_same_chunk(words, base as usize, cells, 64 * chunk) {
        bases.set(chunk, base);
        return Ok(());
    }
    let end = words.len();
    if end >= UNSAVED as usize {
        return Err(AllocError);
    }
    make_room(words)?;
    words.extend_from_slice(&cells[64 * chunk..64 * chunk + 64])?;
    bases.set(chunk, end as u32);
    Ok(())
}

/// Stores among the words the chunks of the array that the saved copy `near` lacks.
fn save_chunks<A: Allocator + Copy>(
    words: &mut Vec<u32, A>,
    bases: &mut Versions<A>,
    near: usize,
    copy: usize,
    cells: &[u32],
) -> Result<(), AllocError>
    requires near { near < length bases.old.saved }
    requires copy { copy < length bases.old.saved }
    requires kept { AreChunksKept words.old.items cells.now bases.old }
    ensures words { AreMoreWords words.old.items words.new.items }
    ensures kept { AreChunksKept words.new.items cells.now bases.new }
    ensures copies { AreCopiesKept bases.old bases.new }
    ensures saved { OnOk result (AreSaved bases.new (length bases.old.cells)) }
{
    let mut from = 0;
    while let Some(chunk) = bases.next_difference(near, from) {
        save_chunk(words, bases, copy, cells, chunk)?;
        from = chunk + 1;
    }
    Ok(())
}

/// Returns whether the mark at `index` is set.
fn is_marked(marks: &[bool], index: usize) -> bool
    ensures { result ≡ get_or marks.now index false }
{
    index < marks.len() && marks[index]
}

impl<A: Allocator + Copy> Entries<A> {
    /// Returns an array of zeros, of `size` positions and rounded up to a chunk, with `count` saved copies of zeros.
    pub fn new(alloc: A, count: usize, size: usize) -> Result<Entries<A>, AllocError>
        requires { size < 2 ^ 62 }
        ensures long { IfOk result (λ v. size < length v.cells) }
        ensures chunks { IfOk result (λ v. length v.cells ≡ 64 * (size / 64 + 1)) }
        ensures count { IfOk result (λ v. copy_count v ≡ count) }
        ensures cells { IfOk result (λ v. (i : ℕ) → number_now v i ≡ 0) }
        ensures saved { IfOk result (λ v. (k i : ℕ) → saved_number v k i ≡ 0) }
    {
        let bases = Versions::new(alloc, count, size / 64)?;
        let words = zero_chunk(alloc)?;
        let cells = Vec::from_elem(alloc, 0, 64 * (size / 64 + 1))?;
        Ok(Entries {
            words,
            cells,
            bases,
            last: 0,
        })
    }

    /// Returns how many positions there are.
    pub fn len(&self) -> usize
        ensures { result ≡ length self.now.cells }
    {
        self.cells.len()
    }

    /// Returns the number at `position`.
    pub fn get(&self, position: usize) -> u32
        requires { position < length self.now.cells }
        ensures { result ≡ number_now self.now position }
    {
        self.cells[position]
    }

    /// Writes `number` at `position`.
    pub fn set(&mut self, position: usize, number: u32)
        requires { position < length self.old.cells }
        ensures { self.new ≡ record self.old { cells = slice_set self.old.cells position number } }
    {
        if self.cells[position] == number {
            return;
        }
        self.cells[position] = number;
        self.bases.set(position / 64, UNSAVED);
    }

    /// Returns where `chunk` of the saved `copy` begins among the words.
    pub fn base(&self, copy: usize, chunk: usize) -> usize
        requires copy { copy < copy_count self.now }
        requires chunk { 64 * chunk + 64 ≤ length self.now.cells }
        ensures within { result + 64 ≤ length self.now.words }
        ensures small { result < 2 ^ 32 }
        ensures words { (t : ℕ) → t < 64 → get_or self.now.words (result + t) 0 ≡ saved_number self.now copy (64 * chunk + t) }
    {
        self.bases.saved(copy, chunk) as usize
    }

    /// Returns the word at `index`.
    pub fn word(&self, index: usize) -> u32
        requires { index < length self.now.words }
        ensures { result ≡ get_or self.now.words index 0 }
    {
        self.words[index]
    }

    /// Returns how many words are stored.
    pub fn word_count(&self) -> usize {
        self.words.len()
    }

    /// Writes `numbers` from the position `first` on.
    pub fn write_all(&mut self, first: usize, numbers: &[u32])
        requires small { first < 2 ^ 63 }
        requires within { first + length numbers.now ≤ length self.old.cells }
        ensures { AreWrittenTo numbers.now first (length numbers.now) self.old self.new }
    {
        for t in 0..numbers.len() {
            self.set(first + t, numbers[t]);
        }
    }

    /// Writes the numbers of the saved `copy` to the array `to`, which has the numbers of this array.
    fn write_copy(&self, copy: usize, to: &mut Entries<A>)
        requires copy { copy < copy_count self.now }
        requires long { length to.old.cells ≡ length self.now.cells }
        requires same { (i : ℕ) → i < length self.now.cells → number_now to.old i ≡ number_now self.now i }
        ensures count { copy_count to.new ≡ copy_count to.old }
        ensures saved { (k i : ℕ) → saved_number to.new k i ≡ saved_number to.old k i }
        ensures long { length to.new.cells ≡ length to.old.cells }
        ensures written { (i : ℕ) → i < length self.now.cells → number_now to.new i ≡ saved_number self.now copy i }
    {
        let mut from = 0;
        while let Some(chunk) = self.next_chunk(copy, from) {
            let base = self.base(copy, chunk);
            to.write_all(64 * chunk, &self.words[base..base + 64]);
            from = chunk + 1;
        }
    }

    /// Returns whether `copy` was never saved.
    fn is_unsaved(&self, copy: usize) -> bool
        requires { copy < copy_count self.now }
        ensures { OnTrue result (get_or self.now.base_rows copy [] ≡ []) }
    {
        self.bases.is_unsaved(copy)
    }

    /// Returns whether copies that were never saved are known to have zeros alone.
    fn begins_with_zeros(&self) -> bool
        ensures { OnTrue result ((k i : ℕ) → get_or self.now.base_rows k [] ≡ [] → saved_number self.now k i ≡ 0) }
    {
        self.bases.begins_with_zeros() && begins_with_zeros(&self.words)
    }

    /// Loads the saved `copy`, and saves it in the array `to`, which has the numbers of this array.
    fn keep_copy(&mut self, copy: usize, to: &mut Entries<A>) -> Result<(), AllocError>
        requires copy { copy < copy_count self.old }
        requires count { copy_count to.old ≡ copy_count self.old }
        requires same { AreNumbersSame self.old to.old }
        ensures count { copy_count self.new ≡ copy_count self.old }
        ensures saved { (k i : ℕ) → saved_number self.new k i ≡ saved_number self.old k i }
        ensures long { length self.new.cells ≡ length self.old.cells }
        ensures loaded { (i : ℕ) → i < length self.new.cells → number_now self.new i ≡ saved_number self.old copy i }
        ensures as_many { copy_count to.new ≡ copy_count to.old }
        ensures same { AreNumbersSame self.new to.new }
        ensures others { (k i : ℕ) → (k ≡ copy → ⊥) → i < length to.old.cells → saved_number to.new k i ≡ saved_number to.old k i }
        ensures kept { OnOk result ((i : ℕ) → i < length to.old.cells → saved_number to.new copy i ≡ saved_number self.old copy i) }
    {
        self.write_copy(copy, to);
        self.load(copy);
        to.save(copy)
    }

    /// Returns the array with its unmarked copies, stored anew, if they don't take more words than before. This array may
    /// then have the numbers of a saved copy.
    pub fn without(&mut self, alloc: A, marks: &[bool]) -> Result<Option<Entries<A>>, AllocError>
        requires { 0 < length self.old.cells }
        ensures count { copy_count self.new ≡ copy_count self.old }
        ensures saved { (k i : ℕ) → saved_number self.new k i ≡ saved_number self.old k i }
        ensures long { length self.new.cells ≡ length self.old.cells }
        ensures array { IsSomeArray self.old self.new }
        ensures without { IfOk result (λ r. IfSome r (IsWithout marks.now self.old)) }
    {
        let count = self.bases.count();
        let mut to = Entries::new(alloc, count, self.cells.len() - 1)?;
        to.write_all(0, &self.cells);
        let begins_with_zeros = self.begins_with_zeros();
        for copy in 0..count {
            if is_marked(marks, copy) {
                continue;
            }
            // A copy of the new array has zeros until it is saved.
            if begins_with_zeros && self.is_unsaved(copy) {
                continue;
            }
            self.keep_copy(copy, &mut to)?;
            if to.words.len() > self.words.len() {
                return Ok(None);
            }
        }
        Ok(Some(to))
    }

    /// Gives the array the numbers of the saved `copy`.
    pub fn load(&mut self, copy: usize)
        requires { copy < copy_count self.old }
        ensures count { copy_count self.new ≡ copy_count self.old }
        ensures saved { (k i : ℕ) → saved_number self.new k i ≡ saved_number self.old k i }
        ensures long { length self.new.cells ≡ length self.old.cells }
        ensures loaded { (i : ℕ) → i < length self.new.cells → number_now self.new i ≡ saved_number self.old copy i }
    {
        load_chunks(&self.words, &self.bases, copy, &mut self.cells);
        self.bases.load(copy);
        self.last = copy;
    }

    /// Saves the numbers of the array as `copy`.
    pub fn save(&mut self, copy: usize) -> Result<(), AllocError>
        requires { copy < copy_count self.old }
        ensures cells { self.new.cells ≡ self.old.cells }
        ensures count { copy_count self.new ≡ copy_count self.old }
        ensures others { (k i : ℕ) → (k ≡ copy → ⊥) → i < length self.old.cells → saved_number self.new k i ≡ saved_number self.old k i }
        ensures saved { OnOk result ((i : ℕ) → i < length self.old.cells → saved_number self.new copy i ≡ number_now self.old i) }
        ensures err { OnErr result ((i : ℕ) → i < length self.old.cells → saved_number self.new copy i ≡ saved_number self.old copy i) }
    {
        let near = if self.last < self.bases.count() {
            self.last
        } else {
            copy
        };
        save_chunks(&mut self.words, &mut self.bases, near, copy, &self.cells)?;
        self.last = copy;
        self.bases.save(copy)
    }

    /// Marks the kept sets whose numbers are in the array or in a saved copy.
    pub fn note_numbers(&self, used: &mut [bool])
        ensures long { length used.new ≡ length used.old }
        ensures now { (i : ℕ) → i < length self.now.cells → IsMarked used.new (number_now self.now i) }
        ensures saved { (k i : ℕ) → i < length self.now.cells → IsMarked used.new (saved_number self.now k i) }
        ensures only { (j : ℕ) → get_or used.new j true ≡ true → (get_or used.old j true ≡ true) ⊎ AppearsIn self.now (2147483648 + j) }
    {
        note_all(&self.words, used);
        note_all(&self.cells, used);
    }

    /// Replaces the numbers of sets by their new numbers.
    pub fn renumber(&mut self, numbers: &[u32])
        ensures count { copy_count self.new ≡ copy_count self.old }
        ensures long { length self.new.cells ≡ length self.old.cells }
        ensures now { (i : ℕ) → number_now self.new i ≡ renamed numbers.now (number_now self.old i) }
        ensures saved { (k i : ℕ) → saved_number self.new k i ≡ renamed numbers.now (saved_number self.old k i) }
        ensures all { (n : ℕ) → AppearsIn self.old n → AppearsIn self.new (renamed numbers.now n) }
    {
        rename_all(&mut self.words, numbers);
        rename_all(&mut self.cells, numbers);
    }

    /// Returns the first chunk from `from` on that may differ from the saved `copy`.
    pub fn next_chunk(&self, copy: usize, from: usize) -> Option<usize>
        requires { copy < copy_count self.now }
        ensures none { result ≡ None → AreAlikeBetween self.now copy (64 * from) (length self.now.cells) }
        ensures some { (j : ℕ) → result ≡ Some j → (from ≤ j) × (64 * j + 64 ≤ length self.now.cells) × (j < 2 ^ 57)
            × AreAlikeBetween self.now copy (64 * from) (64 * j) }
    {
        self.bases.next_difference(copy, from)
    }
}
