//! An array of numbers, and saved copies of it that share what they have in common.
//!
//! An array is kept in chunks of 64 numbers. The chunks of all saved copies are in one list of words that only grows, and
//! a saved copy is the list of where its chunks begin there. For each chunk of the current array, its base among the
//! words is kept, unless the chunk was written since.

ghost use Rattle.std.specs.Prelude.{◌≡◌, ℕ, [], true, ◌+◌, ◌*◌, ◌/◌, ◌%◌, ◌-◌, ◌^◌, ◌<◌, ◌≤◌, Some, None, length, get_or, slice_set, map};
ghost use Rattle.std.specs.Bool.{OnTrue};
ghost use Rattle.std.specs.Prelude.{◌≢◌, IfOk, OnOk, OnErr, ◌↔◌, MatchOption};
ghost use Rattle.regalloc2_checker_sets.specs.SavedCopies.{saved_at, number_in_cell, IsChunkAt, IsDifferenceIn, AreSameBetween, AreClean, AreWithin, AreMoreWords};
ghost use Rattle.regalloc2_checker_sets.specs.SavedCopies.{AreBases, AreSame, IsFirstDifference};

use std::alloc::{AllocError, Allocator};
use std::marker::Model;

/// How many chunks of words have room at first.
const CHUNKS_AT_FIRST: usize = 4;

/// An array of numbers, and saved copies of it, by number.
#[derive(Drop)]
pub struct Versions<A: Allocator> {
    words: Vec<u32, A>,
    saved: Vec<Vec<u32, A>, A>,
    cells: Vec<u32, A>,
    clean: Vec<Option<usize>, A>,
    alloc: A,
}

impl<A: Allocator> Model for Versions<A> {
    ghost use Rattle.std.specs.Prelude.{map};
    ghost use Rattle.regalloc2_checker_sets.specs.SavedCopies.{Copies, AreKept};

    ghost Value = { Copies };

    ghost view = { λ v. record { words = v.words.items; saved = map (λ b. b.items) v.saved.items; cells = v.cells.items } };

    ghost invariant = { λ v. AreKept v.words.items (map (λ b. b.items) v.saved.items) v.cells.items v.clean.items };
}

/// Returns where `chunk` of a saved copy begins. A copy that was never saved has zeros.
fn base_of(bases: &[u32], chunk: usize) -> usize
    ensures { result ≡ get_or bases.now chunk 0 }
{
    if chunk < bases.len() {
        bases[chunk] as usize
    } else {
        0
    }
}

/// Copies the chunk of words from `base` on to the array, from `first` on.
pub fn copy_chunk(words: &[u32], base: usize, cells: &mut [u32], first: usize)
    requires words { base + 64 ≤ length words.now }
    requires cells { first + 64 ≤ length cells.old }
    ensures copied { (t : ℕ) → t < 64 → get_or cells.new (first + t) 0 ≡ get_or words.now (base + t) 0 }
    ensures before { (i : ℕ) → i < first → get_or cells.new i 0 ≡ get_or cells.old i 0 }
    ensures after { (i : ℕ) → first + 64 ≤ i → get_or cells.new i 0 ≡ get_or cells.old i 0 }
{
    cells[first..first + 64].copy_from_slice(&words[base..base + 64]);
}

/// Returns whether the chunk of words from `base` on is equal to the array's from `first` on.
pub fn is_same_chunk(words: &[u32], base: usize, cells: &[u32], first: usize) -> bool
    requires words { base + 64 ≤ length words.now }
    requires cells { first + 64 ≤ length cells.now }
    ensures { (result ≡ true) ↔ ((t : ℕ) → t < 64 → get_or cells.now (first + t) 0 ≡ get_or words.now (base + t) 0) }
{
    &cells[first..first + 64] == &words[base..base + 64]
}

/// Returns a chunk of zeros, with room for `CHUNKS_AT_FIRST` chunks.
pub fn zero_chunk<A: Allocator>(alloc: A) -> Result<Vec<u32, A>, AllocError>
    ensures long { IfOk result (λ words. length words.items ≡ 64) }
    ensures zeros { IfOk result (λ words. (i : ℕ) → get_or words.items i 0 ≡ 0) }
{
    let mut words = Vec::with_capacity(alloc, 64 * CHUNKS_AT_FIRST)?;
    words.extend_from_slice(&[0; 64])?;
    Ok(words)
}

/// Returns whether `words` begin with a chunk of zeros.
pub fn begins_with_zeros(words: &[u32]) -> bool
    ensures { OnTrue result ((t : ℕ) → t < 64 → get_or words.now t 0 ≡ 0) }
{
    if words.len() < 64 {
        return false;
    }
    let zeros = [0; 64];
    is_same_chunk(&zeros, 0, words, 0)
}

/// Returns the index in the chunk of the first group of sixteen words, from `from` on, that differs, or where fewer than
/// sixteen words are left.
fn equal_groups(words: &[u32], base: usize, cells: &[u32], first: usize, from: usize) -> usize
    requires words { base + 64 ≤ length words.now }
    requires cells { first + 64 ≤ length cells.now }
    ensures low { from ≤ result }
    ensures same { (t : ℕ) → from ≤ t → t < result → get_or cells.now (first + t) 0 ≡ get_or words.now (base + t) 0 }
{
    let mut t = from;
    while t <= 48 {
        if &cells[first + t..first + t + 16] != &words[base + t..base + t + 16] {
            return t;
        }
        t += 16;
    }
    t
}

/// Returns the first position from `from` on, in a chunk of the array, at which it differs from a chunk of words.
fn difference_in(
    words: &[u32],
    base: usize,
    cells: &[u32],
    first: usize,
    from: usize,
) -> Option<usize>
    requires words { base + 64 ≤ length words.now }
    requires cells { first + 64 ≤ length cells.now }
    ensures none { result ≡ None → (t : ℕ) → from - first ≤ t → t < 64 → get_or cells.now (first + t) 0 ≡ get_or words.now (base + t) 0 }
    ensures found { (i : ℕ) → result ≡ Some i → IsDifferenceIn words.now base cells.now first from i }
{
    let passed = equal_groups(words, base, cells, first, from.saturating_sub(first));
    for t in passed..64 {
        if cells[first + t] != words[base + t] {
            return Some(first + t);
        }
    }
    None
}

/// Gives `chunk` of the array the words from `base` on.
fn load_chunk(
    words: &[u32],
    base: usize,
    cells: &mut [u32],
    clean: &mut [Option<usize>],
    chunk: usize,
)
    requires words { base + 64 ≤ length words.now }
    requires cells { 64 * chunk + 64 ≤ length cells.old }
    requires chunk { chunk < length clean.old }
    requires kept { (b : ℕ) → get_or clean.old chunk None ≡ Some b → IsChunkAt words.now cells.old chunk b }
    ensures clean { clean.new ≡ slice_set clean.old chunk (Some base) }
    ensures loaded { IsChunkAt words.now cells.new chunk base }
    ensures before { (i : ℕ) → i < 64 * chunk → get_or cells.new i 0 ≡ get_or cells.old i 0 }
    ensures after { (i : ℕ) → 64 * chunk + 64 ≤ i → get_or cells.new i 0 ≡ get_or cells.old i 0 }
{
    if clean[chunk] == Some(base) {
        return;
    }
    copy_chunk(words, base, cells, 64 * chunk);
    clean[chunk] = Some(base);
}

/// Makes room for a chunk of words. Grows by a half, since doubling leaves much of the room unused.
pub fn make_room<A: Allocator>(words: &mut Vec<u32, A>) -> Result<(), AllocError>
    ensures { words.new.items ≡ words.old.items }
{
    let len = words.len();
    if words.capacity() - len >= 64 {
        return Ok(());
    }
    words.reserve_exact(len / 2 + 256)
}

/// Returns where `chunk` of the array is among the words: where it was last loaded or saved, if it wasn't written since,
/// or where a saved copy has an equal chunk, else at their end, where it is added.
fn save_chunk<A: Allocator>(
    words: &mut Vec<u32, A>,
    base: usize,
    cells: &[u32],
    clean: &mut [Option<usize>],
    chunk: usize,
) -> Result<usize, AllocError>
    requires words { base + 64 ≤ length words.old.items }
    requires cells { 64 * chunk + 64 ≤ length cells.now }
    requires chunk { chunk < length clean.old }
    requires kept { (b : ℕ) → get_or clean.old chunk None ≡ Some b → IsChunkAt words.old.items cells.now chunk b }
    ensures words { AreMoreWords words.old.items words.new.items }
    ensures clean { IfOk result (λ b. clean.new ≡ slice_set clean.old chunk (Some b)) }
    ensures saved { IfOk result (λ b. IsChunkAt words.new.items cells.now chunk b) }
    ensures err { OnErr result (clean.new ≡ clean.old) }
{
    if let Some(clean) = clean[chunk] {
        return Ok(clean);
    }
    if is_same_chunk(words, base, cells, 64 * chunk) {
        clean[chunk] = Some(base);
        return Ok(base);
    }
    let end = words.len();
    make_room(words)?;
    words.extend_from_slice(&cells[64 * chunk..64 * chunk + 64])?;
    clean[chunk] = Some(end);
    Ok(end)
}

/// Gives the array the chunks of words at `bases`.
fn load_all(words: &[u32], bases: &[u32], cells: &mut [u32], clean: &mut [Option<usize>])
    requires within { AreWithin words.now bases.now }
    requires long { length cells.old ≡ 64 * length clean.old }
    requires kept { AreClean words.now cells.old clean.old }
    ensures kept { AreClean words.now cells.new clean.new }
    ensures loaded { AreSame words.now bases.now cells.new 0 (length cells.old) }
{
    for chunk in 0..clean.len() {
        load_chunk(words, base_of(bases, chunk), cells, clean, chunk);
    }
}

/// Returns where the chunks of the array are among the words. Adds the chunks that aren't there yet.
fn save_all<A: Allocator + Copy>(
    alloc: A,
    words: &mut Vec<u32, A>,
    old: &[u32],
    cells: &[u32],
    clean: &mut [Option<usize>],
) -> Result<Vec<u32, A>, AllocError>
    requires within { AreWithin words.old.items old.now }
    requires long { length cells.now ≡ 64 * length clean.old }
    requires kept { AreClean words.old.items cells.now clean.old }
    ensures words { AreMoreWords words.old.items words.new.items }
    ensures kept { AreClean words.new.items cells.now clean.new }
    ensures saved { IfOk result (λ bases. AreBases words.new.items cells.now bases.items (length clean.old)) }
{
    let mut bases = Vec::with_capacity(alloc, clean.len())?;
    for chunk in 0..clean.len() {
        let base = save_chunk(words, base_of(old, chunk), cells, clean, chunk)?;
        let Ok(base) = u32::try_from(base) else {
            return Err(AllocError);
        };
        bases.push(base)?;
    }
    Ok(bases)
}

/// Returns the first position from `from` on at which the array differs from the chunks of words at `bases`.
fn first_difference(
    words: &[u32],
    bases: &[u32],
    cells: &[u32],
    clean: &[Option<usize>],
    from: usize,
) -> Option<usize>
    requires within { AreWithin words.now bases.now }
    requires long { length cells.now ≡ 64 * length clean.now }
    requires kept { AreClean words.now cells.now clean.now }
    ensures { MatchOption result (AreSame words.now bases.now cells.now from (length cells.now))
        (λ i. IsFirstDifference words.now bases.now cells.now from i) }
{
    for chunk in from / 64..clean.len() {
        let base = base_of(bases, chunk);
        if clean[chunk] == Some(base) {
            continue;
        }
        let found = difference_in(words, base, cells, 64 * chunk, from);
        if found.is_some() {
            return found;
        }
    }
    None
}

/// Returns `count` empty lists.
fn empty_rows<A: Allocator + Copy>(
    alloc: A,
    count: usize,
) -> Result<Vec<Vec<u32, A>, A>, AllocError>
    ensures count { IfOk result (λ rows. length rows.items ≡ count) }
    ensures empty { IfOk result (λ rows. (k : ℕ) → get_or (map (λ b. b.items) rows.items) k [] ≡ []) }
{
    let mut rows = Vec::with_capacity(alloc, count)?;
    while rows.len() < count {
        rows.push(Vec::new(alloc))?;
    }
    Ok(rows)
}

impl<A: Allocator + Copy> Versions<A> {
    /// Returns an array of zeros, of `size` positions and rounded up to a chunk, with `count` saved copies of zeros.
    pub fn new(alloc: A, count: usize, size: usize) -> Result<Versions<A>, AllocError>
        requires { size < 2 ^ 62 }
        ensures long { IfOk result (λ v. length v.cells ≡ 64 * (size / 64 + 1)) }
        ensures count { IfOk result (λ v. length v.saved ≡ count) }
        ensures cells { IfOk result (λ v. (i : ℕ) → number_in_cell v i ≡ 0) }
        ensures saved { IfOk result (λ v. (k i : ℕ) → saved_at v k i ≡ 0) }
    {
        let chunks = size / 64 + 1;
        let words = zero_chunk(alloc)?;
        let cells = Vec::from_elem(alloc, 0, 64 * chunks)?;
        let clean = Vec::from_elem(alloc, Some(0), chunks)?;
        let saved = empty_rows(alloc, count)?;
        Ok(Versions {
            words,
            saved,
            cells,
            clean,
            alloc,
        })
    }

    /// Returns how many saved copies there are.
    pub fn count(&self) -> usize
        ensures { result ≡ length self.now.saved }
    {
        self.saved.len()
    }

    /// Returns how many positions there are.
    pub fn len(&self) -> usize
        ensures { result ≡ length self.now.cells }
    {
        self.cells.len()
    }

    /// Returns the number at `position`.
    pub fn get(&self, position: usize) -> u32
        requires { position < length self.now.cells }
        ensures { result ≡ number_in_cell self.now position }
    {
        self.cells[position]
    }

    /// Writes `number` at `position`.
    pub fn set(&mut self, position: usize, number: u32)
        requires { position < length self.old.cells }
        ensures { self.new ≡ record self.old { cells = slice_set self.old.cells position number } }
    {
        // A write that changes nothing doesn't mark the chunk as written, so the chunk keeps its base.
        if self.cells[position] == number {
            return;
        }
        self.cells[position] = number;
        self.clean[position / 64] = None;
    }

    /// Returns the number at `position` of the saved `copy`.
    pub fn saved(&self, copy: usize, position: usize) -> u32
        requires { copy < length self.now.saved }
        ensures { result ≡ saved_at self.now copy position }
    {
        let base = base_of(&self.saved[copy], position / 64);
        self.words[base + position % 64]
    }

    /// Returns whether `copy` was never saved.
    pub fn is_unsaved(&self, copy: usize) -> bool
        requires { copy < length self.now.saved }
        ensures { OnTrue result (get_or self.now.saved copy [] ≡ []) }
    {
        self.saved[copy].is_empty()
    }

    /// Returns whether the words begin with a chunk of zeros. Each copy that was never saved has zeros.
    pub fn begins_with_zeros(&self) -> bool
        ensures { OnTrue result ((k i : ℕ) → get_or self.now.saved k [] ≡ [] → saved_at self.now k i ≡ 0) }
    {
        begins_with_zeros(&self.words)
    }

    /// Gives the array the numbers of the saved `copy`.
    pub fn load(&mut self, copy: usize)
        requires { copy < length self.old.saved }
        ensures words { self.new.words ≡ self.old.words }
        ensures saved { self.new.saved ≡ self.old.saved }
        ensures long { length self.new.cells ≡ length self.old.cells }
        ensures loaded { (i : ℕ) → i < length self.new.cells → number_in_cell self.new i ≡ saved_at self.old copy i }
    {
        load_all(
            &self.words,
            &self.saved[copy],
            &mut self.cells,
            &mut self.clean,
        );
    }

    /// Saves the numbers of the array as `copy`.
    pub fn save(&mut self, copy: usize) -> Result<(), AllocError>
        requires { copy < length self.old.saved }
        ensures cells { self.new.cells ≡ self.old.cells }
        ensures count { length self.new.saved ≡ length self.old.saved }
        ensures others { (k i : ℕ) → (k ≡ copy → ⊥) → i < length self.old.cells → saved_at self.new k i ≡ saved_at self.old k i }
        ensures saved { OnOk result ((i : ℕ) → i < length self.old.cells → saved_at self.new copy i ≡ number_in_cell self.old i) }
        ensures err { OnErr result ((i : ℕ) → i < length self.old.cells → saved_at self.new copy i ≡ saved_at self.old copy i) }
    {
        let bases = save_all(
            self.alloc,
            &mut self.words,
            &self.saved[copy],
            &self.cells,
            &mut self.clean,
        )?;
        self.saved[copy] = bases;
        Ok(())
    }

    /// Returns the first position from `from` on at which the array differs from the saved `copy`.
    pub fn next_difference(&self, copy: usize, from: usize) -> Option<usize>
        requires { copy < length self.now.saved }
        ensures { MatchOption result (AreSameBetween self.now copy from (length self.now.cells))
            (λ i. (from ≤ i) × (i < length self.now.cells) × (number_in_cell self.now i ≢ saved_at self.now copy i) × AreSameBetween self.now copy from i) }
    {
        first_difference(
            &self.words,
            &self.saved[copy],
            &self.cells,
            &self.clean,
            from,
        )
    }
}
