//! Places that are listed once, and where each is listed.

ghost use Rattle.std.specs.Prelude.{◌≡◌, ℕ, ◌<◌, ◌≤◌, ◌==◌, IfOk, length};
ghost use Rattle.std.specs.List.{position};
ghost use Rattle.std.specs.List.Sorted.{IsStrictlyIncreasing};
ghost use Rattle.regalloc2_names.specs.PlaceBits.{bits_of_place};
ghost use Rattle.regalloc2_checker_sets.specs.PlaceEntries.{bits_at, ArePlaceEntries};

use crate::positions::Positions;
use regalloc2_names::Allocation;
use std::alloc::{AllocError, Allocator};
use std::marker::Model;

/// The entry of a place that isn't listed.
const UNLISTED: u32 = u32::MAX;

/// The bits of the first register.
const REGISTERS: u32 = 1 << 29;

/// The bits of the first slot.
const SLOTS: u32 = 2 << 29;

/// How many registers have an entry. The entries of slots follow.
const REGISTER_COUNT: usize = 192;

/// Places, listed once by rising bits. Each register, and each slot below a bound, has an entry: its position, or
/// `UNLISTED`. A look-up compares no bits, because entries are exact.
#[derive(Drop)]
pub struct PlacePositions<A: Allocator> {
    places: Positions<A>,
    entries: Vec<u32, A>,
}

impl<A: Allocator> Model for PlacePositions<A> {
    ghost use Rattle.std.specs.Prelude.{List, ℕ, length};
    ghost use Rattle.std.specs.List.Sorted.{IsStrictlyIncreasing};
    ghost use Rattle.regalloc2_checker_sets.specs.PlaceEntries.{ArePlaceEntries};

    ghost Value = { List ℕ };

    ghost view = { λ p. p.places };

    ghost invariant = { λ p. IsStrictlyIncreasing p.places × ArePlaceEntries p.places (length p.places) p.entries.items };
}

/// Returns the index of a place's entry, by its `bits`. Bits of no register and no slot have an index past all entries.
#[inline(always)]
fn entry_index(bits: u32) -> usize
    ensures here { result < 3221225664 → bits_at result ≡ bits }
    ensures only { (k : ℕ) → k < 3221225664 → bits_at k ≡ bits → result ≡ k }
{
    let register = bits.wrapping_sub(REGISTERS) as usize;
    if register < REGISTER_COUNT {
        return register;
    }
    bits.wrapping_sub(SLOTS) as usize + REGISTER_COUNT
}

/// Returns how many slots get an entry: all up to the last one that is listed, but at most four for each place.
fn slot_count<A: Allocator>(places: &Positions<A>) -> usize
    ensures { result ≤ 3221225472 }
{
    let Some(last) = places.len().checked_sub(1) else {
        return 0;
    };
    let slots = places.number(last).saturating_sub(SLOTS - 1) as usize;
    slots.min(places.len().saturating_mul(4))
}

/// Returns the entries of `places`, or none if a position may not fit into an entry.
fn entries_of<A: Allocator + Copy>(
    alloc: A,
    places: &Positions<A>,
) -> Result<Vec<u32, A>, AllocError>
    ensures { IfOk result (λ entries. ArePlaceEntries places.now (length places.now) entries.items) }
{
    let mut entries = Vec::new(alloc);
    if places.len() >= UNLISTED as usize {
        return Ok(entries);
    }
    entries.resize(REGISTER_COUNT + slot_count(places), UNLISTED)?;
    for position in 0..places.len() {
        let index = entry_index(places.number(position));
        if index < entries.len() {
            entries[index] = position as u32;
        }
    }
    Ok(entries)
}

impl<A: Allocator + Copy> PlacePositions<A> {
    /// Returns the positions of `places`.
    pub fn of(alloc: A, places: Positions<A>) -> Result<PlacePositions<A>, AllocError>
        requires { IsStrictlyIncreasing places }
        ensures { IfOk result (λ p. p ≡ places) }
    {
        let entries = entries_of(alloc, &places)?;
        Ok(PlacePositions { places, entries })
    }

    /// Returns how many places there are.
    pub fn len(&self) -> usize
        ensures { result ≡ length self.now }
    {
        self.places.len()
    }

    /// Returns the position of `place`. A slot past the bound takes a binary search.
    pub fn find(&self, place: Allocation) -> Option<usize>
        ensures { result ≡ position (λ n. n == bits_of_place place) self.now }
    {
        let bits = place.bits();
        let index = entry_index(bits);
        if index >= self.entries.len() {
            return self.places.find(bits, 0);
        }
        let entry = self.entries[index];
        if entry == UNLISTED {
            return None;
        }
        Some(entry as usize)
    }
}
