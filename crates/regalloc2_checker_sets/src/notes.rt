//! Which sets were made of which others.

ghost use Rattle.std.specs.Prelude.{◌≡◌, ◌⊎◌, ℕ, None, Some, [], get_or, IfOk};
ghost use Rattle.regalloc2_checker_sets.specs.declared.notes.Noted.{Noted};

use crate::known::Known;
use std::alloc::{AllocError, Allocator};
use std::marker::Model;

/// The length of `entries` once a set was noted. It grows up to `ROOM`, because a small function notes few sets.
const ROOM_AT_FIRST: usize = 64;

/// The greatest length of `entries`.
const ROOM: usize = 256;

/// A set that was made of the set `from`, and of `other`: bits, or a third set.
#[derive(Clone, Copy, Drop)]
pub struct Noted {
    pub from: u32,
    pub other: u32,
    pub number: u32,
}

/// Sets that were made of others, each at an index that `from` and `other` determine. Of the sets noted at an index, the
/// last one stays.
#[derive(Drop)]
pub struct Notes<A: Allocator> {
    entries: Vec<Option<Noted>, A>,
    /// How often a set was noted.
    count: usize,
}

impl<A: Allocator> Model for Notes<A> {
    ghost use Rattle.std.specs.Prelude.{List, Option};
    ghost use Rattle.regalloc2_checker_sets.specs.declared.notes.Noted.{Noted};

    ghost Value = { List (Option Noted) };

    ghost view = { λ n. n.entries.items };
}

/// Returns a hash of `from` and `other`.
#[inline(always)]
fn hash_of(from: u32, other: u32) -> usize {
    let mixed = from
        .wrapping_mul(0x9e37_79b1)
        .wrapping_add(other.wrapping_mul(0x85eb_ca6b));
    (mixed >> 20) as usize
}

/// Returns room for `room` notes.
fn empty_entries<A: Allocator + Copy>(
    alloc: A,
    room: usize,
) -> Result<Vec<Option<Noted>, A>, AllocError>
    ensures { IfOk result (λ entries. (i : ℕ) (e : Noted) → get_or entries.items i None ≡ Some e → ⊥) }
{
    let entries = Vec::from_elem(alloc, None, room)?;
    Ok(entries)
}

impl<A: Allocator + Copy> Notes<A> {
    /// Returns no notes. Allocates nothing.
    pub fn new(alloc: A) -> Notes<A>
        ensures { result ≡ [] }
    {
        Notes {
            entries: Vec::new(alloc),
            count: 0,
        }
    }

    /// Returns the index of a set with the hash `hash`.
    #[inline(always)]
    fn index_of(&self, hash: usize) -> usize {
        hash & self.entries.len().wrapping_sub(1)
    }

    /// Returns the number of the set that was made of `from` and `other`, if it is noted.
    #[inline(always)]
    pub fn find(&self, from: u32, other: u32) -> Option<u32>
        ensures { (n : ℕ) → result ≡ Some n → (i : ℕ) × (get_or self.now i None ≡ Some (record { from = from; other = other; number = n })) }
    {
        let index = self.index_of(hash_of(from, other));
        if index >= self.entries.len() {
            return None;
        }
        let noted = self.entries[index]?;
        if noted.from == from && noted.other == other {
            return Some(noted.number);
        }
        None
    }

    /// Makes room for one more set. The entries are doubled once half as many sets were noted: each entry is repeated at
    /// the other index that its hash may have in the longer list.
    fn make_room(&mut self, alloc: A) -> Result<(), AllocError>
        ensures { (i : ℕ) (e : Noted) → get_or self.new i None ≡ Some e → (j : ℕ) × (get_or self.old j None ≡ Some e) }
    {
        let len = self.entries.len();
        if self.count < len / 2 || len >= ROOM {
            return Ok(());
        }
        if len > 0 {
            return self.entries.extend_from_within(..);
        }
        self.entries = empty_entries(alloc, ROOM_AT_FIRST)?;
        Ok(())
    }

    /// Notes that the set `number` was made of `from` and `other`.
    pub fn note(&mut self, alloc: A, from: u32, other: u32, number: u32) -> Result<(), AllocError>
        ensures { (i : ℕ) (e : Noted) → get_or self.new i None ≡ Some e
            → ((j : ℕ) × (get_or self.old j None ≡ Some e)) ⊎ (e ≡ record { from = from; other = other; number = number }) }
    {
        self.make_room(alloc)?;
        self.count = self.count.saturating_add(1);
        let index = self.index_of(hash_of(from, other));
        if index < self.entries.len() {
            self.entries[index] = Some(Noted {
                from,
                other,
                number,
            });
        }
        Ok(())
    }
}

/// The sets that are noted: a set with bits put in (`grown`) or taken out (`shrunk`), and the common members of two
/// sets (`met`). The kept sets that are `known` by a hash of their members.
#[derive(Drop)]
pub struct Memo<A: Allocator> {
    pub grown: Notes<A>,
    pub shrunk: Notes<A>,
    pub met: Notes<A>,
    pub known: Known<A>,
}

impl<A: Allocator + Copy> Memo<A> {
    /// Returns a memo of no sets. Allocates nothing.
    pub fn new(alloc: A) -> Memo<A>
        ensures grown { result.grown ≡ [] }
        ensures shrunk { result.shrunk ≡ [] }
        ensures met { result.met ≡ [] }
    {
        Memo {
            grown: Notes::new(alloc),
            shrunk: Notes::new(alloc),
            met: Notes::new(alloc),
            known: Known::new(alloc),
        }
    }
}
