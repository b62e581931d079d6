//! Drops the sets that no table has, and gives the others new numbers.

ghost use Rattle.std.specs.Prelude.{◌≡◌, ℕ, ◌+◌, ◌<◌, ◌≤◌, ◌⊎◌, true, false, length, get_or, Contains, OnOk};
ghost use Rattle.regalloc2_checker_sets.specs.Renumbering.{renamed, IsMarked, AppearsIn, AreOfSets, HaveSameMembers};
ghost use Rattle.regalloc2_checker_sets.specs.EntrySets.{IsSetOf};

use crate::entries::Entries;
use crate::sets::{FIRST, Sets};
use std::alloc::{AllocError, Allocator};

/// Marks the kept sets whose numbers are in `numbers`.
pub fn note_all(numbers: &[u32], used: &mut [bool])
    ensures long { length used.new ≡ length used.old }
    ensures more { (j : ℕ) → get_or used.old j true ≡ true → get_or used.new j true ≡ true }
    ensures noted { (i : ℕ) → i < length numbers.now → IsMarked used.new (get_or numbers.now i 0) }
    ensures only { (j : ℕ) → get_or used.new j true ≡ true → (get_or used.old j true ≡ true) ⊎ Contains numbers.now (2147483648 + j) }
{
    for i in 0..numbers.len() {
        if numbers[i] < FIRST {
            continue;
        }
        let index = (numbers[i] - FIRST) as usize;
        if index >= used.len() {
            continue;
        }
        used[index] = true;
    }
}

/// Returns the new number of the set `number`, which stays as it is below `FIRST`.
#[inline(always)]
fn renamed(numbers: &[u32], number: u32) -> u32
    ensures { result ≡ renamed numbers.now number }
{
    if number < FIRST {
        return number;
    }
    let index = (number - FIRST) as usize;
    if index < numbers.len() {
        return numbers[index];
    }
    0
}

/// Replaces the numbers of sets in `list` by their new numbers.
pub fn rename_all(list: &mut [u32], numbers: &[u32])
    ensures long { length list.new ≡ length list.old }
    ensures renamed { (i : ℕ) → get_or list.new i 0 ≡ renamed numbers.now (get_or list.old i 0) }
{
    for i in 0..list.len() {
        list[i] = renamed(numbers, list[i]);
    }
}

/// Drops the kept sets whose numbers are neither in an array nor in its saved copies, and gives the others new numbers there.
pub fn drop_unused_sets<A: Allocator + Copy>(
    alloc: A,
    entries: &mut Entries<A>,
    sets: &mut Sets<A>,
) -> Result<(), AllocError>
    requires below { AreOfSets sets.old entries.old }
    requires empty { IsSetOf sets.old 0 (λ y. false) }
    ensures same { HaveSameMembers sets.old entries.old sets.new entries.new }
    ensures used { OnOk result ((n : ℕ) → 2147483648 ≤ n → n < length sets.new → AppearsIn entries.new n) }
{
    let mut used = Vec::from_elem(alloc, false, sets.kept_count())?;
    entries.note_numbers(&mut used);
    let numbers = sets.keep_marked(&used)?;
    entries.renumber(&numbers);
    Ok(())
}
