//! The sets of an array, once parameters took what their arguments had.

ghost use Rattle.std.specs.Prelude.{◌≡◌, ℕ, ◌<◌, ◌≤◌, ◌^◌, false, length, get_or, min, IfOk};
ghost use Rattle.regalloc2_function.specs.Numbers.{has_number};
ghost use Rattle.regalloc2_checker_sets.specs.EntrySets.{is_member, taken_from, AreMore, AreNoted, IsPassedOf, IsSetOf};
ghost use Rattle.regalloc2_checker_sets.specs.Held.{AreBelow};
ghost use Rattle.regalloc2_checker_sets.specs.SavedNumbers.{number_now};
ghost use Rattle.regalloc2_checker_sets.specs.PassedSets.{ArePassed};

use crate::entries::Entries;
use crate::notes::Notes;
use crate::sets::Sets;
use regalloc2_function::indexset::IndexSet;
use std::alloc::{AllocError, Allocator};

/// Returns the number of the set in which each parameter is a member if its argument is a member of `set`. The set is
/// noted.
fn passed_set<A: Allocator + Copy>(
    alloc: A,
    sets: &mut Sets<A>,
    noted: &mut Notes<A>,
    set: u32,
    params: &[u32],
    arguments: &[u32],
) -> Result<u32, AllocError>
    requires set { set < length sets.old }
    requires noted { AreNoted (IsPassedOf params.now arguments.now (min (length params.now) (length arguments.now)) sets.old) noted.old }
    ensures more { AreMore sets.old sets.new }
    ensures noted { AreNoted (IsPassedOf params.now arguments.now (min (length params.now) (length arguments.now)) sets.new) noted.new }
    ensures found { IfOk result (λ n. IsSetOf sets.new n
        (λ y. is_member sets.old set (taken_from params.now arguments.now (min (length params.now) (length arguments.now)) y))) }
{
    if let Some(number) = noted.find(set, 0) {
        return Ok(number);
    }
    let number = sets.passed(set, params, arguments)?;
    noted.note(alloc, set, 0, number)?;
    Ok(number)
}

/// Returns the numbers of the array's sets once each parameter is a member where its argument was. Equal sets are changed
/// once.
pub fn passed_numbers<A: Allocator + Copy>(
    alloc: A,
    entries: &Entries<A>,
    sets: &mut Sets<A>,
    params: &[u32],
    arguments: &[u32],
) -> Result<Vec<u32, A>, AllocError>
    requires { AreBelow sets.old entries.now }
    ensures more { AreMore sets.old sets.new }
    ensures passed { IfOk result (λ numbers. ArePassed params.now arguments.now (min (length params.now) (length arguments.now))
        sets.old entries.now sets.new numbers.items (length entries.now.cells)) }
{
    let mut noted = Notes::new(alloc);
    let mut numbers = Vec::with_capacity(alloc, entries.len())?;
    for position in 0..entries.len() {
        let set = entries.get(position);
        let number = passed_set(alloc, sets, &mut noted, set, params, arguments)?;
        numbers.push(number)?;
    }
    Ok(numbers)
}

/// Returns the positions at which the array differs from `numbers`.
pub fn changed_positions<A: Allocator + Copy>(
    alloc: A,
    entries: &Entries<A>,
    numbers: &[u32],
) -> Result<IndexSet<A>, AllocError>
    requires long { length numbers.now ≡ length entries.now.cells }
    requires few { length numbers.now ≤ 2 ^ 38 }
    ensures { IfOk result (λ changed. (i : ℕ) → i < length numbers.now → has_number changed i ≡ false
        → get_or numbers.now i 0 ≡ number_now entries.now i) }
{
    let mut changed = IndexSet::new(alloc);
    for position in 0..numbers.len() {
        if numbers[position] == entries.get(position) {
            continue;
        }
        changed.set(position, true)?;
    }
    Ok(changed)
}
