//! Tables with entries for the requested vregs alone, since few are requested and entries are long.
//! A list by number gives the index of each number's entry in a table.

ghost use Rattle.std.specs.Prelude.{ℕ, ◌≡◌, ◌≢◌, ◌<◌, length, set, slice_index_or, IfOk, None, Some};
ghost use Rattle.regalloc2_index.specs.Range.{number_limit};
ghost use Rattle.regalloc2_analysis.specs.LiveRanges.Entries.{AreEntryIndexes, HasEntry, IsApart, spread};

use crate::marks::is_marked;
use std::alloc::{AllocError, Allocator};

/// Returns the entry for `number`, or `None` if `indexes` has no index in `table` for it.
pub fn entry<T: Copy>(table: &[Option<T>], indexes: &[u32], number: usize) -> Option<T>
    ensures { result ≡ slice_index_or (spread indexes.now table.now) number None }
{
    if number < indexes.len() && (indexes[number] as usize) < table.len() {
        table[indexes[number] as usize]
    } else {
        None
    }
}

/// Sets the entry for `number` to `value`, if `indexes` has an index in `table` for it.
pub fn set_entry<T: Copy>(table: &mut [Option<T>], indexes: &[u32], number: usize, value: T)
    requires { IsApart indexes.now (length table.old) }
    ensures here { HasEntry indexes.now number (length table.old) → spread indexes.now table.new ≡ set (spread indexes.now table.old) number (Some value) }
    ensures others { (n : ℕ) → n ≢ number →
        slice_index_or (spread indexes.now table.new) n None ≡ slice_index_or (spread indexes.now table.old) n None }
{
    if number < indexes.len() && (indexes[number] as usize) < table.len() {
        table[indexes[number] as usize] = Some(value);
    }
}

/// Returns the indexes of `num` numbers in a table of the requested numbers, and how many numbers are
/// requested. The index of a number that isn't requested is past the table's end.
pub fn indexes_of<A: Allocator + Copy>(
    alloc: A,
    wanted: &[bool],
    num: usize,
) -> Result<(Vec<u32, A>, usize), AllocError>
    requires { num < number_limit }
    ensures len { IfOk result (λ r. length r.0.items ≡ num) }
    ensures indexes { IfOk result (λ r. AreEntryIndexes wanted.now r.0.items r.1) }
{
    let mut indexes = Vec::with_capacity(alloc, num)?;
    let mut count = 0;
    for number in 0..num {
        if is_marked(wanted, number) {
            indexes.push(count as u32)?;
            count += 1;
        } else {
            indexes.push(num as u32)?;
        }
    }
    Ok((indexes, count))
}
