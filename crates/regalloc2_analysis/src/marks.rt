//! Tables of flags by number: of vregs, of blocks, of steps.

ghost use Rattle.std.specs.Prelude.{◌≡◌, ℕ, true, false, length, slice_index_or, IfOk};
ghost use Rattle.regalloc2_function.specs.Inside.MarkedNumbers.{Marks};

use std::alloc::{AllocError, Allocator};

/// Returns a table of `len` numbers, none marked.
pub fn no_marks<A: Allocator + Copy>(alloc: A, len: usize) -> Result<Vec<bool, A>, AllocError>
    ensures len { IfOk result (λ v. length v.items ≡ len) }
    ensures none { IfOk result (λ v. (n : ℕ) → slice_index_or v.items n false ≡ false) }
{
    Vec::from_elem(alloc, false, len)
}

/// Marks `number`, unless it is past the table's end.
#[inline(always)]
pub fn mark(marks: &mut [bool], number: usize)
    ensures { Marks (λ n. number ≡ n) marks.old marks.new }
{
    if number < marks.len() {
        marks[number] = true;
    }
}

/// Returns `true` if `number` is marked. No number past the table's end is marked.
#[inline(always)]
pub fn is_marked(marks: &[bool], number: usize) -> bool
    ensures { result ≡ slice_index_or marks.now number false }
{
    number < marks.len() && marks[number]
}
