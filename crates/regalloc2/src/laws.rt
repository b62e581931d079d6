//! The lemma function that binds the allocator to the checker.

ghost use Rattle.regalloc2.specs.Accepted.{GuaranteedIsAccepted};

use regalloc2_checker::finds_no_error_where_faithful;
use std::alloc::Allocator;

/// A lemma: of a well-formed function in which no path from the entry reads or passes a vreg before writing
/// it, what [`run`](regalloc2_fastalloc::run) guarantees of its outputs is what the checker
/// accepts. They are well-ordered and faithful, and so no errors are found in them.
pub fn accepts_what_is_guaranteed<A: Allocator>()
    ensures { GuaranteedIsAccepted A }
{
    finds_no_error_where_faithful::<A>();
}
