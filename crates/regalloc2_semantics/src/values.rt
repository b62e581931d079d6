//! The main theorem over two plain interpreters: the first keeps a number for each vreg, the second a
//! number for each place.
//!
//! Authors of code generators use the lemma function of this module, and then need neither the names
//! of writes nor paths.

ghost use Rattle.regalloc2_semantics.specs.Alike.{FaithfulRunAlike, WellFormedRunAlike};

use crate::reads_earlier_where_well_formed;

/// Lemma: on a faithful output, the interpreter over places, run step by step with the listed
/// moves, takes the same successor at each branch as the interpreter over vregs, reads the same
/// numbers, and ends when the other ends. Instructions may compute anything from all that was read
/// so far, and branches decide by it. This requires that no use reads what its own instruction
/// writes, as in well-formed functions.
pub fn runs_alike()
    ensures faithful { FaithfulRunAlike }
    ensures well_formed { WellFormedRunAlike }
{
    reads_earlier_where_well_formed();
}
