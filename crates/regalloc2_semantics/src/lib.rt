//! What the theorem on the allocator speaks of, and its laws.
//!
//! `specs/` has the definitions, in reading order: paths, both runs, faithful outputs, numbers under an
//! interpretation, places and slots, live vregs, debug points. Each function is a lemma function: its contract is a
//! lemma.
#![tactic(auto)]

ghost use Rattle.regalloc2_semantics.specs.Laws.{AgreeingReadsFindEarlier, ReadsAgreeWhereNumbersDo, WellFormedReadEarlier};

mod laws;
pub mod values;

pub use laws::{agrees_where_numbers_do, finds_earlier_writes, reads_the_same_numbers};

/// Lemma: in a well-formed function each use that finds a write finds a write of an earlier step.
/// Both runs therefore read numbers that an interpretation gives. If every use finds a write, and
/// both runs read the same numbers whatever the instructions compute, reads agree on every path.
pub fn reads_earlier_where_well_formed()
    ensures earlier { WellFormedReadEarlier }
    ensures defined { AgreeingReadsFindEarlier }
    ensures agree { ReadsAgreeWhereNumbersDo }
{
    finds_earlier_writes();
    agrees_where_numbers_do();
}
