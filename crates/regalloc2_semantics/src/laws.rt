//! Lemma functions on both runs: each does nothing, and its contract is a lemma.

ghost use Rattle.regalloc2_semantics.specs.Laws.{FaithfulGivesNumbers, ReadsGiveNumbers, NumbersGiveReads, SourceIsEarlier, CellsAreEarlier};
ghost use Rattle.regalloc2_semantics.specs.Laws.{MissingHoldsNothing};

/// A lemma on the runs: each write that is found was made at an earlier step, and a missing place
/// holds nothing.
pub fn finds_earlier_writes()
    ensures source { SourceIsEarlier }
    ensures cells { CellsAreEarlier }
    ensures missing { MissingHoldsNothing }
{}

/// A lemma on the runs: a faithful output reads the function's own numbers, whatever the
/// instructions compute.
pub fn reads_the_same_numbers()
    ensures { FaithfulGivesNumbers }
{}

/// A lemma on the runs: reads agree on every path exactly if both runs read the same numbers,
/// whatever the instructions compute. From the numbers back to the reads, it requires each use to
/// find a write of an earlier step.
pub fn agrees_where_numbers_do()
    ensures numbers { ReadsGiveNumbers }
    ensures reads { NumbersGiveReads }
{}
