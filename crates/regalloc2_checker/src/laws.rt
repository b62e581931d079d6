//! Lemma functions of the checker.

ghost use Rattle.regalloc2_checker.specs.Facts.{FactsAreTraced, FactsAreExact};
ghost use Rattle.regalloc2_checker.specs.Fixpoint.{FactsAreHeld, FactsHoldBefore, AcceptedIsFaithful};
ghost use Rattle.regalloc2_checker.specs.Report.{NoneWhereFaithful};

use regalloc2_semantics::finds_earlier_writes;
use std::alloc::Allocator;

/// A lemma: facts at the blocks' beginnings of which no edge requires more, and of which each missing fact fails on a
/// path, are exactly the facts that hold on every path. They accept exactly the faithful outputs.
pub fn stands_for_every_path()
    ensures traced { FactsAreTraced }
    ensures exact { FactsAreExact }
    ensures before { FactsHoldBefore }
    ensures held { FactsAreHeld }
    ensures accepted { AcceptedIsFaithful }
{
    finds_earlier_writes();
}

/// A lemma: an output of a structurally valid function (`IsFramed`) has no errors exactly if it is faithful.
pub fn finds_no_error_where_faithful<A: Allocator>()
    ensures { NoneWhereFaithful A }
{}
