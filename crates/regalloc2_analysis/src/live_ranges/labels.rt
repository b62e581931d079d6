//! The labels that lie within the live ranges of their vregs.

ghost use Rattle.std.specs.Prelude.{◌≡◌, ℕ, [], length, IfErr, IfOk, IsOk, MatchOption};
ghost use Rattle.regalloc2_function.specs.FunctionValue.{label_of};
ghost use Rattle.regalloc2_semantics.specs.Debug.{IsKept};
ghost use Rattle.regalloc2_analysis.specs.LiveRanges.LiveRanges.{AreKeptLabels, AreLabelsMarked, AreLiveRanges, IsKeptRange, IsLabelled, IsSSA, IsWanted};
ghost use Rattle.regalloc2_analysis.specs.LiveRanges.Entries.{spread};
ghost use Rattle.regalloc2_analysis.specs.LiveRanges.WalkInvariant.{ListsAdding};

use super::entries::entry;
use super::walk::few_ranges;
use super::wanted::{marked_labels, naming};
use super::{KeptLabel, LiveRange};
use regalloc2_function::Function;
use regalloc2_index::Inst;
use regalloc2_names::{RegAllocError, VReg};
use std::alloc::Allocator;

/// Returns the live range of the vreg of `label`, if the label is kept: if it starts at or after the
/// instruction of the first point, and ends at most one past the instruction of the last point.
fn kept_range<F: Function>(
    f: &F,
    indexes: &[u32],
    ranges: &[Option<LiveRange>],
    label: (VReg, Inst, Inst, u32),
) -> Option<LiveRange>
    requires ssa { IsSSA (F.function f.now) }
    requires ranges { AreLiveRanges (F.function f.now) (IsLabelled (F.function f.now)) (spread indexes.now ranges.now) }
    requires labelled { IsLabelled (F.function f.now) (label_of label).vreg.number }
    ensures { MatchOption result ((start end : ℕ) → IsKept (F.function f.now) (label_of label) start end → ⊥)
        (IsKeptRange (F.function f.now) (label_of label)) }
{
    let (vreg, start, end, _) = label;
    let range = entry(ranges, indexes, vreg.vreg())?;
    let first = range.first.inst().index();
    let last = range.last.inst().index();
    if range.vreg == vreg && first <= start.index() && end.index() <= last + 1 {
        Some(range)
    } else {
        None
    }
}

/// Returns the kept labels of `f`, in listed order.
fn keep_labels<A: Allocator + Copy, F: Function>(
    alloc: A,
    f: &F,
    indexes: &[u32],
    ranges: &[Option<LiveRange>],
) -> Result<Vec<KeptLabel, A>, RegAllocError>
    requires ssa { IsSSA (F.function f.now) }
    requires ranges { AreLiveRanges (F.function f.now) (IsLabelled (F.function f.now)) (spread indexes.now ranges.now) }
    ensures ok { IfOk result (λ ks. AreKeptLabels (F.function f.now) (F.function f.now).labels ks.items) }
    ensures err { IfErr result (λ e. e ≡ RegAllocError.Memory) }
{
    let mut kept = Vec::new(alloc);
    for label in f.debug_value_labels() {
        if let Some(range) = kept_range(f, indexes, ranges, *label) {
            let (_, _, _, label) = *label;
            kept.push(KeptLabel { label, range })?;
        }
    }
    Ok(kept)
}

/// Returns what [`kept_labels`] returns, from a table of the labelled vregs and a list of the
/// instructions that may add something to their live ranges, in order.
///
/// For callers that pass over all operands anyway. `wanted` is the table that [`marked_labels`]
/// returns. `listed` has each instruction that defines a labelled vreg, and each instruction whose
/// operands read a labelled vreg that no later instruction reads or passes as an argument. It may have
/// more. Only the listed instructions and the last instruction of each block are read.
///
/// [`marked_labels`]: super::marked_labels
pub fn kept_labels_by<A: Allocator + Copy, F: Function>(
    alloc: A,
    f: &F,
    wanted: &[bool],
    listed: &[u32],
) -> Result<Vec<KeptLabel, A>, RegAllocError>
    requires ssa { IsSSA (F.function f.now) }
    requires marked { AreLabelsMarked (F.function f.now) wanted.now }
    requires listed { ListsAdding (F.function f.now) (IsWanted wanted.now) listed.now (length listed.now) (length (F.function f.now).insts) }
    ensures ok { IfOk result (λ ks. AreKeptLabels (F.function f.now) (F.function f.now).labels ks.items) }
    ensures none { (F.function f.now).labels ≡ [] → IsOk result }
    ensures err { IfErr result (λ e. e ≡ RegAllocError.Memory) }
{
    if f.debug_value_labels().is_empty() {
        return Ok(Vec::new(alloc));
    }
    let few = few_ranges(alloc, f, wanted, listed)?;
    keep_labels(alloc, f, few.indexes.as_slice(), few.entries.as_slice())
}

/// Returns the debug labels of `f` that are kept, in listed order, each with the live range of its vreg.
///
/// A label is kept where its vreg has a first and a last point, and the label starts at or after
/// the first point's instruction and ends at most one past the last point's, as upstream's
/// `build_debug_info` has it. If the vreg has a spill slot in the end, the slot shows the value;
/// else the place of the operand that `range.by` names does. `range.by` is `None` only if an
/// argument is the last use, and arguments are passed in slots. Has the precondition of
/// [`live_ranges`].
///
/// Live ranges are found only where there are labels, and only for the vregs that these name: for a
/// function without labels nothing is allocated. The only error is `Memory`.
pub fn kept_labels<A: Allocator + Copy, F: Function>(
    alloc: A,
    f: &F,
) -> Result<Vec<KeptLabel, A>, RegAllocError>
    requires { IsSSA (F.function f.now) }
    ensures ok { IfOk result (λ ks. AreKeptLabels (F.function f.now) (F.function f.now).labels ks.items) }
    ensures none { (F.function f.now).labels ≡ [] → IsOk result }
    ensures err { IfErr result (λ e. e ≡ RegAllocError.Memory) }
{
    if f.debug_value_labels().is_empty() {
        return Ok(Vec::new(alloc));
    }
    let wanted = marked_labels(alloc, f)?;
    let named = naming(alloc, f, wanted.as_slice())?;
    kept_labels_by(alloc, f, wanted.as_slice(), named.as_slice())
}
