//! The debug locations of an output: where the values of labelled vregs are located.

ghost use Rattle.std.specs.Prelude.{◌≡◌, All, IfErr, IfOk, map};
ghost use Rattle.regalloc2_function.specs.Stored.{location_of};
ghost use Rattle.regalloc2_fastalloc.specs.BeforeSteps.{IsBeforeLocating};
ghost use Rattle.regalloc2_fastalloc.specs.DebugLocations.{AreLocated, HasPlace, location_shown, place_shown};

use regalloc2_analysis::live_ranges::{KeptLabel, LiveRange, kept_labels_by};
use regalloc2_fastalloc_state::spillslots::SpillSlots;
use regalloc2_function::Function;
use regalloc2_names::{Allocation, ProgPoint, RegAllocError};
use std::alloc::Allocator;

/// Returns the place that shows a vreg's value over `range`: the vreg's slot if it has one, else
/// the place of the operand that `range` names.
fn place_of<B: Allocator>(
    range: LiveRange,
    slots: &SpillSlots<B>,
    offsets: &[u32],
    allocs: &[Allocation],
) -> Allocation
    requires { HasPlace slots.now offsets.now allocs.now range }
    ensures { result ≡ place_shown slots.now offsets.now allocs.now range }
{
    let slot = slots.find_spillslot(range.vreg);
    match range.by {
        Some(by) if slot.is_none() => allocs[offsets[by.inst.index()] as usize + by.index],
        _ => slot,
    }
}

/// Returns the debug location of the label `kept`.
fn location<B: Allocator>(
    kept: KeptLabel,
    slots: &SpillSlots<B>,
    offsets: &[u32],
    allocs: &[Allocation],
) -> (u32, ProgPoint, ProgPoint, Allocation)
    requires { HasPlace slots.now offsets.now allocs.now kept.range }
    ensures { location_of result ≡ location_shown slots.now offsets.now allocs.now kept }
{
    let place = place_of(kept.range, slots, offsets, allocs);
    (kept.label, kept.range.first, kept.range.last, place)
}

/// Returns the debug locations of the labels `kept`, in their order.
fn locate<A: Allocator, B: Allocator>(
    alloc: A,
    kept: &[KeptLabel],
    slots: &SpillSlots<B>,
    offsets: &[u32],
    allocs: &[Allocation],
) -> Result<Vec<(u32, ProgPoint, ProgPoint, Allocation), A>, RegAllocError>
    requires { All (λ k. HasPlace slots.now offsets.now allocs.now k.range) kept.now }
    ensures ok { IfOk result (λ ds. map location_of ds.items ≡ map (location_shown slots.now offsets.now allocs.now) kept.now) }
    ensures err { IfErr result (λ e. e ≡ RegAllocError.Memory) }
{
    let mut locations = Vec::with_capacity(alloc, kept.len())?;
    for label in kept {
        locations.push(location(*label, slots, offsets, allocs))?;
    }
    Ok(locations)
}

/// Returns the debug locations of a function whose walk left `slots` and the places `allocs`: one
/// for each kept label, by rising label, and as listed where labels are equal.
pub fn locations<A: Allocator + Copy, F: Function, B: Allocator>(
    alloc: A,
    f: &F,
    slots: &SpillSlots<B>,
    offsets: &[u32],
    allocs: &[Allocation],
    wanted: &[bool],
    listed: &[u32],
) -> Result<Vec<(u32, ProgPoint, ProgPoint, Allocation), A>, RegAllocError>
    requires { IsBeforeLocating (F.function f.now) slots.now offsets.now allocs.now wanted.now listed.now }
    ensures ok { IfOk result (λ ds. AreLocated (F.function f.now) slots.now offsets.now allocs.now (map location_of ds.items)) }
    ensures err { IfErr result (λ e. e ≡ RegAllocError.Memory) }
{
    let kept = kept_labels_by(alloc, f, wanted, listed)?;
    let mut locations = locate(alloc, &kept, slots, offsets, allocs)?;
    locations.sort_by_key(|location| location.0)?;
    Ok(locations)
}
