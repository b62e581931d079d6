//! The slots that places are.

ghost use Rattle.std.specs.Prelude.{◌≡◌, OnOk};
ghost use Rattle.regalloc2_names.specs.Place.{InSlot};
ghost use Rattle.regalloc2_checker.specs.NamedSlots.{AddsSlots};

use crate::named_slots::NamedSlots;
use regalloc2_names::Allocation;
use std::alloc::{AllocError, Allocator};

/// Adds `place` to the slots in `named` if it is a slot, with the `units` that it takes.
pub fn add_slot<A: Allocator>(
    named: &mut NamedSlots<A>,
    place: Allocation,
    units: usize,
) -> Result<(), AllocError>
    ensures { OnOk result (AddsSlots (λ n u. (place ≡ InSlot n) × (u ≡ units)) named.old named.new) }
{
    if place.is_stack() {
        named.add(place.index(), units)?;
    }
    Ok(())
}
