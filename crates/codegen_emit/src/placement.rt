//! Where the machine keeps the numbers of the allocator's places.

ghost use Rattle.std.specs.Prelude.{◌≡◌};
ghost use Rattle.codegen_emit.specs.Pinned.{slot_place, machine_place, register_at, source_at, frame_slots};

use codegen_machine::{NO_REGISTER, Source};
use regalloc2_names::Allocation;

/// A place of the machine: a register, or a slot of its frame.
#[derive(Clone, Copy)]
pub enum MachinePlace {
    /// The register with that number.
    Register(usize),
    /// The slot with that number.
    Slot(usize),
}

/// The machine's place for one of the allocator's slots.
///
/// The first five are callee-saved registers, none of which the allocator allocates; the frame has
/// the others.
fn slot_place(slot: usize) -> MachinePlace
    ensures { result ≡ slot_place slot }
{
    match slot {
        0 => MachinePlace::Register(3),
        1 => MachinePlace::Register(5),
        2 => MachinePlace::Register(12),
        3 => MachinePlace::Register(13),
        4 => MachinePlace::Register(14),
        _ => MachinePlace::Slot(slot - 5),
    }
}

/// Returns the number of slots in a frame for `slots` slots of the allocator's.
pub fn frame_slots(slots: usize) -> usize
    ensures { result ≡ frame_slots slots }
{
    slots.saturating_sub(5)
}

/// The machine's place for a place of the allocator.
pub fn machine_place(place: Allocation) -> MachinePlace
    ensures { result ≡ machine_place place }
{
    if place.is_stack() {
        return slot_place(place.index());
    }
    match place.as_reg() {
        Some(register) => MachinePlace::Register(register.hw_enc()),
        None => MachinePlace::Register(NO_REGISTER),
    }
}

impl MachinePlace {
    /// Returns the register; a slot is none.
    pub fn register(self) -> usize
        ensures { result ≡ register_at self }
    {
        match self {
            MachinePlace::Register(register) => register,
            MachinePlace::Slot(_) => NO_REGISTER,
        }
    }

    /// Returns the place as a source of a number.
    pub fn source(self) -> Source
        ensures { result ≡ source_at self }
    {
        match self {
            MachinePlace::Register(register) => Source::Register(register),
            MachinePlace::Slot(slot) => Source::Slot(slot),
        }
    }
}
