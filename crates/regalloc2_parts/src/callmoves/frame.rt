//! The registers and slots of a frame that the moves of a call may use.

ghost use Rattle.std.specs.Prelude.{◌≤◌};
ghost use Rattle.regalloc2_names.specs.Place.{slot_limit};
ghost use Rattle.regalloc2_parts.specs.Callmoves.CallMoves.{IsPoolOf};
ghost use Rattle.regalloc2_parts.specs.Callmoves.Frame.{IsRegisterAt, IsSlotAt};

use super::CallFrame;
use crate::scratch_pool::{ScratchPair, ScratchPool};
use regalloc2_names::{Allocation, SpillSlot};
use std::alloc::Allocator;

/// The free register of `index`, if it exists.
fn register_at<A: Allocator>(frame: &CallFrame<A>, index: usize) -> Option<Allocation>
    ensures { IsRegisterAt frame.now index result }
{
    if index < frame.free_regs.len() {
        Some(Allocation::reg(frame.free_regs[index]))
    } else {
        None
    }
}

/// The slot of the range that is `index` after its start, if it exists.
fn slot_at<A: Allocator>(frame: &CallFrame<A>, index: usize) -> Option<Allocation>
    requires range { frame.now.slots.start ≤ frame.now.slots.«end» }
    requires small { frame.now.slots.«end» ≤ slot_limit }
    requires near { index ≤ 1 }
    ensures { IsSlotAt frame.now index result }
{
    let slot = frame.slots.start + index;
    if slot < frame.slots.end {
        Some(Allocation::stack(SpillSlot::new(slot)))
    } else {
        None
    }
}

/// The scratch places for the moves of `frame`: at most two registers and two slots are needed. The
/// borrowed register is none of these registers, because its value is needed.
pub(super) fn scratch_pool<A: Allocator>(frame: &CallFrame<A>) -> ScratchPool
    requires range { frame.now.slots.start ≤ frame.now.slots.«end» }
    requires small { frame.now.slots.«end» ≤ slot_limit }
    ensures { IsPoolOf frame.now result }
{
    ScratchPool {
        registers: ScratchPair {
            first: register_at(frame, 0),
            second: register_at(frame, 1),
        },
        slots: ScratchPair {
            first: slot_at(frame, 0),
            second: slot_at(frame, 1),
        },
        fixed_stack: frame.stack_pregs,
        borrowed: frame.borrowed,
    }
}
