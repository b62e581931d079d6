//! The values that stored numbers name, and the lists of stored functions and outputs.

use regalloc2_index::Inst;
use regalloc2_names::{Allocation, InstPosition, Operand, PReg, ProgPoint, RegClass, VReg};
use regalloc2_serialize::limits::INST_LIMIT;
use std::alloc::Allocator;

/// Returns the operand that `bits` encode, if they encode one.
pub(crate) fn operand_of(bits: u64) -> Option<Operand> {
    if Operand::is_bits(bits) {
        Some(Operand::from_bits(bits))
    } else {
        None
    }
}

/// Returns the vreg that `bits` encode, if they encode one.
pub(crate) fn vreg_of(bits: u32) -> Option<VReg> {
    if VReg::is_bits(bits) {
        Some(VReg::from_bits(bits))
    } else {
        None
    }
}

/// Returns the register of `index`, if there is one.
pub(crate) fn register_of(index: u8) -> Option<PReg> {
    let index = usize::from(index);
    if PReg::is_index(index) {
        Some(PReg::from_index(index))
    } else {
        None
    }
}

/// Returns whether `index` is the index of a register of `class`.
pub(crate) fn is_register_of(index: u8, class: RegClass) -> bool {
    match register_of(index) {
        Some(register) => register.class() == class,
        None => false,
    }
}

/// Returns the place that `bits` encode, if they encode one.
pub(crate) fn place_of(bits: u32) -> Option<Allocation> {
    if Allocation::is_bits(bits) {
        Some(Allocation::from_bits(bits))
    } else {
        None
    }
}

/// Returns the program point of the number `index`, if there is one.
pub(crate) fn point_of(index: u32) -> Option<ProgPoint> {
    if ProgPoint::is_index(index) {
        Some(ProgPoint::from_index(index))
    } else {
        None
    }
}

/// Returns the point at `pos` of instruction `inst`, if an instruction may have this number.
pub(crate) fn point_at(inst: usize, pos: InstPosition) -> Option<ProgPoint> {
    if inst < INST_LIMIT {
        Some(ProgPoint::new(Inst::new(inst), pos))
    } else {
        None
    }
}

/// Returns whether the index of `register` is among `indexes`.
pub(crate) fn has_register(indexes: &[u8], register: PReg) -> bool {
    indexes.contains(&(register.index() as u8))
}

/// Returns the list `index` of `lists`, or an empty list if there is none.
pub(crate) fn list_at<T, A: Allocator>(lists: &[Vec<T, A>], index: usize) -> &[T] {
    match lists.get(index) {
        Some(list) => list.as_slice(),
        None => &[],
    }
}

/// Returns the places of `inst` among `places`. `offsets` has where the places of each instruction begin.
pub(crate) fn places_at<'a>(places: &'a [u32], offsets: &[u32], inst: usize) -> &'a [u32] {
    let Some(start) = offsets.get(inst) else {
        return &[];
    };
    let end = match offsets.get(inst.saturating_add(1)) {
        Some(next) => *next as usize,
        None => places.len(),
    };
    places.get(*start as usize..end).unwrap_or(&[])
}
