//! The parts of stored functions and outputs, and texts of classes and counts.

ghost use Rattle.std.specs.Prelude.{Some};
ghost use Rattle.regalloc2_text.specs.Explain.FaultText.{class_word, counted_text};

use crate::named::{has_register, list_at, places_at, point_at};
use crate::spell::StoredMove;
use regalloc2_function::StoredOutput;
use regalloc2_names::{InstPosition, PReg, ProgPoint, RegClass};
use regalloc2_serialize::{StoredFunction, StoredMachine};
use std::fmt;

/// Returns the encodings of the operands of `inst`; none if the function has no such instruction.
pub(crate) fn operands_at(function: &StoredFunction, inst: usize) -> &[u64] {
    match function.insts.get(inst) {
        Some(data) => data.operands.as_slice(),
        None => &[],
    }
}

/// Returns the first instruction of `block`, and the instruction at which the block ends.
pub(crate) fn range_of(function: &StoredFunction, block: usize) -> (usize, usize) {
    match function.blocks.get(block) {
        Some((first, end)) => (*first as usize, *end as usize),
        None => (0, 0),
    }
}

/// Returns the arguments that `block` passes to its successor at `position`.
pub(crate) fn arguments_of(function: &StoredFunction, block: usize, position: usize) -> &[u32] {
    match function.block_params_out.get(block) {
        Some(lists) => list_at(lists.as_slice(), position),
        None => &[],
    }
}

/// Returns the block that holds `inst`, if a block does.
pub(crate) fn block_of(function: &StoredFunction, inst: usize) -> Option<usize> {
    for (block, (first, end)) in function.blocks.iter().enumerate() {
        if *first as usize <= inst && inst < *end as usize {
            return Some(block);
        }
    }
    None
}

/// Returns the places of the operands of `inst`.
pub(crate) fn places_of(output: &StoredOutput, inst: usize) -> &[u32] {
    places_at(
        output.allocs.as_slice(),
        output.inst_alloc_offsets.as_slice(),
        inst,
    )
}

/// Returns the moves at `point` and after it. `moves` are sorted by points.
pub(crate) fn moves_from(moves: &[StoredMove], point: ProgPoint) -> &[StoredMove] {
    let number = point.to_index();
    let begin = moves.partition_point(|(at, _, _)| *at < number);
    moves.get(begin..).unwrap_or(&[])
}

/// Returns the point before `inst`, or the invalid point, which is past all others, if no instruction has this number.
pub(crate) fn point_before(inst: usize) -> ProgPoint {
    point_at(inst, InstPosition::Before).unwrap_or(ProgPoint::invalid())
}

/// Returns the point after `inst`, or the invalid point, which is past all others, if no instruction has this number.
pub(crate) fn point_after(inst: usize) -> ProgPoint {
    point_at(inst, InstPosition::After).unwrap_or(ProgPoint::invalid())
}

/// Returns whether `register` is in the list of its own class.
fn is_listed(lists: &[Vec<u8>], register: PReg) -> bool {
    match lists.get(register.class().code()) {
        Some(list) => has_register(list.as_slice(), register),
        None => false,
    }
}

/// Returns whether `register` is listed to be allocated for its own class.
pub(crate) fn is_allocatable(machine: &StoredMachine, register: PReg) -> bool {
    is_listed(machine.preferred_regs_by_class.as_slice(), register)
        || is_listed(machine.non_preferred_regs_by_class.as_slice(), register)
}

/// A class as a text names it.
#[derive(Clone, Copy)]
pub(crate) struct ClassName(pub RegClass);

impl fmt::Display for ClassName {
    ghost output = { λ t. Some (class_word t.0) };

    fn fmt<W: fmt::Write>(&self, f: &mut fmt::Formatter<W>) -> fmt::Result {
        f.write_str(match self.0 {
            RegClass::Int => "int",
            RegClass::Float => "float",
            RegClass::Vector => "vector",
        })
    }
}

/// A count with its noun, as `1 register` or `2 registers`.
#[derive(Clone, Copy)]
pub(crate) struct Counted(pub usize, pub &'static str);

impl fmt::Display for Counted {
    ghost output = { λ t. Some (counted_text t.0 t.1.now) };

    fn fmt<W: fmt::Write>(&self, f: &mut fmt::Formatter<W>) -> fmt::Result {
        let Counted(count, noun) = self;
        let ending = if *count == 1 { "" } else { "s" };
        write!(f, "{count} {noun}{ending}")
    }
}
