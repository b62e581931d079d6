//! The last write of a place by instructions and moves in a block.

use crate::explain::stored::{moves_from, operands_at, places_of, point_before};
use crate::named::{operand_of, place_of, point_of, register_of};
use regalloc2_function::StoredOutput;
use regalloc2_names::{Allocation, InstPosition, OperandPos, ProgPoint};
use regalloc2_serialize::StoredFunction;
use std::fmt;

/// What wrote a place last.
#[derive(Clone, Copy)]
pub enum LastWrite {
    /// A definition: the number of its instruction and its index there.
    Definition(usize, usize),
    /// The clobbers of an instruction.
    Clobber(usize),
    /// A move from that place, at that point.
    Move(Allocation, ProgPoint),
}

/// As `written last by inst3`, `clobbered last by inst3` or `written last by a move from p0i before inst3`.
impl fmt::Display for LastWrite {
    fn fmt<W: fmt::Write>(&self, f: &mut fmt::Formatter<W>) -> fmt::Result {
        match self {
            LastWrite::Definition(inst, _) => write!(f, "written last by inst{inst}"),
            LastWrite::Clobber(inst) => write!(f, "clobbered last by inst{inst}"),
            LastWrite::Move(from, point) => {
                let side = match point.pos() {
                    InstPosition::Before => "before",
                    InstPosition::After => "after",
                };
                let inst = point.inst().index();
                write!(f, "written last by a move from {from} {side} inst{inst}")
            }
        }
    }
}

impl LastWrite {
    /// Returns the last program point that isn't behind the write.
    fn point(&self) -> ProgPoint {
        match self {
            LastWrite::Definition(inst, _) | LastWrite::Clobber(inst) => point_before(*inst),
            LastWrite::Move(_, point) => *point,
        }
    }
}

/// Returns the last definition of `inst` that is in `place`. If `pos` is given, only definitions at `pos` count.
fn definition_in(
    function: &StoredFunction,
    output: &StoredOutput,
    inst: usize,
    pos: Option<OperandPos>,
    place: u32,
) -> Option<LastWrite> {
    let places = places_of(output, inst);
    let mut found = None;
    for (k, bits) in operands_at(function, inst).iter().enumerate() {
        let Some(operand) = operand_of(*bits) else {
            continue;
        };
        let is_asked = operand.is_def() && pos.is_none_or(|pos| operand.pos() == pos);
        if is_asked && places.get(k) == Some(&place) {
            found = Some(LastWrite::Definition(inst, k));
        }
    }
    found
}

/// Returns whether `place` encodes the register of `index`.
fn is_register(place: u32, index: u8) -> bool {
    match register_of(index) {
        Some(register) => Allocation::reg(register).bits() == place,
        None => false,
    }
}

/// Returns whether `inst` clobbers `place`.
fn clobbers(function: &StoredFunction, inst: usize, place: u32) -> bool {
    let Some(data) = function.insts.get(inst) else {
        return false;
    };
    for clobber in &data.clobbers {
        if is_register(place, *clobber) {
            return true;
        }
    }
    false
}

/// Returns the last write of `place` by `inst`. Clobbers are overwritten after definitions.
fn write_by(
    function: &StoredFunction,
    output: &StoredOutput,
    inst: usize,
    place: u32,
) -> Option<LastWrite> {
    if clobbers(function, inst, place) {
        return Some(LastWrite::Clobber(inst));
    }
    definition_in(function, output, inst, None, place)
}

/// Returns the last write of `place` by `inst`, whose use at `pos` reads the place.
///
/// Only early definitions are written before an early use reads, but all definitions and clobbers before a late use
/// reads.
pub(crate) fn write_by_reader(
    function: &StoredFunction,
    output: &StoredOutput,
    inst: usize,
    pos: OperandPos,
    place: u32,
) -> Option<LastWrite> {
    match pos {
        OperandPos::Early => definition_in(function, output, inst, Some(pos), place),
        OperandPos::Late => write_by(function, output, inst, place),
    }
}

/// Returns the last write of `place` by the instructions from `first` until `end`.
fn last_by_inst(
    function: &StoredFunction,
    output: &StoredOutput,
    first: usize,
    end: usize,
    place: u32,
) -> Option<LastWrite> {
    for inst in (first..end.min(function.insts.len())).rev() {
        let write = write_by(function, output, inst, place);
        if write.is_some() {
            return write;
        }
    }
    None
}

/// Returns the last move into `place` at the points from `first` until `end`.
fn last_by_move(
    output: &StoredOutput,
    first: ProgPoint,
    end: ProgPoint,
    place: u32,
) -> Option<LastWrite> {
    let mut found = None;
    for (point, source, target) in moves_from(output.edits.as_slice(), first) {
        if *point >= end.to_index() {
            break;
        }
        if *target != place {
            continue;
        }
        if let (Some(at), Some(from)) = (point_of(*point), place_of(*source)) {
            found = Some(LastWrite::Move(from, at));
        }
    }
    found
}

/// Returns the last write of `place` by the instructions from `first` until `end`, and by the moves from the point
/// before `first` until the point `until`.
///
/// The output's moves are sorted by program point. Linear in the instructions and moves of the range.
pub(crate) fn last_between(
    function: &StoredFunction,
    output: &StoredOutput,
    first: usize,
    end: usize,
    until: ProgPoint,
    place: u32,
) -> Option<LastWrite> {
    let by_inst = last_by_inst(function, output, first, end, place);
    let by_move = last_by_move(output, point_before(first), until, place);
    match (by_inst, by_move) {
        (Some(inst), Some(moved)) if moved.point() <= inst.point() => Some(inst),
        (inst, None) => inst,
        (_, moved) => moved,
    }
}
