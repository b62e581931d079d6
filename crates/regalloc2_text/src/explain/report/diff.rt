//! How two allocations of one function differ.

use crate::explain::report::operand::ReportedOperand;
use crate::explain::stored::{operands_at, places_of};
use crate::spell::{MoveText, StoredMove, StoredPlace, StoredPoint};
use regalloc2_function::StoredOutput;
use regalloc2_names::Allocation;
use regalloc2_serialize::StoredFunction;
use std::io::{self, Write};

/// Returns how many moves at the beginning of `moves` are at `point`.
fn count_at(moves: &[StoredMove], point: u32) -> usize {
    for (k, (at, _, _)) in moves.iter().enumerate() {
        if *at != point {
            return k;
        }
    }
    moves.len()
}

/// Returns the moves at the beginning of `moves` that are at `point`, and the moves after them.
fn split_point(moves: &[StoredMove], point: u32) -> (&[StoredMove], &[StoredMove]) {
    moves
        .split_at_checked(count_at(moves, point))
        .unwrap_or((moves, &[]))
}

/// Returns the smaller of the points at which `first` and `second` begin, if one of them has a move.
fn next_point(first: &[StoredMove], second: &[StoredMove]) -> Option<u32> {
    match (first.first(), second.first()) {
        (Some(one), Some(other)) => Some(one.0.min(other.0)),
        (Some(one), None) => Some(one.0),
        (None, Some(other)) => Some(other.0),
        (None, None) => None,
    }
}

/// Writes `moves`, which only one side has, a line for each that begins with `sign`.
fn write_moves<W: Write>(sign: &str, moves: &[StoredMove], to: &mut W) -> io::Result<()> {
    for (point, from, into) in moves {
        let point = StoredPoint(*point);
        let places = MoveText(*from, *into);
        writeln!(to, "{sign} {point} {places}")?;
    }
    Ok(())
}

/// Writes how `first` and `second`, the moves at one point, differ. Returns whether they do.
fn diff_point<W: Write>(
    first: &[StoredMove],
    second: &[StoredMove],
    to: &mut W,
) -> io::Result<bool> {
    if first == second {
        return Ok(false);
    }
    write_moves("-", first, to)?;
    write_moves("+", second, to)?;
    Ok(true)
}

/// Writes how the moves `first` and `second` differ, point by point. Returns whether they do.
fn diff_moves<W: Write>(
    first: &[StoredMove],
    second: &[StoredMove],
    to: &mut W,
) -> io::Result<bool> {
    let mut differs = false;
    let mut left = first;
    let mut right = second;
    // each turn passes a move or more
    for _ in 0..first.len().saturating_add(second.len()) {
        let Some(point) = next_point(left, right) else {
            break;
        };
        let (here, after) = split_point(left, point);
        let (there, behind) = split_point(right, point);
        differs = diff_point(here, there, to)? || differs;
        left = after;
        right = behind;
    }
    Ok(differs)
}

/// Writes how the places of the operands of `inst` in `first` and `second` differ. Returns whether they do.
fn diff_inst<W: Write>(
    function: &StoredFunction,
    first: &StoredOutput,
    second: &StoredOutput,
    inst: usize,
    to: &mut W,
) -> io::Result<bool> {
    let none = Allocation::none().bits();
    let mut differs = false;
    let left = places_of(first, inst);
    let right = places_of(second, inst);
    for (k, operand) in operands_at(function, inst).iter().enumerate() {
        let here = left.get(k).copied().unwrap_or(none);
        let there = right.get(k).copied().unwrap_or(none);
        if here != there {
            let operand = ReportedOperand(*operand);
            let here = StoredPlace(here);
            let there = StoredPlace(there);
            writeln!(to, "  inst{inst} {operand}: {here}, {there}")?;
            differs = true;
        }
    }
    Ok(differs)
}

/// Writes how the outputs `first` and `second` of `function` differ. Returns whether they do.
///
/// Writes the operands with their places in `first` and `second`, then the moves, `-` if only `first` has it and `+`
/// if only `second` has it, and the slots. Linear in the function and the outputs.
pub fn write_diff<W: Write>(
    function: &StoredFunction,
    first: &StoredOutput,
    second: &StoredOutput,
    to: &mut W,
) -> io::Result<bool> {
    let mut differs = false;
    for inst in 0..function.insts.len() {
        differs = diff_inst(function, first, second, inst, to)? || differs;
    }
    let has_moved = diff_moves(first.edits.as_slice(), second.edits.as_slice(), to)?;
    let slots = (first.num_spillslots, second.num_spillslots);
    if slots.0 != slots.1 {
        let (here, there) = slots;
        writeln!(to, "  slots: {here}, {there}")?;
        return Ok(true);
    }
    Ok(differs || has_moved)
}
