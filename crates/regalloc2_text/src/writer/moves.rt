//! Moves beside their instructions.

ghost use Rattle.std.specs.Prelude.{◌<◌, IfSome, length};

use crate::named::{point_at, point_of};
use crate::spell::{MoveText, StoredMove, StoredPoint};
use regalloc2_names::InstPosition;
use std::fmt;

/// Returns whether the points of `moves` never fall, and are points of the first `insts` instructions.
pub(crate) fn run_in_order(moves: &[StoredMove], insts: usize) -> bool {
    let mut before = 0;
    for (point, _, _) in moves {
        if *point < before || !is_point_below(*point, insts) {
            return false;
        }
        before = *point;
    }
    true
}

/// Returns whether `point` is the number of a point of one of the first `insts` instructions.
fn is_point_below(point: u32, insts: usize) -> bool {
    match point_of(point) {
        Some(point) => point.inst().index() < insts,
        None => false,
    }
}

/// Moves that are still to be written, each beside its instruction.
#[derive(Drop)]
pub(crate) struct Moves<'a> {
    rest: &'a [StoredMove],
}

impl<'a> Moves<'a> {
    /// Returns the moves `moves`, which stand beside their instructions.
    pub(crate) fn new(moves: &'a [StoredMove]) -> Moves<'a> {
        Moves { rest: moves }
    }

    /// Takes the next move, if it is at `pos` of `inst`.
    fn next_at(&mut self, inst: usize, pos: InstPosition) -> Option<StoredMove>
        ensures { IfSome result (λ m. length self.new.rest.now < length self.old.rest.now) }
    {
        let (first, rest) = self.rest.split_first()?;
        if point_of(first.0)? != point_at(inst, pos)? {
            return None;
        }
        self.rest = rest;
        Some(*first)
    }

    /// Writes the next moves that are before `inst`.
    pub(crate) fn write_before<W: fmt::Write>(&mut self, inst: usize, to: &mut W) -> fmt::Result {
        while let Some((_, from, into)) = self.next_at(inst, InstPosition::Before) {
            writeln!(to, "  {}", MoveText(from, into))?;
        }
        Ok(())
    }

    /// Writes the next moves that are after `inst`, each with its point.
    pub(crate) fn write_after<W: fmt::Write>(&mut self, inst: usize, to: &mut W) -> fmt::Result {
        while let Some((point, from, into)) = self.next_at(inst, InstPosition::After) {
            writeln!(to, "  {} at {}", MoveText(from, into), StoredPoint(point))?;
        }
        Ok(())
    }
}
