//! An output's places by instruction, and its own lines.

use super::machine::write_stored;
use super::moves::{Moves, run_in_order};
use crate::named::places_at;
use crate::spell::{MoveText, StoredPlace, StoredPoint};
use regalloc2_function::StoredOutput;
use std::alloc::Allocator;
use std::fmt;

/// The places of an output by instruction.
#[derive(Clone, Copy)]
pub(crate) struct Places<'a> {
    places: &'a [u32],
    /// Where each instruction's places begin; empty where none are shown beside their instructions.
    offsets: &'a [u32],
}

/// Returns whether `offsets` are one for each of `insts` instructions, begin at 0, and never fall or pass `places`,
/// the count of places.
fn are_offsets(offsets: &[u32], insts: usize, places: usize) -> bool {
    if offsets.len() != insts || offsets.first().copied().unwrap_or(0) != 0 {
        return false;
    }
    let mut before = 0;
    for offset in offsets {
        if *offset < before {
            return false;
        }
        before = *offset;
    }
    before as usize <= places && (insts > 0 || places == 0)
}

impl<'a> Places<'a> {
    /// No places.
    pub(crate) fn none() -> Places<'a> {
        Places {
            places: &[],
            offsets: &[],
        }
    }

    /// Returns the places of `inst`.
    pub(crate) fn of(self, inst: usize) -> &'a [u32] {
        places_at(self.places, self.offsets, inst)
    }
}

/// An output, and which of its lists are written beside the instructions.
#[derive(Drop)]
pub(crate) struct ShownOutput<'a, A: Allocator> {
    output: &'a StoredOutput<A>,
    has_places: bool,
    has_moves: bool,
}

impl<'a, A: Allocator + Copy> ShownOutput<'a, A> {
    /// Returns `output`, of `insts` instructions, if there is one.
    ///
    /// Its places are written beside the instructions if the offsets are in order, its moves if the points are in
    /// order.
    pub(crate) fn of(
        output: Option<&'a StoredOutput<A>>,
        insts: usize,
    ) -> Option<ShownOutput<'a, A>> {
        let output = output?;
        let offsets = output.inst_alloc_offsets.as_slice();
        Some(ShownOutput {
            output,
            has_places: are_offsets(offsets, insts, output.allocs.len()),
            has_moves: run_in_order(output.edits.as_slice(), insts),
        })
    }

    /// Returns the places that stand beside their instructions.
    pub(crate) fn places(&self) -> Places<'a> {
        if !self.has_places {
            return Places::none();
        }
        Places {
            places: self.output.allocs.as_slice(),
            offsets: self.output.inst_alloc_offsets.as_slice(),
        }
    }

    /// Returns the moves that stand beside their instructions.
    pub(crate) fn moves(&self) -> Moves<'a> {
        if self.has_moves {
            Moves::new(self.output.edits.as_slice())
        } else {
            Moves::new(&[])
        }
    }

    /// Writes the moves that don't stand beside their instructions, each with its point.
    fn write_moves<W: fmt::Write>(&self, to: &mut W) -> fmt::Result {
        if self.has_moves {
            return Ok(());
        }
        for (point, from, into) in &self.output.edits {
            writeln!(to, "{} at {}", MoveText(*from, *into), StoredPoint(*point))?;
        }
        Ok(())
    }

    /// Writes the places that don't stand beside their instructions.
    fn write_places<W: fmt::Write>(&self, to: &mut W) -> fmt::Result {
        if self.has_places {
            return Ok(());
        }
        write_stored("allocs", &self.output.allocs, to)?;
        write_stored("inst_alloc_offsets", &self.output.inst_alloc_offsets, to)
    }

    /// Writes an output's own lines: the size of the slots, what doesn't stand beside the instructions, and the debug
    /// locations.
    pub(crate) fn write<W: fmt::Write>(&self, to: &mut W) -> fmt::Result {
        let slots = self.output.num_spillslots;
        writeln!(to, "slots {slots}")?;
        self.write_moves(to)?;
        self.write_places(to)?;
        for (label, from, until, place) in &self.output.debug_locations {
            let (from, until) = (StoredPoint(*from), StoredPoint(*until));
            let place = StoredPlace(*place);
            writeln!(to, "debug {label} {from} {until} {place}")?;
        }
        Ok(())
    }
}
