//! The places, moves, slots and debug locations of an output.

use super::dump::frame_units;
use super::settings::first_of_kind;
use crate::cursor::{Cursor, Expected, Found, LineError};
use crate::named::point_at;
use regalloc2_function::StoredOutput;
use regalloc2_names::InstPosition;
use regalloc2_serialize::StoredFunction;
use std::alloc::Allocator;

/// What a text is expected to have if its instructions or places are more than 32 bits can number.
pub(super) const TOO_MANY: &str = "fewer instructions and places";

/// What the lines so far say of an output.
#[derive(Drop)]
pub(super) struct DraftOutput<A: Allocator> {
    /// Whether a line says something of the output.
    is_named: bool,
    /// Whether instructions are as in a dump.
    is_dump: bool,
    num_spillslots: Option<u64>,
    edits: Vec<(u32, u32, u32), A>,
    allocs: Vec<u32, A>,
    inst_alloc_offsets: Vec<u32, A>,
    debug_locations: Vec<(u32, u32, u32, u32), A>,
}

/// Returns the number of the point before instruction `inst`; 0, with an error, if there is no such point.
fn before_inst(cursor: &mut Cursor<'_, '_>, inst: u32) -> u32 {
    match point_at(inst as usize, InstPosition::Before) {
        Some(point) => point.to_index(),
        None => {
            cursor.misfit(TOO_MANY);
            0
        }
    }
}

/// Reads the ends of a move, as `p0i -> stack1`, and returns the encodings of its source and its target.
fn read_ends(cursor: &mut Cursor<'_, '_>) -> (u32, u32) {
    let from = cursor.place_bits();
    cursor.want("->");
    (from, cursor.place_bits())
}

impl<A: Allocator + Copy> DraftOutput<A> {
    /// Returns the draft before the first line.
    pub(super) fn new(alloc: A) -> Self {
        DraftOutput {
            is_named: false,
            is_dump: false,
            num_spillslots: None,
            edits: Vec::new(alloc),
            allocs: Vec::new(alloc),
            inst_alloc_offsets: Vec::new(alloc),
            debug_locations: Vec::new(alloc),
        }
    }

    /// Adds `places`, the places of the next instruction, after all of its line is read.
    pub(super) fn add_places(&mut self, places: &[u32], cursor: &mut Cursor<'_, '_>) {
        let offset = self.allocs.len();
        if offset > u32::MAX as usize {
            cursor.misfit(TOO_MANY);
            return;
        }
        if !places.is_empty() {
            self.is_named = true;
        }
        cursor.push(&mut self.inst_alloc_offsets, offset as u32);
        cursor.extend(&mut self.allocs, places);
    }

    /// Notes that an instruction is as in a dump: unless a line gives the number of slots, the frame ends with the
    /// last slot that the output names.
    pub(super) fn note_dump(&mut self) {
        self.is_dump = true;
    }

    /// Reads a move of a dump, with its point before it; upstream may write a bracket behind it.
    pub(super) fn read_dumped_move(&mut self, cursor: &mut Cursor<'_, '_>) {
        self.is_named = true;
        let point = cursor.point_bits();
        cursor.want(":");
        cursor.want("move");
        let (from, to) = read_ends(cursor);
        let _ = cursor.has(")");
        cursor.push(&mut self.edits, (point, from, to));
    }

    /// Reads what follows `move`, and adds the move, by default before the instruction `next`. Returns whether the line
    /// says no point.
    pub(super) fn read_move(&mut self, cursor: &mut Cursor<'_, '_>, next: u32) -> bool {
        self.is_named = true;
        let (from, to) = read_ends(cursor);
        let has_point = cursor.has("at");
        let point = if has_point {
            cursor.point_bits()
        } else {
            before_inst(cursor, next)
        };
        cursor.push(&mut self.edits, (point, from, to));
        !has_point
    }

    /// Reads what follows `slots`: the number of units of spill slots.
    pub(super) fn read_slots(&mut self, cursor: &mut Cursor<'_, '_>) {
        first_of_kind(cursor, self.num_spillslots.is_some(), "slots");
        self.num_spillslots = Some(cursor.number(u64::MAX));
    }

    /// Reads what follows `debug`, and adds the debug location.
    pub(super) fn read_debug(&mut self, cursor: &mut Cursor<'_, '_>) {
        self.is_named = true;
        let label = cursor.word();
        let from = cursor.point_bits();
        let until = cursor.point_bits();
        let place = cursor.place_bits();
        cursor.push(&mut self.debug_locations, (label, from, until, place));
    }

    /// Returns the output of `function`, or `None` if no line says anything of an output. `stored_allocs` and
    /// `stored_offsets` take the place of the lists that the lines give.
    pub(super) fn finish(
        self,
        function: &StoredFunction<A>,
        cursor: &mut Cursor<'_, '_>,
        stored_allocs: Option<Vec<u32, A>>,
        stored_offsets: Option<Vec<u32, A>>,
    ) -> Option<StoredOutput<A>> {
        let num_spillslots = match self.num_spillslots {
            None if self.is_dump => Some(frame_units(
                function,
                self.allocs.as_slice(),
                self.inst_alloc_offsets.as_slice(),
                self.edits.as_slice(),
            )),
            said => said,
        };
        let Some(num_spillslots) = num_spillslots else {
            if self.is_named || stored_allocs.is_some() || stored_offsets.is_some() {
                let expected = Expected::Words("a line `slots N`, since the text has places");
                cursor.fail(LineError::new(1, expected, Found::TextEnd));
            }
            return None;
        };
        Some(StoredOutput {
            num_spillslots,
            edits: self.edits,
            allocs: stored_allocs.unwrap_or(self.allocs),
            inst_alloc_offsets: stored_offsets.unwrap_or(self.inst_alloc_offsets),
            debug_locations: self.debug_locations,
        })
    }
}
