//! The output of an allocation.

ghost use Rattle.std.specs.Prelude.{◌≡◌, ◌≢◌, ℕ, All, ◌+◌, ◌*◌, ◌<◌, ◌≤◌, ◌↔◌, IsTrue, nat_lt, length, slice_index, []};
ghost use Rattle.std.specs.List.Sorted.{IsNonDecreasingBy};
ghost use Rattle.std.specs.Iterator.{YieldsFirstBy, item_count};
ghost use Rattle.regalloc2_names.specs.Place.{before, NoPlace};
ghost use Rattle.regalloc2_function.specs.FunctionValue.{block_at, inst_at};
ghost use Rattle.regalloc2_function.specs.OutputValue.{OffsetsInOrder, IsInOrder, alloc_end, allocs_of};
ghost use Rattle.regalloc2_function.specs.Listing.{block_listing, IsListedWithin};
ghost use Rattle.regalloc2_function.specs.Views.{output_of, move_of, item_of, rest_of};

use super::Function;
use regalloc2_index::{Block, Inst, InstRange};
use regalloc2_names::{Allocation, ProgPoint};
use std::alloc::{Allocator, Global};

/// An instruction that the allocator adds to the function.
#[derive(Clone, Copy, Debug, PartialEq, Eq)]
pub enum Edit {
    /// A copy of what `from` holds into `to`.
    Move {
        /// The place that is read.
        from: Allocation,
        /// The place that is written.
        to: Allocation,
    },
}

impl Edit {
    /// Returns the places of a move: the place that is read, and the place that is written.
    pub fn places(self) -> (Allocation, Allocation)
        ensures from { result.0 ≡ (move_of self).from }
        ensures to { result.1 ≡ (move_of self).to }
    {
        let Edit::Move { from, to } = self;
        (from, to)
    }
}

/// The output of an allocation.
///
/// Fields and names are as in upstream's `Output`, without its statistics.
#[derive(Debug, Drop)]
pub struct Output<A: Allocator = Global> {
    /// How many units the spill slots take.
    pub num_spillslots: usize,
    /// The moves that are added, each with the point at which it is made, by rising points.
    pub edits: Vec<(ProgPoint, Edit), A>,
    /// The places of all operands, instruction by instruction.
    pub allocs: Vec<Allocation, A>,
    /// For each instruction, where its operands' places begin in `allocs`.
    pub inst_alloc_offsets: Vec<u32, A>,
    /// The places of labelled values: a label, from a point up to a point, and the place.
    pub debug_locations: Vec<(u32, ProgPoint, ProgPoint, Allocation), A>,
}

/// An item of a block's listing.
#[derive(Clone, Copy, Debug, PartialEq, Eq)]
pub enum InstOrEdit<'a> {
    /// An instruction of the function.
    Inst(Inst),
    /// An instruction that the allocator adds.
    Edit(&'a Edit),
}

/// A block's listing, in order. Before its first instruction are the edits at the point before that
/// instruction; before each later instruction, the edits at the point after the previous
/// instruction and then the edits at the point before its own. The listing ends with the block's last
/// instruction.
#[derive(Clone, Debug, Drop)]
pub struct OutputIter<'a> {
    edits: &'a [(ProgPoint, Edit)],
    inst_range: InstRange,
}

/// Returns the number of the point before `inst`, in 64 bits: a block's range may pass the last
/// instruction that has points.
fn number_before(inst: Inst) -> u64
    ensures { result ≡ before inst }
{
    2 * u64::from(inst.0)
}

/// Returns `true` if `point` is at or before the point before `inst`.
fn is_listed_by(point: ProgPoint, inst: Inst) -> bool
    ensures { IsTrue result ↔ (point ≤ before inst) }
{
    u64::from(point.to_index()) <= number_before(inst)
}

impl<'a> Iterator for OutputIter<'a> {
    type Item = InstOrEdit<'a>;

    ghost next_gives = { YieldsFirstBy item_of rest_of };

    ghost remaining = { item_count rest_of };

    fn next(&mut self) -> Option<InstOrEdit<'a>> {
        if self.inst_range.len() == 0 {
            return None;
        }
        let inst = self.inst_range.first();
        let Some((edit, rest)) = self.edits.split_first() else {
            self.inst_range = self.inst_range.rest();
            return Some(InstOrEdit::Inst(inst));
        };
        if !is_listed_by(edit.0, inst) {
            self.inst_range = self.inst_range.rest();
            return Some(InstOrEdit::Inst(inst));
        }
        self.edits = rest;
        Some(InstOrEdit::Edit(&edit.1))
    }
}

/// Returns `true` if both places of the move `edit` are places.
fn names_places(edit: Edit) -> bool
    ensures { IsTrue result ↔ (((move_of edit).from ≢ NoPlace) × ((move_of edit).to ≢ NoPlace)) }
{
    let (from, to) = edit.places();
    from.is_some() && to.is_some()
}

impl<A: Allocator> Output<A> {
    /// Returns the output of no instructions.
    pub fn new(alloc: A) -> Output<A>
    where
        A: Copy,
        ensures { output_of result ≡ record { num_spillslots = 0; edits = []; allocs = []; offsets = []; debug_locations = [] } }
    {
        Output {
            num_spillslots: 0,
            edits: Vec::new(alloc),
            allocs: Vec::new(alloc),
            inst_alloc_offsets: Vec::new(alloc),
            debug_locations: Vec::new(alloc),
        }
    }

    /// Returns where the places of the instruction of number `inst` begin and end.
    fn alloc_range(&self, inst: usize) -> (usize, usize)
        requires { inst < length (output_of self.now).offsets }
        ensures start { result.0 ≡ slice_index (output_of self.now).offsets inst }
        ensures end { result.1 ≡ alloc_end (output_of self.now) inst }
    {
        let start = self.inst_alloc_offsets[inst] as usize;
        let end = if inst + 1 == self.inst_alloc_offsets.len() {
            self.allocs.len()
        } else {
            self.inst_alloc_offsets[inst + 1] as usize
        };
        (start, end)
    }

    /// Returns the places of the operands of `inst`, in operand order. There are fewer places than
    /// operands if the last operands have none.
    pub fn inst_allocs(&self, inst: Inst) -> &[Allocation]
        requires in_order { OffsetsInOrder (output_of self.now) }
        requires inst { inst < length (output_of self.now).offsets }
        ensures { result.now ≡ allocs_of (output_of self.now) inst }
    {
        let (start, end) = self.alloc_range(inst.index());
        &self.allocs[start..end]
    }

    /// Iterates over the listing of `block`: its instructions, each after the edits that run before
    /// it.
    pub fn block_insts_and_edits<F: Function>(&self, func: &F, block: Block) -> OutputIter<'_>
        requires in_order { IsInOrder (F.function func.now) (output_of self.now) }
        requires block { block < length (F.function func.now).blocks }
        requires nonempty { (block_at (F.function func.now) block).range.first < (block_at (F.function func.now) block).range.end }
        ensures items { rest_of result ≡ block_listing (F.function func.now) (output_of self.now) block }
        ensures within { All (IsListedWithin (block_at (F.function func.now) block).range.first (block_at (F.function func.now) block).range.end)
            (rest_of result) }
    {
        let inst_range = func.block_insns(block);
        let first = number_before(inst_range.first());
        let edits = self.edits.as_slice();
        let begin = edits.partition_point(
            |e: &(ProgPoint, Edit)| -> bool
                ensures { result ≡ nat_lt e.now.0 first }
            { u64::from(e.0.to_index()) < first },
        );
        OutputIter {
            edits: &edits[begin..],
            inst_range,
        }
    }

    /// Returns `true` if the range of the places of the instruction of number `inst` doesn't end before
    /// it begins, begins within the places, and has at most `operands` places.
    fn has_range_in_order(&self, inst: usize, operands: usize) -> bool
        requires { inst < length (output_of self.now).offsets }
        ensures { IsTrue result ↔ ((slice_index (output_of self.now).offsets inst ≤ alloc_end (output_of self.now) inst)
            × (slice_index (output_of self.now).offsets inst ≤ length (output_of self.now).allocs)
            × (alloc_end (output_of self.now) inst ≤ slice_index (output_of self.now).offsets inst + operands)) }
    {
        let (start, end) = self.alloc_range(inst);
        start <= end && start <= self.allocs.len() && end - start <= operands
    }

    /// Returns `true` if there is one offset for each instruction, the offsets are in order, and no
    /// instruction has more places than operands.
    fn has_places_in_order<F: Function>(&self, func: &F) -> bool
        ensures { IsTrue result ↔ ((length (output_of self.now).offsets ≡ length (F.function func.now).insts) × OffsetsInOrder (output_of self.now)
            × ((i : ℕ) → i < length (F.function func.now).insts →
            alloc_end (output_of self.now) i ≤ slice_index (output_of self.now).offsets i + length (inst_at (F.function func.now) i).operands)) }
    {
        let count = func.num_insts();
        if self.inst_alloc_offsets.len() != count {
            return false;
        }
        if count > 0 && self.inst_alloc_offsets[0] != 0 {
            return false;
        }
        for i in 0..count {
            if !self.has_range_in_order(i, func.inst_operands(Inst::new(i)).len()) {
                return false;
            }
        }
        true
    }

    /// Returns `true` if the edits' points never fall.
    fn has_points_in_order(&self) -> bool
        ensures { IsTrue result ↔ IsNonDecreasingBy (λ e. e.0) self.now.edits.items }
    {
        let edits = self.edits.as_slice();
        for i in 1..edits.len() {
            if edits[i].0.to_index() < edits[i - 1].0.to_index() {
                return false;
            }
        }
        true
    }

    /// Returns `true` if each move names two places.
    fn has_places_in_moves(&self) -> bool
        ensures { IsTrue result ↔ All (λ e. ((move_of e.1).from ≢ NoPlace) × ((move_of e.1).to ≢ NoPlace)) self.now.edits.items }
    {
        self.edits
            .as_slice()
            .iter()
            .all(|edit| names_places(edit.1))
    }

    /// Returns `true` if the output is well-ordered: there is one offset for each instruction, the first is
    /// 0, none is below the one before and none is past the places; no instruction has more places
    /// than operands; the edits' points never fall; and no move names `none`.
    ///
    /// Upstream takes this for granted. Linear in the function and the output.
    pub fn is_in_order<F: Function>(&self, func: &F) -> bool
        ensures { IsTrue result ↔ IsInOrder (F.function func.now) (output_of self.now) }
    {
        if !self.has_places_in_order(func) {
            return false;
        }
        self.has_points_in_order() && self.has_places_in_moves()
    }
}
