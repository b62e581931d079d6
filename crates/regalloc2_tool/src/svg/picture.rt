//! Draws the picture in two layers: the bars, then the boxes and arrows on top of them.

ghost use Rattle.std.specs.Prelude.{◌<◌, length};
ghost use Rattle.regalloc2_function.specs.OutputValue.{IsInOrder};
ghost use Rattle.regalloc2_function.specs.Views.{output_of};
ghost use Rattle.regalloc2_tool.specs.Framed.{BlocksAreWithin};

use super::head::Head;
use super::lanes::Lanes;
use super::shapes;
use super::sightings::{INST_ROWS, row_of, sightings_of};
use crate::listing::opcode_name;
use regalloc2_function::{Edit, Function, InstOrEdit, Output};
use regalloc2_index::{Block, Inst};
use regalloc2_names::{Allocation, Operand};
use std::alloc::{AllocError, Allocator, Global};
use std::io::{self, Write};

/// The rows over which a lane's place has held its current value.
#[derive(Clone, Copy)]
struct Span {
    first: usize,
    last: usize,
    /// The number of the vreg whose value it is, if an operand has named it.
    vreg: Option<usize>,
}

/// A picture of an output: a row for each move, two for each instruction, and in each column of rows a lane for each
/// place that they name.
///
/// A box is an operand at its place, with a thicker frame where it is written; an arrow is a move. A bar joins the
/// rows over which a register holds a value until its last read, and a slot until it is written again or its block
/// ends; it is drawn in the columns that name its place.
#[derive(Drop)]
pub struct Picture<A: Allocator = Global> {
    alloc: A,
    lanes: Lanes<A>,
    /// What each place holds, by its index.
    spans: Vec<Option<Span>, A>,
    /// The indexes of places that the current block names, possibly repeated.
    named: Vec<usize, A>,
}

impl<A: Allocator + Copy> Picture<A> {
    /// Returns a picture, not yet drawn.
    pub fn new(alloc: A) -> Picture<A> {
        Picture {
            alloc,
            lanes: Lanes::none(alloc),
            spans: Vec::new(alloc),
            named: Vec::new(alloc),
        }
    }

    /// Lays out the lanes for `rows` rows.
    fn lay_out<F: Function, B: Allocator>(
        &mut self,
        f: &F,
        output: &Output<B>,
        rows: usize,
    ) -> Result<(), AllocError>
        requires in_order { IsInOrder (F.function f.now) (output_of output.now) }
        requires blocks { BlocksAreWithin (F.function f.now) }
    {
        let mut sightings = sightings_of(self.alloc, f, output)?;
        self.lanes = Lanes::of(self.alloc, shapes::columns(rows), &mut sightings)?;
        self.spans.clear();
        self.spans.resize(self.lanes.places().len(), None)?;
        Ok(())
    }

    /// Returns the rows over which `place` has held its current value, if it is known to hold one.
    fn span_of(&self, place: Allocation) -> Option<Span> {
        let index = self.lanes.index_of(place)?;
        if index < self.spans.len() {
            self.spans[index]
        } else {
            None
        }
    }

    /// Records that `place` holds a value over `span`.
    fn set_span(&mut self, place: Allocation, span: Span) -> Result<(), AllocError> {
        let Some(index) = self.lanes.index_of(place) else {
            return Ok(());
        };
        if index >= self.spans.len() {
            return Ok(());
        }
        if self.spans[index].is_none() {
            self.named.push(index)?;
        }
        self.spans[index] = Some(span);
        Ok(())
    }

    /// Records that a place is read in a row, by an operand of the vreg `by`, or by a move. A place that its block
    /// hasn't written before has held the value since the block's first row. Returns the number of the value's vreg,
    /// if known.
    fn note_read(
        &mut self,
        place: Allocation,
        row: usize,
        block_row: usize,
        by: Option<usize>,
    ) -> Result<Option<usize>, AllocError> {
        let (first, known) = match self.span_of(place) {
            Some(span) => (span.first, span.vreg),
            None => (block_row, None),
        };
        let vreg = by.or(known);
        self.set_span(
            place,
            Span {
                first,
                last: row,
                vreg,
            },
        )?;
        Ok(vreg)
    }

    /// Draws the bar of the place `index` over `rows`, in each column that shows the place.
    fn draw_bar<W: Write>(
        &self,
        index: usize,
        rows: (usize, usize),
        vreg: Option<usize>,
        to: &mut W,
    ) -> io::Result<()> {
        let last = shapes::column_of(rows.1);
        for (shown, column, lane) in self.lanes.shown_from(index, rows.0) {
            if *shown != index || *column > last {
                break;
            }
            let x = shapes::middle(self.lanes.edge(*column), *lane);
            shapes::bar(x, *column, rows, vreg, to)?;
        }
        Ok(())
    }

    /// Draws the bar of the value that the place `index` holds, up to the row `until` if one is given.
    fn end_bar<W: Write>(
        &mut self,
        index: usize,
        until: Option<usize>,
        to: &mut W,
    ) -> io::Result<()> {
        if index >= self.spans.len() {
            return Ok(());
        }
        let Some(span) = self.spans[index] else {
            return Ok(());
        };
        self.spans[index] = None;
        let rows = (span.first, until.unwrap_or(span.last));
        self.draw_bar(index, rows, span.vreg, to)
    }

    /// Records that `place` is written in `row`, and draws the bar of its previous value.
    fn note_write<W: Write>(
        &mut self,
        place: Allocation,
        row: usize,
        vreg: Option<usize>,
        to: &mut W,
    ) -> io::Result<()> {
        if let Some(index) = self.lanes.index_of(place) {
            self.end_bar(index, None, to)?;
        }
        self.set_span(
            place,
            Span {
                first: row,
                last: row,
                vreg,
            },
        )?;
        Ok(())
    }

    /// Records which of `places` the instruction in `row` reads.
    fn note_uses(
        &mut self,
        operands: &[Operand],
        places: &[Allocation],
        row: usize,
        block_row: usize,
    ) -> Result<(), AllocError> {
        for (operand, place) in operands.iter().zip(places) {
            if operand.is_reading() {
                let by = Some(operand.vreg().vreg());
                self.note_read(*place, row_of(*operand, row), block_row, by)?;
            }
        }
        Ok(())
    }

    /// Records which of `places` the instruction in `row` writes, and draws the bars that end there.
    fn note_defs<W: Write>(
        &mut self,
        operands: &[Operand],
        places: &[Allocation],
        row: usize,
        to: &mut W,
    ) -> io::Result<()> {
        for (operand, place) in operands.iter().zip(places) {
            if operand.is_def() {
                let vreg = Some(operand.vreg().vreg());
                self.note_write(*place, row_of(*operand, row), vreg, to)?;
            }
        }
        Ok(())
    }

    /// Draws the bar of the place `index`, which is open at a block's end; the bar of a slot reaches `row`, the
    /// block's last row.
    fn end_bar_at<W: Write>(&mut self, index: usize, row: usize, to: &mut W) -> io::Result<()> {
        let until = match self.lanes.places().get(index) {
            Some(place) if place.is_stack() => Some(row),
            _ => None,
        };
        self.end_bar(index, until, to)
    }

    /// Draws the bars that are open at the end of a block, whose last row is `row`.
    fn end_block<W: Write>(&mut self, row: usize, to: &mut W) -> io::Result<()> {
        self.named.sort_unstable();
        self.named.dedup();
        for k in 0..self.named.len() {
            if let Some(index) = self.named.get(k).copied() {
                self.end_bar_at(index, row, to)?;
            }
        }
        self.named.clear();
        Ok(())
    }

    /// Draws the bars of `block`, which begins in `block_row`, and returns the row after it.
    fn draw_block_bars<F: Function, B: Allocator, W: Write>(
        &mut self,
        f: &F,
        output: &Output<B>,
        block: Block,
        block_row: usize,
        to: &mut W,
    ) -> io::Result<usize>
        requires in_order { IsInOrder (F.function f.now) (output_of output.now) }
        requires blocks { BlocksAreWithin (F.function f.now) }
        requires block { block < length (F.function f.now).blocks }
    {
        let mut row = block_row.saturating_add(1);
        for item in output.block_insts_and_edits(f, block) {
            match &item {
                InstOrEdit::Inst(inst) => {
                    if inst.index() < f.num_insts() {
                        let operands = f.inst_operands(*inst);
                        let places = output.inst_allocs(*inst);
                        self.note_uses(operands, places, row, block_row)?;
                        self.note_defs(operands, places, row, to)?;
                    }
                    row = row.saturating_add(INST_ROWS);
                }
                InstOrEdit::Edit(edit) => {
                    let (from, into) = edit.places();
                    let vreg = self.note_read(from, row, block_row, None)?;
                    self.note_write(into, row, vreg, to)?;
                    row = row.saturating_add(1);
                }
            }
        }
        self.end_block(row.saturating_sub(1), to)?;
        Ok(row)
    }

    /// Draws the bars of all blocks of `f`.
    fn draw_bars<F: Function, B: Allocator, W: Write>(
        &mut self,
        f: &F,
        output: &Output<B>,
        to: &mut W,
    ) -> io::Result<()>
        requires in_order { IsInOrder (F.function f.now) (output_of output.now) }
        requires blocks { BlocksAreWithin (F.function f.now) }
    {
        let mut row = 0;
        for b in 0..f.num_blocks() {
            row = self.draw_block_bars(f, output, Block::new(b), row, to)?;
        }
        Ok(())
    }

    /// Draws the boxes of `operands`, of the instruction in `row`.
    fn draw_operands<W: Write>(
        &self,
        operands: &[Operand],
        places: &[Allocation],
        row: usize,
        to: &mut W,
    ) -> io::Result<()> {
        for (operand, place) in operands.iter().zip(places) {
            let row = row_of(*operand, row);
            if let Some(x) = self.lanes.middle(*place, row) {
                shapes::cell(x, row, operand.vreg(), operand.is_def(), to)?;
            }
        }
        Ok(())
    }

    /// Draws `inst` in `row`.
    fn draw_inst<F: Function, B: Allocator, W: Write>(
        &self,
        f: &F,
        output: &Output<B>,
        inst: Inst,
        row: usize,
        to: &mut W,
    ) -> io::Result<()>
        requires in_order { IsInOrder (F.function f.now) (output_of output.now) }
    {
        if inst.index() >= f.num_insts() {
            return Ok(());
        }
        let number = inst.index();
        let name = opcode_name(f, inst);
        let edge = self.lanes.edge(shapes::column_of(row));
        shapes::label(edge, row, &format_args!("inst{number} {name}"), to)?;
        self.draw_operands(f.inst_operands(inst), output.inst_allocs(inst), row, to)
    }

    /// Draws the arrow of the move `edit` in `row`.
    fn draw_move<W: Write>(&self, edit: Edit, row: usize, to: &mut W) -> io::Result<()> {
        let (from, into) = edit.places();
        match (self.lanes.middle(from, row), self.lanes.middle(into, row)) {
            (Some(tail), Some(tip)) => shapes::arrow(tail, tip, row, to),
            _ => Ok(()),
        }
    }

    /// Draws the upper layer of `block`, which begins in `block_row`, and returns the row after it.
    fn draw_block<F: Function, B: Allocator, W: Write>(
        &self,
        f: &F,
        output: &Output<B>,
        block: Block,
        block_row: usize,
        to: &mut W,
    ) -> io::Result<usize>
        requires in_order { IsInOrder (F.function f.now) (output_of output.now) }
        requires blocks { BlocksAreWithin (F.function f.now) }
        requires block { block < length (F.function f.now).blocks }
    {
        let column = shapes::column_of(block_row);
        let left = self.lanes.edge(column);
        let right = self.lanes.edge(column.saturating_add(1));
        shapes::rule((left, right), block_row, to)?;
        shapes::label(left, block_row, &Head { f, block }, to)?;
        let mut row = block_row.saturating_add(1);
        for item in output.block_insts_and_edits(f, block) {
            match &item {
                InstOrEdit::Inst(inst) => {
                    self.draw_inst(f, output, *inst, row, to)?;
                    row = row.saturating_add(INST_ROWS);
                }
                InstOrEdit::Edit(edit) => {
                    self.draw_move(**edit, row, to)?;
                    row = row.saturating_add(1);
                }
            }
        }
        Ok(row)
    }

    /// Draws the upper layer of all blocks of `f`.
    fn draw_blocks<F: Function, B: Allocator, W: Write>(
        &self,
        f: &F,
        output: &Output<B>,
        to: &mut W,
    ) -> io::Result<()>
        requires in_order { IsInOrder (F.function f.now) (output_of output.now) }
        requires blocks { BlocksAreWithin (F.function f.now) }
    {
        let mut row = 0;
        for b in 0..f.num_blocks() {
            row = self.draw_block(f, output, Block::new(b), row, to)?;
        }
        Ok(())
    }

    /// Writes the names of the places above the lanes of each column.
    fn draw_names<W: Write>(&self, to: &mut W) -> io::Result<()> {
        for (index, column, lane) in self.lanes.shown() {
            if let Some(place) = self.lanes.places().get(*index) {
                let x = shapes::middle(self.lanes.edge(*column), *lane);
                shapes::name(x, place, to)?;
            }
        }
        Ok(())
    }

    /// Draws `output`, an output of `f`, block by block. Linear in the instructions, operands and moves, up to a
    /// logarithmic factor.
    ///
    /// The contract doesn't say what is written; tests check it.
    pub fn draw<F: Function, B: Allocator, W: Write>(
        &mut self,
        f: &F,
        output: &Output<B>,
        to: &mut W,
    ) -> io::Result<()>
        requires in_order { IsInOrder (F.function f.now) (output_of output.now) }
        requires blocks { BlocksAreWithin (F.function f.now) }
    {
        let inst_rows = f.num_insts().saturating_mul(INST_ROWS);
        let rows = inst_rows
            .saturating_add(f.num_blocks())
            .saturating_add(output.edits.len());
        self.lay_out(f, output, rows)?;
        shapes::begin(self.lanes.width(), rows, to)?;
        self.draw_names(to)?;
        self.draw_bars(f, output, to)?;
        self.draw_blocks(f, output, to)?;
        shapes::end(to)
    }
}
