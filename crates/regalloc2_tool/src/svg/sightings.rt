//! Which places the columns of a picture show.

ghost use Rattle.std.specs.Prelude.{◌<◌, length};
ghost use Rattle.regalloc2_function.specs.OutputValue.{IsInOrder};
ghost use Rattle.regalloc2_function.specs.Views.{output_of};
ghost use Rattle.regalloc2_tool.specs.Framed.{BlocksAreWithin};

use super::shapes;
use regalloc2_function::{Function, InstOrEdit, Output};
use regalloc2_index::Block;
use regalloc2_names::{Allocation, Operand};
use std::alloc::{AllocError, Allocator};

/// How many rows an instruction takes: one for its early operands, one for the late ones.
pub(crate) const INST_ROWS: usize = 2;

/// Returns the row of an operand of an instruction that begins in `row`.
pub(crate) fn row_of(operand: Operand, row: usize) -> usize {
    if operand.is_late() {
        row.saturating_add(1)
    } else {
        row
    }
}

/// Places, each with a column that shows it, possibly repeated.
#[derive(Drop)]
struct Sightings<A: Allocator> {
    seen: Vec<(Allocation, usize), A>,
}

impl<A: Allocator> Sightings<A> {
    /// Records that `row` names `place`.
    fn see(&mut self, place: Allocation, row: usize) -> Result<(), AllocError> {
        self.seen.push((place, shapes::column_of(row)))?;
        Ok(())
    }

    /// Records the `places` of `operands`, of an instruction that begins in `row`.
    fn see_operands(
        &mut self,
        operands: &[Operand],
        places: &[Allocation],
        row: usize,
    ) -> Result<(), AllocError> {
        for (operand, place) in operands.iter().zip(places) {
            self.see(*place, row_of(*operand, row))?;
        }
        Ok(())
    }

    /// Records the places of `block`, which begins in `block_row`, and returns the row after it.
    fn see_block<F: Function, B: Allocator>(
        &mut self,
        f: &F,
        output: &Output<B>,
        block: Block,
        block_row: usize,
    ) -> Result<usize, AllocError>
        requires in_order { IsInOrder (F.function f.now) (output_of output.now) }
        requires blocks { BlocksAreWithin (F.function f.now) }
        requires block { block < length (F.function f.now).blocks }
    {
        let mut row = block_row.saturating_add(1);
        for item in output.block_insts_and_edits(f, block) {
            match &item {
                InstOrEdit::Inst(inst) => {
                    if inst.index() < f.num_insts() {
                        self.see_operands(f.inst_operands(*inst), output.inst_allocs(*inst), row)?;
                    }
                    row = row.saturating_add(INST_ROWS);
                }
                InstOrEdit::Edit(edit) => {
                    let (from, into) = edit.places();
                    self.see(from, row)?;
                    self.see(into, row)?;
                    row = row.saturating_add(1);
                }
            }
        }
        Ok(row)
    }
}

/// Returns the places that `output` names, each with a column that shows it. An error means out of memory.
pub(crate) fn sightings_of<F: Function, A: Allocator, B: Allocator>(
    alloc: A,
    f: &F,
    output: &Output<B>,
) -> Result<Vec<(Allocation, usize), A>, AllocError>
    requires in_order { IsInOrder (F.function f.now) (output_of output.now) }
    requires blocks { BlocksAreWithin (F.function f.now) }
{
    let mut sightings = Sightings {
        seen: Vec::new(alloc),
    };
    let mut row = 0;
    for b in 0..f.num_blocks() {
        row = sightings.see_block(f, output, Block::new(b), row)?;
    }
    Ok(sightings.seen)
}
