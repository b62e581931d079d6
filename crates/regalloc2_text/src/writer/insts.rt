//! The lines of blocks and instructions.

use super::moves::Moves;
use super::places::Places;
use super::registers::{write_list, write_registers};
use super::shown::Shown;
use crate::named::list_at;
use crate::spell::{BlockText, StoredOperand, StoredPlace, StoredVReg};
use regalloc2_serialize::{InstOpcode, StoredInst};
use std::alloc::Allocator;
use std::fmt;

/// Returns the word of an instruction with the opcode `op`.
fn opcode_name(op: InstOpcode) -> &'static str {
    match op {
        InstOpcode::Op => "op",
        InstOpcode::Ret => "ret",
        InstOpcode::Branch => "branch",
    }
}

/// Writes successors, each with its arguments in parentheses, and `before` before the first. `targets` has the
/// successors and the arguments for each.
fn write_targets<A: Allocator, W: fmt::Write>(
    before: &str,
    targets: (&[u32], &[Vec<u32, A>]),
    to: &mut W,
) -> fmt::Result {
    let (succs, params) = targets;
    for k in 0..succs.len().min(params.len()) {
        let before = if k == 0 { before } else { ", " };
        write!(to, "{before}{}(", BlockText(succs[k]))?;
        write_list(params[k].as_slice(), StoredVReg, to)?;
        write!(to, ")")?;
    }
    Ok(())
}

/// Writes `operands`, each with its place among `places` in brackets, if it has one.
fn write_operands<W: fmt::Write>(operands: &[u64], places: &[u32], to: &mut W) -> fmt::Result {
    for (k, bits) in operands.iter().enumerate() {
        let before = if k == 0 { ": " } else { ", " };
        write!(to, "{before}{}", StoredOperand(*bits))?;
        if let Some(place) = places.get(k) {
            write!(to, " [{}]", StoredPlace(*place))?;
        }
    }
    Ok(())
}

/// Writes what follows the word of `inst` and its successors.
fn write_parts<A: Allocator, W: fmt::Write>(
    inst: &StoredInst<A>,
    places: &[u32],
    to: &mut W,
) -> fmt::Result {
    write_operands(inst.operands.as_slice(), places, to)?;
    if !inst.clobbers.is_empty() {
        write!(to, "; clobbers ")?;
        write_registers(inst.clobbers.as_slice(), to)?;
    }
    if places.len() > inst.operands.len() {
        write!(to, "; more ")?;
        write_list(&places[inst.operands.len()..], StoredPlace, to)?;
    }
    Ok(())
}

impl<'a, A: Allocator + Copy> Shown<'a, A> {
    /// Writes the instruction `number` between its moves, with the successors of `block` if it ends that block.
    fn write_inst<W: fmt::Write>(
        &self,
        number: usize,
        block: Option<usize>,
        places: &Places<'_>,
        moves: &mut Moves<'_>,
        to: &mut W,
    ) -> fmt::Result {
        let Some(inst) = self.function.insts.get(number) else {
            return Ok(());
        };
        moves.write_before(number, to)?;
        write!(to, "  inst{number} {}", opcode_name(inst.op))?;
        if let Some(block) = block {
            write_targets(" ", self.targets(block), to)?;
        }
        write_parts(inst, places.of(number), to)?;
        writeln!(to)?;
        moves.write_after(number, to)
    }

    /// Writes the own line of `block`, whose instructions are in `range`.
    fn write_header<W: fmt::Write>(
        &self,
        block: usize,
        range: (u32, u32),
        to: &mut W,
    ) -> fmt::Result {
        let (first, end) = range;
        write!(to, "block{block}")?;
        let params = list_at(self.params_in, block);
        if !params.is_empty() {
            write!(to, "(")?;
            write_list(params, StoredVReg, to)?;
            write!(to, ")")?;
        }
        if !self.is_in_line {
            write!(to, "; from inst{first} until inst{end}")?;
        }
        if let Some(preds) = self.odd_preds(block) {
            write!(to, "; preds ")?;
            write_blocks(preds, to)?;
        }
        if !self.is_in_line || first == end {
            write_targets("; succs ", self.targets(block), to)?;
        }
        writeln!(to, ":")
    }

    /// Writes `block`, with the instructions in `range` if blocks follow one another.
    fn write_block<W: fmt::Write>(
        &self,
        block: usize,
        range: (u32, u32),
        places: &Places<'_>,
        moves: &mut Moves<'_>,
        to: &mut W,
    ) -> fmt::Result {
        self.write_header(block, range, to)?;
        if !self.is_in_line {
            return Ok(());
        }
        let (first, end) = range;
        for inst in first..end {
            let ended = if inst == end - 1 { Some(block) } else { None };
            self.write_inst(inst as usize, ended, places, moves, to)?;
        }
        Ok(())
    }

    /// Writes all instructions with their `places` and `moves`, if blocks don't follow one another.
    fn write_insts<W: fmt::Write>(
        &self,
        places: &Places<'_>,
        moves: &mut Moves<'_>,
        to: &mut W,
    ) -> fmt::Result {
        if self.is_in_line {
            return Ok(());
        }
        for inst in 0..self.function.insts.len() {
            self.write_inst(inst, None, places, moves, to)?;
        }
        Ok(())
    }

    /// Writes the blocks, each followed by its instructions, with their `places` and `moves`.
    ///
    /// If blocks don't follow one another from the first instruction to the last, all instructions come first.
    pub(crate) fn write_body<W: fmt::Write>(
        &self,
        places: &Places<'_>,
        moves: &mut Moves<'_>,
        to: &mut W,
    ) -> fmt::Result {
        self.write_insts(places, moves, to)?;
        for (block, range) in self.function.blocks.iter().enumerate() {
            self.write_block(block, *range, places, moves, to)?;
        }
        Ok(())
    }
}

/// Writes `blocks`, or `none`.
fn write_blocks<W: fmt::Write>(blocks: &[u32], to: &mut W) -> fmt::Result {
    if blocks.is_empty() {
        return write!(to, "none");
    }
    write_list(blocks, BlockText, to)
}
