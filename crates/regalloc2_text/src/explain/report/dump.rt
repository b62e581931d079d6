//! A function with its allocation, in the form in which upstream prints results.

use crate::explain::report::operand::ReportedOperand;
use crate::explain::stored::{moves_from, operands_at, places_of, point_after, point_before};
use crate::named::list_at;
use crate::spell::{MoveText, StoredPlace, StoredPoint, StoredRegister};
use regalloc2_function::StoredOutput;
use regalloc2_names::{Allocation, ProgPoint};
use regalloc2_serialize::{InstOpcode, StoredFunction};
use std::fmt;
use std::io::{self, Write};

/// Numbers as Rust's `Debug` writes a list, without the brackets.
#[derive(Clone, Copy)]
struct Numbers<'a>(&'a [u32]);

impl fmt::Display for Numbers<'_> {
    fn fmt<W: fmt::Write>(&self, f: &mut fmt::Formatter<W>) -> fmt::Result {
        let mut before = "";
        for number in self.0 {
            write!(f, "{before}{number}")?;
            before = ", ";
        }
        Ok(())
    }
}

/// Writes the head of `block`: `block1: [succs [2, 3] preds [0]]`.
fn write_head<W: Write>(function: &StoredFunction, block: usize, to: &mut W) -> io::Result<()> {
    let succs = Numbers(list_at(function.block_succs.as_slice(), block));
    let preds = Numbers(list_at(function.block_preds.as_slice(), block));
    writeln!(to, "block{block}: [succs [{succs}] preds [{preds}]]")
}

/// Returns upstream's name for an instruction with the opcode `op`.
fn name_of(op: InstOpcode) -> &'static str {
    match op {
        InstOpcode::Op => "op",
        InstOpcode::Ret => "ret",
        InstOpcode::Branch => "br",
    }
}

/// Writes `operands`, each with its place among `places` in brackets.
fn write_operands<W: Write>(operands: &[u64], places: &[u32], to: &mut W) -> io::Result<()> {
    let none = Allocation::none().bits();
    for (k, bits) in operands.iter().enumerate() {
        let before = if k == 0 { "" } else { ", " };
        let operand = ReportedOperand(*bits);
        let place = StoredPlace(places.get(k).copied().unwrap_or(none));
        write!(to, "{before}{operand} [{place}]")?;
    }
    Ok(())
}

/// Writes `clobbers`, as ` [clobber: p0i, p1i]`, or nothing if there are none.
fn write_clobbers<W: Write>(clobbers: &[u8], to: &mut W) -> io::Result<()> {
    for (k, clobber) in clobbers.iter().enumerate() {
        let before = if k == 0 { " [clobber: " } else { ", " };
        let register = StoredRegister(*clobber);
        write!(to, "{before}{register}")?;
    }
    if clobbers.is_empty() {
        return Ok(());
    }
    write!(to, "]")
}

/// Writes the moves at `point`, as upstream's annotations of results.
fn write_moves<W: Write>(output: &StoredOutput, point: ProgPoint, to: &mut W) -> io::Result<()> {
    for (at, from, into) in moves_from(output.edits.as_slice(), point) {
        if *at != point.to_index() {
            break;
        }
        let at = StoredPoint(*at);
        let places = MoveText(*from, *into);
        writeln!(to, "  {at}: {places}")?;
    }
    Ok(())
}

/// Writes `inst` between its moves.
fn write_inst<W: Write>(
    function: &StoredFunction,
    output: &StoredOutput,
    inst: usize,
    to: &mut W,
) -> io::Result<()> {
    let Some(data) = function.insts.get(inst) else {
        return Ok(());
    };
    write_moves(output, point_before(inst), to)?;
    let name = name_of(data.op);
    write!(to, "  inst{inst}: {name} ")?;
    write_operands(operands_at(function, inst), places_of(output, inst), to)?;
    write_clobbers(data.clobbers.as_slice(), to)?;
    writeln!(to)?;
    write_moves(output, point_after(inst), to)
}

/// Writes `function` with `output` as upstream's `dump_results` does.
///
/// Writes the heads of blocks with successors and predecessors, instructions as `op`, `br` or `ret` with operands,
/// places and clobbers, and moves as annotations at their points. The moves of `output` are sorted by points.
pub fn write_dump<W: Write>(
    function: &StoredFunction,
    output: &StoredOutput,
    to: &mut W,
) -> io::Result<()> {
    for (block, (first, end)) in function.blocks.iter().enumerate() {
        write_head(function, block, to)?;
        for inst in *first..*end {
            write_inst(function, output, inst as usize, to)?;
        }
    }
    Ok(())
}
