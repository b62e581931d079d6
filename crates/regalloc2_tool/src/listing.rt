//! The listing of an allocated function.

ghost use Rattle.std.specs.Prelude.{◌≡◌, ◌<◌, OnOk, length};
ghost use Rattle.std.specs.Io.KnownBytes.{Appends};
ghost use Rattle.regalloc2_function.specs.FunctionValue.{inst_at};
ghost use Rattle.regalloc2_function.specs.OutputValue.{IsInOrder, place_at};
ghost use Rattle.regalloc2_function.specs.Views.{move_of, output_of};
ghost use Rattle.regalloc2_tool.specs.Framed.{BlocksAreWithin};
ghost use Rattle.regalloc2_tool.specs.Listing.{opcode_text, placed_text, operands_text, inst_line, move_line, block_text};
ghost use Rattle.regalloc2_tool.specs.Listing.{blocks_text, debug_line, debug_text, listing_text};

use regalloc2_function::{Edit, Function, InstOrEdit, Output};
use regalloc2_index::{Block, Inst};
use regalloc2_names::{Allocation, Operand, ProgPoint};
use regalloc2_text::PointText;
use std::alloc::Allocator;
use std::io::{self, Write};

/// Returns the kind of `inst`, as `op`, `branch` or `ret`.
pub fn opcode_name<F: Function>(f: &F, inst: Inst) -> &'static str
    requires { inst < length (F.function f.now).insts }
    ensures { result.now ≡ opcode_text (inst_at (F.function f.now) inst) }
{
    if f.is_branch(inst) {
        "branch"
    } else if f.is_ret(inst) {
        "ret"
    } else {
        "op"
    }
}

/// Returns the place of operand `k` among `places`; `none` past the end of the list.
fn place_at(places: &[Allocation], k: usize) -> Allocation
    ensures { result ≡ place_at places.now k }
{
    if k < places.len() {
        places[k]
    } else {
        Allocation::none()
    }
}

/// Writes the operand at the index `k` of its instruction, with its place.
#[tactic(auto, unfolding(crate::specs::Listing::placed_text))]
fn write_operand<W: Write>(
    k: usize,
    operand: Operand,
    place: Allocation,
    writer: &mut W,
) -> io::Result<()>
    ensures { OnOk result (Appends (W.contents writer.old) (W.contents writer.new) (placed_text k operand place)) }
{
    let before = if k == 0 { ": " } else { ", " };
    write!(writer, "{before}{operand} [{place}]")
}

/// Writes `operands`, each with its place among `places`.
fn write_operands<W: Write>(
    operands: &[Operand],
    places: &[Allocation],
    writer: &mut W,
) -> io::Result<()>
    ensures { OnOk result (Appends (W.contents writer.old) (W.contents writer.new) (operands_text places.now 0 operands.now)) }
{
    for k in 0..operands.len() {
        write_operand(k, operands[k], place_at(places, k), writer)?;
    }
    Ok(())
}

/// Writes `inst` with its operands, each with its place in `output`.
fn write_inst<F: Function, A: Allocator, W: Write>(
    f: &F,
    output: &Output<A>,
    inst: Inst,
    writer: &mut W,
) -> io::Result<()>
    requires in_order { IsInOrder (F.function f.now) (output_of output.now) }
    requires inst { inst < length (F.function f.now).insts }
    ensures { OnOk result (Appends (W.contents writer.old) (W.contents writer.new) (inst_line (F.function f.now) (output_of output.now) inst)) }
{
    let number = inst.index();
    let name = opcode_name(f, inst);
    write!(writer, "  inst{number} {name}")?;
    write_operands(f.inst_operands(inst), output.inst_allocs(inst), writer)?;
    writeln!(writer)
}

/// Writes the move `edit`.
#[tactic(auto, unfolding(crate::specs::Listing::move_line))]
fn write_move<W: Write>(edit: Edit, writer: &mut W) -> io::Result<()>
    ensures { OnOk result (Appends (W.contents writer.old) (W.contents writer.new) (move_line (move_of edit))) }
{
    let (from, to) = edit.places();
    writeln!(writer, "  move {from} -> {to}")
}

/// Writes the instructions of `block`, each after the moves that run before it.
fn write_block<F: Function, A: Allocator, W: Write>(
    f: &F,
    output: &Output<A>,
    block: Block,
    writer: &mut W,
) -> io::Result<()>
    requires in_order { IsInOrder (F.function f.now) (output_of output.now) }
    requires blocks { BlocksAreWithin (F.function f.now) }
    requires block { block < length (F.function f.now).blocks }
    ensures { OnOk result (Appends (W.contents writer.old) (W.contents writer.new) (block_text (F.function f.now) (output_of output.now) block)) }
{
    let number = block.index();
    writeln!(writer, "block{number}:")?;
    for item in output.block_insts_and_edits(f, block) {
        match &item {
            InstOrEdit::Inst(inst) => write_inst(f, output, *inst, writer)?,
            InstOrEdit::Edit(edit) => write_move(**edit, writer)?,
        }
    }
    Ok(())
}

/// Writes the listings of all blocks of `f`.
fn write_blocks<F: Function, A: Allocator, W: Write>(
    f: &F,
    output: &Output<A>,
    writer: &mut W,
) -> io::Result<()>
    requires in_order { IsInOrder (F.function f.now) (output_of output.now) }
    requires blocks { BlocksAreWithin (F.function f.now) }
    ensures { OnOk result (Appends (W.contents writer.old) (W.contents writer.new) (blocks_text (F.function f.now) (output_of output.now))) }
{
    for b in 0..f.num_blocks() {
        write_block(f, output, Block::new(b), writer)?;
    }
    Ok(())
}

/// Writes the debug location `location`.
#[tactic(auto, unfolding(crate::specs::Listing::debug_line))]
fn write_debug_location<W: Write>(
    location: (u32, ProgPoint, ProgPoint, Allocation),
    writer: &mut W,
) -> io::Result<()>
    ensures { OnOk result (Appends (W.contents writer.old) (W.contents writer.new)
        (debug_line (record { label = location.0; start = location.1; end = location.2; place = location.3 }))) }
{
    let (label, from, to, place) = location;
    let from = PointText(from);
    let to = PointText(to);
    writeln!(writer, "debug {label} {from} {to} {place}")
}

/// Writes the debug locations of `output`.
fn write_debug_locations<A: Allocator, W: Write>(
    output: &Output<A>,
    writer: &mut W,
) -> io::Result<()>
    ensures { OnOk result (Appends (W.contents writer.old) (W.contents writer.new) (debug_text (output_of output.now))) }
{
    for location in &output.debug_locations {
        write_debug_location(*location, writer)?;
    }
    Ok(())
}

/// Writes the listing of `f` with its allocation, `output`.
///
/// The listing has block by block the instructions, each with its operands and their places, and the moves that run
/// before it; then the units of the slots, and the debug locations.
pub fn write_listing<F: Function, A: Allocator, W: Write>(
    f: &F,
    output: &Output<A>,
    writer: &mut W,
) -> io::Result<()>
    requires in_order { IsInOrder (F.function f.now) (output_of output.now) }
    requires blocks { BlocksAreWithin (F.function f.now) }
    ensures { OnOk result (Appends (W.contents writer.old) (W.contents writer.new) (listing_text (F.function f.now) (output_of output.now))) }
{
    write_blocks(f, output, writer)?;
    let slots = output.num_spillslots;
    writeln!(writer, "slots {slots}")?;
    write_debug_locations(output, writer)
}
