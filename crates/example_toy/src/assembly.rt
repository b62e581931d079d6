//! Assembly for x86-64 from the listing of an allocated program.

ghost use Rattle.std.specs.Prelude.{◌<◌, length};
ghost use Rattle.regalloc2.specs.OutputValue.{IsInOrder};
ghost use Rattle.regalloc2.specs.Views.{output_of};
ghost use Rattle.example_toy.specs.Seen.{function_of};

use super::code::{Code, Kind};
use regalloc2::{Allocation, Block, Function, Inst, InstOrEdit, Output};
use std::fmt;
use std::io::{self, Write};

/// The names of the general registers, by their numbers in machine code.
pub static NAMES: [&str; 16] = [
    "rax", "rcx", "rdx", "rbx", "rsp", "rbp", "rsi", "rdi", "r8", "r9", "r10", "r11", "r12", "r13",
    "r14", "r15",
];

/// A place as an operand of an instruction: a register, or eight bytes of the frame.
#[derive(Clone, Copy)]
struct PlaceText(Allocation);

impl fmt::Display for PlaceText {
    fn fmt<W: fmt::Write>(&self, f: &mut fmt::Formatter<W>) -> fmt::Result {
        if let Some(reg) = self.0.as_reg() {
            return f.write_str(NAMES.get(reg.hw_enc()).copied().unwrap_or("?"));
        }
        let slot = self.0.index();
        write!(f, "[rsp + 8 * {slot}]")
    }
}

/// Returns the place of operand `k` among `places`.
fn place_at(places: &[Allocation], k: usize) -> PlaceText {
    PlaceText(places.get(k).copied().unwrap_or(Allocation::none()))
}

/// Returns the number of successor `k` among `succs`.
fn label_at(succs: &[Block], k: usize) -> usize {
    match succs.get(k) {
        Some(succ) => succ.index(),
        None => 0,
    }
}

/// Writes what the line `inst` of `block` does, with its operands' places.
fn write_line<W: Write>(
    code: &Code,
    output: &Output,
    block: Block,
    inst: Inst,
    w: &mut W,
) -> io::Result<()>
    requires in_order { IsInOrder (function_of code.now) (output_of output.now) }
    requires block { block < length (function_of code.now).blocks }
    requires inst { inst < length (function_of code.now).insts }
{
    let places = output.inst_allocs(inst);
    let succs = code.block_succs(block);
    match code.lines[inst.index()].kind {
        Kind::Argument => Ok(()),
        Kind::Number(n) => writeln!(w, "  mov {}, {n}", place_at(places, 0)),
        Kind::Add => writeln!(w, "  add {}, {}", place_at(places, 0), place_at(places, 2)),
        Kind::Sub => writeln!(w, "  sub {}, {}", place_at(places, 0), place_at(places, 2)),
        Kind::Jump => writeln!(w, "  jmp .L{}", label_at(succs, 0)),
        Kind::Fork => {
            let (tested, then, other) = (
                place_at(places, 0),
                label_at(succs, 0),
                label_at(succs, 1),
            );
            writeln!(
                w,
                "  test {tested}, {tested}\n  jnz .L{then}\n  jmp .L{other}"
            )
        }
        Kind::Return => writeln!(w, "  add rsp, 8 * {}\n  ret", output.num_spillslots),
    }
}

/// Writes `item`, a line or a move of `block`. No move goes from a stack place to another, so each is one
/// instruction.
fn write_item<W: Write>(
    code: &Code,
    output: &Output,
    block: Block,
    item: &InstOrEdit,
    w: &mut W,
) -> io::Result<()>
    requires in_order { IsInOrder (function_of code.now) (output_of output.now) }
    requires block { block < length (function_of code.now).blocks }
{
    match item {
        InstOrEdit::Inst(inst) if inst.index() < code.num_insts() => {
            write_line(code, output, block, *inst, w)
        }
        InstOrEdit::Inst(_) => Ok(()),
        InstOrEdit::Edit(edit) => {
            let (from, to) = edit.places();
            writeln!(w, "  mov {}, {}", PlaceText(to), PlaceText(from))
        }
    }
}

/// Writes `block`: its label, then its lines and moves in their order.
fn write_block<W: Write>(code: &Code, output: &Output, block: Block, w: &mut W) -> io::Result<()>
    requires in_order { IsInOrder (function_of code.now) (output_of output.now) }
    requires block { block < length (function_of code.now).blocks }
{
    writeln!(w, ".L{}:", block.index())?;
    if code.block_insns(block).len() == 0 {
        return Ok(());
    }
    for item in output.block_insts_and_edits(code, block) {
        write_item(code, output, block, &item, w)?;
    }
    Ok(())
}

/// Writes the program `code`, of which `output` is an allocation, as a function `toy` of one number.
pub fn write_assembly<W: Write>(code: &Code, output: &Output, w: &mut W) -> io::Result<()>
    requires in_order { IsInOrder (function_of code.now) (output_of output.now) }
{
    let slots = output.num_spillslots;
    writeln!(
        w,
        ".intel_syntax noprefix\n.globl toy\ntoy:\n  sub rsp, 8 * {slots}"
    )?;
    for b in 0..code.num_blocks() {
        write_block(code, output, Block::new(b), w)?;
    }
    w.write_all(b".section .note.GNU-stack,\"\",@progbits\n")
}
