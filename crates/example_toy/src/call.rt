//! A call is lowered to the System V convention of x86-64, and its moves are written as assembly. This is done twice:
//! with free registers, and without any.
//!
//! Integers go to `rdi`, `rsi`, `rdx`, `rcx`, `r8` and `r9`, floats to `xmm0` up to `xmm7`, and what is left to the
//! stack, from `[rsp]` on. The slots of the frame are at `[rsp]`, `[rsp + 8]` and so on, of which the first ones are
//! kept for such arguments.

ghost use Rattle.std.specs.Prelude.{◌≤◌, IfOk};

use super::convention::{Assembly, Convention, int, slot, xmm};
use regalloc2::callmoves::{CallFrame, schedule};
use regalloc2::{Allocation, PReg, PRegSet, RegClass};
use std::alloc::{AllocError, Global};
use std::io::Write;

/// Where the arguments of the call are before it, with their classes. In each class two registers change places; of
/// the last three integers two go from slot to slot.
fn arguments() -> [(RegClass, Allocation); 11] {
    let (rax, rdx, rbx, rsi, rdi) = (int(0), int(2), int(3), int(6), int(7));
    [
        (RegClass::Int, Allocation::reg(rsi)),
        (RegClass::Int, Allocation::reg(rdi)),
        (RegClass::Int, slot(4)),
        (RegClass::Int, Allocation::reg(rdx)),
        (RegClass::Float, Allocation::reg(xmm(1))),
        (RegClass::Float, Allocation::reg(xmm(0))),
        (RegClass::Int, Allocation::reg(rbx)),
        (RegClass::Int, Allocation::reg(rbx)),
        (RegClass::Int, slot(5)),
        (RegClass::Int, Allocation::reg(rax)),
        (RegClass::Int, slot(6)),
    ]
}

/// The first slot of two that the moves may use.
const SPARE_SLOT: usize = 7;

/// Returns what may be used for the moves of `class`, if the registers `free` are free.
fn frame_of(alloc: Global, class: RegClass, free: &[PReg]) -> Result<CallFrame, AllocError>
    ensures range { IfOk result (λ f. f.slots.start ≤ f.slots.«end») }
    ensures small { IfOk result (λ f. f.slots.«end» ≤ 16777216) }
{
    let mut free_regs = Vec::new(alloc);
    for preg in free {
        if preg.class() == class {
            free_regs.push(*preg)?;
        }
    }
    Ok(CallFrame {
        free_regs,
        borrowed: PReg::new(12, class),
        stack_pregs: PRegSet::empty(),
        slots: SPARE_SLOT..SPARE_SLOT + 2,
    })
}

/// Returns the moves of the arguments of `class`, from where they are to where the convention has them.
fn moves_of(alloc: Global, class: RegClass) -> Result<Vec<(Allocation, Allocation)>, AllocError> {
    let mut moves = Vec::new(alloc);
    let mut convention = Convention::new();
    for (each, from) in arguments() {
        let to = convention.next(each);
        if each == class {
            moves.push((from, to))?;
        }
    }
    Ok(moves)
}

/// Writes `moves`, of one class, by `instruction` in an order in which they can be made.
fn write_moves<W: Write>(
    alloc: Global,
    out: &mut W,
    moves: &[(Allocation, Allocation)],
    frame: &CallFrame,
    instruction: &str,
) -> anyhow::Result<()>
    requires range { frame.now.slots.start ≤ frame.now.slots.«end» }
    requires small { frame.now.slots.«end» ≤ 16777216 }
{
    let made = schedule(alloc, moves, frame)?;
    for (from, to, _) in made.as_slice() {
        let (from, to) = (Assembly(*from), Assembly(*to));
        writeln!(out, "    {instruction} {to}, {from}")?;
    }
    Ok(())
}

/// Writes the call, if the registers `free` are free.
///
/// A move of one class neither reads nor writes what a move of the other class writes: arguments go to the first
/// slots, and come from others. Therefore the classes follow one another.
fn write_call<W: Write>(alloc: Global, out: &mut W, free: &[PReg]) -> anyhow::Result<()> {
    for (class, instruction) in [(RegClass::Int, "mov"), (RegClass::Float, "movsd")] {
        let moves = moves_of(alloc, class)?;
        let frame = frame_of(alloc, class, free)?;
        write_moves(alloc, out, moves.as_slice(), &frame, instruction)?;
    }
    writeln!(out, "    call blend")?;
    Ok(())
}

/// Writes the call twice: if some registers are free, and if none is.
///
/// Nothing runs these lines, which are assembled behind the function. `blend` is weak, so that they can be linked
/// without it.
pub fn write_calls<W: Write>(alloc: Global, out: &mut W) -> anyhow::Result<()> {
    writeln!(
        out,
        ".text\n.weak blend\n# r11, r10, xmm15 and xmm14 are free"
    )?;
    write_call(alloc, out, &[int(11), int(10), xmm(15), xmm(14)])?;
    writeln!(out, "# no register is free")?;
    write_call(alloc, out, &[])
}
