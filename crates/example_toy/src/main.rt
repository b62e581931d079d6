//! The tutorial of the allocator, in two parts. A program with a loop is allocated, and written as assembly for
//! x86-64. Then the moves of a call are put in order, and written, too.
//!
//! Copy it, and change the representation. `code` has what the allocator asks of a program, `assembly` what is
//! emitted from its listing, and this file builds a program, describes the machine, and calls the allocator. `call`
//! lowers a call, and `convention` has the places of its arguments.
#![tactic(auto)]

ghost use Rattle.std.specs.Prelude.{◌≡◌, ◌<◌, ◌≤◌};

mod assembly;
mod call;
mod code;
mod convention;

use anyhow::bail;
use assembly::write_assembly;
use call::write_calls;
use code::{Code, Kind, Line, Part};
use regalloc2::{
    Block, Inst, InstRange, MachineEnv, Operand, PReg, PRegSet, RegClass, VReg, allocate,
};
use std::alloc::{AllocError, Global};

/// Returns the integer register with the number `number`.
fn register(number: usize) -> PReg
    requires { number ≤ 63 }
    ensures { result ≡ record { number = number; class = RegClass.Int } }
{
    PReg::new(number, RegClass::Int)
}

/// Returns the register with the number `number` in the class of `vreg`.
fn register_for(vreg: VReg, number: usize) -> PReg
    requires { number ≤ 63 }
    ensures { result.class ≡ vreg.class }
{
    PReg::new(number, vreg.class())
}

/// Returns the integer vreg with the number `number`.
fn value(number: usize) -> VReg
    requires { number < 100 }
    ensures { result ≡ record { number = number; class = RegClass.Int } }
{
    VReg::new(number, RegClass::Int)
}

/// Adds a line of `kind` with `operands` to `lines`. It overwrites nothing beside its definitions.
fn add_line(
    alloc: Global,
    lines: &mut Vec<Line>,
    kind: Kind,
    operands: &[Operand],
) -> Result<(), AllocError> {
    lines.push(Line {
        kind,
        operands: operands.to_vec(alloc)?,
        clobbers: PRegSet::empty(),
    })?;
    Ok(())
}

/// Gives the block `part` the successors `succs`, each with the arguments that it gets.
fn add_succs(alloc: Global, part: &mut Part, succs: &[(Block, &[VReg])]) -> Result<(), AllocError> {
    for (succ, arguments) in succs {
        part.succs.push(*succ)?;
        part.arguments.push(arguments.to_vec(alloc)?)?;
    }
    Ok(())
}

/// Adds a block of the lines from `lines.0` up to `lines.1` to `parts`.
fn add_part(
    alloc: Global,
    parts: &mut Vec<Part>,
    lines: (usize, usize),
    preds: &[Block],
    params: &[VReg],
    succs: &[(Block, &[VReg])],
) -> Result<(), AllocError>
    requires { lines.0 ≤ lines.1 × lines.1 < 100 }
{
    let mut part = Part {
        range: InstRange::new(Inst::new(lines.0), Inst::new(lines.1)),
        preds: preds.to_vec(alloc)?,
        params: params.to_vec(alloc)?,
        succs: Vec::new(alloc),
        arguments: Vec::new(alloc),
    };
    add_succs(alloc, &mut part, succs)?;
    parts.push(part)?;
    Ok(())
}

/// Adds the lines of `sum` to `lines`: its start, the head of the loop, its body and its end. `v` has the vregs.
fn add_lines_of_sum(alloc: Global, lines: &mut Vec<Line>, v: &[VReg; 7]) -> Result<(), AllocError> {
    let [v0, v1, v2, v3, v4, v5, v6] = *v;
    let argument = [Operand::reg_fixed_def(v0, register_for(v0, 7))];
    let add = [
        Operand::reg_reuse_def(v4, 1),
        Operand::reg_use(v3),
        Operand::any_use(v2),
    ];
    let sub = [
        Operand::reg_reuse_def(v6, 1),
        Operand::reg_use(v2),
        Operand::any_use(v5),
    ];
    let answer = [Operand::reg_fixed_use(v3, register_for(v3, 0))];
    let all: [(Kind, &[Operand]); 9] = [
        (Kind::Argument, &argument),
        (Kind::Number(0), &[Operand::reg_def(v1)]),
        (Kind::Jump, &[]),
        (Kind::Fork, &[Operand::reg_use(v2)]),
        (Kind::Add, &add),
        (Kind::Number(1), &[Operand::reg_def(v5)]),
        (Kind::Sub, &sub),
        (Kind::Jump, &[]),
        (Kind::Return, &answer),
    ];
    for (kind, operands) in &all {
        add_line(alloc, lines, *kind, operands)?;
    }
    Ok(())
}

/// Adds the blocks of `sum` to `parts`. `v` has the vregs.
fn add_parts_of_sum(alloc: Global, parts: &mut Vec<Part>, v: &[VReg; 7]) -> Result<(), AllocError> {
    let [v0, v1, v2, v3, v4, _, v6] = *v;
    let (start, head, body, end) = (Block::new(0), Block::new(1), Block::new(2), Block::new(3));
    add_part(alloc, parts, (0, 3), &[], &[], &[(head, &[v0, v1])])?;
    let ways: [(Block, &[VReg]); 2] = [(body, &[]), (end, &[])];
    add_part(alloc, parts, (3, 4), &[start, body], &[v2, v3], &ways)?;
    add_part(alloc, parts, (4, 8), &[head], &[], &[(head, &[v6, v4])])?;
    add_part(alloc, parts, (8, 9), &[head], &[], &[])
}

/// The sum of the numbers from 1 to the argument.
fn sum(alloc: Global) -> Result<Option<Code>, AllocError> {
    let v = [
        value(0),
        value(1),
        value(2),
        value(3),
        value(4),
        value(5),
        value(6),
    ];
    let (mut parts, mut lines) = (Vec::new(alloc), Vec::new(alloc));
    add_lines_of_sum(alloc, &mut lines, &v)?;
    add_parts_of_sum(alloc, &mut parts, &v)?;
    Ok(Code::new(parts, lines, 7))
}

/// The registers that a function of the system's calling convention may overwrite, with one that moves may use.
fn machine(alloc: Global) -> MachineEnv {
    let none = PRegSet::empty();
    let mut registers = none;
    for number in [0, 1, 2, 6, 7, 8, 9, 10] {
        registers.add(register(number));
    }
    MachineEnv {
        preferred_regs_by_class: [registers, none, none],
        non_preferred_regs_by_class: [none; 3],
        scratch_by_class: [Some(register(11)), None, None],
        fixed_stack_slots: Vec::new(alloc),
    }
}

fn main(rt: HostRuntime) -> anyhow::Result<()> {
    let alloc = rt.alloc();
    let Some(code) = sum(alloc)? else {
        bail!("the program is too long");
    };
    let output = allocate(alloc, &code, &machine(alloc))?;
    write_assembly(&code, &output, &mut rt.stdout())?;
    write_calls(alloc, &mut rt.stdout())?;
    Ok(())
}
