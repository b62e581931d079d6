//! Large functions, which are allocated in a moment.

ghost use Rattle.std.specs.Prelude.{◌≡◌};
ghost use Rattle.regalloc2_names.specs.declared.RegClass.{RegClass};

use super::rows::allocated;
use regalloc2::{Operand, RegClass, VReg};
use regalloc2_serialize::table_function::{BuildError, TableBuilder, TableFunction};
use std::alloc::Global;

/// Returns the integer vreg with the number `number`, which is taken below 2^20.
fn vreg(number: usize) -> VReg
    ensures { result.class ≡ RegClass.Int }
{
    VReg::new(number % 1_048_576, RegClass::Int)
}

/// Returns a definition of the integer vreg `number` in a register.
fn def(number: usize) -> Operand {
    Operand::reg_def(vreg(number))
}

/// Returns a use of the integer vreg `number` in a register.
fn read(number: usize) -> Operand {
    Operand::reg_use(vreg(number))
}

/// How many places and slots `f` gets on a machine with `registers` integer registers.
fn size_of(alloc: Global, f: &TableFunction, registers: usize) -> Option<(usize, usize)> {
    let out = allocated(alloc, f, registers)?;
    Some((out.allocs.len(), out.num_spillslots))
}

/// How many places and slots `f` gets on a machine with `registers` integer registers, if it could be built.
fn size(
    alloc: Global,
    f: Result<TableFunction, BuildError>,
    registers: usize,
) -> Option<(usize, usize)> {
    size_of(alloc, &f.ok()?, registers)
}

/// How many places and slots each large function gets.
pub fn sizes(alloc: Global) -> [Option<(usize, usize)>; 4] {
    [
        size(alloc, many_live(alloc), 16),
        size(alloc, wide_instructions(alloc), 16),
        size(alloc, long_chain(alloc), 4),
        size(alloc, big_switch(alloc), 4),
    ]
}

/// 50,000 definitions, all live, and then their reads.
fn many_live(alloc: Global) -> Result<TableFunction, BuildError> {
    let mut f = TableBuilder::new(alloc);
    let block = f.block(&[])?;
    for number in 0..50_000 {
        f.op(block, &[def(number)])?;
    }
    for number in 0..50_000 {
        f.op(block, &[read(number)])?;
    }
    f.ret(block, &[])?;
    f.finish(50_000)
}

/// Adds `count` operands to each of `defs` and `uses`.
fn add_operands(
    count: usize,
    defs: &mut Vec<Operand>,
    uses: &mut Vec<Operand>,
) -> Result<(), BuildError> {
    for number in 0..count {
        defs.push(Operand::any_def(vreg(number)))?;
        uses.push(Operand::any_use(vreg(number)))?;
    }
    Ok(())
}

/// Adds a block of an instruction with the operands `defs`, and two with the operands `uses`.
fn add_wide(f: &mut TableBuilder, defs: &[Operand], uses: &[Operand]) -> Result<(), BuildError> {
    let block = f.block(&[])?;
    f.op(block, defs)?;
    f.op(block, uses)?;
    f.ret(block, uses)
}

/// Instructions of 10,000 operands each.
fn wide_instructions(alloc: Global) -> Result<TableFunction, BuildError> {
    let (mut defs, mut uses) = (Vec::new(alloc), Vec::new(alloc));
    add_operands(10_000, &mut defs, &mut uses)?;
    let mut f = TableBuilder::new(alloc);
    add_wide(&mut f, &defs, &uses)?;
    f.finish(10_000)
}

/// 20,000 blocks, of which each reads its parameter and passes it on, up to one that returns.
fn long_chain(alloc: Global) -> Result<TableFunction, BuildError> {
    let mut f = TableBuilder::new(alloc);
    let mut block = f.block(&[])?;
    f.op(block, &[def(0)])?;
    for number in 1..20_000 {
        let next = f.block(&[vreg(number)])?;
        f.branch(block, &[])?;
        f.succ(block, next, &[vreg(number - 1)])?;
        if number < 19_999 {
            f.op(next, &[read(number)])?;
        }
        block = next;
    }
    f.ret(block, &[read(19_999)])?;
    f.finish(20_000)
}

/// A block that passes one value to 20,000 others, of which each reads it and returns.
fn big_switch(alloc: Global) -> Result<TableFunction, BuildError> {
    let mut f = TableBuilder::new(alloc);
    let start = f.block(&[])?;
    f.op(start, &[def(0)])?;
    f.branch(start, &[])?;
    for number in 1..20_001 {
        let case = f.block(&[vreg(number)])?;
        f.succ(start, case, &[vreg(0)])?;
        f.ret(case, &[read(number)])?;
    }
    f.finish(20_001)
}
