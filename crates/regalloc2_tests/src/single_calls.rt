//! Calls that [`allocate`](regalloc2::allocate) makes unseen, made one by one: the tests of a function's blocks and
//! definitions, its live ranges, and a checked run with the test of its cells.

ghost use Rattle.regalloc2_analysis.specs.LiveRanges.LiveRanges.{IsSSA};

use super::calls::OPTIONS;
use super::random::integer_machine;
use super::texts::labelled_function_of;
use super::units::report::Report;
use regalloc2::checker::places_are_cells;
use regalloc2::ssa::test_definitions;
use regalloc2::{
    Function, MachineEnv, Operand, PReg, PRegSet, RegAllocError, RegClass, VReg, machine_fits,
    run_checked, test_blocks, test_ends,
};
use regalloc2_analysis::live_ranges::{LiveRange, kept_labels, live_ranges};
use regalloc2_serialize::table_function::{BuildError, TableBuilder, TableFunction};
use std::alloc::Global;

/// A value that a loop passes to a parameter on each turn, which nothing reads, and one that the return reads late.
/// The label of the parameter and the one that ends past the last read aren't kept.
const LABELLED: &str = "block0:\n  op: Def: v0i reg\n  branch block1(v0i)\n\
    block1(v1i):\n  op: Def: v2i reg, Use: v0i reg\n  branch block2(), block3()\n\
    block2:\n  branch block1(v0i)\n\
    block3:\n  ret: Use@Late: v2i reg\n\
    label 5: v0i from inst0 until inst5\nlabel 6: v1i from inst2 until inst3\n\
    label 7: v2i from inst2 until inst8\n";

/// Writes `range` with its vreg, and the operand that shows the value at its end.
fn write_range(range: &LiveRange, out: &mut Report) {
    let by = range
        .by
        .map(|operand| (operand.inst.index(), operand.index));
    out.row("range", &(range.vreg, range.first, range.last, by));
}

/// Writes the live ranges of the first three vregs.
fn write_live<F: Function>(alloc: Global, f: &F, out: &mut Report) -> Result<(), RegAllocError>
    requires { IsSSA (F.function f.now) }
{
    for range in live_ranges(alloc, f, &[true, true, true])? {
        if let Some(range) = range {
            write_range(&range, out);
        }
    }
    Ok(())
}

/// Writes the labels that are kept, each with its vreg's live range.
fn write_kept<F: Function>(alloc: Global, f: &F, out: &mut Report) -> Result<(), RegAllocError>
    requires { IsSSA (F.function f.now) }
{
    for kept in kept_labels(alloc, f)? {
        out.row("kept", &kept.label);
        write_range(&kept.range, out);
    }
    Ok(())
}

/// Writes the live ranges and the kept labels of a function, if it passes the tests on which these rest.
fn write_ranges<F: Function>(alloc: Global, f: &F, out: &mut Report) -> Result<(), RegAllocError> {
    test_blocks(f)?;
    test_ends(f)?;
    if f.num_blocks() == 0 {
        return Ok(());
    }
    test_definitions(alloc, f)?;
    write_live(alloc, f, out)?;
    write_kept(alloc, f, out)
}

/// A value that is defined, read beside a clobber of p1i, and read by the return.
fn built(alloc: Global) -> Result<TableFunction, BuildError> {
    let value = VReg::new(0, RegClass::Int);
    let clobbers = PRegSet::empty().with(PReg::new(1, RegClass::Int));
    let mut f = TableBuilder::new(alloc);
    let block = f.block(&[])?;
    f.op(block, &[Operand::reg_def(value)])?;
    f.op_with_clobbers(block, &[Operand::reg_use(value)], clobbers)?;
    f.ret(block, &[Operand::reg_use(value)])?;
    f.finish(1)
}

/// Writes the places of a checked output of `f`, and whether they are cells.
fn write_checked<F: Function>(alloc: Global, f: &F, env: &MachineEnv, out: &mut Report) {
    if !machine_fits(f, env) {
        return;
    }
    match run_checked(alloc, f, env, &OPTIONS) {
        Ok(made) => {
            let cells = places_are_cells(alloc, f, env, &made);
            out.row("checked", &(made.allocs.as_slice(), cells.ok()));
        }
        Err(error) => out.row("refused", &error),
    }
}

/// Writes what the calls return.
pub fn write_all(alloc: Global, out: &mut Report) {
    match labelled_function_of(alloc, LABELLED) {
        Some(f) => {
            let answer = write_ranges(alloc, &f, out);
            out.row("tested", &answer);
        }
        None => out.row("refused", &"no function"),
    }
    match built(alloc) {
        Ok(f) => write_checked(alloc, &f, &integer_machine(alloc, 2), out),
        Err(error) => out.row("refused", &error),
    }
}
