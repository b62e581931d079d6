//! Outputs that the checker takes or refuses by itself, without the test of cells that the programs make.

use super::random::{integer_machine, preg};
use super::rows::verdict;
use super::texts::function_of;
use super::units::report::Report;
use regalloc2::checker::{Checker, CheckerErrors};
use regalloc2::{Allocation, Edit, Function, Inst, Output, ProgPoint, RegClass, is_framed};
use regalloc2_serialize::SerializableFunction;
use regalloc2_tool::calls::reading::read_text;
use std::alloc::{AllocError, Global};

/// A value in the last slot, of which the output counts none.
const LAST_SLOT: &str =
    "block0:\n  op: Def: v0i any [stack16777215]\n  ret: Use: v0i any [stack16777215]\nslots 0\n";

/// The greatest vreg in the last slot.
const LAST_VREG: &str =
    "block0:\n  op: Def: v1073741822i any [stack16777215]\n  ret: Use: v1073741822i any [stack16777215]\nslots 0\n";

/// A value in a register.
const PLAIN: &str = "block0:\n  op: Def: v0i reg\n  ret: Use: v0i reg\n";

/// How many allocations an output has, and the offsets of its two instructions, which have one operand each. The
/// first is well-ordered.
static LISTS: [(usize, &[u32]); 5] = [
    (2, &[0, 1]),
    (2, &[0]),
    (2, &[1, 1]),
    (2, &[0, 3]),
    (3, &[0, 1]),
];

/// Returns what the checker reports of the function and the output of `text`.
fn verdict_of(alloc: Global, text: &str) -> Option<Result<(), CheckerErrors>> {
    let Ok(text) = read_text(alloc, text, 1) else {
        return None;
    };
    let f = SerializableFunction::from_stored(alloc, &text.function).ok()?;
    let out = Output::from_stored(alloc, text.output.as_ref()?).ok()?;
    verdict(alloc, &f, &[(&out, true)])
}

/// A place that holds the value of [`PLAIN`].
fn p0i() -> Allocation {
    Allocation::reg(preg(0, RegClass::Int))
}

/// An output with `count` allocations of p0i, these offsets and no moves.
fn output_with(alloc: Global, count: usize, offsets: &[u32]) -> Result<Output, AllocError> {
    let mut out = Output::new(alloc);
    for _ in 0..count {
        out.allocs.push(p0i())?;
    }
    out.inst_alloc_offsets.extend_from_slice(offsets)?;
    Ok(out)
}

/// Writes how a new checker of `f` rejects the output `given`, if it does.
fn write_prepared<F: Function>(alloc: Global, f: &F, given: &Output, out: &mut Report) {
    if !is_framed(f) {
        return;
    }
    match Checker::new(alloc, f, &integer_machine(alloc, 2)) {
        Ok(mut checker) => out.row("prepared", &checker.prepare(given).err()),
        Err(error) => out.row("no checker", &error),
    }
}

/// Writes how the checker refuses each of the lists, and a move from no place.
fn write_lists<F: Function>(alloc: Global, f: &F, out: &mut Report) -> Result<(), AllocError> {
    for (count, offsets) in &LISTS {
        let given = output_with(alloc, *count, *offsets)?;
        write_prepared(alloc, f, &given, out);
    }
    let mut moved = output_with(alloc, 2, &[0, 1])?;
    let nowhere = Edit::Move {
        from: Allocation::none(),
        to: p0i(),
    };
    moved
        .edits
        .push((ProgPoint::before(Inst::new(1)), nowhere))?;
    write_prepared(alloc, f, &moved, out);
    Ok(())
}

/// Writes what the checker reports of a value in the last slot, of a small vreg and of the greatest, and how it
/// refuses outputs that aren't well-ordered.
pub fn write_all(alloc: Global, out: &mut Report) -> Result<(), AllocError> {
    out.row("last slot", &verdict_of(alloc, LAST_SLOT));
    out.row("last slot, greatest vreg", &verdict_of(alloc, LAST_VREG));
    match function_of(alloc, PLAIN) {
        Some(f) => write_lists(alloc, &f, out),
        None => Ok(out.row("refused", &"no function")),
    }
}
