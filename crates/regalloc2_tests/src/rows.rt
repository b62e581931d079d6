//! A loop and a fork, and results of calls on them that no listing shows. The lemmas of
//! `WorkedPaths` say what they read.

use super::calls::{
    order, run_fitting, run_into_ctx_fitting, run_with_ctx_fitting, run_without_debug_locations,
};
use super::random::integer_machine;
use super::texts::{function_of, labelled_function_of};
use regalloc2::cfg::CFGInfo;
use regalloc2::checker::{Checker, CheckerErrors};
use regalloc2::ssa::validate_ssa;
use regalloc2::{Block, Ctx, Function, Output, RegAllocError, is_framed};
use regalloc2_serialize::table_function::TableFunction;
use std::alloc::Global;

/// A loop whose two parameters change places on each turn; then a return that reads both.
const LOOP: &str = "block0:\n  op: Def: v0i reg\n  op: Def: v1i reg\n  branch block1(v0i, v1i)\n\
    block1(v2i, v3i):\n  op: Use: v2i reg\n  branch block2(), block3()\n\
    block2:\n  branch block1(v3i, v2i)\n\
    block3:\n  ret: Use: v2i reg, Use: v3i reg\n";

/// Two values with a label.
const LABELLED: &str = "block0:\n  op: Def: v0i reg, Def: v1i reg\n\
    ret: Use: v0i reg, Use: v1i reg\nlabel 5: v0i from inst0 until inst1\n";

/// A fork that passes its value on one edge to a parameter.
const FORK: &str = "block0:\n  op: Def: v0i reg\n  branch block1(v0i), block2()\n\
    block1(v1i):\n  ret: Use: v1i reg\n\
    block2:\n  ret: Use: v1i reg\n";

/// The output for `f` on a machine with `registers` integer registers.
pub fn allocated<F: Function>(alloc: Global, f: &F, registers: usize) -> Option<Output> {
    run_fitting(alloc, f, &integer_machine(alloc, registers))?.ok()
}

/// Returns the tables of `f`, if it passes the tests or `is_tested` is false.
fn tables_of<F: Function>(alloc: Global, f: &F, is_tested: bool) -> Option<CFGInfo> {
    let info = CFGInfo::new(alloc, f).ok()?;
    if is_tested && validate_ssa(alloc, f, &info).is_err() {
        return None;
    }
    Some(info)
}

/// Returns the tables of the function of `text`, if it passes the tests or `is_tested` is false.
fn tables_of_text(alloc: Global, text: &str, is_tested: bool) -> Option<CFGInfo> {
    let f = function_of(alloc, text)?;
    tables_of(alloc, &f, is_tested)
}

/// The tables of the loop, which passes the tests, and of the fork.
pub fn tables(alloc: Global) -> Option<(CFGInfo, CFGInfo)> {
    let info = tables_of_text(alloc, LOOP, true)?;
    Some((info, tables_of_text(alloc, FORK, false)?))
}

/// How many slots `run` gives a function.
fn own_slots<F: Function>(alloc: Global, f: &F) -> Option<usize> {
    let out = allocated(alloc, f, 10)?;
    Some(out.num_spillslots)
}

/// How many slots `run_with_ctx` gives `f` on a machine with `registers` integer registers, or how it rejects `f`.
fn lent_slots<F: Function>(
    alloc: Global,
    f: &F,
    registers: usize,
    ctx: &mut Ctx,
) -> Option<Result<usize, RegAllocError>> {
    run_with_ctx_fitting(f, &integer_machine(alloc, registers), ctx)
}

/// Returns how many slots each call gives `f`, and how it is rejected on one register.
fn slots_and_lack<F: Function>(
    alloc: Global,
    f: &F,
    ctx: &mut Ctx,
) -> Option<([usize; 2], Option<RegAllocError>)> {
    let lent = lent_slots(alloc, f, 10, ctx)?.ok()?;
    let slots = [own_slots(alloc, f)?, lent];
    Some((slots, lent_slots(alloc, f, 1, ctx)?.err()))
}

/// Lets the second block of the loop go on to no block.
fn lead_nowhere(f: &mut TableFunction) -> Option<()> {
    *f.blocks.get_mut(2)?.succs.get_mut(0)? = Block(8);
    Some(())
}

/// Returns how `f` is rejected on ten registers, and whether it is structurally valid (`IsFramed`).
fn refusal<F: Function>(
    alloc: Global,
    f: &F,
    ctx: &mut Ctx,
) -> Option<(Option<RegAllocError>, bool)> {
    let refused = lent_slots(alloc, f, 10, ctx)?.err();
    Some((refused, is_framed(f)))
}

/// Returns what `slots_and_refusals` returns of the loop `f`, which it changes.
fn slots_and_refusals_of(
    alloc: Global,
    f: &mut TableFunction,
    ctx: &mut Ctx,
) -> Option<([usize; 2], [Option<RegAllocError>; 3], [bool; 2], usize)> {
    let (slots, lacks) = slots_and_lack(alloc, f, ctx)?;
    lead_nowhere(f)?;
    let nowhere = refusal(alloc, f, ctx)?;
    f.entry = Block(9);
    let from_nowhere = refusal(alloc, f, ctx)?;
    let answers = [lacks, nowhere.0, from_nowhere.0];
    let framed = [nowhere.1, from_nowhere.1];
    Some((slots, answers, framed, ctx.output.num_spillslots))
}

/// The slots that each call gives the loop. Then how it is rejected where it has too few registers,
/// where it goes on to no block, and where it starts at none; whether it is structurally valid
/// (`IsFramed`) in the last two cases; and the slots in the context, which held an output before.
pub fn slots_and_refusals(
    alloc: Global,
) -> Option<([usize; 2], [Option<RegAllocError>; 3], [bool; 2], usize)> {
    let mut f = function_of(alloc, LOOP)?;
    slots_and_refusals_of(alloc, &mut f, &mut Ctx::new(alloc))
}

/// How `calculate` rejects the loop if its second block goes on to no block.
pub fn order_to_nowhere(alloc: Global) -> Option<RegAllocError> {
    let mut f = function_of(alloc, LOOP)?;
    lead_nowhere(&mut f)?;
    order(alloc, &f, &mut Vec::new(alloc)).err()
}

/// The result of a call with a context, and how many debug locations the context holds after it.
type Held = (Result<(), RegAllocError>, usize);

/// Returns the results of [`held`] for `f`, which needs two registers.
fn held_of<F: Function>(alloc: Global, f: &F, ctx: &mut Ctx) -> Option<[Held; 3]> {
    let (one, two) = (integer_machine(alloc, 1), integer_machine(alloc, 2));
    let stored = run_into_ctx_fitting(f, &two, ctx)?;
    let stored = (stored, ctx.output.debug_locations.len());
    let rejected = run_without_debug_locations(f, &one, ctx)?;
    let rejected = (rejected, ctx.output.debug_locations.len());
    let removed = run_without_debug_locations(f, &two, ctx)?;
    Some([
        stored,
        rejected,
        (removed, ctx.output.debug_locations.len()),
    ])
}

/// What a context holds: an output that was stored; the same after a rejected run; and one whose
/// debug locations the borrower removed.
pub fn held(alloc: Global) -> Option<[Held; 3]> {
    let f = labelled_function_of(alloc, LABELLED)?;
    held_of(alloc, &f, &mut Ctx::new(alloc))
}

/// Returns what `checker` reports, if it accepts exactly the outputs of `given` that are right, one after another.
fn report<F: Function>(
    mut checker: Checker<'_, F>,
    given: &[(&Output, bool)],
) -> Option<Result<(), CheckerErrors>> {
    for (out, is_right) in given {
        if checker.prepare(*out).is_ok() != *is_right {
            return None;
        }
    }
    Some(checker.run())
}

/// Returns what a new checker of `f` reports, if it accepts exactly the outputs of `given` that are right.
pub fn verdict<F: Function>(
    alloc: Global,
    f: &F,
    given: &[(&Output, bool)],
) -> Option<Result<(), CheckerErrors>> {
    if !is_framed(f) {
        return None;
    }
    let env = integer_machine(alloc, 10);
    let checker = Checker::new(alloc, f, &env).ok()?;
    report(checker, given)
}

/// Returns the verdicts on the outputs `right` and `wrong`.
fn verdicts_on<F: Function>(
    alloc: Global,
    f: &F,
    right: &Output,
    wrong: &Output,
) -> Option<[Result<(), CheckerErrors>; 3]> {
    let (right, wrong) = ((right, true), (wrong, false));
    let unprepared = verdict(alloc, f, &[])?;
    let given_both = verdict(alloc, f, &[right, wrong])?;
    Some([unprepared, given_both, verdict(alloc, f, &[wrong, right])?])
}

/// The verdicts on the output of a function and one which isn't well-ordered.
fn verdicts_of<F: Function>(alloc: Global, f: &F) -> Option<[Result<(), CheckerErrors>; 3]> {
    let out = allocated(alloc, f, 10)?;
    let mut bad = allocated(alloc, f, 10)?;
    bad.inst_alloc_offsets.clear();
    verdicts_on(alloc, f, &out, &bad)
}

/// What a checker reports that has no output; that was given one which isn't well-ordered, after a
/// right one; and that was given the right one last.
pub fn verdicts(alloc: Global) -> Option<[Result<(), CheckerErrors>; 3]> {
    let f = function_of(alloc, LOOP)?;
    verdicts_of(alloc, &f)
}
