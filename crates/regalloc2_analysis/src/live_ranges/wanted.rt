//! The vregs whose live ranges are requested, because labels name them. Most functions label few
//! vregs, and the walk passes over instructions that name none of these.

ghost use Rattle.std.specs.Prelude.{ℕ, ◌≡◌, ◌<◌, ◌↔◌, false, length, slice_index_or, IsTrue, IfOk};
ghost use Rattle.regalloc2_function.specs.Inside.TableLength.{CoversDefinitions};
ghost use Rattle.regalloc2_function.specs.Inside.MarkedNumbers.{Marks};
ghost use Rattle.regalloc2_function.specs.FunctionValue.{op_at};
ghost use Rattle.regalloc2_analysis.specs.LiveRanges.LiveRanges.{AreLabelsMarked, IsLabelled, IsWanted};
ghost use Rattle.regalloc2_analysis.specs.LiveRanges.Marks.{NamedAmong};
ghost use Rattle.regalloc2_analysis.specs.LiveRanges.WalkInvariant.{AreNamers, NamesNoAsked};

use crate::marks::{is_marked, mark, no_marks};
use regalloc2_function::Function;
use regalloc2_function::table_length::table_length;
use regalloc2_index::Inst;
use regalloc2_names::{Operand, VReg};
use std::alloc::{AllocError, Allocator};

/// Returns `true` if `vreg` is requested.
pub fn is_wanted(wanted: &[bool], vreg: VReg) -> bool
    ensures { result ≡ slice_index_or wanted.now vreg.number false }
{
    is_marked(wanted, vreg.vreg())
}

/// Returns `true` if one of `operands` names a requested vreg.
fn some_is_wanted(wanted: &[bool], operands: &[Operand]) -> bool
    ensures { IsTrue result ↔ ((k : ℕ) × (k < length operands.now) × IsWanted wanted.now (op_at operands.now k).vreg.number) }
{
    for k in 0..operands.len() {
        if is_wanted(wanted, operands[k].vreg()) {
            return true;
        }
    }
    false
}

/// Returns `true` if no operand of `inst` names a requested vreg.
pub fn names_none<F: Function>(f: &F, wanted: &[bool], inst: Inst) -> bool
    requires { inst < length (F.function f.now).insts }
    ensures { IsTrue result ↔ NamesNoAsked (F.function f.now) (IsWanted wanted.now) inst }
{
    !some_is_wanted(wanted, f.inst_operands(inst))
}

/// Returns the numbers of the instructions that name a requested vreg, in order.
pub fn naming<A: Allocator + Copy, F: Function>(
    alloc: A,
    f: &F,
    wanted: &[bool],
) -> Result<Vec<u32, A>, AllocError>
    ensures { IfOk result (λ v. AreNamers (F.function f.now) (IsWanted wanted.now) v.items (length v.items) (length (F.function f.now).insts)) }
{
    let mut named = Vec::new(alloc);
    for i in 0..f.num_insts() {
        let inst = Inst::new(i);
        if !names_none(f, wanted, inst) {
            named.push(i as u32)?;
        }
    }
    Ok(named)
}

/// Marks the numbers of the vregs that `labels` name.
fn mark_labelled(wanted: &mut [bool], labels: &[(VReg, Inst, Inst, u32)])
    ensures { Marks (NamedAmong labels.now (length labels.now)) wanted.old wanted.new }
{
    for j in 0..labels.len() {
        mark(wanted, labels[j].0.vreg());
    }
}

/// Marks the numbers that `f` defines and labels name.
fn labelled<A: Allocator + Copy, F: Function>(alloc: A, f: &F) -> Result<Vec<bool, A>, AllocError>
    ensures room { IfOk result (λ w. CoversDefinitions (F.function f.now) (length w.items)) }
    ensures marks { IfOk result (λ w. (n : ℕ) → n < length w.items → IsWanted w.items n ↔ IsLabelled (F.function f.now) n) }
{
    let vregs = table_length(f);
    let mut wanted = no_marks(alloc, vregs)?;
    mark_labelled(wanted.as_mut_slice(), f.debug_value_labels());
    Ok(wanted)
}

/// Marks the vregs that labels name, by number, as far as the function defines them.
///
/// The table is as long as `table_length` returns, and empty if there are no labels: then nothing
/// is allocated.
pub fn marked_labels<A: Allocator + Copy, F: Function>(
    alloc: A,
    f: &F,
) -> Result<Vec<bool, A>, AllocError>
    ensures { IfOk result (λ w. AreLabelsMarked (F.function f.now) w.items) }
{
    if f.debug_value_labels().is_empty() {
        return Ok(Vec::new(alloc));
    }
    labelled(alloc, f)
}
