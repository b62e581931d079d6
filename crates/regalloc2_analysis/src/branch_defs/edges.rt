//! The edges out of blocks whose branches define, and the definitions that are stored behind the edges.

ghost use Rattle.std.specs.Prelude.{◌≡◌, ◌<◌, ◌+◌, ◌↔◌, true, false, ℕ, None, All, length, slice_index_or, IsTrue, IfOk, OnOk};
ghost use Rattle.regalloc2_names.specs.Register.{Register, has_register};
ghost use Rattle.regalloc2_analysis.specs.BranchDefs.BranchDefs.{DefinesNumber, EndsInDefinitions, HasDefinitions, IsHeld, MayHaveTables};
ghost use Rattle.regalloc2_analysis.specs.BranchDefs.Notes.{AreUsed, IsMarkedDefinition, ListsStored, NotesEdges};
ghost use Rattle.regalloc2_analysis.specs.BranchDefs.Tables.{AreEdges};

use super::{EdgeInto, fixed_definition};
use crate::marks::is_marked;
use regalloc2_function::Function;
use regalloc2_index::Block;
use regalloc2_names::{Operand, PRegSet};
use std::alloc::{AllocError, Allocator};

/// Returns `true` if one of `operands` defines a vreg.
fn some_defines(operands: &[Operand]) -> bool
    ensures { IsTrue result ↔ ((n k : ℕ) × DefinesNumber operands.now n k) }
{
    for k in 0..operands.len() {
        if operands[k].is_def() {
            return true;
        }
    }
    false
}

/// Returns `true` if `block` ends in a branch that defines a vreg.
fn ends_in_definitions<F: Function>(f: &F, block: Block) -> bool
    requires block { block < length (F.function f.now).blocks }
    requires well_formed { MayHaveTables (F.function f.now) }
    ensures { IsTrue result ↔ EndsInDefinitions (F.function f.now) block }
{
    let last = f.block_insns(block).last();
    f.is_branch(last) && some_defines(f.inst_operands(last))
}

/// Returns `true` if some branch defines a vreg.
pub fn some_branch_defines<F: Function>(f: &F) -> bool
    requires well_formed { MayHaveTables (F.function f.now) }
    ensures { IsTrue result ↔ HasDefinitions (F.function f.now) }
{
    for b in 0..f.num_blocks() {
        if ends_in_definitions(f, Block::new(b)) {
            return true;
        }
    }
    false
}

/// Returns the registers to which definitions among `operands` are fixed.
fn held_by(operands: &[Operand]) -> PRegSet
    ensures { (r : Register) → (has_register result r ≡ true) ↔ IsHeld operands.now r }
{
    let mut held = PRegSet::empty();
    for k in 0..operands.len() {
        if let Some(preg) = fixed_definition(operands[k]) {
            held.add(preg);
        }
    }
    held
}

/// Returns `true` if `operand` is a definition in a fixed register of a vreg that `used` marks.
fn is_stored(used: &[bool], operand: Operand) -> bool
    ensures { IsTrue result ↔ IsMarkedDefinition used.now operand }
{
    fixed_definition(operand).is_some() && is_marked(used, operand.vreg().vreg())
}

/// Adds to `stored` the indexes of the definitions among `operands` that are in fixed registers and
/// whose vregs `used` marks.
fn list_stored<A: Allocator>(
    stored: &mut Vec<usize, A>,
    used: &[bool],
    operands: &[Operand],
) -> Result<(), AllocError>
    ensures { OnOk result (ListsStored used.now operands.now (length operands.now) stored.old.items stored.new.items) }
{
    for k in 0..operands.len() {
        if is_stored(used, operands[k]) {
            stored.push(k)?;
        }
    }
    Ok(())
}

/// Does what [`list_stored`] does, where `held` has the registers to which definitions are fixed: if
/// there are none, no operand is read.
fn list_held<A: Allocator>(
    stored: &mut Vec<usize, A>,
    used: &[bool],
    operands: &[Operand],
    held: PRegSet,
) -> Result<(), AllocError>
    requires held { (r : Register) → (has_register held r ≡ true) ↔ IsHeld operands.now r }
    ensures { OnOk result (ListsStored used.now operands.now (length operands.now) stored.old.items stored.new.items) }
{
    if held == PRegSet::empty() {
        return Ok(());
    }
    list_stored(stored, used, operands)
}

/// Notes `edge` for each of `succs`, with the successor's position.
#[inline(always)]
fn note_positions(edges: &mut [Option<EdgeInto>], succs: &[Block], edge: EdgeInto)
    requires { All (λ s. s < length edges.old) succs.now }
    ensures { NotesEdges succs.now edge (length succs.now) edges.old edges.new }
{
    for position in 0..succs.len() {
        let mut here = edge;
        here.position = position;
        edges[succs[position].index()] = Some(here);
    }
}

/// Notes the edges out of `from`, if its branch defines a vreg.
fn note_edges_of<A: Allocator, F: Function>(
    edges: &mut [Option<EdgeInto>],
    stored: &mut Vec<usize, A>,
    f: &F,
    used: &[bool],
    from: Block,
) -> Result<(), AllocError>
    requires block { from < length (F.function f.now).blocks }
    requires well_formed { MayHaveTables (F.function f.now) }
    requires used { AreUsed (F.function f.now) used.now }
    requires so_far { AreEdges (F.function f.now) from edges.old stored.old.items }
    ensures { OnOk result (AreEdges (F.function f.now) (from + 1) edges.new stored.new.items) }
{
    if !ends_in_definitions(f, from) {
        return Ok(());
    }
    let branch = f.block_insns(from).last();
    let operands = f.inst_operands(branch);
    let held = held_by(operands);
    let first = stored.len();
    list_held(stored, used, operands, held)?;
    let edge = EdgeInto {
        from,
        branch,
        position: 0,
        held,
        first,
        end: stored.len(),
    };
    note_positions(edges, f.block_succs(from), edge);
    Ok(())
}

/// Notes the edges out of all blocks whose branches define a vreg.
fn note_edges<A: Allocator, F: Function>(
    edges: &mut [Option<EdgeInto>],
    stored: &mut Vec<usize, A>,
    f: &F,
    used: &[bool],
) -> Result<(), AllocError>
    requires well_formed { MayHaveTables (F.function f.now) }
    requires used { AreUsed (F.function f.now) used.now }
    requires none { AreEdges (F.function f.now) 0 edges.old stored.old.items }
    ensures { OnOk result (AreEdges (F.function f.now) (length (F.function f.now).blocks) edges.new stored.new.items) }
{
    for b in 0..f.num_blocks() {
        note_edges_of(edges, stored, f, used, Block::new(b))?;
    }
    Ok(())
}

/// Returns a table of `num` blocks, with no edge into any.
fn no_edges<A: Allocator + Copy>(
    alloc: A,
    num: usize,
) -> Result<Vec<Option<EdgeInto>, A>, AllocError>
    ensures len { IfOk result (λ v. length v.items ≡ num) }
    ensures none { IfOk result (λ v. (n : ℕ) → slice_index_or v.items n None ≡ None) }
{
    Vec::from_elem(alloc, None, num)
}

/// Returns, by block, the edge into it from a branch that defines; and the list of stored operands.
pub fn edges_into<A: Allocator + Copy, F: Function>(
    alloc: A,
    f: &F,
    used: &[bool],
) -> Result<(Vec<Option<EdgeInto>, A>, Vec<usize, A>), AllocError>
    requires well_formed { MayHaveTables (F.function f.now) }
    requires used { AreUsed (F.function f.now) used.now }
    ensures { IfOk result (λ t. AreEdges (F.function f.now) (length (F.function f.now).blocks) t.0.items t.1.items) }
{
    let mut edges = no_edges(alloc, f.num_blocks())?;
    let mut stored = Vec::new(alloc);
    note_edges(edges.as_mut_slice(), &mut stored, f, used)?;
    Ok((edges, stored))
}
