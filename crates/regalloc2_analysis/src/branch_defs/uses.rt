//! Which vregs another instruction uses than the one that defines them.

ghost use Rattle.std.specs.Prelude.{◌≡◌, ◌<◌, ◌+◌, true, false, ℕ, length, slice_index_or, IfOk};
ghost use Rattle.regalloc2_names.specs.Operand.{is_reading};
ghost use Rattle.regalloc2_function.specs.FunctionValue.{block_at};
ghost use Rattle.regalloc2_function.specs.Inside.TableLength.{CoversDefinitions};
ghost use Rattle.regalloc2_function.specs.Inside.MarkedNumbers.{Marks};
ghost use Rattle.regalloc2_analysis.specs.BranchDefs.BranchDefs.{MayHaveTables};
ghost use Rattle.regalloc2_analysis.specs.BranchDefs.Notes.{AreUsed, IsSiteAt, PassesAmong, PassesIn, PassesOut, ReadsAmong, ReadsIn};
ghost use Rattle.regalloc2_analysis.specs.BranchDefs.Tables.{AreDefSites};

use super::DefSite;
use super::sites::is_site_at;
use crate::marks::{mark, no_marks};
use regalloc2_function::Function;
use regalloc2_index::{Block, Inst};
use regalloc2_names::{Operand, VReg};
use std::alloc::{AllocError, Allocator};

/// Marks the vreg that `operand` reads.
fn note_read(used: &mut [bool], operand: Operand)
    ensures { Marks (λ n. (is_reading operand ≡ true) × (operand.vreg.number ≡ n)) used.old used.new }
{
    if operand.is_reading() {
        mark(used, operand.vreg().vreg());
    }
}

/// Marks the vregs that `operands` read.
fn note_reads(used: &mut [bool], operands: &[Operand])
    ensures { Marks (ReadsAmong operands.now (length operands.now)) used.old used.new }
{
    for k in 0..operands.len() {
        note_read(used, operands[k]);
    }
}

/// Marks the vregs that instructions read.
fn note_all_reads<F: Function>(used: &mut [bool], f: &F)
    ensures { Marks (ReadsIn (F.function f.now) (length (F.function f.now).insts)) used.old used.new }
{
    for i in 0..f.num_insts() {
        note_reads(used, f.inst_operands(Inst::new(i)));
    }
}

/// Marks `argument`, unless `inst`, which passes it, defines it.
fn note_argument(used: &mut [bool], sites: &[Option<DefSite>], argument: VReg, inst: Inst)
    ensures { Marks (λ n. (argument.number ≡ n) × (IsSiteAt sites.now n inst → ⊥)) used.old used.new }
{
    if !is_site_at(sites, argument, inst) {
        mark(used, argument.vreg());
    }
}

/// Marks each of `arguments` that `inst`, which passes them to one successor, doesn't define.
fn note_arguments(used: &mut [bool], sites: &[Option<DefSite>], arguments: &[VReg], inst: Inst)
    ensures { Marks (PassesAmong sites.now inst arguments.now (length arguments.now)) used.old used.new }
{
    for j in 0..arguments.len() {
        note_argument(used, sites, arguments[j], inst);
    }
}

/// Marks each vreg that `block` passes to a successor and its last instruction doesn't define.
fn note_passed<F: Function>(used: &mut [bool], sites: &[Option<DefSite>], f: &F, block: Block)
    requires block { block < length (F.function f.now).blocks }
    requires well_formed { MayHaveTables (F.function f.now) }
    ensures { Marks (PassesOut (F.function f.now) sites.now block (length (block_at (F.function f.now) block).succs)) used.old used.new }
{
    let last = f.block_insns(block).last();
    for k in 0..f.block_succs(block).len() {
        note_arguments(used, sites, f.branch_blockparams(block, last, k), last);
    }
}

/// Marks each vreg that some block passes and its last instruction doesn't define.
fn note_all_passed<F: Function>(used: &mut [bool], sites: &[Option<DefSite>], f: &F)
    requires well_formed { MayHaveTables (F.function f.now) }
    ensures { Marks (PassesIn (F.function f.now) sites.now (length (F.function f.now).blocks)) used.old used.new }
{
    for b in 0..f.num_blocks() {
        note_passed(used, sites, f, Block::new(b));
    }
}

/// Marks each vreg that an instruction uses and doesn't define.
fn note_uses<F: Function>(used: &mut [bool], sites: &[Option<DefSite>], f: &F)
    requires well_formed { MayHaveTables (F.function f.now) }
    requires sites { AreDefSites (F.function f.now) sites.now }
    requires room { CoversDefinitions (F.function f.now) (length used.old) }
    requires none { (n : ℕ) → slice_index_or used.old n false ≡ false }
    ensures { AreUsed (F.function f.now) used.new }
{
    note_all_reads(used, f);
    note_all_passed(used, sites, f);
}

/// Returns, for each vreg number below `vregs`, whether an instruction reads it, or passes it and doesn't
/// define it.
pub fn used_elsewhere<A: Allocator + Copy, F: Function>(
    alloc: A,
    f: &F,
    vregs: usize,
    sites: &[Option<DefSite>],
) -> Result<Vec<bool, A>, AllocError>
    requires well_formed { MayHaveTables (F.function f.now) }
    requires room { CoversDefinitions (F.function f.now) vregs }
    requires sites { AreDefSites (F.function f.now) sites.now }
    ensures { IfOk result (λ v. AreUsed (F.function f.now) v.items) }
{
    let mut used = no_marks(alloc, vregs)?;
    note_uses(used.as_mut_slice(), sites, f);
    Ok(used)
}
