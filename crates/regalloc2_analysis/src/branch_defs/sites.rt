//! Which operands of branches define.

ghost use Rattle.std.specs.Prelude.{◌≡◌, ◌<◌, ◌↔◌, ℕ, if◌then◌else◌, slice_set, slice_index_or, length, None, Some, IsTrue, IfOk};
ghost use Rattle.regalloc2_names.specs.Operand.{is_def};
ghost use Rattle.regalloc2_function.specs.Inside.TableLength.{CoversDefinitions};
ghost use Rattle.regalloc2_analysis.specs.BranchDefs.BranchDefs.{MayHaveTables};
ghost use Rattle.regalloc2_analysis.specs.BranchDefs.Notes.{NotesBranch, NotesSites, IsSiteAt};
ghost use Rattle.regalloc2_analysis.specs.BranchDefs.Tables.{AreDefSites};

use super::DefSite;
use regalloc2_function::Function;
use regalloc2_index::{Block, Inst};
use regalloc2_names::{Operand, VReg};
use std::alloc::{AllocError, Allocator};

/// Notes `site` for the number that `operand` defines, if it is a definition.
fn note_site(sites: &mut [Option<DefSite>], operand: Operand, site: DefSite)
    ensures { sites.new ≡ (if is_def operand.kind then slice_set sites.old operand.vreg.number (Some site) else sites.old) }
{
    let number = operand.vreg().vreg();
    if operand.is_def() && number < sites.len() {
        sites[number] = Some(site);
    }
}

/// Notes `operands` of `branch` as the sites of the vregs that they define.
fn note_sites(sites: &mut [Option<DefSite>], operands: &[Operand], branch: Inst)
    ensures { NotesSites operands.now branch (length operands.now) sites.old sites.new }
{
    for index in 0..operands.len() {
        note_site(sites, operands[index], DefSite { branch, index });
    }
}

/// Notes the operands of the branch that ends `block`, if a branch does.
fn note_branch<F: Function>(sites: &mut [Option<DefSite>], f: &F, block: Block)
    requires block { block < length (F.function f.now).blocks }
    requires well_formed { MayHaveTables (F.function f.now) }
    ensures { NotesBranch (F.function f.now) block sites.old sites.new }
{
    let last = f.block_insns(block).last();
    if f.is_branch(last) {
        note_sites(sites, f.inst_operands(last), last);
    }
}

/// Notes the operands of all blocks' branches.
fn note_branches<F: Function>(sites: &mut [Option<DefSite>], f: &F)
    requires well_formed { MayHaveTables (F.function f.now) }
    requires room { CoversDefinitions (F.function f.now) (length sites.old) }
    requires none { (n : ℕ) → slice_index_or sites.old n None ≡ None }
    ensures { AreDefSites (F.function f.now) sites.new }
{
    for b in 0..f.num_blocks() {
        note_branch(sites, f, Block::new(b));
    }
}

/// Returns a table of `num` numbers, none with a site.
fn no_sites<A: Allocator + Copy>(
    alloc: A,
    num: usize,
) -> Result<Vec<Option<DefSite>, A>, AllocError>
    ensures len { IfOk result (λ v. length v.items ≡ num) }
    ensures none { IfOk result (λ v. (n : ℕ) → slice_index_or v.items n None ≡ None) }
{
    Vec::from_elem(alloc, None, num)
}

/// Returns, for each vreg number below `vregs`, the operand of a branch that defines it.
pub fn branch_sites<A: Allocator + Copy, F: Function>(
    alloc: A,
    f: &F,
    vregs: usize,
) -> Result<Vec<Option<DefSite>, A>, AllocError>
    requires well_formed { MayHaveTables (F.function f.now) }
    requires room { CoversDefinitions (F.function f.now) vregs }
    ensures { IfOk result (λ v. AreDefSites (F.function f.now) v.items) }
{
    let mut sites = no_sites(alloc, vregs)?;
    note_branches(sites.as_mut_slice(), f);
    Ok(sites)
}

/// Returns the operand of a branch that defines `vreg`.
pub fn site_in(sites: &[Option<DefSite>], vreg: VReg) -> Option<DefSite>
    ensures { result ≡ slice_index_or sites.now vreg.number None }
{
    let number = vreg.vreg();
    if number >= sites.len() {
        return None;
    }
    sites[number]
}

/// Returns `true` if `branch` defines `vreg`.
pub fn is_site_at(sites: &[Option<DefSite>], vreg: VReg, branch: Inst) -> bool
    ensures { IsTrue result ↔ IsSiteAt sites.now vreg.number branch }
{
    match site_in(sites, vreg) {
        Some(site) => site.branch == branch,
        None => false,
    }
}
