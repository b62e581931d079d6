//! What the branches of a function define, and which blocks they lead to.
//!
//! The tables are made once, before a walk, which then looks up and never searches: by which branch a
//! vreg is defined, on which edge a block is entered whose predecessor's branch defines, and which
//! definitions are stored. The tables are empty if no branch defines. Upstream has none: it stores what a
//! branch defines after the branch.

mod edges;
mod sites;
mod uses;

ghost use Rattle.std.specs.Prelude.{◌≡◌, ◌≤◌, ◌<◌, ◌↔◌, ℕ, Some, length, IsTrue, IfOk, IfErr};
ghost use Rattle.regalloc2_analysis.specs.BranchDefs.BranchDefs.{HasDefinitions, MayHaveTables};
ghost use Rattle.regalloc2_analysis.specs.BranchDefs.BranchDefs.{fixed_definition as fixed_definition_of};
ghost use Rattle.regalloc2_analysis.specs.BranchDefs.Tables.{AreBranchDefsOf, edge_of, site_of, stored_of};

use edges::{edges_into, some_branch_defines};
use regalloc2_function::Function;
use regalloc2_function::table_length::table_length;
use regalloc2_index::{Block, Inst};
use regalloc2_names::{Operand, OperandConstraint, PReg, PRegSet, RegAllocError, VReg};
use sites::{branch_sites, site_in};
use std::alloc::Allocator;
use uses::used_elsewhere;

/// An operand of a branch that defines.
#[derive(Clone, Copy)]
pub struct DefSite {
    /// The branch.
    pub branch: Inst,
    /// The index among its operands.
    pub index: usize,
}

/// The edge into a block from a branch that defines.
#[derive(Clone, Copy)]
pub struct EdgeInto {
    /// The block that the branch ends.
    pub from: Block,
    /// The branch.
    pub branch: Inst,
    /// The position of the block among the successors.
    pub position: usize,
    /// The registers to which definitions of the branch are fixed.
    pub held: PRegSet,
    /// Where the branch's operands begin in the list of stored operands.
    pub first: usize,
    /// Where the branch's operands end in the list.
    pub end: usize,
}

/// What branches define.
#[derive(Drop)]
pub struct BranchDefs<A: Allocator> {
    /// By vreg number, the operand of a branch that defines it.
    sites: Vec<Option<DefSite>, A>,
    /// By block, the edge into it from a branch that defines.
    edges: Vec<Option<EdgeInto>, A>,
    /// The indexes of the definitions in fixed registers whose vregs are used, branch after branch.
    stored: Vec<usize, A>,
}

/// Returns the register to which `operand` is fixed, if it is a definition.
pub fn fixed_definition(operand: Operand) -> Option<PReg>
    ensures { result ≡ fixed_definition_of operand }
{
    if !operand.is_def() {
        return None;
    }
    match operand.constraint() {
        OperandConstraint::FixedReg(preg) => Some(preg),
        _ => None,
    }
}

impl<A: Allocator + Copy> BranchDefs<A> {
    /// Returns the tables of `f`.
    ///
    /// Linear in the function's instructions, operands and arguments. The only error is `Memory`; if no
    /// branch defines, nothing is allocated. Not inlined, as `State::new` of the walk isn't.
    #[inline(never)]
    pub fn of<F: Function>(alloc: A, f: &F) -> Result<Self, RegAllocError>
        requires well_formed { MayHaveTables (F.function f.now) }
        ensures ok { IfOk result (λ t. AreBranchDefsOf (F.function f.now) t) }
        ensures memory { IfErr result (λ e. e ≡ RegAllocError.Memory) }
        ensures asked { IfErr result (λ e. HasDefinitions (F.function f.now)) }
    {
        if !some_branch_defines(f) {
            return Ok(BranchDefs {
                sites: Vec::new(alloc),
                edges: Vec::new(alloc),
                stored: Vec::new(alloc),
            });
        }
        let vregs = table_length(f);
        let sites = branch_sites(alloc, f, vregs)?;
        let used = used_elsewhere(alloc, f, vregs, sites.as_slice())?;
        let (edges, stored) = edges_into(alloc, f, used.as_slice())?;
        Ok(BranchDefs {
            sites,
            edges,
            stored,
        })
    }
}

impl<A: Allocator> BranchDefs<A> {
    /// Returns the operand of a branch that defines `vreg`.
    pub fn site(&self, vreg: VReg) -> Option<DefSite>
        ensures { result ≡ site_of self.now vreg.number }
    {
        site_in(&self.sites, vreg)
    }

    /// Returns `true` if `branch` defines `vreg`.
    pub fn is_defined_by(&self, vreg: VReg, branch: Inst) -> bool
        ensures { IsTrue result ↔ ((k : ℕ) × (site_of self.now vreg.number ≡ Some (record { branch = branch; index = k }))) }
    {
        match self.site(vreg) {
            Some(site) => site.branch == branch,
            None => false,
        }
    }

    /// Returns the edge into `block` from a branch that defines.
    pub fn edge_into(&self, block: Block) -> Option<EdgeInto>
        ensures { result ≡ edge_of self.now block }
    {
        if block.index() >= self.edges.len() {
            return None;
        }
        self.edges[block.index()]
    }

    /// Returns the indexes of the definitions of the branch of `edge` that are in fixed registers and whose
    /// vregs another instruction reads or passes.
    pub fn stored_on(&self, edge: &EdgeInto) -> &[usize]
        requires within { (edge.now.first ≤ edge.now.end) × (edge.now.end ≤ length self.now.stored.items) }
        ensures { result.now ≡ stored_of self.now edge.now }
    {
        &self.stored[edge.first..edge.end]
    }
}
