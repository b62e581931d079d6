//! Sets of vregs, one for each block.

ghost use Rattle.std.specs.Prelude.{◌≡◌, ◌+◌, ◌<◌, [], length, OnErr, OnOk};
ghost use Rattle.regalloc2_names.specs.Register.{is_vreg};
ghost use Rattle.regalloc2_analysis.specs.Liveness.BlockVRegPairs.{Gains, Pair, holds};

use regalloc2_function::indexset::IndexSet;
use regalloc2_index::Block;
use regalloc2_names::VReg;
use std::alloc::{AllocError, Allocator};
use std::marker::Model;

/// A set of vregs for each block, by their encodings. Sets are made when a block first needs one.
#[derive(Drop)]
pub struct BlockVRegs<A: Allocator> {
    sets: Vec<IndexSet<A>, A>,
    alloc: A,
}

impl<A: Allocator> Model for BlockVRegs<A> {
    ghost use Rattle.std.specs.Prelude.{ℕ, List};

    ghost Value = { List (List (ℕ × ℕ)) };

    ghost view = { λ s. s.sets.items };
}

impl<A: Allocator + Copy> BlockVRegs<A> {
    /// Returns an empty set for each block.
    pub fn new(alloc: A) -> Self
        ensures { result ≡ [] }
    {
        BlockVRegs {
            sets: Vec::new(alloc),
            alloc,
        }
    }

    /// Returns `true` if the set of `block` has `vreg`.
    pub fn has(&self, block: Block, vreg: VReg) -> bool
        ensures { result ≡ holds self.now (block, vreg) }
    {
        if block.index() >= self.sets.len() {
            return false;
        }
        self.sets[block.index()].get(vreg.bits())
    }

    /// Makes empty sets up to the set of `block`.
    fn reach(&mut self, block: Block) -> Result<(), AllocError>
        ensures reached { OnOk result (block < length self.new) }
        ensures same { (p : Pair) → holds self.new p ≡ holds self.old p }
    {
        while self.sets.len() <= block.index() {
            self.sets.push(IndexSet::new(self.alloc))?;
        }
        Ok(())
    }

    /// Adds `vreg` to the set of `block`. If an allocation fails, no set gains or loses a vreg.
    pub fn add(&mut self, block: Block, vreg: VReg) -> Result<(), AllocError>
        ensures ok { OnOk result (Gains block (is_vreg vreg) (holds self.old) (holds self.new)) }
        ensures err { OnErr result ((p : Pair) → holds self.new p ≡ holds self.old p) }
    {
        self.reach(block)?;
        self.sets[block.index()].set(vreg.bits(), true)
    }
}
