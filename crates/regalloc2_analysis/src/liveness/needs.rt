//! What blocks need at their beginnings.

ghost use Rattle.std.specs.Prelude.{◌≡◌, ◌≢◌, ◌<◌, ◌↔◌, All, not, ◌&&◌, ◌||◌, ◌++◌, ◌∷◌, [], length, slice_index_or, if◌then◌else◌, IsTrue, OnErr, OnOk};
ghost use Rattle.regalloc2_names.specs.Register.{is_vreg};
ghost use Rattle.regalloc2_analysis.specs.Liveness.BlockVRegPairs.{Grows, holds, lists};

use super::sets::BlockVRegs;
use regalloc2_index::Block;
use regalloc2_names::VReg;
use std::alloc::{AllocError, Allocator};
use std::marker::Model;

/// The vregs that blocks are found to need at their beginnings: pairs in the order in which they were
/// found, each once.
#[derive(Drop)]
pub struct Needs<A: Allocator> {
    found: Vec<(Block, VReg), A>,
    known: BlockVRegs<A>,
}

impl<A: Allocator> Model for Needs<A> {
    ghost use Rattle.std.specs.Prelude.{◌≡◌, ℕ, List};
    ghost use Rattle.regalloc2_names.specs.Register.{VirtualRegister};
    ghost use Rattle.regalloc2_analysis.specs.Liveness.BlockVRegPairs.{holds, lists};

    ghost Value = { List (ℕ × VirtualRegister) };

    ghost view = { λ n. n.found.items };

    ghost invariant = { λ n. (p : ℕ × VirtualRegister) → holds n.known p ≡ lists n.found.items p };
}

impl<A: Allocator + Copy> Needs<A> {
    /// Returns no needs.
    pub fn new(alloc: A) -> Self
        ensures { result ≡ [] }
    {
        Needs {
            found: Vec::new(alloc),
            known: BlockVRegs::new(alloc),
        }
    }

    /// Returns the number of pairs that were found.
    pub fn len(&self) -> usize
        ensures { result ≡ length self.now }
    {
        self.found.len()
    }

    /// Returns the pair at `index`, in the order in which pairs were found.
    pub fn at(&self, index: usize) -> (Block, VReg)
        requires { index < length self.now }
        ensures { result ≡ slice_index_or self.now index result }
    {
        self.found[index]
    }

    /// Adds the pair of `block` and `vreg`, if it wasn't found yet. If an allocation fails, nothing
    /// changes.
    pub fn add(&mut self, block: Block, vreg: VReg) -> Result<(), AllocError>
        ensures ok { OnOk result (self.new ≡ (if lists self.old (block, vreg) then self.old else self.old ++ (block, vreg) ∷ [])) }
        ensures err { OnErr result (self.new ≡ self.old) }
    {
        if self.known.has(block, vreg) {
            return Ok(());
        }
        self.found.push((block, vreg))?;
        if let Err(refused) = self.known.add(block, vreg) {
            self.found.pop();
            return Err(refused);
        }
        Ok(())
    }

    /// Adds the pair of `block` and `vreg`, which the block reads or passes, if the pair wasn't found yet
    /// and the block hasn't written the vreg.
    pub fn ask(
        &mut self,
        written: &BlockVRegs<A>,
        block: Block,
        vreg: VReg,
    ) -> Result<(), AllocError>
        ensures ok { OnOk result (self.new ≡ (if holds written.now (block, vreg) || lists self.old (block, vreg) then self.old else self.old
            ++ (block, vreg) ∷ [])) }
        ensures grows { OnOk result (Grows block (λ v. is_vreg vreg v && not (holds written.now (block, v))) self.old self.new) }
        ensures err { OnErr result (self.new ≡ self.old) }
    {
        if written.has(block, vreg) {
            return Ok(());
        }
        self.add(block, vreg)
    }

    /// Returns `true` if no pair is of `block`.
    pub fn none_at(&self, block: Block) -> bool
        ensures { IsTrue result ↔ All (λ p. p.0 ≢ block) self.now }
    {
        self.found.iter().all(|(at, _)| *at != block)
    }
}
