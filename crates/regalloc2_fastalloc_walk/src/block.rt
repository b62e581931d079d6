//! The beginning of a block: what is read from there on arrives in spill slots.

ghost use Rattle.std.specs.Prelude.{◌≡◌, ◌<◌, All, length, None, OnOk};
ghost use Rattle.regalloc2_names.specs.Place.{before, inst_limit};
ghost use Rattle.regalloc2_names.specs.Register.{Register};
ghost use Rattle.regalloc2_fastalloc_walk.specs.StateView.{IsStepAt, ComesTo};
ghost use Rattle.regalloc2_fastalloc_state.specs.StateParts.{AllAtOrAfter, vreg_of_preg};
ghost use Rattle.regalloc2_fastalloc_proofs.specs.BlockStart.{ReloadParam, ReloadParams, ReloadRegs, ReloadAtBegin};

use super::state::State;
use regalloc2_fastalloc_state::inst_regs::InstRegs;
use regalloc2_index::Inst;
use regalloc2_names::{Allocation, ProgPoint, RegAllocError, VReg};
use std::alloc::Allocator;

impl<'a, A: Allocator> State<'a, A> {
    /// Reloads `param`, a parameter of the block that begins: it arrives in its slot, from where it is moved
    /// to its expected place, and has no location before.
    fn reload_param(
        &mut self,
        inst_regs: &mut InstRegs,
        point: ProgPoint,
        param: VReg,
    ) -> Result<(), RegAllocError>
        requires later { AllAtOrAfter point self.old.edits }
        requires known { param.number < length self.old.places.vreg_allocs }
        ensures outcome { ComesTo (ReloadParam point param inst_regs.old) inst_regs.new result self.old self.new }
        ensures step { IsStepAt point result self.old self.new }
    {
        let current = self.places.current_alloc(param);
        if current.is_none() {
            return Ok(());
        }
        let slot = self.slots.get_spillslot(param)?;
        self.places.set_alloc(param, Allocation::none());
        let is_moved = slot != current;
        self.add_move_if(inst_regs, point, is_moved, param.class(), slot, current)
    }

    /// Reloads `params`, the parameters of the block that begins at `point`, in order.
    fn reload_params(
        &mut self,
        inst_regs: &mut InstRegs,
        point: ProgPoint,
        params: &[VReg],
    ) -> Result<(), RegAllocError>
        requires later { AllAtOrAfter point self.old.edits }
        requires known { All (λ v. v.number < length self.old.places.vreg_allocs) params.now }
        ensures outcome { ComesTo (ReloadParams point params.now inst_regs.old) inst_regs.new result self.old self.new }
        ensures step { IsStepAt point result self.old self.new }
    {
        for param in params {
            self.reload_param(inst_regs, point, *param)?;
        }
        Ok(())
    }

    /// Reloads each vreg in a register from its slot at `point`, the last filled register's first.
    fn reload_regs(
        &mut self,
        inst_regs: &mut InstRegs,
        point: ProgPoint,
    ) -> Result<(), RegAllocError>
        requires { AllAtOrAfter point self.old.edits }
        ensures outcome { ComesTo (ReloadRegs point inst_regs.old) inst_regs.new result self.old self.new }
        ensures emptied { OnOk result ((r : Register) → r.number < 64 → vreg_of_preg self.new.places r ≡ None) }
        ensures step { IsStepAt point result self.old self.new }
    {
        while let Some(preg) = self.places.newest_filled() {
            self.evict_preg(inst_regs, point, preg)?;
        }
        Ok(())
    }

    /// Reloads at the beginning of the block whose first instruction is `first`: its parameters
    /// `params` arrive in their slots, and so does each vreg that is in a register after the
    /// block's beginning.
    pub fn reload_at_begin(&mut self, first: Inst, params: &[VReg]) -> Result<(), RegAllocError>
        requires inst { first < inst_limit }
        requires later { AllAtOrAfter (before first) self.old.edits }
        requires known { All (λ v. v.number < length self.old.places.vreg_allocs) params.now }
        ensures outcome { ComesTo (ReloadAtBegin (before first) params.now) tt result self.old self.new }
        ensures step { IsStepAt (before first) result self.old self.new }
    {
        let mut inst_regs = InstRegs::new(self.registers.available_regs());
        let point = ProgPoint::before(first);
        self.reload_params(&mut inst_regs, point, params)?;
        self.reload_regs(&mut inst_regs, point)
    }
}
