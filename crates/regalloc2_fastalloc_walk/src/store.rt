//! A branch's definitions, stored at the beginning of the block that it leads to.

ghost use Rattle.std.specs.Prelude.{◌≡◌, ◌+◌, ◌<◌, ◌⊎◌, ◌||◌, ◌++◌, ◌∷◌, [], All, if◌then◌else◌, length, map, not, None, Some, OnOk, IfOk, IfErr, slice_index_or};
ghost use Rattle.regalloc2_names.specs.Place.{is_no_place, before};
ghost use Rattle.regalloc2_names.specs.Register.{class_code};
ghost use Rattle.regalloc2_function.specs.FunctionValue.{block_at, op_at};
ghost use Rattle.regalloc2_fastalloc_state.specs.StateParts.{AllAtOrAfter, NoneIsFrom, slot_name};
ghost use Rattle.regalloc2_fastalloc_proofs.specs.InstSteps.{MayHold};
ghost use Rattle.regalloc2_fastalloc_proofs.specs.StoreSteps.{StoreBranchDefs};
ghost use Rattle.regalloc2_fastalloc_walk.specs.BranchStores.{FindsDefined, FindsStore, FindsStores, ListsGiven, ListsParams, PushStore, PushStores};
ghost use Rattle.regalloc2_fastalloc_walk.specs.BranchStores.{PushAllStores, ListsStores, own_store};
ghost use Rattle.regalloc2_fastalloc_walk.specs.BeforeSteps.{IsBeforeListing, IsBeforeStores};
ghost use Rattle.regalloc2_fastalloc_walk.specs.StateView.{IsStepAt, MakesSlots, tables_of, ComesTo};

use super::state::State;
use regalloc2_analysis::branch_defs::{BranchDefs, EdgeInto, fixed_definition};
use regalloc2_function::Function;
use regalloc2_index::Block;
use regalloc2_names::{
    Allocation, Operand, PReg, PRegSet, ProgPoint, RegAllocError, RegClass, VReg,
};
use std::alloc::Allocator;

/// A value that a block's beginning stores: an operand of the branch defines it, and it goes to the slot of a vreg.
#[derive(Clone, Copy)]
struct StoredDef {
    /// The operand's index.
    index: usize,
    /// The vreg: the operand's own, or a parameter to which the branch passes the value.
    to: VReg,
}

/// The move of a value to a slot.
#[derive(Clone, Copy)]
struct StoreMove {
    class: RegClass,
    /// The place in which the branch leaves the value.
    from: Allocation,
    to: Allocation,
}

/// The stores of the operands `stored` of a branch to the slots of their own vregs. A vreg's own value is
/// stored even if the vreg has no slot yet: its reader may be an instruction that the walk hasn't reached.
fn own_stores<A: Allocator>(
    alloc: A,
    operands: &[Operand],
    stored: &[usize],
) -> Result<Vec<StoredDef, A>, RegAllocError>
    requires { All (λ j. j < length operands.now) stored.now }
    ensures ok { IfOk result (λ v. v.items ≡ map (own_store operands.now) stored.now) }
    ensures err { IfErr result (λ e. e ≡ RegAllocError.Memory) }
{
    let mut stores = Vec::new(alloc);
    for index in stored {
        stores.push(StoredDef {
            index: *index,
            to: operands[*index].vreg(),
        })?;
    }
    Ok(stores)
}

impl<'a, A: Allocator> State<'a, A> {
    /// Lists the value that `argument` gives `param`, if the branch of `edge` defines `argument`, and
    /// something uses `param`.
    fn list_given<B: Allocator, C: Allocator>(
        &self,
        stores: &mut Vec<StoredDef, B>,
        defs: &BranchDefs<C>,
        edge: &EdgeInto,
        param: VReg,
        argument: VReg,
    ) -> Result<(), RegAllocError>
        requires { param.number < length self.now.slots.vreg_spillslots }
        ensures ok { OnOk result (ListsGiven defs.now edge.now.branch self.now.slots param argument stores.old.items stores.new.items) }
        ensures err { IfErr result (λ e. e ≡ RegAllocError.Memory) }
    {
        let Some(site) = defs.site(argument) else {
            return Ok(());
        };
        if site.branch != edge.branch {
            return Ok(());
        }
        // a parameter without a slot has no reader
        if self.slots.find_spillslot(param).is_none() {
            return Ok(());
        }
        stores.push(StoredDef {
            index: site.index,
            to: param,
        })?;
        Ok(())
    }

    /// Lists the values that the branch of `edge` defines and passes to `params`.
    fn list_params<B: Allocator, C: Allocator>(
        &self,
        stores: &mut Vec<StoredDef, B>,
        defs: &BranchDefs<C>,
        edge: &EdgeInto,
        params: &[VReg],
        arguments: &[VReg],
    ) -> Result<(), RegAllocError>
        requires counted { length arguments.now ≡ length params.now }
        requires known { All (λ v. v.number < length self.now.slots.vreg_spillslots) params.now }
        ensures ok { OnOk result (ListsParams defs.now edge.now.branch self.now.slots params.now arguments.now stores.old.items (length params.now)
            stores.new.items) }
        ensures err { IfErr result (λ e. e ≡ RegAllocError.Memory) }
    {
        for j in 0..params.len() {
            self.list_given(stores, defs, edge, params[j], arguments[j])?;
        }
        Ok(())
    }

    /// Lists the values that the block behind `edge` stores at its beginning, by the operands that
    /// define them: for each operand first the store for its own vreg, and then the stores for
    /// parameters in order.
    fn list_stores<'b, F: Function, B: Allocator, C: Allocator>(
        &self,
        alloc: &'b B,
        f: &F,
        defs: &BranchDefs<C>,
        edge: &EdgeInto,
    ) -> Result<Vec<StoredDef, &'b B>, RegAllocError>
        requires { IsBeforeListing (F.function f.now) defs.now edge.now (length self.now.slots.vreg_spillslots) }
        ensures ok { IfOk result (λ v. ListsStores (F.function f.now) edge.now.from edge.now.position self.now.slots v.items) }
        ensures err { IfErr result (λ e. e ≡ RegAllocError.Memory) }
    {
        let operands = f.inst_operands(edge.branch);
        let mut stores = own_stores(alloc, operands, defs.stored_on(edge))?;
        let params = f.block_params(f.block_succs(edge.from)[edge.position]);
        let arguments = f.branch_blockparams(edge.from, edge.branch, edge.position);
        self.list_params(&mut stores, defs, edge, params, arguments)?;
        stores.sort_by_key(|store| store.index)?;
        Ok(stores)
    }

    /// The place in which a branch leaves the definition `operand`: the register that it is fixed
    /// to, else its vreg's slot.
    fn defined_place(&mut self, operand: Operand) -> Result<Allocation, RegAllocError>
        requires { operand.vreg.number < length self.old.slots.vreg_spillslots }
        ensures ok { IfOk result (λ p. FindsDefined operand p self.old.slots self.new.slots) }
        ensures step { MakesSlots result self.old self.new }
    {
        if let Some(preg) = fixed_definition(operand) {
            return Ok(Allocation::reg(preg));
        }
        self.slots.get_spillslot(operand.vreg())
    }

    /// The move that stores the value of `operand` in the slot of `to`.
    fn store_move(&mut self, operand: Operand, to: VReg) -> Result<StoreMove, RegAllocError>
        requires from { operand.vreg.number < length self.old.slots.vreg_spillslots }
        requires to { to.number < length self.old.slots.vreg_spillslots }
        ensures ok { IfOk result (λ m. FindsStore operand to m self.old.slots self.new.slots) }
        ensures step { MakesSlots result self.old self.new }
    {
        let from = self.defined_place(operand)?;
        let to = self.slots.get_spillslot(to)?;
        Ok(StoreMove {
            class: operand.class(),
            from,
            to,
        })
    }

    /// The moves that make `stores`, of definitions among `operands`, in their order.
    fn store_moves<'b, B: Allocator>(
        &mut self,
        alloc: &'b B,
        operands: &[Operand],
        stores: &[StoredDef],
    ) -> Result<Vec<StoreMove, &'b B>, RegAllocError>
        requires inside { All (λ s. s.index < length operands.now) stores.now }
        requires from { All (λ s. (op_at operands.now s.index).vreg.number < length self.old.slots.vreg_spillslots) stores.now }
        requires to { All (λ s. s.to.number < length self.old.slots.vreg_spillslots) stores.now }
        ensures ok { IfOk result (λ v. FindsStores operands.now stores.now self.old.slots (length stores.now) v.items self.new.slots) }
        ensures step { MakesSlots result self.old self.new }
    {
        let mut moves = Vec::new(alloc);
        for store in stores {
            let m = self.store_move(operands[store.index], store.to)?;
            moves.push(m)?;
        }
        Ok(moves)
    }

    /// The register that stack-to-stack stores of a class go through: the machine's dedicated
    /// scratch register, else the least recently used register outside `held`, which has the
    /// registers that definitions are fixed to, else the register with the greatest number. All
    /// other values are in slots at a block's beginning.
    fn store_scratch(&self, class: RegClass, held: PRegSet) -> Result<PReg, RegAllocError>
        ensures ok { IfOk result (λ r. (slice_index_or self.now.registers.dedicated_scratch (class_code class) None ≡ Some r)
            ⊎ MayHold (tables_of self.now) class r) }
        ensures err { IfErr result (λ e. (e ≡ RegAllocError.TooManyLiveRegs) × NoneIsFrom self.now.registers.allocatable class 0) }
    {
        if let Some(preg) = self.registers.dedicated_scratch(class) {
            return Ok(preg);
        }
        let free = self.registers.available_regs() & held.invert();
        if let Some(preg) = self.registers.choose_register(class, free) {
            return Ok(preg);
        }
        match self.registers.preferred_victim(class) {
            Some(preg) => Ok(preg),
            None => Err(RegAllocError::TooManyLiveRegs),
        }
    }

    /// Pushes the store `m`, by way of a register if it is from the stack.
    fn push_store(
        &mut self,
        point: ProgPoint,
        held: PRegSet,
        m: StoreMove,
    ) -> Result<(), RegAllocError>
        requires { AllAtOrAfter point self.old.edits }
        ensures outcome { ComesTo (PushStore point m) tt result self.old self.new }
        ensures step { IsStepAt point result self.old self.new }
    {
        if !self.is_stack(m.from) {
            self.edits.push(point, m.from, m.to)?;
            return Ok(());
        }
        let by = Allocation::reg(self.store_scratch(m.class, held)?);
        self.edits.push(point, by, m.to)?;
        self.edits.push(point, m.from, by)?;
        Ok(())
    }

    /// Pushes the stores from the stack if `from_stack` is true, else the stores from registers.
    /// The last store is pushed first.
    fn push_stores(
        &mut self,
        point: ProgPoint,
        held: PRegSet,
        from_stack: bool,
        moves: &[StoreMove],
    ) -> Result<(), RegAllocError>
        requires { AllAtOrAfter point self.old.edits }
        ensures outcome { ComesTo (PushStores point from_stack moves.now) tt result self.old self.new }
        ensures step { IsStepAt point result self.old self.new }
    {
        let mut k = moves.len();
        while k > 0 {
            k -= 1;
            let m = moves[k];
            if self.is_stack(m.from) == from_stack {
                self.push_store(point, held, m)?;
            }
        }
        Ok(())
    }

    /// Pushes the stores from the stack among `moves` at `point`, and then the stores from
    /// registers.
    fn push_all_stores(
        &mut self,
        point: ProgPoint,
        held: PRegSet,
        moves: &[StoreMove],
    ) -> Result<(), RegAllocError>
        requires { AllAtOrAfter point self.old.edits }
        ensures outcome { ComesTo (PushAllStores point moves.now) tt result self.old self.new }
        ensures step { IsStepAt point result self.old self.new }
    {
        // the stores pushed first are made last: by then the definitions in registers are stored,
        // and the stores from the stack may go through any register
        self.push_stores(point, held, true, moves)?;
        self.push_stores(point, held, false, moves)
    }

    /// Stores the definitions of the branch into `block` at its beginning, before all else there:
    /// each goes to its vreg's slot if another instruction uses the vreg, and to the slot of each
    /// used parameter to which the branch passes it.
    pub fn store_branch_defs<F: Function, B: Allocator, C: Allocator>(
        &mut self,
        alloc: &B,
        f: &F,
        defs: &BranchDefs<C>,
        block: Block,
    ) -> Result<(), RegAllocError>
        requires { IsBeforeStores (F.function f.now) defs.now block self.old }
        ensures outcome { ComesTo (StoreBranchDefs (F.function f.now) block) tt result self.old self.new }
        ensures step { IsStepAt (before (block_at (F.function f.now) block).range.first) result self.old self.new }
    {
        let Some(edge) = defs.edge_into(block) else {
            return Ok(());
        };
        let stores = self.list_stores(alloc, f, defs, &edge)?;
        let moves = self.store_moves(alloc, f.inst_operands(edge.branch), &stores)?;
        // nothing may follow the branch in its own block
        let point = ProgPoint::before(f.block_insns(block).first());
        self.push_all_stores(point, edge.held, &moves)
    }
}
