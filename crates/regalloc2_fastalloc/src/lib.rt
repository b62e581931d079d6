//! The fast allocator: one walk from the last instruction to the first, which gives a place to
//! each operand as it meets it, and moves vregs to spill slots where registers run out.
//!
//! [`run`] allocates a function: it tests the function, calls the walk in
//! `regalloc2_fastalloc_walk`, and assembles the output. Upstream's module `fastalloc` does the
//! same, reached by its crate's `run`.
#![tactic(auto)]

ghost use Rattle.std.specs.Prelude.{◌≡◌, ◌≤◌, ◌^◌, ◌↔◌, [], false, IfErr, IfOk, OnErr, OnOk};
ghost use Rattle.std.specs.Borrow.{sem};
ghost use Rattle.regalloc2_function.specs.FunctionValue.{operand_count};
ghost use Rattle.regalloc2_function.specs.Views.{machine_of, output_of};
ghost use Rattle.regalloc2_function.specs.WellFormed.{IsWellFormed};
ghost use Rattle.regalloc2_function.specs.Fitting.{MachineFits};
ghost use Rattle.regalloc2_fastalloc.specs.Guarantee.{IsAllocation};
ghost use Rattle.regalloc2_fastalloc.specs.ErrorReason.{IsReason, PassesAllChecks};
ghost use Rattle.regalloc2_fastalloc.specs.Lending.{LendsOutput};

use regalloc2_fastalloc_state::validate::validate_function;
use regalloc2_function::{Function, MachineEnv, Output};
use regalloc2_names::RegAllocError;
use std::alloc::{Allocator, Global};

mod allocate;
mod debug;
mod survey;

use survey::{first_error, survey_operands};

/// An algorithm of register allocation. Upstream has a second one, `Ion`, which is left out.
#[derive(Clone, Copy, Debug, Default, PartialEq, Eq)]
pub enum Algorithm {
    /// The fast allocator: one backward walk, and a spill slot for each vreg that needs one.
    #[default]
    Fastalloc,
}

/// How to allocate.
#[derive(Clone, Copy, Debug, Default, PartialEq, Eq)]
pub struct RegallocOptions {
    /// Whether to test that the function is well-formed. If false, the caller guarantees it.
    pub validate_ssa: bool,
    /// By which algorithm.
    pub algorithm: Algorithm,
}

/// What is kept between allocations: the last output, and the allocator that outputs are made with.
#[derive(Drop)]
pub struct Ctx<A: Allocator = Global> {
    /// The output of the last call that returned no error; at first an output of no instructions.
    pub output: Output<A>,
    alloc: A,
}

impl<A: Allocator + Copy> Ctx<A> {
    /// A context with an output of no instructions, of which all later ones take their memory from `alloc`.
    pub fn new(alloc: A) -> Ctx<A>
        ensures { output_of result.output ≡ record { num_spillslots = 0; edits = []; allocs = []; offsets = []; debug_locations = [] } }
    {
        Ctx {
            output: Output::new(alloc),
            alloc,
        }
    }

    /// Allocates registers to `f` on the machine `env`, puts the output into `self.output` and
    /// lends it.
    ///
    /// Has the preconditions, output and errors of [`run`]. After the loan, `self.output` holds
    /// what the borrower left in the lent output. After an error, `self.output` holds the output
    /// that it held at the call.
    ///
    /// Upstream: no such method. Spec: `LendsOutput` in `specs/Lending.antt`.
    pub fn run<F: Function, B: Allocator>(
        &mut self,
        f: &F,
        env: &MachineEnv<B>,
        options: &RegallocOptions,
    ) -> Result<&mut Output<A>, RegAllocError>
        requires machine { MachineFits (F.function f.now) (machine_of env.now) }
        requires well_formed { options.now.validate_ssa ≡ false → IsWellFormed (machine_of env.now) (F.function f.now) }
        ensures allocation { IfOk result (λ out. IsAllocation (F.function f.now) (machine_of env.now) (output_of out.now)) }
        ensures tested { OnOk result (IsWellFormed (machine_of env.now) (F.function f.now)) }
        ensures passes_checks { OnOk result (PassesAllChecks (F.function f.now) (machine_of env.now) options.now.validate_ssa) }
        ensures refused { IfErr result (IsReason (F.function f.now) (machine_of env.now) options.now.validate_ssa) }
        ensures many_operands { (result ≡ Err RegAllocError.TooManyOperands) ↔ (2 ^ 32 ≤ operand_count (F.function f.now)) }
        ensures* after { sem 𝓛 (LendsOutput A.row A.Allocator self.entry result) }
    {
        run_into_ctx(f, env, options, self)?;
        Ok(&mut self.output)
    }
}

/// Allocates registers to a function.
///
/// The machine fits the function (`machine_fits` tests that). If `options.validate_ssa` is false,
/// the function is well-formed; else that is tested.
///
/// The output is well-ordered. Each operand's place is valid and meets its constraint, also in
/// instructions that no path reaches; an operand that names a register and no vreg is in that
/// register, valid or not. Each end of a move is valid, and no move is stack-to-stack.
/// Each move is listed, none after the last instruction of a block. Each slot that the output names
/// is owned by one vreg, and is the place of its operands that are in slots, or by one branch. A
/// branch owns at most two slots for each class, and only moves at the point before the branch name
/// them. Each slot takes as many units as its owner's class requires, aligned to that number, below
/// the count, and no other slot has one of them. Both ends of a move are of one class. The debug
/// locations are one for each kept label, by rising label. Each is from the first point
/// of its vreg to the last one, in a valid place: that of an operand of the vreg, or the slot that
/// it owns. One record contains all that is guaranteed of an output: `IsAllocation`, in
/// `specs/Guarantee.antt`.
///
/// If no path from the entry reads or passes a vreg before writing it, the output runs as the
/// function does: along every path, and whatever the instructions compute, each use reads the
/// function's own value. Where a path comes to a block, each vreg that is live there owns a slot,
/// which holds its value; but what the branch into the block defines is still in the place of the
/// branch's operand, and so is each parameter that is given it. The place of each debug location
/// holds its vreg's value, from where that is given up to each step that uses it, at all steps but
/// branches. This premise isn't tested here.
///
/// # Errors
///
/// In this order, `Memory` aside:
///
/// - `TooManyOperands`: 2^32 operands or more.
/// - If `options.validate_ssa` is true, first the errors of `CFGInfo::init` in blocks and edges,
///   then the errors of `validate_ssa` in the entry, terminators, arguments, definitions or uses, and
///   then `Unsupported` with the first instruction whose reuses aren't sound, or if there is none,
///   the first whose fixed registers clash with clobbers.
/// - `Unsupported` with the first instruction that has an operand under `Limit`, or if there is
///   none, the first branch that defines in any register or by a reuse.
/// - After all these tests, `TooManyLiveRegs` if no register is found for an operand or a move.
///   That happens only if some instruction doesn't fit, by `Fits`: it requires more registers of a
///   class than there are, or a fixed one that the machine lacks or another operand holds.
/// - Or `TooManySpillSlots` if a slot would end past 2^24. That happens only if `units_at_most`
///   passes 2^24, which is twice the size of the greatest slot, for each vreg and six times for
///   each block. Slots take no more units than that, and at most 2^24.
///
/// `Memory` is returned if memory runs out. A well-formed function gets none of the errors of the
/// second point.
///
/// The contract doesn't guarantee `TooManyLiveRegs` wherever an instruction doesn't fit, nor that
/// `Memory` is returned only if memory ran out; of `Memory` it says that the first test passes.
///
/// A reuse is sound if it is a late definition that names an early use, which no other reuse names,
/// of a vreg of its class, in any register or fixed to an allocatable one. Fixed registers clash
/// with clobbers if a definition, late use or reused operand is fixed to a clobber of its
/// instruction.
///
/// The contract leaves open which registers are chosen, and how many moves are made, but for one
/// kind of function: if there is one block, all operands are under `Reg`, nothing is clobbered and
/// each vreg can have a register of its own, there are no moves and no slots. Upstream's `run`
/// makes the same tests in another order, and takes reuses and fixed registers for granted.
pub fn run<A: Allocator + Copy, F: Function, B: Allocator>(
    alloc: A,
    f: &F,
    env: &MachineEnv<B>,
    options: &RegallocOptions,
) -> Result<Output<A>, RegAllocError>
    requires machine { MachineFits (F.function f.now) (machine_of env.now) }
    requires well_formed { options.now.validate_ssa ≡ false → IsWellFormed (machine_of env.now) (F.function f.now) }
    ensures allocation { IfOk result (λ out. IsAllocation (F.function f.now) (machine_of env.now) (output_of out)) }
    ensures tested { OnOk result (IsWellFormed (machine_of env.now) (F.function f.now)) }
    ensures passes_checks { OnOk result (PassesAllChecks (F.function f.now) (machine_of env.now) options.now.validate_ssa) }
    ensures refused { IfErr result (IsReason (F.function f.now) (machine_of env.now) options.now.validate_ssa) }
    ensures many_operands { (result ≡ Err RegAllocError.TooManyOperands) ↔ (2 ^ 32 ≤ operand_count (F.function f.now)) }
{
    let survey = survey_operands(alloc, f)?;
    if options.validate_ssa {
        validate_function(alloc, f, env)?;
    }
    match allocate::allocate(alloc, f, env, survey) {
        Ok(output) => Ok(output),
        Err(error) => Err(first_error(f, error)),
    }
}

/// Allocates registers to a function, and puts the output into `ctx.output`.
///
/// Has the preconditions, output and errors of [`run`]. An error leaves `ctx.output` unchanged.
/// After a call that returns no error, `&ctx.output` is the output. Upstream has this within
/// `run_with_ctx`.
pub fn run_into_ctx<A: Allocator + Copy, F: Function, B: Allocator>(
    f: &F,
    env: &MachineEnv<B>,
    options: &RegallocOptions,
    ctx: &mut Ctx<A>,
) -> Result<(), RegAllocError>
    requires machine { MachineFits (F.function f.now) (machine_of env.now) }
    requires well_formed { options.now.validate_ssa ≡ false → IsWellFormed (machine_of env.now) (F.function f.now) }
    ensures allocation { OnOk result (IsAllocation (F.function f.now) (machine_of env.now) (output_of ctx.new.output)) }
    ensures tested { OnOk result (IsWellFormed (machine_of env.now) (F.function f.now)) }
    ensures passes_checks { OnOk result (PassesAllChecks (F.function f.now) (machine_of env.now) options.now.validate_ssa) }
    ensures refused { IfErr result (IsReason (F.function f.now) (machine_of env.now) options.now.validate_ssa) }
    ensures many_operands { (result ≡ Err RegAllocError.TooManyOperands) ↔ (2 ^ 32 ≤ operand_count (F.function f.now)) }
    ensures kept { OnErr result (ctx.new.output ≡ ctx.old.output) }
{
    ctx.output = run(ctx.alloc, f, env, options)?;
    Ok(())
}

/// Allocates registers to a function, puts the output into `ctx.output` and lends it.
///
/// Calls [`Ctx::run`], and lends the output as a `&`. The contract says nothing of `ctx` after the
/// call, because the toolchain proves no such clause for upstream's signature. [`Ctx::run`] and
/// [`run_into_ctx`] have one.
pub fn run_with_ctx<'c, A: Allocator + Copy, F: Function, B: Allocator>(
    f: &F,
    env: &MachineEnv<B>,
    options: &RegallocOptions,
    ctx: &'c mut Ctx<A>,
) -> Result<&'c Output<A>, RegAllocError>
    requires machine { MachineFits (F.function f.now) (machine_of env.now) }
    requires well_formed { options.now.validate_ssa ≡ false → IsWellFormed (machine_of env.now) (F.function f.now) }
    ensures allocation { IfOk result (λ out. IsAllocation (F.function f.now) (machine_of env.now) (output_of out.now)) }
    ensures tested { OnOk result (IsWellFormed (machine_of env.now) (F.function f.now)) }
    ensures passes_checks { OnOk result (PassesAllChecks (F.function f.now) (machine_of env.now) options.now.validate_ssa) }
    ensures refused { IfErr result (IsReason (F.function f.now) (machine_of env.now) options.now.validate_ssa) }
    ensures many_operands { (result ≡ Err RegAllocError.TooManyOperands) ↔ (2 ^ 32 ≤ operand_count (F.function f.now)) }
{
    let output = ctx.run(f, env, options)?;
    Ok(output)
}
