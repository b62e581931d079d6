//! The calls, where the machine fits, and what callers learn of a context.

ghost use Rattle.std.specs.Prelude.{◌≡◌, [], IfSome, OnErr, OnOk};
ghost use Rattle.regalloc2_function.specs.Views.{machine_of, output_of};
ghost use Rattle.regalloc2.specs.Guarantee.{IsAllocation};

use regalloc2::postorder::calculate;
use regalloc2::{
    Algorithm, Block, Ctx, Function, MachineEnv, Output, RegAllocError, RegallocOptions,
    machine_fits, run, run_into_ctx, run_with_ctx,
};
use std::alloc::Allocator;

/// The options, with all tests of the function.
pub const OPTIONS: RegallocOptions = RegallocOptions {
    validate_ssa: true,
    algorithm: Algorithm::Fastalloc,
};

/// Runs `f` on `env` by `run`, if the machine fits.
pub fn run_fitting<A: Allocator + Copy, F: Function, B: Allocator>(
    alloc: A,
    f: &F,
    env: &MachineEnv<B>,
) -> Option<Result<Output<A>, RegAllocError>> {
    if machine_fits(f, env) {
        Some(run(alloc, f, env, &OPTIONS))
    } else {
        None
    }
}

/// Runs `f` on `env` by `run_with_ctx`, if the machine fits. Returns the count of slots.
pub fn run_with_ctx_fitting<A: Allocator + Copy, F: Function, B: Allocator>(
    f: &F,
    env: &MachineEnv<B>,
    ctx: &mut Ctx<A>,
) -> Option<Result<usize, RegAllocError>> {
    if machine_fits(f, env) {
        match run_with_ctx(f, env, &OPTIONS, ctx) {
            Ok(out) => Some(Ok(out.num_spillslots)),
            Err(fault) => Some(Err(fault)),
        }
    } else {
        None
    }
}

/// Runs `f` on `env` by `run_into_ctx`, if the machine fits.
///
/// `ctx` then holds an output of `f`, or after an error the output that it held before.
pub fn run_into_ctx_fitting<A: Allocator + Copy, F: Function, B: Allocator>(
    f: &F,
    env: &MachineEnv<B>,
    ctx: &mut Ctx<A>,
) -> Option<Result<(), RegAllocError>>
    ensures new { IfSome result (λ r. OnOk r (IsAllocation (F.function f.now) (machine_of env.now) (output_of ctx.new.output))) }
    ensures kept { IfSome result (λ r. OnErr r (ctx.new.output ≡ ctx.old.output)) }
{
    if machine_fits(f, env) {
        Some(run_into_ctx(f, env, &OPTIONS, ctx))
    } else {
        None
    }
}

/// Runs `f` on `env` by `Ctx::run`, if the machine fits, for a client without a debugger.
///
/// `ctx` then holds the output that the call lends, from which the debug locations are removed, or after an error the
/// output that it held before.
pub fn run_without_debug_locations<A: Allocator + Copy, F: Function, B: Allocator>(
    f: &F,
    env: &MachineEnv<B>,
    ctx: &mut Ctx<A>,
) -> Option<Result<(), RegAllocError>>
    ensures removed { IfSome result (λ r. OnOk r (ctx.new.output.debug_locations.items ≡ [])) }
    ensures kept { IfSome result (λ r. OnErr r (ctx.new.output ≡ ctx.old.output)) }
{
    if !machine_fits(f, env) {
        return None;
    }
    match ctx.run(f, env, &OPTIONS) {
        Ok(out) => {
            out.debug_locations.clear();
            Some(Ok(()))
        }
        Err(fault) => Some(Err(fault)),
    }
}

/// Returns the order of the blocks of `f` in `out`; a closure gives the successors.
pub fn order<A: Allocator + Copy, F: Function>(
    alloc: A,
    f: &F,
    out: &mut Vec<Block, A>,
) -> Result<(), RegAllocError> {
    let mut visited = Vec::new(alloc);
    let entry = f.entry_block();
    calculate(
        alloc,
        f.num_blocks(),
        entry,
        &mut visited,
        out,
        |block| f.block_succs(block),
    )
}
