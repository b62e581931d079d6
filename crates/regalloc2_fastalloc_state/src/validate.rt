//! The tests that the allocator makes before it walks: that a function is well-formed, and that the
//! allocator supports its operands.

ghost use Rattle.std.specs.Prelude.{IfErr, OnOk};
ghost use Rattle.regalloc2_function.specs.Views.{machine_of};
ghost use Rattle.regalloc2_function.specs.WellFormed.{IsWellFormed};
ghost use Rattle.regalloc2_function.specs.Reasons.{IsFunctionFault};

use regalloc2_function::ssa::test_soundness;
use regalloc2_function::{Function, MachineEnv, test_shape};
use regalloc2_names::RegAllocError;
use std::alloc::Allocator;

pub mod constraints;

use constraints::validate_fixed;

/// Tests that `f` is well-formed on the machine `env`: by [`test_shape`], then [`test_soundness`],
/// then [`validate_fixed`].
///
/// `CFGInfo::new` and `validate_ssa` make the same tests; the tables that `CFGInfo::new` fills in
/// are left out, because no test reads them. The first test that fails decides the error. Returns
/// `Memory` if memory runs out.
pub fn validate_function<A: Allocator + Copy, F: Function, B: Allocator>(
    alloc: A,
    f: &F,
    env: &MachineEnv<B>,
) -> Result<(), RegAllocError>
    ensures ok { OnOk result (IsWellFormed (machine_of env.now) (F.function f.now)) }
    ensures refused { IfErr result (IsFunctionFault (F.function f.now) (machine_of env.now)) }
{
    test_shape(alloc, f)?;
    test_soundness(alloc, f)?;
    validate_fixed(f, env)
}
