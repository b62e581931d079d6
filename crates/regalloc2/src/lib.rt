//! Register allocation: the fast allocator, with the names, functions and tests that its clients use, under the paths
//! of the crate `regalloc2`.
//!
//! A client describes its function by an implementation of [`Function`] and its machine by a
//! [`MachineEnv`], calls [`run_tested`], and reads the [`Output`]. [`run_tested`] has no preconditions: it tests the
//! machine, the function, and that no path reads or passes a vreg before writing it. [`allocate`] has none either: it
//! tests the machine and the function, and returns only an output that the checker accepts.
//! [`allocate_without_checker`] makes the same tests and skips the checker. [`run`] and [`run_checked`] don't test
//! the machine, which their caller proves to fit; a [`checker::Checker`] checks any output. Each item's guarantees
//! are in its own documentation, in terms of this crate's `specs`, which passes on the `specs` of the crates below.
#![tactic(auto)]

mod checked;
mod laws;
mod tested;

pub use checked::{CheckedRunError, run_checked};
pub use laws::accepts_what_is_guaranteed;
pub use regalloc2_fastalloc::{Algorithm, Ctx, RegallocOptions, run, run_into_ctx, run_with_ctx};
pub use regalloc2_function::{
    Edit, Function, InstOrEdit, MachineEnv, MachineMisfit, Output, OutputIter, StoredFault,
    StoredOutput, cfg, count_operands, indexset, is_framed, machine_fits, postorder, test_blocks,
    test_ends, test_machine,
};
pub use regalloc2_index::{
    Block, ContainerComparator, ContainerIndex, Inst, InstRange, InstRangeIter,
};
pub use regalloc2_names::{
    Allocation, AllocationKind, InstPosition, Operand, OperandConstraint, OperandKind, OperandPos,
    PReg, PRegSet, PRegSetIter, ProgPoint, RegAllocError, RegAllocErrorKind, RegClass, SpillSlot,
    VReg,
};
pub use regalloc2_parts::moves;
pub use regalloc2_semantics::values::runs_alike;
pub use regalloc2_semantics::{
    agrees_where_numbers_do, finds_earlier_writes, reads_earlier_where_well_formed,
    reads_the_same_numbers,
};
pub use tested::{AllocateError, TestedRunError, allocate, allocate_without_checker, run_tested};

/// The moves of one call.
pub mod callmoves {
    pub use regalloc2_parts::callmoves::{CallFault, CallFrame, schedule};
}

/// The checker of allocations.
pub mod checker {
    pub use regalloc2_checker::{
        CellFault, Checker, CheckerError, CheckerErrors, FaultLine, check_output,
        finds_no_error_where_faithful, places_are_cells, stands_for_every_path, test_cells,
    };
}

/// The fast allocator and its parts.
pub mod fastalloc {
    pub use regalloc2_fastalloc::run;
    pub use regalloc2_parts::{iter, lru, vregset};
}

/// Functions rewritten for the allocator: with a block on each critical edge, or with their blocks in another order.
pub mod rewrite {
    pub use regalloc2_serialize::rewrite::{RewriteError, renumber, split_critical_edges};
}

/// Tests of what a function defines and reads.
pub mod ssa {
    pub use regalloc2_analysis::liveness::reads_written;
    pub use regalloc2_function::ssa::{test_definitions, validate_ssa};
}

/// A function that is kept in tables, and its builder, for clients that have no type of their own for one.
pub mod table {
    pub use regalloc2_serialize::InstOpcode;
    pub use regalloc2_serialize::table_function::{
        BlockDraft, BuildError, SlotUnits, TableBlock, TableBuilder, TableFunction, TableInst,
    };
}

/// Functions and outputs as plain data, and as they are read from JSON.
pub mod serialize {
    pub use regalloc2_function::{StoredFault, StoredOutput};
    pub use regalloc2_serialize::{
        FromValue, InstOpcode, SerializableFunction, StoredFunction, StoredInst, StoredMachine,
        flat,
    };
}
