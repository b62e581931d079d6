//! The function that is being allocated, the machine and the output of an allocation; the function's
//! order of blocks, its tables, and the tests that a well-formed function passes.
//!
//! Contracts speak of three values: the [`Function`]'s own, `machine_of` a [`MachineEnv`] and
//! `output_of` an [`Output`]. The definitions over them are in this crate's `specs`.
#![tactic(auto)]

ghost use Rattle.std.specs.Prelude.{◌≡◌, ◌+◌, ◌<◌, ◌≤◌, SomeIff, length, map, slice_index_or, []};
ghost use Rattle.regalloc2_index.specs.Range.{invalid_number};
ghost use Rattle.regalloc2_names.specs.Place.{slot_limit, inst_limit};
ghost use Rattle.regalloc2_names.specs.Register.{vreg_limit};
ghost use Rattle.regalloc2_function.specs.FunctionValue.{FunctionValue, IsLimited, block_at, inst_at, operand_count, operand_limit, slot_size, label_of};

use regalloc2_index::{Block, Inst, InstRange};
use regalloc2_names::{Operand, PRegSet, RegClass, VReg};

mod blocks;
pub mod cfg;
mod framed;
pub mod indexset;
mod listing;
mod machine;
mod misfit;
pub mod postorder;
mod serialize;
pub mod ssa;
pub mod table_length;

pub use blocks::test_shape;
pub use framed::{is_framed, test_blocks, test_ends};
pub use listing::{Edit, InstOrEdit, Output, OutputIter};
pub use machine::{MachineEnv, machine_fits, test_machine};
pub use misfit::MachineMisfit;
pub use serialize::{StoredFault, StoredOutput};

/// A function as a client of the allocator describes it: blocks of instructions, and what each
/// instruction does with vregs.
///
/// All calls agree with one function value, and an implementation proves that it keeps the limits
/// of `IsLimited`: fewer than 2^30 instructions, fewer than 2^32 - 1 blocks, at most 2^30 - 1
/// vregs, slot sizes that are powers of two from 1 to 2^24, and labels of vregs below `num_vregs`.
/// Nothing else is required: a call that needs blocks to follow one another, or uses to be defined,
/// tests it.
///
/// Names and arguments are as in upstream's trait `Function`.
pub trait Function {
    /// The function that all calls agree on.
    ghost function: { Self → FunctionValue };

    /// Returns the number of instructions, which are numbered from 0.
    fn num_insts(&self) -> usize
        ensures count { result ≡ length (function self.now).insts }
        ensures limit { result < inst_limit };

    /// Returns the number of blocks, which are numbered from 0.
    fn num_blocks(&self) -> usize
        ensures count { result ≡ length (function self.now).blocks }
        ensures limit { result < invalid_number };

    /// Returns a number above the number of each vreg that is defined.
    fn num_vregs(&self) -> usize
        ensures count { result ≡ (function self.now).num_vregs }
        ensures limit { result < vreg_limit };

    /// Returns the block at which the function starts.
    fn entry_block(&self) -> Block
        ensures { result ≡ (function self.now).entry };

    /// Returns the instructions of `block`.
    fn block_insns(&self, block: Block) -> InstRange
        requires { block < length (function self.now).blocks }
        ensures { result ≡ (block_at (function self.now) block).range };

    /// Returns the successors of `block`, by the position that its last instruction names.
    fn block_succs(&self, block: Block) -> &[Block]
        requires { block < length (function self.now).blocks }
        ensures { result.now ≡ (block_at (function self.now) block).succs };

    /// Returns the predecessors of `block`, once for each of their successor positions that names it.
    fn block_preds(&self, block: Block) -> &[Block]
        requires { block < length (function self.now).blocks }
        ensures { result.now ≡ (block_at (function self.now) block).preds };

    /// Returns the parameters of `block`: the vregs that receive the arguments of an incoming edge.
    fn block_params(&self, block: Block) -> &[VReg]
        requires { block < length (function self.now).blocks }
        ensures { result.now ≡ (block_at (function self.now) block).params };

    /// Returns `true` if `inst` returns from the function.
    fn is_ret(&self, inst: Inst) -> bool
        requires { inst < length (function self.now).insts }
        ensures { result ≡ (inst_at (function self.now) inst).is_ret };

    /// Returns `true` if `inst` branches to a successor of its block.
    fn is_branch(&self, inst: Inst) -> bool
        requires { inst < length (function self.now).insts }
        ensures { result ≡ (inst_at (function self.now) inst).is_branch };

    /// Returns the arguments that `inst`, the last instruction of `block`, passes to the successor at
    /// position `succ_idx`.
    fn branch_blockparams(&self, block: Block, inst: Inst, succ_idx: usize) -> &[VReg]
        requires block { block < length (function self.now).blocks }
        requires last { inst + 1 ≡ (block_at (function self.now) block).range.end }
        requires nonempty { (block_at (function self.now) block).range.first ≤ inst }
        requires position { succ_idx < length (block_at (function self.now) block).succs }
        ensures { result.now ≡ slice_index_or (block_at (function self.now) block).arguments succ_idx [] };

    /// Returns the operands of `inst`: what it does with vregs.
    fn inst_operands(&self, inst: Inst) -> &[Operand]
        requires { inst < length (function self.now).insts }
        ensures { result.now ≡ (inst_at (function self.now) inst).operands };

    /// Returns the registers that `inst` overwrites, besides the registers of its operands.
    fn inst_clobbers(&self, inst: Inst) -> PRegSet
        requires { inst < length (function self.now).insts }
        ensures { result ≡ (inst_at (function self.now) inst).clobbers };

    /// Returns the ranges of instructions over which a client requires a vreg's places, each from its
    /// first instruction up to its end, with a label of the client's own.
    ///
    /// Upstream's default, no labels, can't be given here: see `docs/DECISIONS.md`.
    fn debug_value_labels(&self) -> &[(VReg, Inst, Inst, u32)]
        ensures { map label_of result.now ≡ (function self.now).labels };

    /// Returns the number of units that a spill slot for `regclass` takes.
    fn spillslot_size(&self, regclass: RegClass) -> usize
        ensures size { result ≡ slot_size (function self.now).slot_sizes regclass }
        ensures limit { 1 ≤ result × result ≤ slot_limit };

    /// Returns `true` if a slot of several units is named by its last unit, and not by its first.
    ///
    /// Upstream's default is false.
    fn multi_spillslot_named_by_last_slot(&self) -> bool
        ensures { result ≡ (function self.now).named_by_last_slot };

    /// Returns `true` if a vreg may have several definitions. The allocator requires single
    /// definitions in any case.
    ///
    /// Upstream's default is false.
    fn allow_multiple_vreg_defs(&self) -> bool
        ensures { result ≡ (function self.now).allows_multiple_defs };

    /// The limits that each implementation proves.
    ghost limited: { (f : Self) → IsLimited (function f) };
}

/// Returns the number of operands of all instructions, or `None` if it is 2^32 or more.
///
/// Linear in the number of instructions: it adds up the lengths of the operands' lists.
pub fn count_operands<F: Function>(f: &F) -> Option<u32>
    ensures { SomeIff result (operand_count (F.function f.now) < operand_limit) (operand_count (F.function f.now)) }
{
    let mut count = 0u32;
    for i in 0..f.num_insts() {
        let here = u32::try_from(f.inst_operands(Inst::new(i)).len()).ok()?;
        count = count.checked_add(here)?;
    }
    Some(count)
}
