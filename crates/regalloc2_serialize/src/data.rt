//! Functions and machines with the numbers of their names.

ghost use Rattle.std.specs.Prelude.{◌≡◌};
ghost use Rattle.regalloc2_serialize.specs.Opcode.{is_branch, is_ret};

use std::alloc::{Allocator, Global};

/// A machine's registers as indexes. Lists by class hold integer, float and vector registers in this order.
///
/// Upstream: the fields of `MachineEnv`.
#[derive(Debug, Drop)]
pub struct StoredMachine<A: Allocator = Global> {
    /// The preferred registers of each class, which are allocated first.
    pub preferred_regs_by_class: Vec<Vec<u8, A>, A>,
    /// The non-preferred registers of each class, which are allocated if no preferred register is left.
    pub non_preferred_regs_by_class: Vec<Vec<u8, A>, A>,
    /// The scratch register of each class, if the class has one: stack-to-stack moves go through it.
    pub scratch_by_class: Vec<Option<u8>, A>,
    /// The registers that stand for fixed stack slots.
    pub fixed_stack_slots: Vec<u8, A>,
}

/// What an instruction does to the control flow.
#[derive(Clone, Copy, Debug, PartialEq, Eq)]
pub enum InstOpcode {
    /// The instruction goes on to the next one.
    Op,
    /// The instruction returns from the function.
    Ret,
    /// The instruction goes on to a successor of its block.
    Branch,
}

impl InstOpcode {
    /// Returns whether the instruction goes on to a successor of its block.
    pub fn is_branch(self) -> bool
        ensures { result ≡ is_branch self }
    {
        matches!(self, InstOpcode::Branch)
    }

    /// Returns whether the instruction returns.
    pub fn is_ret(self) -> bool
        ensures { result ≡ is_ret self }
    {
        matches!(self, InstOpcode::Ret)
    }
}

/// An instruction with the numbers of its names.
#[derive(Debug, Drop)]
pub struct StoredInst<A: Allocator = Global> {
    /// What the instruction does to the control flow.
    pub op: InstOpcode,
    /// The words of the operands.
    pub operands: Vec<u64, A>,
    /// The clobbers: the indexes of the registers that the instruction overwrites besides its operands.
    pub clobbers: Vec<u8, A>,
}

/// A function with the numbers of its names.
#[derive(Debug, Drop)]
pub struct StoredFunction<A: Allocator = Global> {
    /// The machine that the function is for.
    pub machine_env: StoredMachine<A>,
    /// The block at which the function starts.
    pub entry_block: u32,
    /// The instructions by number.
    pub insts: Vec<StoredInst<A>, A>,
    /// For each block its first instruction and the one past its last.
    pub blocks: Vec<(u32, u32), A>,
    /// The predecessors of each block.
    pub block_preds: Vec<Vec<u32, A>, A>,
    /// The successors of each block.
    pub block_succs: Vec<Vec<u32, A>, A>,
    /// For each block the words of its parameters.
    pub block_params_in: Vec<Vec<u32, A>, A>,
    /// For each block and each of its successors the words of the arguments.
    pub block_params_out: Vec<Vec<Vec<u32, A>, A>, A>,
    /// A number above that of each vreg that is defined.
    pub num_vregs: u64,
    /// Labels: a vreg's word, the first instruction, the end, and the label.
    pub debug_value_labels: Vec<(u32, u32, u32, u32), A>,
    /// How many units a spill slot for a value of each class takes.
    pub spillslot_size: Vec<u64, A>,
    /// Whether a slot of several units is named by its last unit.
    pub multi_spillslot_named_by_last_slot: bool,
    /// Whether a vreg may have several definitions.
    pub allow_multiple_vreg_defs: bool,
}
