//! The function and the machine that stored numbers name.

ghost use Rattle.std.specs.Prelude.{◌≡◌, ◌<◌, ◌-◌, All, IfOk, IfErr, IfSome, length, map};
ghost use Rattle.std.specs.List.{AllZip, range_with_len};
ghost use Rattle.std.specs.Option.{option_map};
ghost use Rattle.regalloc2_names.specs.Packing.{IsRegisterIndex, IsVRegBits, IsOperandBits, register_of_bits, vreg_of_bits, operand_of_bits};
ghost use Rattle.regalloc2_function.specs.FunctionValue.{IsSlotSize, label_of};
ghost use Rattle.regalloc2_function.specs.Views.{machine_of};
ghost use Rattle.regalloc2_serialize.specs.Validity.{NamesOperands, NamesRegisters, HasThreeClasses, IsSoundStored, IsFaultOf};
ghost use Rattle.regalloc2_serialize.specs.Decoded.{HasIndexes, NamesInst, NamesMachine, NamesFunction, stored_block, stored_label, stored_sizes};
ghost use Rattle.regalloc2_serialize.specs.TableFunction.Table.{inst_of_table, block_of_table, sizes_of_table};
ghost use Rattle.regalloc2_serialize.specs.Tables.{function_of_serializable};

use super::data::{StoredFunction, StoredInst, StoredMachine};
use super::table_function::{SlotUnits, TableBlock, TableFunction, TableInst};
use super::tables::SerializableFunction;
use regalloc2_function::{MachineEnv, StoredFault};
use regalloc2_index::{Block, Inst, InstRange};
use regalloc2_names::{Operand, PReg, PRegSet, VReg};
use std::alloc::{AllocError, Allocator};

/// Returns the set of the registers with the indexes `indexes`.
fn set_from(indexes: &[u8]) -> PRegSet
    requires { All IsRegisterIndex indexes.now }
    ensures { HasIndexes indexes.now result }
{
    let mut set = PRegSet::empty();
    for index in indexes {
        set = set.with(PReg::from_index(usize::from(*index)));
    }
    set
}

/// Returns the registers with the indexes `indexes`.
fn registers_from<A: Allocator>(alloc: A, indexes: &[u8]) -> Result<Vec<PReg, A>, AllocError>
    requires { All IsRegisterIndex indexes.now }
    ensures { IfOk result (λ registers. registers.items ≡ map register_of_bits indexes.now) }
{
    let mut registers = Vec::with_capacity(alloc, indexes.len())?;
    for index in indexes {
        registers.push(PReg::from_index(usize::from(*index)))?;
    }
    Ok(registers)
}

/// Returns the register with the index `index`, if there is one.
fn register_from(index: Option<u8>) -> Option<PReg>
    requires { IfSome index IsRegisterIndex }
    ensures { result ≡ option_map register_of_bits index }
{
    index.map(|index| PReg::from_index(usize::from(index)))
}

/// Returns the vregs that `words` encode.
pub(crate) fn vregs_from<A: Allocator>(alloc: A, words: &[u32]) -> Result<Vec<VReg, A>, AllocError>
    requires { All IsVRegBits words.now }
    ensures { IfOk result (λ vregs. vregs.items ≡ map vreg_of_bits words.now) }
{
    let mut vregs = Vec::with_capacity(alloc, words.len())?;
    for word in words {
        vregs.push(VReg::from_bits(*word))?;
    }
    Ok(vregs)
}

/// Returns the operands that `words` encode.
fn operands_from<A: Allocator>(alloc: A, words: &[u64]) -> Result<Vec<Operand, A>, AllocError>
    requires { All IsOperandBits words.now }
    ensures { IfOk result (λ operands. operands.items ≡ map operand_of_bits words.now) }
{
    let mut operands = Vec::with_capacity(alloc, words.len())?;
    for word in words {
        operands.push(Operand::from_bits(*word))?;
    }
    Ok(operands)
}

/// Returns the blocks with the numbers `words`.
pub(crate) fn blocks_from<A: Allocator>(
    alloc: A,
    words: &[u32],
) -> Result<Vec<Block, A>, AllocError>
    ensures { IfOk result (λ blocks. blocks.items ≡ words.now) }
{
    let mut blocks = Vec::with_capacity(alloc, words.len())?;
    for word in words {
        blocks.push(Block::new(*word as usize))?;
    }
    Ok(blocks)
}

/// Returns the vregs that each list of `lists` encodes.
fn lists_of_vregs_from<A: Allocator + Copy, B: Allocator>(
    alloc: A,
    lists: &[Vec<u32, B>],
) -> Result<Vec<Vec<VReg, A>, A>, AllocError>
    requires { All (λ l. All IsVRegBits l.items) lists.now }
    ensures { IfOk result (λ vregs. map (λ v. v.items) vregs.items ≡ map (λ l. map vreg_of_bits l.items) lists.now) }
{
    let mut vregs = Vec::with_capacity(alloc, lists.len())?;
    for list in lists {
        let named = vregs_from(alloc, list.as_slice())?;
        vregs.push(named)?;
    }
    Ok(vregs)
}

/// Returns the labels with the numbers `labels`.
fn labels_from<A: Allocator>(
    alloc: A,
    labels: &[(u32, u32, u32, u32)],
) -> Result<Vec<(VReg, Inst, Inst, u32), A>, AllocError>
    requires { All (λ l. IsVRegBits l.0) labels.now }
    ensures { IfOk result (λ named. map label_of named.items ≡ map stored_label labels.now) }
{
    let mut named = Vec::with_capacity(alloc, labels.len())?;
    for label in labels {
        let start = Inst::new(label.1 as usize);
        let end = Inst::new(label.2 as usize);
        named.push((VReg::from_bits(label.0), start, end, label.3))?;
    }
    Ok(named)
}

/// Returns the instruction that the numbers of `stored` name.
fn inst_from<A: Allocator, B: Allocator>(
    alloc: A,
    stored: &StoredInst<B>,
) -> Result<TableInst<A>, AllocError>
    requires { NamesOperands stored.now }
    ensures { IfOk result (λ inst. NamesInst stored.now (inst_of_table inst)) }
{
    Ok(TableInst {
        operands: operands_from(alloc, stored.operands.as_slice())?,
        clobbers: set_from(stored.clobbers.as_slice()),
        op: stored.op,
    })
}

/// Returns the instructions that the numbers of `stored` name.
fn insts_from<A: Allocator + Copy, B: Allocator>(
    alloc: A,
    stored: &[StoredInst<B>],
) -> Result<Vec<TableInst<A>, A>, AllocError>
    requires { All (λ i. NamesOperands i) stored.now }
    ensures insts { IfOk result (λ insts. AllZip (λ s i. NamesInst s i) stored.now (map inst_of_table insts.items)) }
    ensures count { IfOk result (λ insts. length insts.items ≡ length stored.now) }
{
    let mut insts = Vec::with_capacity(alloc, stored.len())?;
    for inst in stored {
        let table = inst_from(alloc, inst)?;
        insts.push(table)?;
    }
    Ok(insts)
}

/// Returns the registers with the three indexes of `indexes`, as far as there are indexes.
fn scratch_from(indexes: &[Option<u8>]) -> [Option<PReg>; 3]
    requires three { length indexes.now ≡ 3 }
    requires indexes { All (λ o. IfSome o IsRegisterIndex) indexes.now }
    ensures { result ≡ map (option_map register_of_bits) indexes.now }
{
    [
        register_from(indexes[0]),
        register_from(indexes[1]),
        register_from(indexes[2]),
    ]
}

/// Returns the sets of the registers with the three lists of indexes of `lists`.
fn sets_from<B: Allocator>(lists: &[Vec<u8, B>]) -> [PRegSet; 3]
    requires three { length lists.now ≡ 3 }
    requires indexes { All (λ l. All IsRegisterIndex l.items) lists.now }
    ensures { AllZip (λ l set. HasIndexes l.items set) lists.now result }
{
    [
        set_from(lists[0].as_slice()),
        set_from(lists[1].as_slice()),
        set_from(lists[2].as_slice()),
    ]
}

/// Returns the machine that the numbers of `stored` name.
fn machine_from<A: Allocator, B: Allocator>(
    alloc: A,
    stored: &StoredMachine<B>,
) -> Result<MachineEnv<A>, AllocError>
    requires three { HasThreeClasses stored.now }
    requires registers { NamesRegisters stored.now }
    ensures { IfOk result (λ machine. NamesMachine stored.now (machine_of machine)) }
{
    let preferred_regs_by_class = sets_from(stored.preferred_regs_by_class.as_slice());
    let non_preferred_regs_by_class = sets_from(stored.non_preferred_regs_by_class.as_slice());
    let scratch_by_class = scratch_from(stored.scratch_by_class.as_slice());
    let fixed_stack_slots = registers_from(alloc, stored.fixed_stack_slots.as_slice())?;
    Ok(MachineEnv {
        preferred_regs_by_class,
        non_preferred_regs_by_class,
        scratch_by_class,
        fixed_stack_slots,
    })
}

/// Returns the size of a slot of `size` units.
fn units_from(size: u64) -> SlotUnits
    requires { IsSlotSize size }
    ensures { result.units ≡ size }
{
    SlotUnits {
        units: size as usize,
    }
}

/// Returns the sizes of slots for integers, floating-point numbers and vectors; `sizes` has the units by class.
fn sizes_from(sizes: &[u64]) -> (SlotUnits, SlotUnits, SlotUnits)
    requires three { length sizes.now ≡ 3 }
    requires sizes { All IsSlotSize sizes.now }
    ensures { sizes_of_table result.0 result.1 result.2 ≡ stored_sizes sizes.now }
{
    (
        units_from(sizes[0]),
        units_from(sizes[1]),
        units_from(sizes[2]),
    )
}

/// Returns the block `block` of the function that stored numbers name.
fn block_from<A: Allocator + Copy, B: Allocator>(
    alloc: A,
    stored: &StoredFunction<B>,
    block: usize,
) -> Result<TableBlock<A>, AllocError>
    requires sound { IsSoundStored stored.now }
    requires block { block < length stored.now.blocks.items }
    ensures { IfOk result (λ table. block_of_table table ≡ stored_block stored.now block) }
{
    let (first, end) = stored.blocks[block];
    let succs = blocks_from(alloc, stored.block_succs[block].as_slice())?;
    let preds = blocks_from(alloc, stored.block_preds[block].as_slice())?;
    let params = vregs_from(alloc, stored.block_params_in[block].as_slice())?;
    let arguments = lists_of_vregs_from(alloc, stored.block_params_out[block].as_slice())?;
    Ok(TableBlock {
        range: InstRange::new(Inst::new(first as usize), Inst::new(end as usize)),
        succs,
        preds,
        params,
        arguments,
    })
}

/// Returns the blocks that the numbers of `stored` name.
fn tables_from<A: Allocator + Copy, B: Allocator>(
    alloc: A,
    stored: &StoredFunction<B>,
) -> Result<Vec<TableBlock<A>, A>, AllocError>
    requires { IsSoundStored stored.now }
    ensures count { IfOk result (λ tables. length tables.items ≡ length stored.now.blocks.items) }
    ensures blocks { IfOk result (λ tables. map block_of_table tables.items ≡ map (stored_block stored.now) (range_with_len 0 (length stored.now.blocks.items))) }
{
    let mut tables = Vec::with_capacity(alloc, stored.blocks.len())?;
    for block in 0..stored.blocks.len() {
        let table = block_from(alloc, stored, block)?;
        tables.push(table)?;
    }
    Ok(tables)
}

impl<A: Allocator> StoredFunction<A> {
    /// Makes the tests of [`SerializableFunction::from_stored`], in its order.
    fn test(&self) -> Result<(), StoredFault>
        ensures ok { IfOk result (λ _. IsSoundStored self.now) }
        ensures refused { IfErr result (λ e. IsFaultOf self.now e) }
    {
        if !self.has_equal_lengths() {
            return Err(StoredFault::Lengths);
        }
        if !self.is_within() {
            return Err(StoredFault::Index);
        }
        if !self.names_all() {
            return Err(StoredFault::Bits);
        }
        if !self.keeps_limits() {
            return Err(StoredFault::Limit);
        }
        Ok(())
    }
}

/// Returns the function and the machine that the numbers of `stored` name.
fn function_from<A: Allocator + Copy, B: Allocator>(
    alloc: A,
    stored: &StoredFunction<B>,
) -> Result<SerializableFunction<A>, StoredFault>
    requires { IsSoundStored stored.now }
    ensures function { IfOk result (λ f. NamesFunction stored.now (function_of_serializable f)) }
    ensures machine { IfOk result (λ f. NamesMachine stored.now.machine_env (machine_of f.machine)) }
    ensures memory { IfErr result (λ e. e ≡ StoredFault.Memory) }
{
    let machine = machine_from(alloc, &stored.machine_env)?;
    let blocks = tables_from(alloc, stored)?;
    let insts = insts_from(alloc, stored.insts.as_slice())?;
    let labels = labels_from(alloc, stored.debug_value_labels.as_slice())?;
    let (int_slot, float_slot, vector_slot) = sizes_from(stored.spillslot_size.as_slice());
    let function = TableFunction {
        blocks,
        insts,
        entry: Block::new(stored.entry_block as usize),
        num_vregs: stored.num_vregs as usize,
        int_slot,
        float_slot,
        vector_slot,
        named_by_last_slot: stored.multi_spillslot_named_by_last_slot,
        labels,
        allows_multiple_defs: stored.allow_multiple_vreg_defs,
    };
    Ok(SerializableFunction { machine, function })
}

impl<A: Allocator + Copy> SerializableFunction<A> {
    /// Returns the function and the machine that the numbers of `stored` name.
    ///
    /// # Errors
    ///
    /// The first of `Lengths`, `Index`, `Bits` and `Limit` whose test fails, in this order; `Memory` if all four pass
    /// and memory runs out.
    pub fn from_stored<B: Allocator>(
        alloc: A,
        stored: &StoredFunction<B>,
    ) -> Result<SerializableFunction<A>, StoredFault>
        ensures function { IfOk result (λ f. NamesFunction stored.now (function_of_serializable f)) }
        ensures machine { IfOk result (λ f. NamesMachine stored.now.machine_env (machine_of f.machine)) }
        ensures sound { IfOk result (λ f. IsSoundStored stored.now) }
        ensures refused { IfErr result (λ e. IsFaultOf stored.now e) }
    {
        stored.test()?;
        function_from(alloc, stored)
    }
}

impl<A: Allocator> SerializableFunction<A> {
    /// Returns the machine that the function is for.
    pub fn machine_env(&self) -> &MachineEnv<A>
        ensures { machine_of result.now ≡ machine_of self.now.machine }
    {
        &self.machine
    }
}
