//! The numbers that name a function and a machine.

ghost use Rattle.std.specs.Prelude.{◌≡◌, ◌↔◌, ◌++◌, ◌∷◌, [], List, All, IfOk, IfErr, IfSome, OnOk, length, map};
ghost use Rattle.std.specs.List.{AllZip};
ghost use Rattle.std.specs.Option.{option_map};
ghost use Rattle.regalloc2_names.specs.Packing.{IsRegisterIndex, IsVRegBits, IsOperandBits, register_of_bits, vreg_of_bits, operand_of_bits};
ghost use Rattle.regalloc2_function.specs.FunctionValue.{FunctionValue, IsSlotSize, label_of};
ghost use Rattle.regalloc2_function.specs.Machine.{MachineValue};
ghost use Rattle.regalloc2_function.specs.Views.{machine_of};
ghost use Rattle.regalloc2_serialize.specs.Decoded.{HasIndexes, NamesInst, NamesMachine, NamesFunction, stored_range, stored_label, stored_sizes};
ghost use Rattle.regalloc2_serialize.specs.Encoded.{AreBlockLists, AreEmpty, AreNumbersOf};
ghost use Rattle.regalloc2_serialize.specs.TableFunction.Table.{inst_of_table, function_of_table};
ghost use Rattle.regalloc2_serialize.specs.Tables.{function_of_serializable};
ghost use Rattle.regalloc2_serialize.specs.declared.table_function.table.TableBlock.{TableBlock};
ghost use Rattle.regalloc2_serialize.specs.Validity.{NamesOperands, NamesRegisters, HasThreeClasses, HasLengths, NamesAll, KeepsLimits, NamesItsBlocks, IsSoundStored};

use super::data::{StoredFunction, StoredInst, StoredMachine};
use super::json_outputs::BlockLists;
use super::table_function::{TableBlock, TableFunction, TableInst};
use super::tables::SerializableFunction;
use regalloc2_function::MachineEnv;
use regalloc2_index::{Block, Inst, InstRange};
use regalloc2_names::{Operand, PReg, PRegSet, RegAllocError, VReg};
use std::alloc::{AllocError, Allocator};

/// Returns the indexes of the registers of `set`.
fn indexes_of<A: Allocator>(alloc: A, set: PRegSet) -> Result<Vec<u8, A>, AllocError>
    ensures set { IfOk result (λ indexes. HasIndexes indexes.items set) }
    ensures names { IfOk result (λ indexes. All IsRegisterIndex indexes.items) }
{
    let mut indexes = Vec::new(alloc);
    for reg in set {
        indexes.push(reg.index() as u8)?;
    }
    Ok(indexes)
}

/// Returns the indexes of the registers of each of `sets`.
fn lists_of_indexes<A: Allocator + Copy>(
    alloc: A,
    sets: &[PRegSet; 3],
) -> Result<Vec<Vec<u8, A>, A>, AllocError>
    ensures sets { IfOk result (λ lists. AllZip (λ l set. HasIndexes l.items set) lists.items sets.now) }
    ensures three { IfOk result (λ lists. length lists.items ≡ 3) }
    ensures names { IfOk result (λ lists. All (λ l. All IsRegisterIndex l.items) lists.items) }
{
    let mut lists = Vec::with_capacity(alloc, sets.len())?;
    for set in sets {
        let indexes = indexes_of(alloc, *set)?;
        lists.push(indexes)?;
    }
    Ok(lists)
}

/// Returns the indexes of `registers`.
fn indexes_of_registers<A: Allocator>(
    alloc: A,
    registers: &[PReg],
) -> Result<Vec<u8, A>, AllocError>
    ensures registers { IfOk result (λ indexes. map register_of_bits indexes.items ≡ registers.now) }
    ensures names { IfOk result (λ indexes. All IsRegisterIndex indexes.items) }
{
    let mut indexes = Vec::with_capacity(alloc, registers.len())?;
    for reg in registers {
        indexes.push(reg.index() as u8)?;
    }
    Ok(indexes)
}

/// Returns the index of `reg`, if there is a register.
fn index_of(reg: Option<PReg>) -> Option<u8>
    ensures register { option_map register_of_bits result ≡ reg }
    ensures name { IfSome result IsRegisterIndex }
{
    reg.map(|reg| reg.index() as u8)
}

/// Returns the indexes of the registers of `scratch`, as far as there are registers.
fn indexes_of_scratch<A: Allocator>(
    alloc: A,
    scratch: &[Option<PReg>; 3],
) -> Result<Vec<Option<u8>, A>, AllocError>
    ensures registers { IfOk result (λ indexes. map (option_map register_of_bits) indexes.items ≡ scratch.now) }
    ensures three { IfOk result (λ indexes. length indexes.items ≡ 3) }
    ensures names { IfOk result (λ indexes. All (λ o. IfSome o IsRegisterIndex) indexes.items) }
{
    let indexes = [
        index_of(scratch[0]),
        index_of(scratch[1]),
        index_of(scratch[2]),
    ];
    Ok(Vec::from_array(alloc, indexes)?)
}

/// Returns the words of `vregs`.
fn words_of_vregs<A: Allocator>(alloc: A, vregs: &[VReg]) -> Result<Vec<u32, A>, AllocError>
    ensures vregs { IfOk result (λ words. map vreg_of_bits words.items ≡ vregs.now) }
    ensures names { IfOk result (λ words. All IsVRegBits words.items) }
{
    let mut words = Vec::with_capacity(alloc, vregs.len())?;
    for vreg in vregs {
        words.push(vreg.bits() as u32)?;
    }
    Ok(words)
}

/// Returns the words of the vregs of each of `lists`.
fn words_of_lists<A: Allocator, B: Allocator + Copy>(
    alloc: B,
    lists: &[Vec<VReg, A>],
) -> Result<Vec<Vec<u32, B>, B>, AllocError>
    ensures vregs { IfOk result (λ words. map (λ l. map vreg_of_bits l.items) words.items ≡ map (λ v. v.items) lists.now) }
    ensures names { IfOk result (λ words. All (λ l. All IsVRegBits l.items) words.items) }
{
    let mut words = Vec::with_capacity(alloc, lists.len())?;
    for list in lists {
        let vregs = words_of_vregs(alloc, list.as_slice())?;
        words.push(vregs)?;
    }
    Ok(words)
}

/// Returns the words of `operands`.
fn words_of_operands<A: Allocator>(
    alloc: A,
    operands: &[Operand],
) -> Result<Vec<u64, A>, AllocError>
    ensures operands { IfOk result (λ words. map operand_of_bits words.items ≡ operands.now) }
    ensures names { IfOk result (λ words. All IsOperandBits words.items) }
{
    let mut words = Vec::with_capacity(alloc, operands.len())?;
    for operand in operands {
        words.push(operand.bits())?;
    }
    Ok(words)
}

/// Returns the numbers of `blocks`.
fn numbers_of_blocks<A: Allocator>(alloc: A, blocks: &[Block]) -> Result<Vec<u32, A>, AllocError>
    ensures { IfOk result (λ numbers. numbers.items ≡ blocks.now) }
{
    let mut numbers = Vec::with_capacity(alloc, blocks.len())?;
    for block in blocks {
        numbers.push(block.raw_u32())?;
    }
    Ok(numbers)
}

/// Returns the numbers of `labels`.
fn numbers_of_labels<A: Allocator>(
    alloc: A,
    labels: &[(VReg, Inst, Inst, u32)],
) -> Result<Vec<(u32, u32, u32, u32), A>, AllocError>
    ensures labels { IfOk result (λ numbers. map stored_label numbers.items ≡ map label_of labels.now) }
    ensures names { IfOk result (λ numbers. All (λ l. IsVRegBits l.0) numbers.items) }
{
    let mut numbers = Vec::with_capacity(alloc, labels.len())?;
    for label in labels {
        let vreg = label.0.bits() as u32;
        numbers.push((vreg, label.1.raw_u32(), label.2.raw_u32(), label.3))?;
    }
    Ok(numbers)
}

/// Returns the sizes of the slots of `f`, by class.
fn numbers_of_sizes<A: Allocator, B: Allocator>(
    alloc: B,
    f: &TableFunction<A>,
) -> Result<Vec<u64, B>, AllocError>
    ensures sizes { IfOk result (λ numbers. stored_sizes numbers.items ≡ (function_of_table f.now).slot_sizes) }
    ensures three { IfOk result (λ numbers. length numbers.items ≡ 3) }
    ensures limits { IfOk result (λ numbers. All IsSlotSize numbers.items) }
{
    let numbers = [
        f.int_slot.units as u64,
        f.float_slot.units as u64,
        f.vector_slot.units as u64,
    ];
    Ok(Vec::from_array(alloc, numbers)?)
}

/// Returns the numbers of `machine`.
fn numbers_of_machine<A: Allocator, B: Allocator + Copy>(
    alloc: B,
    machine: &MachineEnv<A>,
) -> Result<StoredMachine<B>, AllocError>
    ensures machine { IfOk result (λ numbers. NamesMachine numbers (machine_of machine.now)) }
    ensures three { IfOk result (λ numbers. HasThreeClasses numbers) }
    ensures names { IfOk result (λ numbers. NamesRegisters numbers) }
{
    let preferred = lists_of_indexes(alloc, &machine.preferred_regs_by_class)?;
    let non_preferred = lists_of_indexes(alloc, &machine.non_preferred_regs_by_class)?;
    let scratch_by_class = indexes_of_scratch(alloc, &machine.scratch_by_class)?;
    let fixed_stack_slots = indexes_of_registers(alloc, machine.fixed_stack_slots.as_slice())?;
    Ok(StoredMachine {
        preferred_regs_by_class: preferred,
        non_preferred_regs_by_class: non_preferred,
        scratch_by_class,
        fixed_stack_slots,
    })
}

/// Returns the numbers of `inst`.
fn numbers_of_inst<A: Allocator, B: Allocator + Copy>(
    alloc: B,
    inst: &TableInst<A>,
) -> Result<StoredInst<B>, AllocError>
    ensures inst { IfOk result (λ numbers. NamesInst numbers (inst_of_table inst.now)) }
    ensures names { IfOk result (λ numbers. NamesOperands numbers) }
{
    Ok(StoredInst {
        op: inst.op,
        operands: words_of_operands(alloc, inst.operands.as_slice())?,
        clobbers: indexes_of(alloc, inst.clobbers)?,
    })
}

/// Returns the numbers of `insts`.
fn numbers_of_insts<A: Allocator, B: Allocator + Copy>(
    alloc: B,
    insts: &[TableInst<A>],
) -> Result<Vec<StoredInst<B>, B>, AllocError>
    ensures insts { IfOk result (λ numbers. AllZip (λ x i. NamesInst x i) numbers.items (map inst_of_table insts.now)) }
    ensures names { IfOk result (λ numbers. All (λ x. NamesOperands x) numbers.items) }
{
    let mut numbers = Vec::with_capacity(alloc, insts.len())?;
    for inst in insts {
        let number = numbers_of_inst(alloc, inst)?;
        numbers.push(number)?;
    }
    Ok(numbers)
}

/// Returns the numbers of the first instruction of `range` and of the instruction at which it ends.
fn numbers_of_range(range: InstRange) -> (u32, u32)
    ensures { stored_range result ≡ range }
{
    let end = range.end().raw_u32();
    if range.len() == 0 {
        (end, end)
    } else {
        (range.first().raw_u32(), end)
    }
}

/// Makes room in `lists` for `count` blocks.
fn reserve<B: Allocator>(lists: &mut BlockLists<B>, count: usize) -> Result<(), AllocError>
    ensures { OnOk result (AreEmpty lists.old → AreEmpty lists.new) }
{
    lists.blocks.reserve(count)?;
    lists.preds.reserve(count)?;
    lists.succs.reserve(count)?;
    lists.params_in.reserve(count)?;
    lists.params_out.reserve(count)
}

/// Adds the numbers of `block` to `lists`.
fn add_block<A: Allocator, B: Allocator + Copy>(
    alloc: B,
    lists: &mut BlockLists<B>,
    block: &TableBlock<A>,
) -> Result<(), AllocError>
    ensures { OnOk result ((bs : List (TableBlock A)) → AreBlockLists lists.old bs → AreBlockLists lists.new (bs ++ block.now ∷ [])) }
{
    lists.blocks.push(numbers_of_range(block.range))?;
    let preds = numbers_of_blocks(alloc, block.preds.as_slice())?;
    lists.preds.push(preds)?;
    let succs = numbers_of_blocks(alloc, block.succs.as_slice())?;
    lists.succs.push(succs)?;
    let params = words_of_vregs(alloc, block.params.as_slice())?;
    lists.params_in.push(params)?;
    let arguments = words_of_lists(alloc, block.arguments.as_slice())?;
    lists.params_out.push(arguments)?;
    Ok(())
}

/// Returns the numbers of `blocks`, list by list.
fn lists_of<A: Allocator, B: Allocator + Copy>(
    alloc: B,
    blocks: &[TableBlock<A>],
) -> Result<BlockLists<B>, AllocError>
    ensures { IfOk result (λ lists. AreBlockLists lists blocks.now) }
{
    let mut lists = BlockLists {
        blocks: Vec::new(alloc),
        preds: Vec::new(alloc),
        succs: Vec::new(alloc),
        params_in: Vec::new(alloc),
        params_out: Vec::new(alloc),
    };
    reserve(&mut lists, blocks.len())?;
    for block in blocks {
        add_block(alloc, &mut lists, block)?;
    }
    Ok(lists)
}

/// Returns the numbers of the function and the machine of `named`, made with the function's own allocator.
fn numbers_of<A: Allocator + Copy>(
    named: &SerializableFunction<A>,
) -> Result<StoredFunction<A>, AllocError>
    ensures { IfOk result (λ s. AreNumbersOf s named.now) }
{
    // Plain lists are made first and the machine last: each error drops what was made before it.
    let f = &named.function;
    let alloc = *f.blocks.allocator();
    let spillslot_size = numbers_of_sizes(alloc, f)?;
    let debug_value_labels = numbers_of_labels(alloc, f.labels.as_slice())?;
    let lists = lists_of(alloc, f.blocks.as_slice())?;
    let insts = numbers_of_insts(alloc, f.insts.as_slice())?;
    let machine_env = numbers_of_machine(alloc, &named.machine)?;
    Ok(StoredFunction {
        machine_env,
        entry_block: f.entry.raw_u32(),
        insts,
        blocks: lists.blocks,
        block_preds: lists.preds,
        block_succs: lists.succs,
        block_params_in: lists.params_in,
        block_params_out: lists.params_out,
        num_vregs: f.num_vregs as u64,
        debug_value_labels,
        spillslot_size,
        multi_spillslot_named_by_last_slot: f.named_by_last_slot,
        allow_multiple_vreg_defs: f.allows_multiple_defs,
    })
}

impl<A: Allocator + Copy> SerializableFunction<A> {
    /// Returns the numbers of this function and its machine, made with the function's own allocator.
    ///
    /// The numbers name this function and this machine, and no other. [`SerializableFunction::from_stored`] gives
    /// back what was stored, unless it returns `Memory`, or `Index` because the function's entry, a predecessor or a
    /// successor is no block of the function.
    ///
    /// # Errors
    ///
    /// `Memory` if memory runs out, and nothing else.
    pub fn stored(&self) -> Result<StoredFunction<A>, RegAllocError>
        ensures function { IfOk result (λ s. NamesFunction s (function_of_serializable self.now)) }
        ensures machine { IfOk result (λ s. NamesMachine s.machine_env (machine_of self.now.machine)) }
        ensures only_function { IfOk result (λ s. (f : FunctionValue) → NamesFunction s f → f ≡ function_of_serializable self.now) }
        ensures only_machine { IfOk result (λ s. (env : MachineValue) → NamesMachine s.machine_env env → env ≡ machine_of self.now.machine) }
        ensures sound { IfOk result (λ s. IsSoundStored s ↔ NamesItsBlocks (function_of_serializable self.now)) }
        ensures passes { IfOk result (λ s. HasLengths s × NamesAll s × KeepsLimits s) }
        ensures memory { IfErr result (λ e. e ≡ RegAllocError.Memory) }
    {
        Ok(numbers_of(self)?)
    }
}
