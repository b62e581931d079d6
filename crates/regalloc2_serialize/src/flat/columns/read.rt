//! Functions from words in columns.

ghost use Rattle.std.specs.Prelude.{◌≡◌, ◌∷◌, All, IfOk, IfErr, length, map};
ghost use Rattle.regalloc2_names.specs.Packing.{IsVRegBits, operand_of_bits, vreg_of_bits};
ghost use Rattle.regalloc2_function.specs.Views.{machine_of};
ghost use Rattle.regalloc2_serialize.specs.Flat.Columns.Layout.{header_of, operand_words, operand_ends};
ghost use Rattle.regalloc2_serialize.specs.Flat.Columns.Value.{longs, IsLaidOutAs, IsMachineOf};
ghost use Rattle.regalloc2_serialize.specs.Flat.Columns.Sound.{AreSoundColumns, Covers, IsColumnsFault};
ghost use Rattle.regalloc2_serialize.specs.Flat.Columns.Kept.{function_of_flat};
ghost use Rattle.regalloc2_serialize.specs.Flat.Columns.Tables.{AreInstTables, AreEdgeTables};

use super::FlatFunction;
use super::cut::{
    ARGUMENT_ENDS, ARGUMENTS, Cut, INST_ENDS, KINDS, LABELS, NON_PREFERRED, OPERAND_ENDS, OPERANDS,
    PARAM_ENDS, PARAMS, PRED_ENDS, PREDS, PREFERRED, SCRATCH, SETS, SLOTS, SUCC_ENDS, SUCCS,
};
use super::pieces::Pieces;
use super::typed::{
    bounds_of, class_sets, labels_of, numbered_sets, operands_of, pieces_of, registers_of,
    scratches_of, sizes_of,
};
use crate::decode::{blocks_from, vregs_from};
use regalloc2_function::{MachineEnv, StoredFault};
use regalloc2_index::Block;
use regalloc2_names::{Operand, PRegSet, VReg};
use std::alloc::{AllocError, Allocator};

/// Returns the machine in the columns `cut`, which pass all tests.
fn machine_from<A: Allocator>(alloc: A, cut: &Cut<'_>) -> Result<MachineEnv<A>, AllocError>
    requires { AreSoundColumns cut.now.words.now }
    ensures { IfOk result (λ m. IsMachineOf cut.now.words.now (machine_of m)) }
{
    let fixed_stack_slots = registers_of(alloc, cut.column(SLOTS))?;
    Ok(MachineEnv {
        preferred_regs_by_class: class_sets(cut.column(PREFERRED)),
        non_preferred_regs_by_class: class_sets(cut.column(NON_PREFERRED)),
        scratch_by_class: scratches_of(cut.column(SCRATCH)),
        fixed_stack_slots,
    })
}

/// Returns the operands in the columns `cut`, which pass all tests, by instructions.
fn operands_from<A: Allocator + Copy>(
    alloc: A,
    cut: &Cut<'_>,
) -> Result<Pieces<Operand, A>, AllocError>
    requires { AreSoundColumns cut.now.words.now }
    ensures items { IfOk result (λ p. p.items.items ≡ map operand_of_bits (longs (operand_words cut.now.words.now) (header_of cut.now.words.now).operands)) }
    ensures bounds { IfOk result (λ p. p.bounds.items ≡ 0 ∷ operand_ends cut.now.words.now) }
{
    let items = operands_of(alloc, cut.column(OPERANDS), cut.header().operands as usize)?;
    pieces_of(alloc, items, cut.column(OPERAND_ENDS))
}

/// Returns the blocks with the numbers `words`, in parts that end at `ends`.
fn blocks_in<A: Allocator + Copy>(
    alloc: A,
    words: &[u32],
    ends: &[u32],
) -> Result<Pieces<Block, A>, AllocError>
    requires { Covers ends.now (length words.now) }
    ensures items { IfOk result (λ p. p.items.items ≡ words.now) }
    ensures bounds { IfOk result (λ p. p.bounds.items ≡ 0 ∷ ends.now) }
{
    let items = blocks_from(alloc, words)?;
    pieces_of(alloc, items, ends)
}

/// Returns the vregs that `words` encode, in parts that end at `ends`.
fn vregs_in<A: Allocator + Copy>(
    alloc: A,
    words: &[u32],
    ends: &[u32],
) -> Result<Pieces<VReg, A>, AllocError>
    requires covered { Covers ends.now (length words.now) }
    requires vregs { All IsVRegBits words.now }
    ensures items { IfOk result (λ p. p.items.items ≡ map vreg_of_bits words.now) }
    ensures bounds { IfOk result (λ p. p.bounds.items ≡ 0 ∷ ends.now) }
{
    let items = vregs_from(alloc, words)?;
    pieces_of(alloc, items, ends)
}

/// The tables of instructions.
#[derive(Drop)]
pub struct InstTables<A: Allocator> {
    /// What the instructions are.
    pub kinds: Vec<u32, A>,
    /// The sets of clobbers, by their numbers.
    pub sets: Vec<PRegSet, A>,
    /// The operands, by instructions.
    pub operands: Pieces<Operand, A>,
}

/// The tables of edges.
#[derive(Drop)]
pub struct EdgeTables<A: Allocator> {
    /// The predecessors, by blocks.
    pub preds: Pieces<Block, A>,
    /// The successors, by blocks.
    pub succs: Pieces<Block, A>,
    /// The parameters, by blocks.
    pub params: Pieces<VReg, A>,
    /// The arguments, by edges.
    pub arguments: Pieces<VReg, A>,
}

/// Returns the tables of instructions of the columns `cut`, which pass all tests.
fn insts_from<A: Allocator + Copy>(alloc: A, cut: &Cut<'_>) -> Result<InstTables<A>, AllocError>
    requires { AreSoundColumns cut.now.words.now }
    ensures { IfOk result (λ t. AreInstTables cut.now.words.now t) }
{
    let kinds = Vec::from_slice(alloc, cut.column(KINDS))?;
    let sets = numbered_sets(alloc, cut.column(SETS), cut.header().sets as usize)?;
    let operands = operands_from(alloc, cut)?;
    Ok(InstTables {
        kinds,
        sets,
        operands,
    })
}

/// Returns the tables of edges of the columns `cut`, which pass all tests.
fn edges_from<A: Allocator + Copy>(alloc: A, cut: &Cut<'_>) -> Result<EdgeTables<A>, AllocError>
    requires { AreSoundColumns cut.now.words.now }
    ensures { IfOk result (λ t. AreEdgeTables cut.now.words.now t) }
{
    let preds = blocks_in(alloc, cut.column(PREDS), cut.column(PRED_ENDS))?;
    let succs = blocks_in(alloc, cut.column(SUCCS), cut.column(SUCC_ENDS))?;
    let params = vregs_in(alloc, cut.column(PARAMS), cut.column(PARAM_ENDS))?;
    let arguments = vregs_in(alloc, cut.column(ARGUMENTS), cut.column(ARGUMENT_ENDS))?;
    Ok(EdgeTables {
        preds,
        succs,
        params,
        arguments,
    })
}

/// Returns the function and the machine in the columns `cut`, which pass all tests.
fn function_from<A: Allocator + Copy>(
    alloc: A,
    cut: &Cut<'_>,
) -> Result<FlatFunction<A>, StoredFault>
    requires { AreSoundColumns cut.now.words.now }
    ensures function { IfOk result (λ f. IsLaidOutAs cut.now.words.now (function_of_flat f)) }
    ensures machine { IfOk result (λ f. IsMachineOf cut.now.words.now (machine_of f.machine)) }
    ensures memory { IfErr result (λ e. e ≡ StoredFault.Memory) }
{
    let header = cut.header();
    let inst_bounds = bounds_of(alloc, cut.column(INST_ENDS))?;
    let labels = labels_of(alloc, cut.column(LABELS), header.labels as usize)?;
    let machine = machine_from(alloc, cut)?;
    let insts = insts_from(alloc, cut)?;
    let edges = edges_from(alloc, cut)?;
    let (int_slot, float_slot, vector_slot) = sizes_of(header);
    Ok(FlatFunction {
        machine,
        kinds: insts.kinds,
        sets: insts.sets,
        operands: insts.operands,
        inst_bounds,
        preds: edges.preds,
        succs: edges.succs,
        params: edges.params,
        arguments: edges.arguments,
        entry: Block::new(header.entry as usize),
        num_vregs: header.vregs as usize,
        int_slot,
        float_slot,
        vector_slot,
        labels,
        named_by_last_slot: header.is_named_by_last_slot(),
        allows_multiple_defs: header.allows_multiple_defs(),
    })
}

impl<A: Allocator + Copy> FlatFunction<A> {
    /// Returns the function and the machine that `words` lay out in columns.
    ///
    /// # Errors
    ///
    /// The first of `Shape`, `Lengths`, `Index`, `Bits` and `Limit` whose test fails, in this order, before anything is
    /// allocated; `Memory` if all five pass and memory runs out.
    pub fn read(alloc: A, words: &[u32]) -> Result<FlatFunction<A>, StoredFault>
        ensures function { IfOk result (λ f. IsLaidOutAs words.now (function_of_flat f)) }
        ensures machine { IfOk result (λ f. IsMachineOf words.now (machine_of f.machine)) }
        ensures sound { IfOk result (λ _. AreSoundColumns words.now) }
        ensures refused { IfErr result (λ e. IsColumnsFault words.now e) }
    {
        let Some(cut) = Cut::of(words) else {
            return Err(StoredFault::Shape);
        };
        cut.test()?;
        function_from(alloc, &cut)
    }
}

impl<A: Allocator> FlatFunction<A> {
    /// Returns the machine that the function is for.
    pub fn machine_env(&self) -> &MachineEnv<A>
        ensures { machine_of result.now ≡ machine_of self.now.machine }
    {
        &self.machine
    }
}
