//! Builds a function: blocks are declared, then filled in any order.

ghost use Rattle.std.specs.Prelude.{◌≡◌, ℕ, ◌<◌, ◌^◌, ◌-◌, ◌+◌, ◌++◌, ◌∷◌, [], false, true, All, OnOk, OnErr, IfOk, IfErr, map, length, vec_len};
ghost use Rattle.regalloc2_serialize.specs.TableFunction.Table.{function_of_table, inst_of_table, block_of_table};
ghost use Rattle.regalloc2_serialize.specs.TableFunction.Draft.{draft_of, drafts_of, declared_with, with_inst, with_succ, IsChanged, HasMore, IsUndeclared, IsUnadded};
ghost use Rattle.regalloc2_serialize.specs.TableFunction.Built.{placed_block, blocks_from, insts_of, edges_to, preds_from, IsBuilt, IsUnbuilt};
ghost use Rattle.regalloc2_serialize.specs.TableFunction.Steps.{HasPreds, one_edge, succs_at, IsUnplaced, IsUnlinked, AreUnlinked};

use super::build::{branch, op, ret};
use super::table::{SlotUnits, TableBlock, TableFunction, TableInst};
use crate::limits::{BLOCK_LIMIT, INST_LIMIT, VREG_LIMIT};
use regalloc2_index::{Block, Inst, InstRange};
use regalloc2_names::{Operand, PRegSet, VReg};
use std::alloc::{AllocError, AllocFailed, Allocator, Global};
use std::error::Error;
use std::fmt;

/// Why a builder returns an error.
#[derive(Clone, Copy, Debug, PartialEq, Eq)]
pub enum BuildError {
    /// Memory ran out.
    Memory,
    /// The block wasn't declared.
    NoBlock(Block),
    /// There are 2^32 - 1 blocks or more.
    TooManyBlocks,
    /// There are 2^30 instructions or more.
    TooManyInsts,
    /// There are 2^30 vregs or more.
    TooManyVRegs,
}

/// Writes what is wrong, as `block3 isn't declared`.
impl fmt::Display for BuildError {
    ghost use Rattle.std.specs.Prelude.{Some};
    ghost use Rattle.regalloc2_serialize.specs.TableFunction.BuildText.{build_text};

    ghost output = { λ e. Some (build_text e) };

    fn fmt<W: fmt::Write>(&self, f: &mut fmt::Formatter<W>) -> fmt::Result {
        match *self {
            Self::Memory => f.write_str("out of memory"),
            Self::NoBlock(block) => write!(f, "block{} isn't declared", block.index()),
            Self::TooManyBlocks => f.write_str("there are 2^32 - 1 blocks or more"),
            Self::TooManyInsts => f.write_str("there are 2^30 instructions or more"),
            Self::TooManyVRegs => f.write_str("there are 2^30 virtual registers or more"),
        }
    }
}

impl Error for BuildError {}

impl From<AllocError> for BuildError {
    ghost use Rattle.std.specs.Prelude.{◌≡◌};
    ghost use Rattle.regalloc2_serialize.specs.declared.table_function.builder.BuildError.TheVariants.{Memory};

    ghost from_gives = { λ _ e. e ≡ Memory };

    fn from(_refused: AllocError) -> BuildError {
        BuildError::Memory
    }
}

impl<T: Drop> From<AllocFailed<T>> for BuildError {
    ghost use Rattle.std.specs.Prelude.{◌≡◌};
    ghost use Rattle.regalloc2_serialize.specs.declared.table_function.builder.BuildError.TheVariants.{Memory};

    ghost from_gives = { λ _ e. e ≡ Memory };

    fn from(_refused: AllocFailed<T>) -> BuildError {
        BuildError::Memory
    }
}

/// A partial block.
#[derive(Drop)]
pub struct BlockDraft<A: Allocator = Global> {
    /// The parameters.
    pub params: Vec<VReg, A>,
    /// The instructions of the block.
    pub insts: Vec<TableInst<A>, A>,
    /// The successors.
    pub succs: Vec<Block, A>,
    /// The arguments for each successor.
    pub arguments: Vec<Vec<VReg, A>, A>,
}

/// Builds a function whose blocks are declared one by one, and filled in any order.
///
/// The function starts at block 0. A call that returns an error leaves the builder unchanged.
#[derive(Drop)]
pub struct TableBuilder<A: Allocator = Global> {
    /// The allocator of all that is built.
    alloc: A,
    /// The blocks so far, by number.
    pub blocks: Vec<BlockDraft<A>, A>,
}

impl<A: Allocator + Copy> TableBuilder<A> {
    /// Returns a builder without blocks.
    pub fn new(alloc: A) -> TableBuilder<A>
        ensures { drafts_of result ≡ [] }
    {
        TableBuilder {
            alloc,
            blocks: Vec::new(alloc),
        }
    }

    /// Declares the next block, with the parameters `params`.
    pub fn block(&mut self, params: &[VReg]) -> Result<Block, BuildError>
        ensures number { IfOk result (λ b. b ≡ length (drafts_of self.old)) }
        ensures ok { OnOk result (drafts_of self.new ≡ drafts_of self.old ++ declared_with params.now ∷ []) }
        ensures err { IfErr result (λ e. IsUndeclared (drafts_of self.old) e) }
        ensures unchanged { OnErr result (drafts_of self.new ≡ drafts_of self.old) }
    {
        let number = self.blocks.len();
        if number + 1 >= BLOCK_LIMIT {
            return Err(BuildError::TooManyBlocks);
        }
        let params = params.to_vec(self.alloc)?;
        self.blocks.push(BlockDraft {
            params,
            insts: Vec::new(self.alloc),
            succs: Vec::new(self.alloc),
            arguments: Vec::new(self.alloc),
        })?;
        Ok(Block::new(number))
    }

    /// Adds `inst` to `block`.
    pub fn inst(&mut self, block: Block, inst: TableInst<A>) -> Result<(), BuildError>
        ensures ok { OnOk result (IsChanged (drafts_of self.old) block (with_inst (inst_of_table inst)) (drafts_of self.new)) }
        ensures err { IfErr result (λ e. IsUnadded (length (drafts_of self.old)) block e) }
        ensures unchanged { OnErr result (drafts_of self.new ≡ drafts_of self.old) }
    {
        if block.index() >= self.blocks.len() {
            return Err(BuildError::NoBlock(block));
        }
        self.blocks[block.index()].insts.push(inst)?;
        Ok(())
    }

    /// Adds an instruction with the operands `operands` to `block`, which goes on to the next instruction.
    pub fn op(&mut self, block: Block, operands: &[Operand]) -> Result<(), BuildError>
        ensures ok { OnOk result (HasMore (drafts_of self.old) block operands.now false false (drafts_of self.new)) }
        ensures err { IfErr result (λ e. IsUnadded (length (drafts_of self.old)) block e) }
        ensures unchanged { OnErr result (drafts_of self.new ≡ drafts_of self.old) }
    {
        let inst = op(self.alloc, operands)?;
        self.inst(block, inst)
    }

    /// Adds an instruction with the operands `operands` to `block`, which overwrites the registers `clobbers` besides.
    pub fn op_with_clobbers(
        &mut self,
        block: Block,
        operands: &[Operand],
        clobbers: PRegSet,
    ) -> Result<(), BuildError>
        ensures ok { OnOk result (IsChanged (drafts_of self.old) block (with_inst
            (record { operands = operands.now; clobbers = clobbers; is_branch = false; is_ret = false })) (drafts_of self.new)) }
        ensures err { IfErr result (λ e. IsUnadded (length (drafts_of self.old)) block e) }
        ensures unchanged { OnErr result (drafts_of self.new ≡ drafts_of self.old) }
    {
        let mut inst = op(self.alloc, operands)?;
        inst.clobbers = clobbers;
        self.inst(block, inst)
    }

    /// Adds a branch with the operands `operands` to `block`: the last instruction of a block that goes on to its
    /// successors.
    pub fn branch(&mut self, block: Block, operands: &[Operand]) -> Result<(), BuildError>
        ensures ok { OnOk result (HasMore (drafts_of self.old) block operands.now true false (drafts_of self.new)) }
        ensures err { IfErr result (λ e. IsUnadded (length (drafts_of self.old)) block e) }
        ensures unchanged { OnErr result (drafts_of self.new ≡ drafts_of self.old) }
    {
        let inst = branch(self.alloc, operands)?;
        self.inst(block, inst)
    }

    /// Adds a return with the operands `operands` to `block`: the last instruction of a block without successors.
    pub fn ret(&mut self, block: Block, operands: &[Operand]) -> Result<(), BuildError>
        ensures ok { OnOk result (HasMore (drafts_of self.old) block operands.now false true (drafts_of self.new)) }
        ensures err { IfErr result (λ e. IsUnadded (length (drafts_of self.old)) block e) }
        ensures unchanged { OnErr result (drafts_of self.new ≡ drafts_of self.old) }
    {
        let inst = ret(self.alloc, operands)?;
        self.inst(block, inst)
    }

    /// Gives `block` its next successor, `to`, to which it passes `arguments`.
    pub fn succ(&mut self, block: Block, to: Block, arguments: &[VReg]) -> Result<(), BuildError>
        ensures ok { OnOk result (IsChanged (drafts_of self.old) block (with_succ to arguments.now) (drafts_of self.new)) }
        ensures err { IfErr result (λ e. IsUnadded (length (drafts_of self.old)) block e) }
        ensures unchanged { OnErr result (drafts_of self.new ≡ drafts_of self.old) }
    {
        if block.index() >= self.blocks.len() {
            return Err(BuildError::NoBlock(block));
        }
        let arguments = arguments.to_vec(self.alloc)?;
        let draft = &mut self.blocks[block.index()];
        draft.succs.push(to)?;
        if let Err(_) = draft.arguments.push(arguments) {
            draft.succs.pop();
            return Err(BuildError::Memory);
        }
        Ok(())
    }

    /// Returns the function, with slots of one unit and vregs below `num_vregs`, without labels.
    ///
    /// The blocks' ranges follow one another. A block's predecessors are the blocks that go on to it, by their
    /// numbers, each listed once for each edge.
    pub fn finish(self, num_vregs: usize) -> Result<TableFunction<A>, BuildError>
        ensures ok { IfOk result (λ f. IsBuilt (drafts_of self) num_vregs (function_of_table f)) }
        ensures err { IfErr result (λ e. IsUnbuilt (drafts_of self) num_vregs e) }
    {
        let TableBuilder { alloc, blocks } = self;
        if blocks.len() >= BLOCK_LIMIT {
            return Err(BuildError::TooManyBlocks);
        }
        if num_vregs >= VREG_LIMIT {
            return Err(BuildError::TooManyVRegs);
        }
        let (mut blocks, insts) = lay_out(alloc, blocks)?;
        link(&mut blocks)?;
        let slots = (SlotUnits::one(), SlotUnits::one(), SlotUnits::one());
        Ok(TableFunction::of_blocks(alloc, num_vregs, slots, blocks, insts))
    }
}

/// Adds the block `draft` to `blocks`, and its instructions to `insts`.
fn place<A: Allocator + Copy>(
    alloc: A,
    blocks: &mut Vec<TableBlock<A>, A>,
    insts: &mut Vec<TableInst<A>, A>,
    draft: BlockDraft<A>,
) -> Result<(), BuildError>
    requires { vec_len insts.old < 2 ^ 30 }
    ensures blocks { OnOk result (map block_of_table blocks.new.items ≡ map block_of_table blocks.old.items ++ placed_block (length insts.old.items) (draft_of draft) ∷ []) }
    ensures insts { OnOk result (map inst_of_table insts.new.items ≡ map inst_of_table insts.old.items ++ (draft_of draft).insts) }
    ensures few { OnOk result (vec_len insts.new < 2 ^ 30) }
    ensures err { IfErr result (λ e. IsUnplaced (length insts.old.items + length (draft_of draft).insts) e) }
{
    let BlockDraft {
        params,
        insts: added,
        succs,
        arguments,
    } = draft;
    let first = Inst::new(insts.len());
    insts.extend(added)?;
    if insts.len() >= INST_LIMIT {
        return Err(BuildError::TooManyInsts);
    }
    blocks.push(TableBlock {
        range: InstRange::new(first, Inst::new(insts.len())),
        succs,
        preds: Vec::new(alloc),
        params,
        arguments,
    })?;
    Ok(())
}

/// Returns the blocks and the instructions of `drafts`, one after another. The blocks have no predecessors yet.
fn lay_out<A: Allocator + Copy>(
    alloc: A,
    drafts: Vec<BlockDraft<A>, A>,
) -> Result<(Vec<TableBlock<A>, A>, Vec<TableInst<A>, A>), BuildError>
    ensures blocks { IfOk result (λ r. map block_of_table r.0.items ≡ blocks_from 0 (map draft_of drafts.items)) }
    ensures insts { IfOk result (λ r. map inst_of_table r.1.items ≡ insts_of (map draft_of drafts.items)) }
    ensures few { IfOk result (λ r. vec_len r.1 < 2 ^ 30) }
    ensures err { IfErr result (λ e. IsUnplaced (length (insts_of (map draft_of drafts.items))) e) }
{
    let (mut blocks, mut insts) = (Vec::new(alloc), Vec::new(alloc));
    for draft in drafts {
        place(alloc, &mut blocks, &mut insts, draft)?;
    }
    Ok((blocks, insts))
}

/// Gives the block `to` one more predecessor, `pred`.
fn add_pred<A: Allocator + Copy>(
    blocks: &mut Vec<TableBlock<A>, A>,
    to: Block,
    pred: Block,
) -> Result<(), BuildError>
    ensures ok { OnOk result (HasPreds (map block_of_table blocks.old.items) (one_edge to pred) (map block_of_table blocks.new.items)) }
    ensures within { OnOk result (to < length blocks.old.items) }
    ensures err { IfErr result (λ e. IsUnadded (length blocks.old.items) to e) }
{
    if to.index() >= blocks.len() {
        return Err(BuildError::NoBlock(to));
    }
    blocks[to.index()].preds.push(pred)?;
    Ok(())
}

/// Makes the block `pred` a predecessor of its successors.
fn link_one<A: Allocator + Copy>(
    blocks: &mut Vec<TableBlock<A>, A>,
    pred: Block,
) -> Result<(), BuildError>
    requires { pred < vec_len blocks.old }
    ensures ok { let succs = succs_at (map block_of_table blocks.old.items) pred in
        OnOk result (HasPreds (map block_of_table blocks.old.items) (λ b. edges_to b pred succs) (map block_of_table blocks.new.items)) }
    ensures within { OnOk result (All (λ s. s < length blocks.old.items) (succs_at (map block_of_table blocks.old.items) pred)) }
    ensures err { IfErr result (λ e. IsUnlinked (succs_at (map block_of_table blocks.old.items) pred) (length blocks.old.items) e) }
{
    for k in 0..blocks[pred.index()].succs.len() {
        let to = blocks[pred.index()].succs[k];
        add_pred(blocks, to, pred)?;
    }
    Ok(())
}

/// Gives each of `blocks` its predecessors.
fn link<A: Allocator + Copy>(blocks: &mut Vec<TableBlock<A>, A>) -> Result<(), BuildError>
    requires { vec_len blocks.old < 2 ^ 32 - 1 }
    ensures ok { let succs = map (λ b. b.succs) (map block_of_table blocks.old.items) in
        OnOk result (HasPreds (map block_of_table blocks.old.items) (λ b. preds_from b 0 succs) (map block_of_table blocks.new.items)) }
    ensures within { OnOk result ((b : ℕ) → b < length blocks.old.items → All (λ s. s < length blocks.old.items) (succs_at (map block_of_table blocks.old.items) b)) }
    ensures err { IfErr result (λ e. AreUnlinked (map block_of_table blocks.old.items) e) }
{
    for number in 0..blocks.len() {
        link_one(blocks, Block::new(number))?;
    }
    Ok(())
}
