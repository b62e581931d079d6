//! Copies the parts of a function.

ghost use Rattle.std.specs.Prelude.{◌≡◌, ◌-◌, ◌<◌, All, IfOk, IfErr, length, map};
ghost use Rattle.std.specs.List.{range_with_len};
ghost use Rattle.regalloc2_function.specs.FunctionValue.{block_at, inst_at, label_of};
ghost use Rattle.regalloc2_function.specs.WellFormed.{IsFramed};
ghost use Rattle.regalloc2_serialize.specs.TableFunction.Table.{function_of_table, inst_of_table};
ghost use Rattle.regalloc2_serialize.specs.TableFunction.Draft.{draft_of};
ghost use Rattle.regalloc2_serialize.specs.TableFunction.Built.{IsUnbuilt};
ghost use Rattle.regalloc2_serialize.specs.Rewrite.Laid.{IsLaidLike};

use crate::from_function::{copied_inst, copied_units};
use crate::table_function::{BlockDraft, BuildError, TableBuilder, TableFunction, TableInst};
use regalloc2_function::Function;
use regalloc2_index::{Block, Inst};
use regalloc2_names::{RegClass, VReg};
use std::alloc::{AllocError, Allocator};

/// Returns copies of the instructions of `block`.
pub(crate) fn copied_insts<F: Function, A: Allocator + Copy>(
    alloc: A,
    f: &F,
    block: Block,
) -> Result<Vec<TableInst<A>, A>, AllocError>
    requires framed { IsFramed (F.function f.now) }
    requires block { block < length (F.function f.now).blocks }
    ensures { IfOk result (λ insts. map inst_of_table insts.items ≡ map (inst_at (F.function f.now))
        (range_with_len (block_at (F.function f.now) block).range.first ((block_at (F.function f.now) block).range.end - (block_at (F.function f.now) block).range.first))) }
{
    let range = f.block_insns(block);
    let mut insts = Vec::with_capacity(alloc, range.len())?;
    for inst in range.iter() {
        let copy = copied_inst(alloc, f, inst)?;
        insts.push(copy)?;
    }
    Ok(insts)
}

/// Returns the function of the blocks `drafts` with the given `entry` and `labels`; all else is as in `f`.
pub(crate) fn laid_like<F: Function, A: Allocator + Copy>(
    alloc: A,
    f: &F,
    drafts: Vec<BlockDraft<A>, A>,
    entry: Block,
    labels: Vec<(VReg, Inst, Inst, u32), A>,
) -> Result<TableFunction<A>, BuildError>
    requires { All (λ l. l.0.number < (F.function f.now).num_vregs) labels.items }
    ensures ok { IfOk result (λ g. IsLaidLike (F.function f.now) entry (map label_of labels.items) (map draft_of drafts.items) (function_of_table g)) }
    ensures err { IfErr result (λ e. IsUnbuilt (map draft_of drafts.items) (F.function f.now).num_vregs e) }
{
    let mut builder = TableBuilder::new(alloc);
    builder.blocks = drafts;
    let built = builder.finish(f.num_vregs())?;
    Ok(TableFunction {
        blocks: built.blocks,
        insts: built.insts,
        entry,
        num_vregs: built.num_vregs,
        int_slot: copied_units(f, RegClass::Int),
        float_slot: copied_units(f, RegClass::Float),
        vector_slot: copied_units(f, RegClass::Vector),
        named_by_last_slot: f.multi_spillslot_named_by_last_slot(),
        labels,
        allows_multiple_defs: f.allow_multiple_vreg_defs(),
    })
}
