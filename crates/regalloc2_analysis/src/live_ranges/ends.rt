//! Where live ranges end: at the last use of each vreg, which a backward walk meets first.

ghost use Rattle.std.specs.Prelude.{◌≡◌, ◌≢◌, ◌+◌, ◌<◌, ◌≤◌, ℕ, length, Some};
ghost use Rattle.std.specs.Option.{option_or};
ghost use Rattle.regalloc2_names.specs.Place.{inst_limit};
ghost use Rattle.regalloc2_function.specs.FunctionValue.{block_at};
ghost use Rattle.regalloc2_function.specs.WellFormed.{BlocksFollow};
ghost use Rattle.regalloc2_analysis.specs.LiveRanges.LastUses.{NotesArguments, NotesPassed, NotesReads, NotesUses, end_at};
ghost use Rattle.regalloc2_analysis.specs.LiveRanges.Entries.{HasEntry, IsApart, spread};

use super::InstOperand;
use super::entries::{entry, set_entry};
use regalloc2_function::Function;
use regalloc2_index::{Block, Inst};
use regalloc2_names::{Operand, OperandPos, ProgPoint, VReg};

/// Where a live range ends, and the operand whose place shows the value up to there.
#[derive(Clone, Copy)]
pub struct RangeEnd {
    pub last: ProgPoint,
    pub by: Option<InstOperand>,
}

/// Notes `end` for `vreg`, unless a later end is noted already.
fn note_end(ends: &mut [Option<RangeEnd>], indexes: &[u32], vreg: VReg, end: RangeEnd)
    requires apart { IsApart indexes.now (length ends.old) }
    ensures noted { HasEntry indexes.now vreg.number (length ends.old) →
        end_at (spread indexes.now ends.new) vreg.number ≡ option_or (end_at (spread indexes.now ends.old) vreg.number) (Some end) }
    ensures others { (n : ℕ) → n ≢ vreg.number → end_at (spread indexes.now ends.new) n ≡ end_at (spread indexes.now ends.old) n }
{
    let number = vreg.vreg();
    if entry(ends, indexes, number).is_none() {
        set_entry(ends, indexes, number, end);
    }
}

/// Notes what `operands` of `inst` read at `pos`.
fn note_reads(
    ends: &mut [Option<RangeEnd>],
    indexes: &[u32],
    operands: &[Operand],
    inst: Inst,
    pos: OperandPos,
)
    requires apart { IsApart indexes.now (length ends.old) }
    requires small { inst + 1 < inst_limit }
    ensures { (n : ℕ) → HasEntry indexes.now n (length ends.old) → NotesReads pos inst operands.now (length operands.now) n (end_at (spread indexes.now ends.old) n)
        (end_at (spread indexes.now ends.new) n) }
{
    let last = match pos {
        OperandPos::Early => ProgPoint::after(inst),
        OperandPos::Late => ProgPoint::before(inst.next()),
    };
    for (index, operand) in operands.iter().enumerate() {
        if operand.reads_at(pos) {
            let by = Some(InstOperand { inst, index });
            note_end(ends, indexes, operand.vreg(), RangeEnd { last, by });
        }
    }
}

/// Notes `arguments`, which `inst` passes to one successor.
fn note_arguments(ends: &mut [Option<RangeEnd>], indexes: &[u32], arguments: &[VReg], inst: Inst)
    requires apart { IsApart indexes.now (length ends.old) }
    requires small { inst < inst_limit }
    ensures { (n : ℕ) → HasEntry indexes.now n (length ends.old) → NotesArguments inst arguments.now (length arguments.now) n
        (end_at (spread indexes.now ends.old) n)
        (end_at (spread indexes.now ends.new) n) }
{
    let last = ProgPoint::before(inst);
    for argument in arguments {
        note_end(ends, indexes, *argument, RangeEnd { last, by: None });
    }
}

/// Notes the arguments that `inst`, the last instruction of `block`, passes, where no later use is
/// noted.
pub fn note_passed<F: Function>(
    ends: &mut [Option<RangeEnd>],
    indexes: &[u32],
    f: &F,
    block: Block,
    inst: Inst,
)
    requires apart { IsApart indexes.now (length ends.old) }
    requires block { block < length (F.function f.now).blocks }
    requires last { inst + 1 ≡ (block_at (F.function f.now) block).range.end }
    requires nonempty { (block_at (F.function f.now) block).range.first ≤ inst }
    requires small { inst < inst_limit }
    ensures { (n : ℕ) → HasEntry indexes.now n (length ends.old) → NotesPassed (F.function f.now) block inst (length (block_at (F.function f.now) block).succs) n
        (end_at (spread indexes.now ends.old) n) (end_at (spread indexes.now ends.new) n) }
{
    for succ in 0..f.block_succs(block).len() {
        note_arguments(ends, indexes, f.branch_blockparams(block, inst, succ), inst);
    }
}

/// Notes the uses of `inst`, an instruction of `block`, where no later use is noted: late reads, then
/// early reads, then, at the block's last instruction, the arguments that it passes.
pub fn note_uses<F: Function>(
    ends: &mut [Option<RangeEnd>],
    indexes: &[u32],
    f: &F,
    block: Block,
    inst: Inst,
)
    requires apart { IsApart indexes.now (length ends.old) }
    requires follow { BlocksFollow (F.function f.now) }
    requires block { block < length (F.function f.now).blocks }
    requires first { (block_at (F.function f.now) block).range.first ≤ inst }
    requires end { inst < (block_at (F.function f.now) block).range.end }
    requires within { inst < length (F.function f.now).insts }
    ensures { (n : ℕ) → HasEntry indexes.now n (length ends.old) → NotesUses (F.function f.now) inst n (end_at (spread indexes.now ends.old) n)
        (end_at (spread indexes.now ends.new) n) }
{
    let operands = f.inst_operands(inst);
    note_reads(ends, indexes, operands, inst, OperandPos::Late);
    note_reads(ends, indexes, operands, inst, OperandPos::Early);
    if inst.next() == f.block_insns(block).end() {
        note_passed(ends, indexes, f, block, inst);
    }
}
