//! Live ranges, completed where the walk meets their beginning: a definition, or a block's parameter.

ghost use Rattle.std.specs.Prelude.{◌≡◌, ◌≢◌, ◌<◌, ◌&&◌, ℕ, false, length, slice_index_or, Contains, IfSome, IfNone, None, Some};
ghost use Rattle.regalloc2_names.specs.Register.{VirtualRegister};
ghost use Rattle.regalloc2_function.specs.FunctionValue.{block_at};
ghost use Rattle.regalloc2_names.specs.Operand.{is_def};
ghost use Rattle.regalloc2_names.specs.Place.{inst_limit};
ghost use Rattle.regalloc2_semantics.specs.Live.{DefinesAt};
ghost use Rattle.regalloc2_semantics.specs.Debug.{UsesAt};
ghost use Rattle.regalloc2_function.specs.Inside.TableLength.{CoversDefinitions};
ghost use Rattle.regalloc2_analysis.specs.LiveRanges.LastUses.{end_at, end_behind};
ghost use Rattle.regalloc2_analysis.specs.LiveRanges.LiveRanges.{IsSSA, IsWanted, range_at};
ghost use Rattle.regalloc2_analysis.specs.LiveRanges.Entries.{AreEntryIndexes, spread};
ghost use Rattle.regalloc2_analysis.specs.LiveRanges.WalkInvariant.{AreEndsFrom, AreRight, Stay};

use super::ends::RangeEnd;
use super::entries::{entry, set_entry};
use super::wanted::is_wanted;
use super::{InstOperand, LiveRange};
use regalloc2_function::Function;
use regalloc2_index::{Block, Inst};
use regalloc2_names::{Operand, ProgPoint, VReg};

/// Returns the end of the live range of a vreg that `inst` defines and whose last use from `inst` on is
/// `noted`, or `unused` if nothing uses it. An end right before `inst` is an argument that `inst` itself
/// passes, which doesn't count.
fn end_of_defined(noted: Option<RangeEnd>, inst: Inst, unused: RangeEnd) -> RangeEnd
    requires { inst < inst_limit }
    ensures { result ≡ end_behind inst noted unused }
{
    let own = ProgPoint::before(inst);
    match noted {
        Some(end) if end.last != own => end,
        _ => unused,
    }
}

/// Returns `true` if `operand` defines a requested vreg.
fn defines_wanted(wanted: &[bool], operand: Operand) -> bool
    ensures { result ≡ is_def operand.kind && slice_index_or wanted.now operand.vreg.number false }
{
    operand.is_def() && is_wanted(wanted, operand.vreg())
}

/// Completes the live ranges of the requested vregs that `inst` defines. If nothing uses a vreg, the
/// operand of its last point is its definition.
pub fn begin_at_defs<F: Function>(
    ranges: &mut [Option<LiveRange>],
    ends: &[Option<RangeEnd>],
    indexes: &[u32],
    f: &F,
    wanted: &[bool],
    inst: Inst,
)
    requires ssa { IsSSA (F.function f.now) }
    requires inst { inst < length (F.function f.now).insts }
    requires room { CoversDefinitions (F.function f.now) (length indexes.now) }
    requires ends { AreEndsFrom (F.function f.now) (IsWanted wanted.now) inst (spread indexes.now ends.now) }
    requires indexes { AreEntryIndexes wanted.now indexes.now (length ranges.old) }
    requires right { AreRight (F.function f.now) (spread indexes.now ranges.old) }
    ensures right { AreRight (F.function f.now) (spread indexes.now ranges.new) }
    ensures stay { Stay (spread indexes.now ranges.old) (spread indexes.now ranges.new) }
    ensures defined { (v : VirtualRegister) → IsWanted wanted.now v.number → DefinesAt (F.function f.now) v inst →
        range_at (spread indexes.now ranges.new) v.number ≢ None }
{
    for (index, operand) in f.inst_operands(inst).iter().enumerate() {
        if defines_wanted(wanted, *operand) {
            let vreg = operand.vreg();
            let unused = RangeEnd {
                last: ProgPoint::before(inst.next()),
                by: Some(InstOperand { inst, index }),
            };
            let end = end_of_defined(entry(ends, indexes, vreg.vreg()), inst, unused);
            let range = LiveRange {
                vreg,
                first: ProgPoint::after(inst),
                last: end.last,
                by: end.by,
            };
            set_entry(ranges, indexes, vreg.vreg(), range);
        }
    }
}

/// Returns the end that is noted for `vreg`, if the vreg is requested.
fn wanted_end(
    wanted: &[bool],
    ends: &[Option<RangeEnd>],
    indexes: &[u32],
    vreg: VReg,
) -> Option<RangeEnd>
    ensures some { IfSome result (λ e. IsWanted wanted.now vreg.number × (end_at (spread indexes.now ends.now) vreg.number ≡ Some e)) }
    ensures none { IfNone result (IsWanted wanted.now vreg.number → end_at (spread indexes.now ends.now) vreg.number ≡ None) }
{
    if is_wanted(wanted, vreg) {
        entry(ends, indexes, vreg.vreg())
    } else {
        None
    }
}

/// Completes the live ranges of the requested parameters of `block`. A parameter that nothing uses
/// has none.
pub fn begin_at_params<F: Function>(
    ranges: &mut [Option<LiveRange>],
    ends: &[Option<RangeEnd>],
    indexes: &[u32],
    f: &F,
    wanted: &[bool],
    block: Block,
)
    requires ssa { IsSSA (F.function f.now) }
    requires block { block < length (F.function f.now).blocks }
    requires room { CoversDefinitions (F.function f.now) (length indexes.now) }
    requires ends { AreEndsFrom (F.function f.now) (IsWanted wanted.now) (block_at (F.function f.now) block).range.first (spread indexes.now ends.now) }
    requires indexes { AreEntryIndexes wanted.now indexes.now (length ranges.old) }
    requires right { AreRight (F.function f.now) (spread indexes.now ranges.old) }
    ensures right { AreRight (F.function f.now) (spread indexes.now ranges.new) }
    ensures stay { Stay (spread indexes.now ranges.old) (spread indexes.now ranges.new) }
    ensures taken { (v : VirtualRegister) (j : ℕ) → IsWanted wanted.now v.number → Contains (block_at (F.function f.now) block).params v →
        UsesAt (F.function f.now) v j → range_at (spread indexes.now ranges.new) v.number ≢ None }
{
    let first = ProgPoint::before(f.block_insns(block).first());
    for param in f.block_params(block) {
        if let Some(end) = wanted_end(wanted, ends, indexes, *param) {
            let range = LiveRange {
                vreg: *param,
                first,
                last: end.last,
                by: end.by,
            };
            set_entry(ranges, indexes, param.vreg(), range);
        }
    }
}
