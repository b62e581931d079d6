//! The places and vregs that a walk over an output may fill or write.

ghost use Rattle.std.specs.Prelude.{◌≡◌, ◌<◌, ◌↔◌, true, ℕ, OnOk, IfOk, All, length};
ghost use Rattle.std.specs.List.{flat_map};
ghost use Rattle.regalloc2_names.specs.Register.{Register, has_register};
ghost use Rattle.regalloc2_function.specs.FunctionValue.{block_at, inst_at};
ghost use Rattle.regalloc2_semantics.specs.Runs.{arguments_at};
ghost use Rattle.regalloc2_function.specs.Views.{output_of};
ghost use Rattle.regalloc2_function.specs.WellFormed.{IsFramed};
ghost use Rattle.regalloc2_checker.specs.NamedBits.{IsMore, ArePlacesAdded, places_of_edit};
ghost use Rattle.regalloc2_checker.specs.TableFacts.{IsListedVReg, AreNamedPlaces, AreNamedVRegs};

use crate::number_list::NumberList;
use crate::place_list::PlaceList;
use regalloc2_checker_sets::Positions;
use regalloc2_function::{Edit, Function, Output};
use regalloc2_index::{Block, Inst};
use regalloc2_names::{Allocation, Operand, PRegSet, ProgPoint, VReg};
use std::alloc::{AllocError, Allocator};

/// Lists both places of each of `moves`.
fn list_moves<A: Allocator>(
    bits: &mut PlaceList<A>,
    moves: &[(ProgPoint, Edit)],
) -> Result<(), AllocError>
    ensures { OnOk result (ArePlacesAdded bits.old bits.new (flat_map places_of_edit moves.now)) }
{
    for k in 0..moves.len() {
        let (from, to) = moves[k].1.places();
        bits.list(from)?;
        bits.list(to)?;
    }
    Ok(())
}

/// Lists `places`.
fn list_places<A: Allocator>(
    bits: &mut PlaceList<A>,
    places: &[Allocation],
) -> Result<(), AllocError>
    ensures { OnOk result (ArePlacesAdded bits.old bits.new places.now) }
{
    for k in 0..places.len() {
        bits.list(places[k])?;
    }
    Ok(())
}

/// Returns the registers that some instruction clobbers.
fn all_clobbers<F: Function>(f: &F) -> PRegSet
    ensures { (r : Register) → (has_register result r ≡ true)
        ↔ ((i : ℕ) × (i < length (F.function f.now).insts) × (has_register (inst_at (F.function f.now) i).clobbers r ≡ true)) }
{
    let mut clobbers = PRegSet::empty();
    for i in 0..f.num_insts() {
        clobbers.union_from(f.inst_clobbers(Inst::new(i)));
    }
    clobbers
}

/// Returns the places that `out` and the clobbers of `f` name.
pub fn named_places<F: Function, A: Allocator + Copy, B: Allocator>(
    alloc: A,
    f: &F,
    out: &Output<B>,
) -> Result<Positions<A>, AllocError>
    ensures { IfOk result (λ r. AreNamedPlaces (F.function f.now) (output_of out.now) r) }
{
    let named = out.edits.len().saturating_add(out.allocs.len());
    let mut bits = PlaceList::new(alloc, out.num_spillslots.min(named))?;
    list_moves(&mut bits, &out.edits)?;
    list_places(&mut bits, &out.allocs)?;
    bits.list_registers(all_clobbers(f));
    Ok(Positions::of(bits.into_numbers(alloc)?))
}

/// Lists `vreg`.
fn list_vreg<A: Allocator>(bits: &mut NumberList<A>, vreg: VReg) -> Result<(), AllocError>
    ensures more { OnOk result (IsMore bits.old bits.new) }
    ensures listed { OnOk result (IsListedVReg bits.new vreg) }
{
    bits.list(vreg.vreg(), vreg.bits() as u32)?;
    Ok(())
}

/// Lists the vregs of `operands`.
fn list_operands<A: Allocator>(
    bits: &mut NumberList<A>,
    operands: &[Operand],
) -> Result<(), AllocError>
    ensures more { OnOk result (IsMore bits.old bits.new) }
    ensures listed { OnOk result (All (λ op. IsListedVReg bits.new op.vreg) operands.now) }
{
    for k in 0..operands.len() {
        list_vreg(bits, operands[k].vreg())?;
    }
    Ok(())
}

/// Lists `vregs`.
fn list_vregs<A: Allocator>(bits: &mut NumberList<A>, vregs: &[VReg]) -> Result<(), AllocError>
    ensures more { OnOk result (IsMore bits.old bits.new) }
    ensures listed { OnOk result (All (IsListedVReg bits.new) vregs.now) }
{
    for k in 0..vregs.len() {
        list_vreg(bits, vregs[k])?;
    }
    Ok(())
}

/// Lists the vregs of all operands.
fn list_inst_vregs<F: Function, A: Allocator>(
    bits: &mut NumberList<A>,
    f: &F,
) -> Result<(), AllocError>
    ensures more { OnOk result (IsMore bits.old bits.new) }
    ensures listed { OnOk result ((i : ℕ) → i < length (F.function f.now).insts
        → All (λ op. IsListedVReg bits.new op.vreg) (inst_at (F.function f.now) i).operands) }
{
    for i in 0..f.num_insts() {
        list_operands(bits, f.inst_operands(Inst::new(i)))?;
    }
    Ok(())
}

/// Lists the arguments that `block` passes along its edges.
fn list_arguments<F: Function, A: Allocator>(
    bits: &mut NumberList<A>,
    f: &F,
    block: Block,
) -> Result<(), AllocError>
    requires framed { IsFramed (F.function f.now) }
    requires block { block < length (F.function f.now).blocks }
    ensures more { OnOk result (IsMore bits.old bits.new) }
    ensures listed { OnOk result ((k : ℕ) → k < length (block_at (F.function f.now) block).succs
        → All (IsListedVReg bits.new) (arguments_at (F.function f.now) block k)) }
{
    let last = f.block_insns(block).last();
    for k in 0..f.block_succs(block).len() {
        list_vregs(bits, f.branch_blockparams(block, last, k))?;
    }
    Ok(())
}

/// Lists the parameters of `block`, and the arguments that it passes along its edges.
fn list_block_vregs<F: Function, A: Allocator>(
    bits: &mut NumberList<A>,
    f: &F,
    block: Block,
) -> Result<(), AllocError>
    requires framed { IsFramed (F.function f.now) }
    requires block { block < length (F.function f.now).blocks }
    ensures more { OnOk result (IsMore bits.old bits.new) }
    ensures params { OnOk result (All (IsListedVReg bits.new) (block_at (F.function f.now) block).params) }
    ensures arguments { OnOk result ((k : ℕ) → k < length (block_at (F.function f.now) block).succs
        → All (IsListedVReg bits.new) (arguments_at (F.function f.now) block k)) }
{
    list_vregs(bits, f.block_params(block))?;
    list_arguments(bits, f, block)?;
    Ok(())
}

/// Lists the parameters of all blocks, and the arguments that they pass along their edges.
fn list_all_blocks<F: Function, A: Allocator>(
    bits: &mut NumberList<A>,
    f: &F,
) -> Result<(), AllocError>
    requires { IsFramed (F.function f.now) }
    ensures more { OnOk result (IsMore bits.old bits.new) }
    ensures params { OnOk result ((b : ℕ) → b < length (F.function f.now).blocks
        → All (IsListedVReg bits.new) (block_at (F.function f.now) b).params) }
    ensures arguments { OnOk result ((b k : ℕ) → b < length (F.function f.now).blocks → k < length (block_at (F.function f.now) b).succs
        → All (IsListedVReg bits.new) (arguments_at (F.function f.now) b k)) }
{
    for b in 0..f.num_blocks() {
        list_block_vregs(bits, f, Block::new(b))?;
    }
    Ok(())
}

/// Returns the vregs of the operands, parameters and arguments of `f`.
pub fn named_vregs<F: Function, A: Allocator + Copy>(
    alloc: A,
    f: &F,
) -> Result<Positions<A>, AllocError>
    requires { IsFramed (F.function f.now) }
    ensures { IfOk result (λ r. AreNamedVRegs (F.function f.now) r) }
{
    // Instructions may name few of a function's vregs.
    let expected = f.num_vregs().min(f.num_insts().saturating_mul(16));
    let mut bits = NumberList::new(alloc, expected)?;
    list_inst_vregs(&mut bits, f)?;
    list_all_blocks(&mut bits, f)?;
    Ok(Positions::of(bits.into_numbers(alloc)?))
}
