//! Whether the places that an output names are memory: cells of their own.
//!
//! The checker knows places by their names alone. An output that puts a value in the stack pointer, in a slot past the frame, or in
//! two slots that share a unit is faithful by its names, and wrong.

ghost use Rattle.std.specs.Prelude.{◌≡◌, ◌<◌, ◌⊎◌, ◌↔◌, ℕ, IsTrue, IfOk, IfErr, OnOk, Contains, All, ◌-◌, Some, length, true, false};
ghost use Rattle.regalloc2_names.specs.Place.{InSlot, InRegister};
ghost use Rattle.regalloc2_names.specs.Register.{Register};
ghost use Rattle.regalloc2_names.specs.declared.RegClass.{RegClass};
ghost use Rattle.regalloc2_function.specs.FunctionValue.{FunctionValue, inst_at};
ghost use Rattle.regalloc2_function.specs.Machine.{scratch_of, is_allocatable, IsFixedStackSlot};
ghost use Rattle.regalloc2_semantics.specs.Places.{IsValidPlace, IsMoveEnd};
ghost use Rattle.regalloc2_function.specs.OutputValue.{IsInOrder, place_at, allocs_of};
ghost use Rattle.regalloc2_function.specs.Views.{machine_of, output_of};
ghost use Rattle.regalloc2_checker.specs.CellRegisters.{AreCellRegisters};
ghost use Rattle.regalloc2_checker.specs.CheckInputs.{AreStackSlots};
ghost use Rattle.regalloc2_checker.specs.Cells.{AreCells, ArePlacesOfMachine, IsSlotTaken, IsOperandCell, IsWithinClass, IsTakenByInst, IsTakenByMove};
ghost use Rattle.regalloc2_checker.specs.Cells.{IsTakenByLocation, IsInFrame, units_beside, operand_of, move_of_index, location_of_index};
ghost use Rattle.regalloc2_checker.specs.CellFaults.{IsCellFault, AreTurned, AreAllApart, IsShared, IsSlotFault, IsNextSlot, SlotReaches};
ghost use Rattle.regalloc2_checker.specs.NamedSlots.{AddsSlots};

use crate::cell_registers::{CellRegisters, allocatable};
use crate::lookup::place_at;
use crate::named_slots::NamedSlots;
use crate::slots::add_slot;
use regalloc2_function::{Function, MachineEnv, Output};
use regalloc2_index::Inst;
use regalloc2_names::{Allocation, Operand, PReg, PRegSet, RegClass, VReg};
use std::alloc::{AllocError, Allocator};
use std::fmt;

/// Why the places that an output names aren't cells.
#[derive(Clone, Copy, Debug, PartialEq, Eq)]
pub enum CellFault {
    /// The operand of this index is in no register for its class, in no slot of the frame, or in another register than
    /// the one that it names in place of a vreg.
    Operand(Inst, usize),
    /// An end of the move of this index in the list is no place of the machine's, and no slot of the frame.
    MoveEnd(usize),
    /// The move of this index goes from a register to one of another class.
    OtherClass(usize),
    /// The debug location of this index is no place of the machine's, and no slot of the frame.
    Location(usize),
    /// The slot isn't within the frame with all units that it takes.
    Slot(usize),
    /// The two slots share a unit.
    Shared(usize, usize),
    /// A memory allocation failed.
    Memory,
}

impl From<AllocError> for CellFault {
    ghost use Rattle.std.specs.Prelude.{◌≡◌};
    ghost use Rattle.regalloc2_checker.specs.declared.cells.CellFault.TheVariants.{Memory};

    ghost from_gives = { λ _ r. r ≡ Memory };

    fn from(_refused: AllocError) -> CellFault {
        CellFault::Memory
    }
}

impl CellFault {
    ghost use Rattle.std.specs.Prelude.{◌≡◌};
    ghost use Rattle.regalloc2_checker.specs.CellText.{cell_code, cell_words};

    /// The number of its kind.
    fn code(self) -> u32
        ensures { result ≡ cell_code self }
    {
        match self {
            CellFault::Operand(..) | CellFault::MoveEnd(_) | CellFault::Location(_) => 14,
            CellFault::OtherClass(_) => 15,
            CellFault::Slot(_) => 16,
            CellFault::Shared(..) => 17,
            CellFault::Memory => 13,
        }
    }

    /// What is wrong, in words.
    fn words(self) -> &'static str
        ensures { result.now ≡ cell_words self }
    {
        match self {
            CellFault::Operand(..) => "no register for its class, and no slot of the frame",
            CellFault::MoveEnd(_) => "an end is no place of the machine, and no slot of the frame",
            CellFault::OtherClass(_) => "it goes from a register to one of another class",
            CellFault::Location(_) => "no place of the machine, and no slot of the frame",
            CellFault::Slot(_) => "it isn't within the frame",
            CellFault::Shared(..) => "they share a unit",
            CellFault::Memory => "out of memory",
        }
    }
}

/// The operand, move, debug location or slots at fault, as ` inst3 operand 1`; nothing where memory ran out.
#[derive(Clone, Copy)]
struct SubjectText(CellFault);

impl fmt::Display for SubjectText {
    ghost use Rattle.std.specs.Prelude.{Some};
    ghost use Rattle.regalloc2_checker.specs.CellText.{cell_subject};

    ghost output = { λ t. Some (cell_subject t.0) };

    fn fmt<W: fmt::Write>(&self, f: &mut fmt::Formatter<W>) -> fmt::Result {
        match self.0 {
            CellFault::Operand(Inst(inst), operand) => write!(f, " inst{inst} operand {operand}"),
            CellFault::MoveEnd(index) | CellFault::OtherClass(index) => write!(f, " move {index}"),
            CellFault::Location(index) => write!(f, " debug {index}"),
            CellFault::Slot(slot) => write!(f, " stack{slot}"),
            CellFault::Shared(slot, other) => write!(f, " stack{slot} stack{other}"),
            CellFault::Memory => write!(f, ""),
        }
    }
}

/// Writes what is wrong, as `error 16 stack5: it isn't within the frame`.
impl fmt::Display for CellFault {
    ghost use Rattle.std.specs.Prelude.{Some};
    ghost use Rattle.regalloc2_checker.specs.CellText.{cell_text};

    ghost output = { λ e. Some (cell_text e) };

    fn fmt<W: fmt::Write>(&self, f: &mut fmt::Formatter<W>) -> fmt::Result {
        let (code, subject, words) = (self.code(), SubjectText(*self), self.words());
        write!(f, "error {code}{subject}: {words}")
    }
}

/// Returns whether `a` and `b` are the same class.
fn is_class(a: RegClass, b: RegClass) -> bool
    ensures { IsTrue result ↔ (a ≡ b) }
{
    a as usize == b as usize
}

/// Returns whether a value of `class` may be in `reg`, which may stand for a fixed stack slot.
fn may_be_in<B: Allocator>(env: &MachineEnv<B>, slots: PRegSet, class: RegClass, reg: PReg) -> bool
    requires { AreStackSlots (machine_of env.now) slots }
    ensures { IsTrue result ↔ ((is_allocatable (machine_of env.now) class reg ≡ true) ⊎ (IsFixedStackSlot (machine_of env.now) reg × (reg.class ≡ class))) }
{
    allocatable(env, class).contains(reg) || (slots.contains(reg) && is_class(reg.class(), class))
}

/// Returns whether a value of `class` may be in `place`.
fn is_proper<B: Allocator, C: Allocator>(
    env: &MachineEnv<B>,
    slots: PRegSet,
    output: &Output<C>,
    class: RegClass,
    place: Allocation,
) -> bool
    requires { AreStackSlots (machine_of env.now) slots }
    ensures { IsTrue result ↔ IsValidPlace (machine_of env.now) (output_of output.now) class place }
{
    match place.as_reg() {
        Some(reg) => may_be_in(env, slots, class, reg),
        None => place.is_stack() && place.index() < output.num_spillslots,
    }
}

/// Returns whether a value of some class may be in `place`.
fn is_proper_of_any<B: Allocator, C: Allocator>(
    env: &MachineEnv<B>,
    slots: PRegSet,
    output: &Output<C>,
    place: Allocation,
) -> bool
    requires { AreStackSlots (machine_of env.now) slots }
    ensures { IsTrue result ↔ ((c : RegClass) × IsValidPlace (machine_of env.now) (output_of output.now) c place) }
{
    is_proper(env, slots, output, RegClass::Int, place)
        || is_proper(env, slots, output, RegClass::Float, place)
        || is_proper(env, slots, output, RegClass::Vector, place)
}

/// Returns whether a value of `class` may be in `place`. Registers that may be allocated are tested first, since most
/// places are.
#[inline(always)]
fn is_cell_of<B: Allocator, C: Allocator>(
    env: &MachineEnv<B>,
    regs: &CellRegisters,
    output: &Output<C>,
    class: RegClass,
    place: Allocation,
) -> bool
    requires { AreCellRegisters (machine_of env.now) regs.now }
    ensures { IsTrue result ↔ IsValidPlace (machine_of env.now) (output_of output.now) class place }
{
    if regs.may_hold(class, place) {
        return true;
    }
    is_proper(env, regs.slots, output, class, place)
}

/// Returns whether a value of some class may be in `place`.
#[inline(always)]
fn is_cell_of_any<B: Allocator, C: Allocator>(
    env: &MachineEnv<B>,
    regs: &CellRegisters,
    output: &Output<C>,
    place: Allocation,
) -> bool
    requires { AreCellRegisters (machine_of env.now) regs.now }
    ensures { IsTrue result ↔ ((c : RegClass) × IsValidPlace (machine_of env.now) (output_of output.now) c place) }
{
    if regs.may_hold_any(place) {
        return true;
    }
    is_proper_of_any(env, regs.slots, output, place)
}

/// Returns whether `place` is the register of `class` that is set aside for moves.
fn is_scratch<B: Allocator>(env: &MachineEnv<B>, class: RegClass, place: Allocation) -> bool
    ensures { IsTrue result ↔ ((r : Register) × (scratch_of (machine_of env.now) class ≡ Some r) × (place ≡ InRegister r)) }
{
    match env.scratch_by_class[class as usize] {
        Some(reg) => place == Allocation::reg(reg),
        None => false,
    }
}

/// Returns whether a move may read or write `place`.
fn is_move_end<B: Allocator, C: Allocator>(
    env: &MachineEnv<B>,
    regs: &CellRegisters,
    output: &Output<C>,
    place: Allocation,
) -> bool
    requires { AreCellRegisters (machine_of env.now) regs.now }
    ensures { IsTrue result ↔ IsMoveEnd (machine_of env.now) (output_of output.now) place }
{
    is_cell_of_any(env, regs, output, place)
        || is_scratch(env, RegClass::Int, place)
        || is_scratch(env, RegClass::Float, place)
        || is_scratch(env, RegClass::Vector, place)
}

/// Returns whether a move may go from `from` to `to`.
fn are_move_ends<B: Allocator, C: Allocator>(
    env: &MachineEnv<B>,
    regs: &CellRegisters,
    output: &Output<C>,
    from: Allocation,
    to: Allocation,
) -> bool
    requires { AreCellRegisters (machine_of env.now) regs.now }
    ensures { IsTrue result ↔ (IsMoveEnd (machine_of env.now) (output_of output.now) from × IsMoveEnd (machine_of env.now) (output_of output.now) to) }
{
    is_move_end(env, regs, output, from) && is_move_end(env, regs, output, to)
}

/// Returns whether `op` may be in `place`.
fn is_operand_cell<B: Allocator, C: Allocator>(
    env: &MachineEnv<B>,
    regs: &CellRegisters,
    output: &Output<C>,
    op: Operand,
    place: Allocation,
) -> bool
    requires { AreCellRegisters (machine_of env.now) regs.now }
    ensures { IsTrue result ↔ IsOperandCell (machine_of env.now) (output_of output.now) op place }
{
    // Most operands name a vreg.
    if op.vreg().vreg() < VReg::MAX {
        return is_cell_of(env, regs, output, op.class(), place);
    }
    match op.as_fixed_nonallocatable() {
        Some(reg) => place == Allocation::reg(reg),
        None => is_cell_of(env, regs, output, op.class(), place),
    }
}

/// Returns whether a move from `from` to `to` stays within a class.
fn is_within_class(from: Allocation, to: Allocation) -> bool
    ensures { IsTrue result ↔ IsWithinClass (record { from = from; to = to }) }
{
    match (from.as_reg(), to.as_reg()) {
        (Some(from), Some(to)) => is_class(from.class(), to.class()),
        _ => true,
    }
}

/// Returns how many units a slot takes in a move whose other end is `other`.
fn units_beside<F: Function>(f: &F, other: Allocation) -> usize
    ensures { result ≡ units_beside (F.function f.now) other }
{
    match other.as_reg() {
        Some(reg) => f.spillslot_size(reg.class()),
        None => 1,
    }
}

/// Adds `place`, an end of a move, to `named` if it is a slot, with the units that it takes beside the end `other`.
#[inline(always)]
fn add_end<F: Function, A: Allocator>(
    f: &F,
    named: &mut NamedSlots<A>,
    place: Allocation,
    other: Allocation,
) -> Result<(), AllocError>
    ensures { OnOk result (AddsSlots (λ n u. (place ≡ InSlot n) × (u ≡ units_beside (F.function f.now) other)) named.old named.new) }
{
    if !place.is_stack() {
        return Ok(());
    }
    add_slot(named, place, units_beside(f, other))
}

/// Tests the places of the operands of `inst`, and adds the slots that they name.
fn test_inst<F: Function, A: Allocator, B: Allocator, C: Allocator>(
    f: &F,
    env: &MachineEnv<B>,
    regs: &CellRegisters,
    output: &Output<C>,
    inst: Inst,
    named: &mut NamedSlots<A>,
) -> Result<(), CellFault>
    requires regs { AreCellRegisters (machine_of env.now) regs.now }
    requires in_order { IsInOrder (F.function f.now) (output_of output.now) }
    requires inst { inst < length (F.function f.now).insts }
    ensures cells { OnOk result ((k : ℕ) → k < length (inst_at (F.function f.now) inst).operands → IsOperandCell (machine_of env.now) (output_of output.now)
        (operand_of (F.function f.now) inst k) (place_at (allocs_of (output_of output.now) inst) k)) }
    ensures named { OnOk result (AddsSlots (IsTakenByInst (F.function f.now) (output_of output.now) inst) named.old named.new) }
    ensures fault { IfErr result (IsCellFault (F.function f.now) (machine_of env.now) (output_of output.now)) }
{
    let operands = f.inst_operands(inst);
    let places = output.inst_allocs(inst);
    for k in 0..operands.len() {
        let op = operands[k];
        let place = place_at(places, k);
        if !is_operand_cell(env, regs, output, op, place) {
            return Err(CellFault::Operand(inst, k));
        }
        add_slot(named, place, f.spillslot_size(op.class()))?;
    }
    Ok(())
}

/// Tests the places of all operands, and adds the slots that they name.
fn test_insts<F: Function, A: Allocator, B: Allocator, C: Allocator>(
    f: &F,
    env: &MachineEnv<B>,
    regs: &CellRegisters,
    output: &Output<C>,
    named: &mut NamedSlots<A>,
) -> Result<(), CellFault>
    requires regs { AreCellRegisters (machine_of env.now) regs.now }
    requires in_order { IsInOrder (F.function f.now) (output_of output.now) }
    ensures cells { OnOk result ((i : ℕ) → i < length (F.function f.now).insts → (k : ℕ) → k < length (inst_at (F.function f.now) i).operands →
        IsOperandCell (machine_of env.now) (output_of output.now) (operand_of (F.function f.now) i k) (place_at (allocs_of (output_of output.now) i) k)) }
    ensures named { OnOk result (AddsSlots (λ n u. (i : ℕ) × (i < length (F.function f.now).insts) ×
        IsTakenByInst (F.function f.now) (output_of output.now) i n u) named.old named.new) }
    ensures fault { IfErr result (IsCellFault (F.function f.now) (machine_of env.now) (output_of output.now)) }
{
    for i in 0..f.num_insts() {
        test_inst(f, env, regs, output, Inst::new(i), named)?;
    }
    Ok(())
}

/// Tests the places of the moves, and adds the slots that they name.
fn test_moves<F: Function, A: Allocator, B: Allocator, C: Allocator>(
    f: &F,
    env: &MachineEnv<B>,
    regs: &CellRegisters,
    output: &Output<C>,
    named: &mut NamedSlots<A>,
) -> Result<(), CellFault>
    requires regs { AreCellRegisters (machine_of env.now) regs.now }
    ensures ends { OnOk result ((k : ℕ) → k < length (output_of output.now).edits →
        IsMoveEnd (machine_of env.now) (output_of output.now) (move_of_index (output_of output.now) k).from
        × IsMoveEnd (machine_of env.now) (output_of output.now) (move_of_index (output_of output.now) k).to) }
    ensures classes { OnOk result ((k : ℕ) → k < length (output_of output.now).edits → IsWithinClass (move_of_index (output_of output.now) k)) }
    ensures named { OnOk result (AddsSlots (λ n u. (k : ℕ) × (k < length (output_of output.now).edits)
        × IsTakenByMove (F.function f.now) (move_of_index (output_of output.now) k) n u) named.old named.new) }
    ensures fault { IfErr result (IsCellFault (F.function f.now) (machine_of env.now) (output_of output.now)) }
{
    for k in 0..output.edits.len() {
        let edit = output.edits[k];
        let (from, to) = edit.1.places();
        if !are_move_ends(env, regs, output, from, to) {
            return Err(CellFault::MoveEnd(k));
        }
        if !is_within_class(from, to) {
            return Err(CellFault::OtherClass(k));
        }
        add_end(f, named, from, to)?;
        add_end(f, named, to, from)?;
    }
    Ok(())
}

/// Tests the places of the debug locations, and adds the slots that they name.
fn test_locations<A: Allocator, B: Allocator, C: Allocator>(
    env: &MachineEnv<B>,
    regs: &CellRegisters,
    output: &Output<C>,
    named: &mut NamedSlots<A>,
) -> Result<(), CellFault>
    requires regs { AreCellRegisters (machine_of env.now) regs.now }
    ensures cells { OnOk result ((k : ℕ) → k < length (output_of output.now).debug_locations →
        (c : RegClass) × IsValidPlace (machine_of env.now) (output_of output.now) c (location_of_index (output_of output.now) k)) }
    ensures named { OnOk result (AddsSlots (λ n u. (k : ℕ) × (k < length (output_of output.now).debug_locations)
        × IsTakenByLocation (output_of output.now) k n u) named.old named.new) }
    ensures fault { IfErr result (λ e. (f : FunctionValue) → IsCellFault f (machine_of env.now) (output_of output.now) e) }
{
    for k in 0..output.debug_locations.len() {
        let location = output.debug_locations[k];
        let place = location.3;
        if !is_proper_of_any(env, regs.slots, output, place) {
            return Err(CellFault::Location(k));
        }
        add_slot(named, place, 1)?;
    }
    Ok(())
}

/// Returns whether `slot` is within the frame with all its `units`.
fn is_in_frame(by_last: bool, count: usize, slot: usize, units: usize) -> bool
    ensures { IsTrue result ↔ IsInFrame by_last count slot units }
{
    if by_last {
        slot < count && units - units.min(1) <= slot
    } else {
        slot <= count && units <= count - slot
    }
}

/// Tests that slots are within the frame with all their units.
fn test_frame(by_last: bool, count: usize, named: &[(usize, usize)]) -> Result<(), CellFault>
    ensures frame { OnOk result (All (λ s. IsInFrame by_last count s.0 s.1) named.now) }
    ensures fault { IfErr result (λ e. (n u : ℕ) × (e ≡ CellFault.Slot n) × Contains named.now (n, u) × (IsInFrame by_last count n u → ⊥)) }
{
    for k in 0..named.len() {
        let (slot, units) = named[k];
        if !is_in_frame(by_last, count, slot, units) {
            return Err(CellFault::Slot(slot));
        }
    }
    Ok(())
}

/// Goes on to `slot`: returns the current slot, and the last one before it that has another number.
fn go_on(slots: (Option<usize>, Option<usize>), slot: usize) -> (Option<usize>, Option<usize>)
    ensures { IsNextSlot slot slots result }
{
    match slots.0 {
        Some(current) if current == slot => slots,
        _ => (Some(slot), slots.0),
    }
}

/// Returns whether `slot`, with its units, reaches the slot `other`.
fn reaches(by_last: bool, slot: (usize, usize), other: usize) -> bool
    ensures { IsTrue result ↔ SlotReaches by_last slot other }
{
    if by_last {
        slot.0.saturating_sub(other) < slot.1
    } else {
        other.saturating_sub(slot.0) < slot.1
    }
}

/// Returns the error that `slot` shares a unit with `other`, which comes before it.
fn shared(by_last: bool, slot: usize, other: usize) -> CellFault
    ensures rising { by_last ≡ true → result ≡ CellFault.Shared other slot }
    ensures falling { by_last ≡ false → result ≡ CellFault.Shared slot other }
{
    if by_last {
        CellFault::Shared(other, slot)
    } else {
        CellFault::Shared(slot, other)
    }
}

/// Tests that no two slots share a unit.
fn test_apart(by_last: bool, named: &[(usize, usize)]) -> Result<(), CellFault>
    requires { AreTurned by_last named.now }
    ensures apart { OnOk result (AreAllApart by_last named.now) }
    ensures fault { IfErr result (λ e. (m n : ℕ) × (e ≡ CellFault.Shared m n) × IsShared by_last named.now m n) }
{
    let mut slots = (None, None);
    for k in 0..named.len() {
        let slot = named[k];
        slots = go_on(slots, slot.0);
        if let Some(other) = slots.1 {
            if reaches(by_last, slot, other) {
                return Err(shared(by_last, slot.0, other));
            }
        }
    }
    Ok(())
}

/// Sorts `named` by number: rising if `by_last`, when slots are named by their last units, else falling.
fn turn(by_last: bool, named: &mut [(usize, usize)])
    ensures turned { AreTurned by_last named.new }
    ensures members { (s : ℕ × ℕ) → Contains named.old s ↔ Contains named.new s }
{
    named.sort_unstable_by_key(|s| s.0);
    if !by_last {
        named.reverse();
    }
}

/// Tests that slots are within the frame with all their units, and that no two of them share a unit.
fn test_slots(by_last: bool, count: usize, named: &mut [(usize, usize)]) -> Result<(), CellFault>
    ensures frame { OnOk result ((n u : ℕ) → Contains named.old (n, u) → IsInFrame by_last count n u) }
    ensures apart { OnOk result (AreAllApart by_last named.old) }
    ensures fault { IfErr result (IsSlotFault by_last count named.old) }
{
    test_frame(by_last, count, named)?;
    turn(by_last, named);
    test_apart(by_last, named)
}

/// Returns the slots that `output` names, with the units that they take, once the places of operands, moves and debug
/// locations are tested.
fn named_slots<F: Function, A: Allocator + Copy, B: Allocator, C: Allocator>(
    alloc: A,
    f: &F,
    env: &MachineEnv<B>,
    output: &Output<C>,
) -> Result<Vec<(usize, usize), A>, CellFault>
    requires in_order { IsInOrder (F.function f.now) (output_of output.now) }
    ensures places { OnOk result (ArePlacesOfMachine (F.function f.now) (machine_of env.now) (output_of output.now)) }
    ensures named { IfOk result (λ v. (n u : ℕ) → Contains v.items (n, u) ↔ IsSlotTaken (F.function f.now) (output_of output.now) n u) }
    ensures fault { IfErr result (IsCellFault (F.function f.now) (machine_of env.now) (output_of output.now)) }
{
    let regs = CellRegisters::of(env);
    let most = output.edits.len().saturating_add(output.allocs.len());
    let mut named = NamedSlots::new(alloc, output.num_spillslots.min(most))?;
    test_insts(f, env, &regs, output, &mut named)?;
    test_moves(f, env, &regs, output, &mut named)?;
    test_locations(env, &regs, output, &mut named)?;
    Ok(named.into_slots())
}

/// Tests that the places that `output` names are cells of their own, and reports the first that isn't.
///
/// - Each operand is in a register that may be allocated to its class, in a fixed stack slot of its class, or in a slot
/// below the count; an operand that names a register in place of a vreg is in that register. Each end of a move is a
/// place of this kind for some class, or the scratch register of some class; each debug location is a place of this kind
/// for some class.
/// - A move from a register to another register stays within a class.
/// - Each slot is within the frame with all units that it takes: as many as the class of each operand that is there and the class of
///   each register that a move copies it from or to; no two slots share a unit.
///
/// Slots are compared by the greatest number of units that each takes anywhere. What an allocation
/// guarantees of its own output is more: each operand's constraint is met, `PlacesAreValid` and
/// `AreSlotsOwned`. `n log n` in the slots that are named; at most 24 bytes for each of them.
pub fn test_cells<F: Function, A: Allocator + Copy, B: Allocator, C: Allocator>(
    alloc: A,
    f: &F,
    env: &MachineEnv<B>,
    output: &Output<C>,
) -> Result<(), CellFault>
    requires in_order { IsInOrder (F.function f.now) (output_of output.now) }
    ensures cells { OnOk result (AreCells (F.function f.now) (machine_of env.now) (output_of output.now)) }
    ensures fault { IfErr result (IsCellFault (F.function f.now) (machine_of env.now) (output_of output.now)) }
{
    let by_last = f.multi_spillslot_named_by_last_slot();
    let mut named = named_slots(alloc, f, env, output)?;
    test_slots(by_last, output.num_spillslots, named.as_mut_slice())
}

/// Returns whether `fault` is that a memory allocation failed.
fn is_memory(fault: CellFault) -> bool
    ensures { IsTrue result ↔ (fault ≡ CellFault.Memory) }
{
    matches!(fault, CellFault::Memory)
}

/// Returns whether the places that `output` names are cells of their own, as [`test_cells`] tests it.
pub fn places_are_cells<F: Function, A: Allocator + Copy, B: Allocator, C: Allocator>(
    alloc: A,
    f: &F,
    env: &MachineEnv<B>,
    output: &Output<C>,
) -> Result<bool, AllocError>
    requires in_order { IsInOrder (F.function f.now) (output_of output.now) }
    ensures { IfOk result (λ b. IsTrue b ↔ AreCells (F.function f.now) (machine_of env.now) (output_of output.now)) }
{
    let Err(fault) = test_cells(alloc, f, env, output) else {
        return Ok(true);
    };
    if is_memory(fault) {
        return Err(AllocError);
    }
    Ok(false)
}
