//! One instruction, as the function's run and the allocated run make it.

ghost use Rattle.std.specs.Prelude.{◌≡◌, ◌<◌, ◌↔◌, ◌∷◌, [], ℕ, OnOk, IfOk, All, true, false, map, not, ◌&&◌, if◌then◌else◌, length, min, take, ◌≤◌};
ghost use Rattle.regalloc2_names.specs.Operand.{is_def, is_late};
ghost use Rattle.regalloc2_function.specs.OutputValue.{place_at};
ghost use Rattle.regalloc2_checker.specs.Holding.{is_in};
ghost use Rattle.regalloc2_checker.specs.Showing.{shows_now, AreTablesKept};
ghost use Rattle.regalloc2_checker.specs.Facts.{placed, defined, facts_after_moves, facts_after_early_defs, facts_after_defs, facts_after_clobbers};
ghost use Rattle.regalloc2_names.specs.RegisterBits.{bits_of_vreg};
ghost use Rattle.regalloc2_checker.specs.TableFacts.{facts_now, is_packed_vreg, IsMissingUnlisted, IsListed, IsListedVReg};
ghost use Rattle.regalloc2_checker.specs.Listing.{listed_move};
ghost use Rattle.regalloc2_checker.specs.Renamed.{facts_renamed, HoldersAre, AreHoldersOf, AreOthersKept, given_to, facts_forgotten, facts_without};

use crate::PassingTables;
use crate::lookup::{bits_of, place_at, position, vreg_position};
use regalloc2_function::Edit;
use regalloc2_names::{Allocation, Operand, PRegSet, ProgPoint, VReg};
use std::alloc::{AllocError, Allocator};

/// Up to this many parameters are assigned one by one. If there are more, all are forgotten first, so that no place holds
/// an old and a new one, or one walk over all places passes them.
const FEW_PARAMS: usize = 8;

/// Copies the contents of `from` to `to`.
#[inline(always)]
fn make_move<A: Allocator + Copy>(
    values: &mut PassingTables<A>,
    from: Allocation,
    to: Allocation,
) -> Result<(), AllocError>
    requires missing { IsMissingUnlisted values.old.places }
    requires listed { IsListed values.old.places to }
    ensures kept { OnOk result (AreTablesKept values.old values.new) }
    ensures now { OnOk result (facts_now values.new ≡ placed to (facts_now values.old from) (facts_now values.old)) }
{
    let Some(target) = position(values, to) else {
        return Ok(());
    };
    match position(values, from) {
        Some(source) => values.copy(source, target)?,
        None => values.clear(target),
    }
    Ok(())
}

/// Makes `moves` in turn.
#[inline(always)]
fn make_moves<A: Allocator + Copy>(
    values: &mut PassingTables<A>,
    moves: &[(ProgPoint, Edit)],
) -> Result<(), AllocError>
    requires missing { IsMissingUnlisted values.old.places }
    requires listed { All (λ m. IsListed values.old.places m.to) (map listed_move moves.now) }
    ensures kept { OnOk result (AreTablesKept values.old values.new) }
    ensures now { OnOk result (facts_now values.new ≡ facts_after_moves (map listed_move moves.now) (facts_now values.old)) }
{
    for k in 0..moves.len() {
        let edit = moves[k];
        let (from, to) = edit.1.places();
        make_move(values, from, to)?;
    }
    Ok(())
}

/// Empties `place`.
#[inline(always)]
fn clear_place<A: Allocator + Copy>(values: &mut PassingTables<A>, place: Allocation)
    requires { IsMissingUnlisted values.old.places }
    ensures kept { AreTablesKept values.old values.new }
    ensures now { facts_now values.new ≡ placed place (λ v. false) (facts_now values.old) }
{
    if let Some(place) = position(values, place) {
        values.clear(place);
    }
}

/// Empties the place of operand `k` if it is an early definition.
fn clear_early_def<A: Allocator + Copy>(
    values: &mut PassingTables<A>,
    places: &[Allocation],
    k: usize,
    operand: Operand,
)
    requires { IsMissingUnlisted values.old.places }
    ensures kept { AreTablesKept values.old values.new }
    ensures now { facts_now values.new ≡ (if is_def operand.kind && not (is_late operand.position)
        then placed (place_at places.now k) (λ v. false) (facts_now values.old) else facts_now values.old) }
{
    if !operand.is_def() {
        return;
    }
    if operand.is_late() {
        return;
    }
    clear_place(values, place_at(places, k));
}

/// Empties the places of an instruction's early definitions.
#[inline(always)]
fn clear_early_defs<A: Allocator + Copy>(
    values: &mut PassingTables<A>,
    places: &[Allocation],
    operands: &[Operand],
)
    requires { IsMissingUnlisted values.old.places }
    ensures kept { AreTablesKept values.old values.new }
    ensures now { facts_now values.new ≡ facts_after_early_defs places.now 0 operands.now (facts_now values.old) }
{
    for k in 0..operands.len() {
        clear_early_def(values, places, k, operands[k]);
    }
}

/// Writes `vreg` to `place`, and takes it out of every other place.
#[inline(always)]
fn write_one<A: Allocator + Copy>(
    values: &mut PassingTables<A>,
    place: Allocation,
    vreg: VReg,
) -> Result<(), AllocError>
    requires missing { IsMissingUnlisted values.old.places }
    requires listed { IsListed values.old.places place }
    requires vreg { IsListedVReg values.old.vregs vreg }
    ensures kept { OnOk result (AreTablesKept values.old values.new) }
    ensures now { OnOk result (facts_now values.new ≡ defined place vreg (facts_now values.old)) }
{
    let Some(vreg) = vreg_position(values, vreg) else {
        return Ok(());
    };
    let Some(place) = position(values, place) else {
        values.forget(vreg)?;
        return Ok(());
    };
    values.define(place, vreg)?;
    Ok(())
}

/// Writes the vreg of operand `k` to its place if it is a definition.
#[inline(always)]
fn write_def<A: Allocator + Copy>(
    values: &mut PassingTables<A>,
    places: &[Allocation],
    k: usize,
    operand: Operand,
) -> Result<(), AllocError>
    requires missing { IsMissingUnlisted values.old.places }
    requires listed { IsListed values.old.places (place_at places.now k) }
    requires vreg { IsListedVReg values.old.vregs operand.vreg }
    ensures kept { OnOk result (AreTablesKept values.old values.new) }
    ensures now { OnOk result (facts_now values.new ≡ (if is_def operand.kind then defined (place_at places.now k) operand.vreg (facts_now values.old)
        else facts_now values.old)) }
{
    if !operand.is_def() {
        return Ok(());
    }
    write_one(values, place_at(places, k), operand.vreg())?;
    Ok(())
}

/// Writes an instruction's definitions, in operand order.
#[inline(always)]
fn write_defs<A: Allocator + Copy>(
    values: &mut PassingTables<A>,
    places: &[Allocation],
    operands: &[Operand],
) -> Result<(), AllocError>
    requires missing { IsMissingUnlisted values.old.places }
    requires listed { All (IsListed values.old.places) places.now }
    requires vregs { All (λ op. IsListedVReg values.old.vregs op.vreg) operands.now }
    ensures kept { OnOk result (AreTablesKept values.old values.new) }
    ensures now { OnOk result (facts_now values.new ≡ facts_after_defs places.now 0 operands.now (facts_now values.old)) }
{
    for k in 0..operands.len() {
        write_def(values, places, k, operands[k])?;
    }
    Ok(())
}

/// Empties the clobbered registers.
#[inline(always)]
fn clear_clobbers<A: Allocator + Copy>(values: &mut PassingTables<A>, clobbers: PRegSet)
    requires { IsMissingUnlisted values.old.places }
    ensures kept { AreTablesKept values.old values.new }
    ensures now { facts_now values.new ≡ facts_after_clobbers clobbers (facts_now values.old) }
{
    for reg in clobbers {
        clear_place(values, Allocation::reg(reg));
    }
}

/// Goes on to the point at which an instruction reads its early uses: makes the moves before it, and empties the places
/// of its early definitions.
#[inline(always)]
pub fn go_to_early<A: Allocator + Copy>(
    values: &mut PassingTables<A>,
    moves: &[(ProgPoint, Edit)],
    places: &[Allocation],
    operands: &[Operand],
) -> Result<(), AllocError>
    requires missing { IsMissingUnlisted values.old.places }
    requires listed { All (λ m. IsListed values.old.places m.to) (map listed_move moves.now) }
    ensures kept { OnOk result (AreTablesKept values.old values.new) }
    ensures now { OnOk result (facts_now values.new
        ≡ facts_after_early_defs places.now 0 operands.now (facts_after_moves (map listed_move moves.now) (facts_now values.old))) }
{
    make_moves(values, moves)?;
    clear_early_defs(values, places, operands);
    Ok(())
}

/// Goes on to the point at which an instruction reads its late uses: writes its definitions, and empties the clobbered
/// registers.
#[inline(always)]
pub fn go_to_late<A: Allocator + Copy>(
    values: &mut PassingTables<A>,
    places: &[Allocation],
    operands: &[Operand],
    clobbers: PRegSet,
) -> Result<(), AllocError>
    requires missing { IsMissingUnlisted values.old.places }
    requires listed { All (IsListed values.old.places) places.now }
    requires vregs { All (λ op. IsListedVReg values.old.vregs op.vreg) operands.now }
    ensures kept { OnOk result (AreTablesKept values.old values.new) }
    ensures now { OnOk result (facts_now values.new ≡ facts_after_clobbers clobbers (facts_after_defs places.now 0 operands.now (facts_now values.old))) }
{
    write_defs(values, places, operands)?;
    clear_clobbers(values, clobbers);
    Ok(())
}

/// Returns the places that hold `vreg`.
fn holders<A: Allocator + Copy>(
    alloc: A,
    values: &PassingTables<A>,
    vreg: VReg,
) -> Result<Vec<usize, A>, AllocError>
    requires { IsListedVReg values.now.vregs vreg }
    ensures { IfOk result (λ holders. HoldersAre values.now.places (shows_now values.now) vreg holders.items) }
{
    let Some(vreg) = vreg_position(values, vreg) else {
        return Ok(Vec::new(alloc));
    };
    let found = values.holders(alloc, vreg)?;
    Ok(found)
}

/// Returns, for each of `vregs`, the places that hold it.
fn holders_of_all<A: Allocator + Copy>(
    alloc: A,
    values: &PassingTables<A>,
    vregs: &[VReg],
) -> Result<Vec<Vec<usize, A>, A>, AllocError>
    requires { All (IsListedVReg values.now.vregs) vregs.now }
    ensures long { IfOk result (λ had. length had.items ≡ length vregs.now) }
    ensures holders { IfOk result (λ had. AreHoldersOf values.now.places (shows_now values.now) vregs.now had.items) }
{
    let mut had = Vec::with_capacity(alloc, vregs.len())?;
    for k in 0..vregs.len() {
        had.push(holders(alloc, values, vregs[k])?)?;
    }
    Ok(had)
}

/// Gives `param` the places in `places`, which held its argument.
fn give<A: Allocator + Copy>(
    values: &mut PassingTables<A>,
    param: VReg,
    places: &[usize],
) -> Result<(), AllocError>
    requires param { IsListedVReg values.old.vregs param }
    requires places { (i : ℕ) → is_in places.now i ≡ true → i < length values.old.places }
    ensures kept { OnOk result (AreTablesKept values.old values.new) }
    ensures now { OnOk result (facts_now values.new ≡ given_to param values.old.places places.now (facts_now values.old)) }
{
    let Some(param) = vreg_position(values, param) else {
        return Ok(());
    };
    values.give(param, places)?;
    Ok(())
}

/// Takes `vreg` out of every place.
fn forget<A: Allocator + Copy>(values: &mut PassingTables<A>, vreg: VReg) -> Result<(), AllocError>
    requires { IsListedVReg values.old.vregs vreg }
    ensures kept { OnOk result (AreTablesKept values.old values.new) }
    ensures now { OnOk result (facts_now values.new ≡ facts_forgotten vreg (facts_now values.old)) }
{
    let Some(vreg) = vreg_position(values, vreg) else {
        return Ok(());
    };
    values.forget(vreg)?;
    Ok(())
}

/// Takes `params` out of every place if there are more than `FEW_PARAMS`. Otherwise a place would hold an old parameter
/// beside a new one meanwhile, where a loop passes its parameters on in another order.
fn forget_params<A: Allocator + Copy>(
    values: &mut PassingTables<A>,
    params: &[VReg],
    arguments: &[VReg],
) -> Result<(), AllocError>
    requires { All (IsListedVReg values.old.vregs) params.now }
    ensures kept { OnOk result (AreTablesKept values.old values.new) }
    ensures others { OnOk result (AreOthersKept params.now arguments.now (facts_now values.old) (facts_now values.new)) }
    ensures few { OnOk result (min (length params.now) (length arguments.now) ≤ 8 → facts_now values.new ≡ facts_now values.old) }
    ensures many { OnOk result (8 < min (length params.now) (length arguments.now) → facts_now values.new ≡ facts_without (take (min (length params.now) (length arguments.now)) params.now) (facts_now values.old)) }
{
    let count = params.len().min(arguments.len());
    if count <= FEW_PARAMS {
        return Ok(());
    }
    for k in 0..count {
        forget(values, params[k])?;
    }
    Ok(())
}

/// Gives `params` the places of `arguments`, all at once.
fn assign_params<A: Allocator + Copy>(
    alloc: A,
    values: &mut PassingTables<A>,
    params: &[VReg],
    arguments: &[VReg],
) -> Result<(), AllocError>
    requires params { All (IsListedVReg values.old.vregs) params.now }
    requires arguments { All (IsListedVReg values.old.vregs) arguments.now }
    ensures kept { OnOk result (AreTablesKept values.old values.new) }
    ensures now { OnOk result (facts_now values.new ≡ facts_renamed params.now arguments.now (facts_now values.old)) }
{
    let had = holders_of_all(alloc, values, arguments)?;
    forget_params(values, params, arguments)?;
    for k in 0..params.len().min(had.len()) {
        give(values, params[k], &had[k])?;
    }
    Ok(())
}

/// The bits of vregs.
fn bits_of_all<A: Allocator + Copy>(alloc: A, vregs: &[VReg]) -> Result<Vec<u32, A>, AllocError>
    ensures bits { IfOk result (λ bits. bits.items ≡ map bits_of_vreg vregs.now) }
    ensures packed { IfOk result (λ bits. All (λ v. is_packed_vreg v ≡ true) vregs.now) }
{
    let mut bits = Vec::with_capacity(alloc, vregs.len())?;
    for k in 0..vregs.len() {
        bits.push(bits_of(vregs[k]))?;
    }
    Ok(bits)
}

/// Gives a block's parameters what its arguments had, all at once, by a walk over all places.
fn pass_params<A: Allocator + Copy>(
    alloc: A,
    values: &mut PassingTables<A>,
    params: &[VReg],
    arguments: &[VReg],
) -> Result<(), AllocError>
    ensures kept { OnOk result (AreTablesKept values.old values.new) }
    ensures now { OnOk result (facts_now values.new ≡ facts_renamed params.now arguments.now (facts_now values.old)) }
{
    let taken = bits_of_all(alloc, params)?;
    let passed = bits_of_all(alloc, arguments)?;
    values.pass_all(&taken, &passed)
}

/// Gives `param` the places of `argument`, without a walk over them.
fn pass_param<A: Allocator + Copy>(
    values: &mut PassingTables<A>,
    param: VReg,
    argument: VReg,
) -> Result<(), AllocError>
    requires param { IsListedVReg values.old.vregs param }
    requires argument { IsListedVReg values.old.vregs argument }
    ensures kept { OnOk result (AreTablesKept values.old values.new) }
    ensures now { OnOk result (facts_now values.new ≡ facts_renamed (param ∷ []) (argument ∷ []) (facts_now values.old)) }
{
    let Some(param) = vreg_position(values, param) else {
        return Ok(());
    };
    let Some(argument) = vreg_position(values, argument) else {
        return Ok(());
    };
    values.pass(param, argument)?;
    Ok(())
}

/// Returns whether a block is entered over one edge, which passes one argument to one parameter.
fn passes_one(is_entered_once: bool, params: &[VReg], arguments: &[VReg]) -> bool
    ensures { (result ≡ true) ↔ ((is_entered_once ≡ true) × (length params.now ≡ 1) × (length arguments.now ≡ 1)) }
{
    if !is_entered_once {
        return false;
    }
    if params.len() != 1 {
        return false;
    }
    arguments.len() == 1
}

/// Gives `params` the places of `arguments`, all at once. A lone parameter of a block that is entered over one edge is
/// only noted beside its argument. Arguments that may be in many places are passed by one walk over all places.
pub fn take_arguments<A: Allocator + Copy>(
    alloc: A,
    values: &mut PassingTables<A>,
    params: &[VReg],
    arguments: &[VReg],
    is_entered_once: bool,
) -> Result<(), AllocError>
    requires params { All (IsListedVReg values.old.vregs) params.now }
    requires arguments { All (IsListedVReg values.old.vregs) arguments.now }
    ensures kept { OnOk result (AreTablesKept values.old values.new) }
    ensures now { OnOk result (facts_now values.new ≡ facts_renamed params.now arguments.now (facts_now values.old)) }
{
    if passes_one(is_entered_once, params, arguments) {
        return pass_param(values, params[0], arguments[0]);
    }
    if params.len() > FEW_PARAMS && values.have_many_homes(arguments) {
        return pass_params(alloc, values, params, arguments);
    }
    assign_params(alloc, values, params, arguments)
}
