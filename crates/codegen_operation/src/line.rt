//! Lines: the operands and clobbers of each operation.

ghost use Rattle.std.specs.Prelude.{◌≡◌, ◌≤◌, ◌∷◌, ◌++◌, IfOk, OnOk, slice_get};
ghost use Rattle.std.proofs.Props.{props};
ghost use Rattle.regalloc2_names.specs.Register.{Register, has_register};
ghost use Rattle.codegen_operation.specs.Operands.{argument_in, argument_registers, call_operands, count_in, def_in, divide_operands, is_lost_in, is_lost_in_call, operands_of, other_register, part_register, passed_on_stack, right_in, use_in};
ghost use Rattle.codegen_operation.specs.Once.{operands-once};

use super::operation::{Count, DivisionPart, Operation, Right};
use regalloc2_names::{
    Operand, OperandConstraint, OperandKind, OperandPos, PReg, PRegSet, RegClass, VReg,
};
use std::alloc::{AllocError, Global};

/// The register from which the processor reads shift counts.
const COUNT_REGISTER: usize = 1;

/// The register from which it reads dividends, and into which it writes quotients.
const QUOTIENT_REGISTER: usize = 0;

/// The register in which a call returns its number.
const RESULT_REGISTER: usize = 0;

/// The registers in which a call passes its first arguments.
const ARGUMENT_REGISTERS: [usize; 6] = [7, 6, 2, 1, 8, 9];

/// The register into which it writes remainders.
const REMAINDER_REGISTER: usize = 2;

/// A line, with its operands and clobbers for the allocator.
#[derive(Drop)]
pub struct Line {
    /// The operation of the line.
    pub operation: Operation,
    /// The operands: the vregs that the line reads and writes, with their constraints.
    pub operands: Vec<Operand>,
    /// The registers that the line overwrites besides.
    pub clobbers: PRegSet,
    pub ghost agree: { operands.items ≡ operands_of operation } by { operands-once operands.items operation },
    pub ghost overwrites: { (r : Register) → has_register clobbers r ≡ is_lost_in operation r } by { Prim.hlevel props },
}

/// The operand of a second number, which may be read from any place; a constant has none.
fn add_right(operands: &mut Vec<Operand>, right: Right) -> Result<(), AllocError>
    ensures { OnOk result (operands.new.items ≡ operands.old.items ++ right_in right) }
{
    match right {
        Right::VReg(vreg) => {
            operands.push(Operand::any_use(vreg))?;
            Ok(())
        }
        Right::Number(_) => Ok(()),
    }
}

/// The operands of a shift. The processor reads a count from register 1 only.
fn shift_operands(
    alloc: Global,
    to: VReg,
    left: VReg,
    count: Count,
) -> Result<Vec<Operand>, AllocError>
    ensures { IfOk result (λ v. v.items ≡ def_in (OperandConstraint.Reuse 1) to ∷ use_in OperandConstraint.Reg left ∷ count_in count) }
{
    let (to, left) = (Operand::reg_reuse_def(to, 1), Operand::reg_use(left));
    match count {
        Count::VReg(vreg) => {
            let register = PReg::new(COUNT_REGISTER, vreg.class());
            [to, left, Operand::reg_fixed_use(vreg, register)].to_vec(alloc)
        }
        Count::Number(_) => [to, left].to_vec(alloc),
    }
}

/// The register into which the processor writes the result of a division.
fn part_register(part: DivisionPart) -> usize
    ensures value { result ≡ part_register part }
    ensures small { result ≤ 2 }
{
    match part {
        DivisionPart::Quotient => QUOTIENT_REGISTER,
        DivisionPart::Remainder => REMAINDER_REGISTER,
    }
}

/// The register into which it writes the division's other result.
fn other_register(part: DivisionPart) -> usize
    ensures value { result ≡ other_register part }
    ensures small { result ≤ 2 }
{
    match part {
        DivisionPart::Quotient => REMAINDER_REGISTER,
        DivisionPart::Remainder => QUOTIENT_REGISTER,
    }
}

/// The operand of a late use, from any place.
fn read_late(vreg: VReg) -> Operand
    ensures { result ≡ passed_on_stack vreg }
{
    Operand::new(
        vreg,
        OperandConstraint::Any,
        OperandKind::Use,
        OperandPos::Late,
    )
}

/// The operands of a division. The divisor is read after the processor's two registers have been
/// written, so its use is late.
fn divide_operands(
    alloc: Global,
    part: DivisionPart,
    to: VReg,
    left: VReg,
    right: VReg,
) -> Result<Vec<Operand>, AllocError>
    ensures { IfOk result (λ v. v.items ≡ divide_operands part to left right) }
{
    let to = Operand::reg_fixed_def(to, PReg::new(part_register(part), to.class()));
    let left = Operand::reg_fixed_use(left, PReg::new(QUOTIENT_REGISTER, left.class()));
    let right = read_late(right);
    [to, left, right].to_vec(alloc)
}

/// The operand of a call's argument with that number: the first six are passed in registers, and
/// the others are read late, from any place.
fn passed(index: usize, vreg: VReg) -> Operand
    ensures { result ≡ argument_in (slice_get argument_registers index) vreg }
{
    match ARGUMENT_REGISTERS.get(index) {
        Some(register) => Operand::reg_fixed_use(vreg, PReg::new(*register, vreg.class())),
        None => read_late(vreg),
    }
}

/// The operands of a call: the result in register 0, and the arguments.
fn call_operands(alloc: Global, to: VReg, arguments: &[VReg]) -> Result<Vec<Operand>, AllocError>
    ensures { IfOk result (λ v. v.items ≡ call_operands to arguments.now) }
{
    let to = Operand::reg_fixed_def(to, PReg::new(RESULT_REGISTER, to.class()));
    let mut operands = [to].to_vec(alloc)?;
    for index in 0..arguments.len() {
        operands.push(passed(index, arguments[index]))?;
    }
    Ok(operands)
}

/// The integer register of that number.
fn one(number: usize) -> PReg
    requires { number ≤ 15 }
    ensures { result ≡ record { number = number; class = RegClass.Int } }
{
    PReg::new(number, RegClass::Int)
}

/// The clobbers of a call: the caller-saved registers but that of the result.
fn call_clobbers() -> PRegSet
    ensures { (r : Register) → has_register result r ≡ is_lost_in_call r }
{
    PRegSet::empty()
        .with(one(11))
        .with(one(10))
        .with(one(9))
        .with(one(8))
        .with(one(7))
        .with(one(6))
        .with(one(2))
        .with(one(1))
}

/// The clobbers of an operation: registers that it overwrites besides its definitions.
fn clobbers(operation: &Operation) -> PRegSet
    ensures { (r : Register) → has_register result r ≡ is_lost_in operation.now r }
{
    match *operation {
        Operation::Divide { part, .. } => {
            let register = PReg::new(other_register(part), RegClass::Int);
            PRegSet::empty().with(register)
        }
        Operation::Call { .. } => call_clobbers(),
        _ => PRegSet::empty(),
    }
}

/// The operands of an operation with a second number: the others come first.
fn and_right(alloc: Global, first: &[Operand], right: Right) -> Result<Vec<Operand>, AllocError>
    ensures { IfOk result (λ v. v.items ≡ first.now ++ right_in right) }
{
    let mut operands = first.to_vec(alloc)?;
    add_right(&mut operands, right)?;
    Ok(operands)
}

/// The operands of an operation. The machine computes in the first number's register, and reads the
/// second number from any place.
fn operands(alloc: Global, operation: &Operation) -> Result<Vec<Operand>, AllocError>
    ensures { IfOk result (λ v. v.items ≡ operands_of operation.now) }
{
    match *operation {
        Operation::Argument { to, .. } | Operation::Constant { to, .. } => {
            [Operand::reg_def(to)].to_vec(alloc)
        }
        Operation::Copy { to, from } => {
            [Operand::reg_def(to), Operand::any_use(from)].to_vec(alloc)
        }
        Operation::Compute {
            to,
            left,
            right,
            ..
        } => {
            let to = Operand::reg_reuse_def(to, 1);
            and_right(alloc, &[to, Operand::reg_use(left)], right)
        }
        Operation::Shift {
            to,
            left,
            count,
            ..
        } => shift_operands(alloc, to, left, count),
        Operation::Divide {
            part,
            to,
            left,
            right,
            ..
        } => divide_operands(alloc, part, to, left, right),
        Operation::Compare {
            to,
            left,
            right,
            ..
        } => {
            let to = Operand::reg_def(to);
            and_right(alloc, &[to, Operand::reg_use(left)], right)
        }
        Operation::Select {
            to,
            condition,
            yes,
            no,
        } => {
            let to = Operand::reg_reuse_def(to, 1);
            let (no, condition) = (Operand::any_use(no), Operand::any_use(condition));
            [to, Operand::reg_use(yes), no, condition].to_vec(alloc)
        }
        Operation::Load { to, address, .. } => {
            [Operand::reg_def(to), Operand::reg_use(address)].to_vec(alloc)
        }
        Operation::Store { address, value, .. } => {
            [Operand::reg_use(address), Operand::reg_use(value)].to_vec(alloc)
        }
        Operation::Call {
            to,
            ref arguments,
            ..
        } => call_operands(alloc, to, arguments),
        Operation::Jump => Ok(Vec::new(alloc)),
        Operation::BranchIfHolds { left, right, .. } => {
            and_right(alloc, &[Operand::reg_use(left)], right)
        }
        Operation::BranchIf { value } | Operation::Return { value } => {
            [Operand::any_use(value)].to_vec(alloc)
        }
    }
}

impl Line {
    /// The line of an operation.
    pub fn new(alloc: Global, operation: Operation) -> Result<Line, AllocError>
        ensures { IfOk result (λ l. l.operation ≡ operation) }
    {
        let (operands, clobbers) = (operands(alloc, &operation)?, clobbers(&operation));
        Ok(Line {
            operation,
            operands,
            clobbers,
        })
    }
}
