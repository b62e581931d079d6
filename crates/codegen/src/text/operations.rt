//! The lines of operations.

ghost use Rattle.std.specs.Prelude.{◌≤◌};
ghost use Rattle.regalloc2_text.specs.Cursor.Cursor.{tokens_left};

use super::functions::{Callee, Functions, MOST_ARGUMENTS};
use codegen_operation::{
    Bytes, Condition, Count, DivisionPart, Operation, Operator, Right, ShiftOperator, Width,
};
use regalloc2_names::{RegClass, VReg};
use regalloc2_text::cursor::Cursor;
use std::alloc::Global;

/// What a line of a function may name besides vregs and blocks.
#[derive(Clone, Copy)]
pub struct Scope<'a, 't> {
    /// The functions of the text.
    pub functions: &'a Functions<'t>,
    /// How many arguments the function has.
    pub arity: usize,
}

/// The greatest second number that an instruction of x86-64 holds as an unsigned immediate.
const LAST_NUMBER: u64 = (1 << 31) - 1;

/// The greatest shift count that is given as a number.
fn last_count(width: Width) -> u64
    ensures { result ≤ 63 }
{
    match width {
        Width::Full => 63,
        Width::Half => 31,
    }
}

/// An operation's name without the `32` of a 32-bit form, and its width.
fn split_width(name: &str) -> (&str, Width) {
    match name.strip_suffix("32") {
        Some(name) => (name, Width::Half),
        None => (name, Width::Full),
    }
}

/// The operator with that name.
fn operator_named(name: &str) -> Option<Operator> {
    match name {
        "add" => Some(Operator::Add),
        "sub" => Some(Operator::Sub),
        "mul" => Some(Operator::Mul),
        "and" => Some(Operator::And),
        "or" => Some(Operator::Or),
        "xor" => Some(Operator::Xor),
        _ => None,
    }
}

/// The shift with that name.
fn shift_named(name: &str) -> Option<ShiftOperator> {
    match name {
        "shift_left" => Some(ShiftOperator::Left),
        "shift_right" => Some(ShiftOperator::Right),
        "signed_shift_right" => Some(ShiftOperator::SignedRight),
        _ => None,
    }
}

/// The division with that name: the part it computes, and whether it is signed.
fn division_named(name: &str) -> Option<(DivisionPart, bool)> {
    match name {
        "div" => Some((DivisionPart::Quotient, false)),
        "rem" => Some((DivisionPart::Remainder, false)),
        "signed_div" => Some((DivisionPart::Quotient, true)),
        "signed_rem" => Some((DivisionPart::Remainder, true)),
        _ => None,
    }
}

/// The access to memory with that name, which starts with `kind`: how many bytes it reads or
/// writes.
fn access_named(name: &str, kind: &str) -> Option<Bytes> {
    match name.strip_prefix(kind) {
        Some("") => Some(Bytes::Eight),
        Some("32") => Some(Bytes::Four),
        Some("16") => Some(Bytes::Two),
        Some("8") => Some(Bytes::One),
        _ => None,
    }
}

/// The condition with that name.
fn condition_named(name: &str) -> Option<Condition> {
    match name {
        "equal" => Some(Condition::Equal),
        "not_equal" => Some(Condition::NotEqual),
        "less" => Some(Condition::Less),
        "less_or_equal" => Some(Condition::LessOrEqual),
        "greater" => Some(Condition::Greater),
        "greater_or_equal" => Some(Condition::GreaterOrEqual),
        "signed_less" => Some(Condition::SignedLess),
        "signed_less_or_equal" => Some(Condition::SignedLessOrEqual),
        "signed_greater" => Some(Condition::SignedGreater),
        "signed_greater_or_equal" => Some(Condition::SignedGreaterOrEqual),
        _ => None,
    }
}

/// A virtual register.
pub fn read_vreg(cursor: &mut Cursor<'_, '_>) -> VReg
    ensures { tokens_left cursor.new ≤ tokens_left cursor.old }
{
    let mut number = cursor.named("v", "a virtual register") as usize;
    if number > VReg::MAX {
        cursor.misfit_before("a virtual register with a number up to 1073741823");
        number = 0;
    }
    cursor.show_vreg(number as u64);
    VReg::new(number, RegClass::Int)
}

/// A second number: a vreg, or a number up to 2147483647.
fn read_right(cursor: &mut Cursor<'_, '_>) -> Right {
    if cursor.begins("v") {
        Right::VReg(read_vreg(cursor))
    } else {
        Right::Number(cursor.number(LAST_NUMBER) as u32)
    }
}

/// A vreg and a second number, with a comma between them, after an operation's name.
fn read_pair(cursor: &mut Cursor<'_, '_>) -> (VReg, Right) {
    cursor.advance();
    let left = read_vreg(cursor);
    cursor.want(",");
    (left, read_right(cursor))
}

/// A shift, from its name on: the number and the count, with a comma between them.
fn read_shift(
    cursor: &mut Cursor<'_, '_>,
    width: Width,
    operator: ShiftOperator,
    to: VReg,
) -> Operation {
    cursor.advance();
    let left = read_vreg(cursor);
    cursor.want(",");
    let count = if cursor.begins("v") {
        Count::VReg(read_vreg(cursor))
    } else {
        Count::Number(cursor.number(last_count(width)) as u8)
    };
    Operation::Shift {
        width,
        operator,
        to,
        left,
        count,
    }
}

/// A division, from its name on: the dividend and the divisor, with a comma between them.
fn read_division(
    cursor: &mut Cursor<'_, '_>,
    width: Width,
    (part, is_signed): (DivisionPart, bool),
    to: VReg,
) -> Operation {
    cursor.advance();
    let left = read_vreg(cursor);
    cursor.want(",");
    let right = read_vreg(cursor);
    Operation::Divide {
        width,
        part,
        is_signed,
        to,
        left,
        right,
    }
}

/// A selection, from its condition on: the condition and the two numbers, with commas between them.
fn read_select(cursor: &mut Cursor<'_, '_>, to: VReg) -> Operation {
    let condition = read_vreg(cursor);
    cursor.want(",");
    let yes = read_vreg(cursor);
    cursor.want(",");
    let no = read_vreg(cursor);
    Operation::Select {
        to,
        condition,
        yes,
        no,
    }
}

/// A write to memory, from its name on: the address and the number, with a comma between them;
/// nothing if it has another name.
pub fn read_store(cursor: &mut Cursor<'_, '_>) -> Option<Operation> {
    let bytes = access_named(cursor.peek().unwrap_or(""), "store")?;
    cursor.advance();
    let address = read_vreg(cursor);
    cursor.want(",");
    let value = read_vreg(cursor);
    Some(Operation::Store {
        bytes,
        address,
        value,
    })
}

/// A branch, after its name: the deciding number, or a condition and the two numbers it compares.
pub fn read_branch(cursor: &mut Cursor<'_, '_>) -> Operation {
    let (name, width) = split_width(cursor.peek().unwrap_or(""));
    let Some(condition) = condition_named(name) else {
        let value = read_vreg(cursor);
        return Operation::BranchIf { value };
    };
    let (left, right) = read_pair(cursor);
    Operation::BranchIfHolds {
        width,
        condition,
        left,
        right,
    }
}

/// An operation of two numbers, from its name on; nothing if it has another name.
fn read_named(cursor: &mut Cursor<'_, '_>, to: VReg) -> Option<Operation> {
    let (name, width) = split_width(cursor.peek().unwrap_or(""));
    if let Some(operator) = operator_named(name) {
        let (left, right) = read_pair(cursor);
        return Some(Operation::Compute {
            width,
            operator,
            to,
            left,
            right,
        });
    }
    if let Some(condition) = condition_named(name) {
        let (left, right) = read_pair(cursor);
        return Some(Operation::Compare {
            width,
            condition,
            to,
            left,
            right,
        });
    }
    if let Some(operator) = shift_named(name) {
        return Some(read_shift(cursor, width, operator, to));
    }
    let division = division_named(name)?;
    Some(read_division(cursor, width, division, to))
}

/// The number of an argument.
fn read_index(cursor: &mut Cursor<'_, '_>, arity: usize) -> u32 {
    match arity.min(MOST_ARGUMENTS).checked_sub(1) {
        Some(last) => cursor.number(last as u64) as u32,
        None => {
            cursor.misfit_before("an operation of a function without arguments");
            0
        }
    }
}

/// What a call expects that passes another number of arguments than `arity`.
fn arguments_wanted(arity: usize) -> &'static str {
    match arity {
        0 => "no arguments of this function",
        1 => "1 argument of this function",
        2 => "2 arguments of this function",
        3 => "3 arguments of this function",
        4 => "4 arguments of this function",
        5 => "5 arguments of this function",
        6 => "6 arguments of this function",
        _ => "as many arguments as this function has",
    }
}

/// The arguments of a call, from the bracket on.
fn read_arguments(alloc: Global, cursor: &mut Cursor<'_, '_>, arity: usize) -> Vec<VReg> {
    let mut arguments = Vec::new(alloc);
    cursor.want("(");
    for at in 0..arity {
        let is_next = at == 0 || cursor.has(",");
        if !is_next || cursor.begins(")") {
            break;
        }
        let argument = read_vreg(cursor);
        cursor.push(&mut arguments, argument);
    }
    if arguments.len() != arity || !cursor.has(")") {
        cursor.misfit(arguments_wanted(arity));
    }
    arguments
}

/// A call, from the function's name on.
fn read_call(
    alloc: Global,
    cursor: &mut Cursor<'_, '_>,
    functions: &Functions<'_>,
    to: VReg,
) -> Operation {
    let name = cursor.peek().unwrap_or("");
    let Some(Callee { function, arity }) = functions.named(name) else {
        cursor.misfit("a function of the text");
        return Operation::Copy { to, from: to };
    };
    cursor.advance();
    let arguments = read_arguments(alloc, cursor, arity);
    Operation::Call {
        function,
        to,
        arguments,
    }
}

/// The operation that writes a vreg, from the register on.
pub fn read_value(alloc: Global, cursor: &mut Cursor<'_, '_>, scope: Scope<'_, '_>) -> Operation {
    let to = read_vreg(cursor);
    cursor.want("=");
    if cursor.has("argument") {
        let index = read_index(cursor, scope.arity);
        return Operation::Argument { to, index };
    }
    if cursor.has("call") {
        return read_call(alloc, cursor, scope.functions, to);
    }
    if cursor.has("copy") {
        let from = read_vreg(cursor);
        return Operation::Copy { to, from };
    }
    if let Some(operation) = read_named(cursor, to) {
        return operation;
    }
    if cursor.has("select") {
        return read_select(cursor, to);
    }
    if let Some(bytes) = access_named(cursor.peek().unwrap_or(""), "load") {
        cursor.advance();
        let address = read_vreg(cursor);
        return Operation::Load { bytes, to, address };
    }
    if !cursor.has("constant") {
        cursor.misfit(
            "an operation: `argument`, `constant`, `copy`, `select`, `load`, `call`, an operator as `add`, or a condition as `less`",
        );
    }
    let value = cursor.number(u64::MAX);
    Operation::Constant { to, value }
}
