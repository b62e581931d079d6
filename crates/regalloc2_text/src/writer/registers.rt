//! Lists in a line, and registers in spans.

ghost use Rattle.std.specs.Prelude.{◌<◌, ◌≤◌, length};

use crate::explain::stored::ClassName;
use crate::named::{is_register_of, register_of};
use crate::spell::StoredRegister;
use regalloc2_names::RegClass;
use std::fmt;

/// Returns what stands before the item `index` of a list.
fn separator(index: usize) -> &'static str {
    if index == 0 { "" } else { ", " }
}

/// Writes `items` as `show` shows them, with commas between.
pub(crate) fn write_list<T: Copy, D: fmt::Display + Drop, F: Fn(T) -> D + Drop, W: fmt::Write>(
    items: &[T],
    show: F,
    to: &mut W,
) -> fmt::Result
    requires { F.IsAlwaysCallable show }
{
    for (k, item) in items.iter().enumerate() {
        let before = separator(k);
        let text = show(*item);
        write!(to, "{before}{text}")?;
    }
    Ok(())
}

/// Returns whether `registers` are indexes of registers of `class`.
fn are_of_class(registers: &[u8], class: RegClass) -> bool {
    registers.iter().all(|index| is_register_of(*index, class))
}

/// Writes the name of `class` and a space, if one of `registers` isn't of the class.
pub(crate) fn write_class<W: fmt::Write>(
    class: RegClass,
    registers: &[u8],
    to: &mut W,
) -> fmt::Result {
    if are_of_class(registers, class) {
        return Ok(());
    }
    write!(to, "{} ", ClassName(class))
}

/// Returns whether `next` is the index of the register with the next number in the class of the register of `index`.
fn is_neighbour(index: u8, next: u8) -> bool {
    match (register_of(index), register_of(next)) {
        (Some(register), Some(next)) => {
            register.class() == next.class() && register.hw_enc() + 1 == next.hw_enc()
        }
        _ => false,
    }
}

/// Returns the position of the last of the neighbours that follow the register at `first` of `registers`.
fn last_neighbour(registers: &[u8], first: usize) -> usize
    requires { first < length registers.now }
    ensures from { first ≤ result }
    ensures within { result < length registers.now }
{
    let mut last = first;
    while last + 1 < registers.len() && is_neighbour(registers[last], registers[last + 1]) {
        last += 1;
    }
    last
}

/// Returns where a span that begins at `first` of `registers` ends: three neighbours or more are one.
fn span_end(registers: &[u8], first: usize) -> usize
    requires { first < length registers.now }
    ensures from { first ≤ result }
    ensures within { result < length registers.now }
{
    let last = last_neighbour(registers, first);
    if last - first < 2 { first } else { last }
}

/// Writes `registers`, three neighbours or more as a span, or `none`.
pub(crate) fn write_registers<W: fmt::Write>(registers: &[u8], to: &mut W) -> fmt::Result {
    if registers.is_empty() {
        return write!(to, "none");
    }
    let mut first = 0;
    while first < registers.len() {
        let last = span_end(registers, first);
        let before = separator(first);
        write!(to, "{before}{}", StoredRegister(registers[first]))?;
        if first < last {
            write!(to, "..{}", StoredRegister(registers[last]))?;
        }
        first = last + 1;
    }
    Ok(())
}
