//! The lines of a machine.

use super::lists::JsonText;
use super::registers::{write_class, write_registers};
use super::shown::have_items;
use crate::spell::StoredRegister;
use regalloc2_names::CLASSES;
use regalloc2_serialize::StoredMachine;
use std::alloc::Allocator;
use std::fmt;

/// Returns whether one of `lists`, which are by class, has a line of its own.
fn has_lists<A: Allocator>(lists: &[Vec<u8, A>]) -> bool {
    lists.len() == CLASSES.len() && have_items(lists)
}

/// Returns whether one of `registers`, the scratch registers by class, has a line.
fn has_scratch(registers: &[Option<u8>]) -> bool {
    registers.len() == CLASSES.len() && registers.iter().any(|register| register.is_some())
}

/// Returns whether `machine` has a line.
fn has_lines<A: Allocator>(machine: &StoredMachine<A>) -> bool {
    has_lists(machine.preferred_regs_by_class.as_slice())
        || has_lists(machine.non_preferred_regs_by_class.as_slice())
        || has_scratch(machine.scratch_by_class.as_slice())
        || !machine.fixed_stack_slots.is_empty()
}

/// Writes the registers of each class that has some, a line each that begins with `word`, if there is a list for each
/// class.
fn write_lists<A: Allocator, W: fmt::Write>(
    word: &str,
    lists: &[Vec<u8, A>],
    to: &mut W,
) -> fmt::Result {
    if lists.len() != CLASSES.len() {
        return Ok(());
    }
    for (class, registers) in CLASSES.iter().zip(lists) {
        if !registers.is_empty() {
            write!(to, "{word} ")?;
            write_class(*class, registers.as_slice(), to)?;
            write_registers(registers.as_slice(), to)?;
            writeln!(to)?;
        }
    }
    Ok(())
}

/// Writes the scratch register of each class that has one, a line each, if `registers` has an item for each class.
fn write_scratch<W: fmt::Write>(registers: &[Option<u8>], to: &mut W) -> fmt::Result {
    if registers.len() != CLASSES.len() {
        return Ok(());
    }
    for (class, register) in CLASSES.iter().zip(registers) {
        if let Some(index) = register {
            write!(to, "scratch ")?;
            write_class(*class, &[*index], to)?;
            writeln!(to, "{}", StoredRegister(*index))?;
        }
    }
    Ok(())
}

/// Writes the lines of `machine`: its registers by class, then the fixed stack slots, or `regs none`.
pub(crate) fn write_machine<A: Allocator, W: fmt::Write>(
    machine: &StoredMachine<A>,
    to: &mut W,
) -> fmt::Result {
    write_lists("regs", machine.preferred_regs_by_class.as_slice(), to)?;
    write_lists("others", machine.non_preferred_regs_by_class.as_slice(), to)?;
    write_scratch(machine.scratch_by_class.as_slice(), to)?;
    if !machine.fixed_stack_slots.is_empty() {
        write!(to, "stack ")?;
        write_registers(machine.fixed_stack_slots.as_slice(), to)?;
        writeln!(to)?;
    }
    if !has_lines(machine) {
        writeln!(to, "regs none")?;
    }
    Ok(())
}

/// Writes the list `name` as a `stored` line, with numbers as in JSON.
pub(crate) fn write_stored<T: JsonText, W: fmt::Write>(
    name: &str,
    list: &T,
    to: &mut W,
) -> fmt::Result {
    write!(to, "stored {name} ")?;
    list.write_json(to)?;
    writeln!(to)
}

/// Writes the list `name` as a `stored` line, if `list` doesn't have `wanted` items.
pub(crate) fn write_misfit<T: JsonText, A: Allocator, W: fmt::Write>(
    name: &str,
    list: &Vec<T, A>,
    wanted: usize,
    to: &mut W,
) -> fmt::Result {
    if list.len() == wanted {
        return Ok(());
    }
    write_stored(name, list, to)
}

/// Writes the lists by class of `machine` that don't have an item for each class.
pub(crate) fn write_stored_machine<A: Allocator, W: fmt::Write>(
    machine: &StoredMachine<A>,
    to: &mut W,
) -> fmt::Result {
    let classes = CLASSES.len();
    let preferred = &machine.preferred_regs_by_class;
    let others = &machine.non_preferred_regs_by_class;
    write_misfit("preferred_regs_by_class", preferred, classes, to)?;
    write_misfit("non_preferred_regs_by_class", others, classes, to)?;
    write_misfit("scratch_by_class", &machine.scratch_by_class, classes, to)
}
