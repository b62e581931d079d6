//! Calls that allocate memory: each allocation, made to fail in turn.

ghost use Rattle.regalloc2_parts.specs.Resolved.{IsRunnable};

use super::listed::{SLOT, resolved};
use super::resolver::computed_with;
use super::structures::three_rings;
use crate::test_alloc::{Call, Refusing, is_each_told};
use crate::units::report::Report;
use crate::units::sets::add_multiples;
use regalloc2_function::indexset::IndexSet;
use regalloc2_function::{Function, MachineEnv, Output, StoredFault, StoredOutput, is_framed};
use regalloc2_names::{PRegSet, RegAllocError};
use regalloc2_parts::moves::MoveVecWithScratch::NoScratch;
use regalloc2_parts::moves::{MoveFault, MoveVecWithScratch};
use regalloc2_parts::vregset::VRegSet;
use regalloc2_serialize::{FromValue, SerializableFunction, StoredFunction};
use serde_json::Value;
use std::alloc::{AllocError, Allocator, Global};

/// Calls, and the JSON texts that they read.
#[derive(Clone, Copy)]
enum Made<'a> {
    Parts(Global),
    Sets,
    Stored(Global, (&'a str, &'a str)),
}

impl Call for Made<'_> {
    fn make(&self, alloc: &Refusing<Global>) -> Result<bool, AllocError> {
        let answer = match *self {
            Made::Parts(global) => make_parts(global, alloc),
            Made::Sets => make_sets(alloc),
            Made::Stored(global, texts) => make_stored(global, alloc, texts),
        };
        match answer {
            Ok(()) => Ok(true),
            Err(RegAllocError::Memory) => Err(AllocError),
            Err(_) => Ok(false),
        }
    }
}

/// Computes `moves`, the moves of a cycle of slots, with two other slots.
fn compute_cycle(moves: MoveVecWithScratch<u32, &Refusing<Global>>) -> Result<(), RegAllocError>
    requires { IsRunnable moves }
{
    let slots = (None, Some(SLOT + 17), Some(SLOT + 18));
    match computed_with(slots, moves, false) {
        Some((Ok(_), _)) => Ok(()),
        Some((Err(MoveFault::Memory), _)) => Err(RegAllocError::Memory),
        _ => Err(RegAllocError::TooManySpillSlots),
    }
}

/// Resolves and computes a cycle of 17 slots. If one of them is left out, the others need no scratch place.
fn resolve_cycle(global: Global, alloc: &Refusing<Global>) -> Result<(), RegAllocError> {
    let mut cycle = [(0, 0); 17];
    for at in 0..cycle.len() {
        cycle[at] = (SLOT + at, SLOT + (at + 1) % 17);
    }
    match resolved(global, alloc, &cycle) {
        Ok(Some(NoScratch(_))) | Err(MoveFault::Memory) => Err(RegAllocError::Memory),
        Ok(Some(moves)) => compute_cycle(moves),
        Ok(None) | Err(MoveFault::NoSlot) => Err(RegAllocError::TooManySpillSlots),
    }
}

/// Makes rings and a list, and resolves and computes a cycle.
fn make_parts(global: Global, alloc: &Refusing<Global>) -> Result<(), RegAllocError> {
    let _rings = three_rings(alloc)?;
    let _list = VRegSet::with_capacity(alloc, 3)?;
    resolve_cycle(global, alloc)
}

/// Fills a set past its twelve words, assigns it and adds it to another one.
fn make_sets(alloc: &Refusing<Global>) -> Result<(), RegAllocError> {
    let mut set = IndexSet::new(alloc);
    add_multiples(&mut set, 64, 40)?;
    IndexSet::new(alloc).assign(&set)?;
    IndexSet::new(alloc).union_with(&set)?;
    Ok(())
}

/// Reads the function and the output of `texts`.
fn make_stored(
    global: Global,
    alloc: &Refusing<Global>,
    texts: (&str, &str),
) -> Result<(), RegAllocError> {
    let _numbers = stored(global, alloc, texts)?;
    Ok(())
}

/// Returns `answer` with its error as other calls name it: out of memory, or another one.
fn named<T: Drop>(answer: Result<T, StoredFault>) -> Result<T, RegAllocError> {
    match answer {
        Ok(made) => Ok(made),
        Err(StoredFault::Memory) => Err(RegAllocError::Memory),
        Err(_) => Err(RegAllocError::EntryLivein),
    }
}

/// Returns the value of the JSON text `text`.
fn value_of(global: Global, text: &str) -> Result<Value, RegAllocError> {
    Value::from_str(global, text).map_err(|_| RegAllocError::EntryLivein)
}

/// A copy of a function that is structurally valid (`IsFramed`), with a machine without registers.
fn copied<A: Allocator + Copy, F: Function>(
    alloc: A,
    f: &F,
) -> Result<SerializableFunction<A>, RegAllocError> {
    if !is_framed(f) {
        return Err(RegAllocError::EntryLivein);
    }
    let env = MachineEnv {
        preferred_regs_by_class: [PRegSet::empty(); 3],
        non_preferred_regs_by_class: [PRegSet::empty(); 3],
        scratch_by_class: [None; 3],
        fixed_stack_slots: Vec::new(alloc),
    };
    SerializableFunction::new(alloc, f, env)
}

/// Returns the function that the JSON value `value` gives.
fn function_of<A: Allocator + Copy>(
    alloc: A,
    value: &Value,
) -> Result<SerializableFunction<A>, RegAllocError> {
    let stored = named(StoredFunction::from_value(alloc, value))?;
    named(SerializableFunction::from_stored(alloc, &stored))
}

/// Returns the function that the JSON text `text` gives.
pub fn function_of_text<A: Allocator + Copy>(
    global: Global,
    alloc: A,
    text: &str,
) -> Result<SerializableFunction<A>, RegAllocError> {
    let value = value_of(global, text)?;
    function_of(alloc, &value)
}

/// The stored numbers of a function, copied with a machine without registers.
fn copied_numbers<A: Allocator + Copy>(
    alloc: A,
    f: &SerializableFunction<A>,
) -> Result<StoredFunction<A>, RegAllocError> {
    Ok(copied(alloc, f)?.stored()?)
}

/// Returns the stored numbers of the function that the JSON text `text` gives, copied with a machine without
/// registers.
fn stored_function<A: Allocator + Copy>(
    global: Global,
    alloc: A,
    text: &str,
) -> Result<StoredFunction<A>, RegAllocError> {
    let f = function_of_text(global, alloc, text)?;
    copied_numbers(alloc, &f)
}

/// Returns the output that the JSON value `value` gives.
fn output_of<A: Allocator + Copy>(alloc: A, value: &Value) -> Result<Output<A>, RegAllocError> {
    let read = named(StoredOutput::from_value(alloc, value))?;
    named(Output::from_stored(alloc, &read))
}

/// Returns the stored numbers of the output that the JSON text `text` gives.
fn stored_output<A: Allocator + Copy>(
    global: Global,
    alloc: A,
    text: &str,
) -> Result<StoredOutput<A>, RegAllocError> {
    let value = value_of(global, text)?;
    Ok(output_of(alloc, &value)?.stored()?)
}

/// Returns the stored numbers of the function and of the output that the JSON texts `texts` give.
fn stored<A: Allocator + Copy>(
    global: Global,
    alloc: A,
    texts: (&str, &str),
) -> Result<(StoredFunction<A>, StoredOutput<A>), RegAllocError> {
    let f = stored_function(global, alloc, texts.0)?;
    Ok((f, stored_output(global, alloc, texts.1)?))
}

/// Writes the numbers that `texts`, a function and an output as JSON, give, and of each call whether it reports each
/// allocation that fails.
pub fn write_all(global: Global, texts: (&str, &str), out: &mut Report) {
    out.row("stored", &stored(global, global, texts).ok());
    let parts = is_each_told(global, &Made::Parts(global));
    out.row("rings, list, moves", &parts);
    out.row("sets", &is_each_told(global, &Made::Sets));
    let stored = is_each_told(global, &Made::Stored(global, texts));
    out.row("a stored function and output", &stored);
}
