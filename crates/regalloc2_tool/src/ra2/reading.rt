//! Reads the function, the machine and the output from the program's input.

ghost use Rattle.std.specs.Prelude.{ℕ, List, Option, ◌≡◌, Some, IfOk, IfErr, IfSome};
ghost use Rattle.serde_json.specs.View.{view};
ghost use Rattle.regalloc2_function.specs.Stored.{NamesValues, output_of_stored};
ghost use Rattle.regalloc2_function.specs.Views.{machine_of, output_of};
ghost use Rattle.regalloc2_function.specs.WellFormed.{IsFramed};
ghost use Rattle.regalloc2_serialize.specs.Tables.{function_of_serializable};
ghost use Rattle.regalloc2_tool.specs.Ra2.Input.{AreGiven, IsPairAt, IsTextOf, IsTextOfPair, IsTextOfValue, TextNamesFitting, IsInputFault, IsOutputRefusal, IsPairFault};
ghost use Rattle.regalloc2_tool.specs.Ra2.Text.{input_text};

use regalloc2::serialize::{
    FromValue, SerializableFunction, StoredFault, StoredFunction, StoredOutput,
};
use regalloc2::{Function, Output, is_framed, machine_fits};
use regalloc2_text::stored_fault::number_of;
use serde_json::Value;
use std::alloc::{Allocator, Global};
use std::fmt;
use std::io::{self, Read};

/// Why the input gives nothing to allocate or to check.
#[derive(Drop)]
pub enum InputError {
    /// The input can't be read, or isn't the JSON text of a stored function.
    Unreadable,
    /// The numbers name no function.
    BadFunction(StoredFault),
    /// The machine doesn't fit the function.
    BadMachine,
    /// The numbers name no output.
    BadOutput(StoredFault),
    /// The function isn't structurally valid (`IsFramed`), so no output of it can be checked.
    NotFramed,
}

/// As `input unreadable`, `bad function 2`, `bad machine`, `bad output 3` or `not framed`.
impl fmt::Display for InputError {
    ghost output = { λ e. Some (input_text e) };

    fn fmt<W: fmt::Write>(&self, f: &mut fmt::Formatter<W>) -> fmt::Result {
        match self {
            InputError::Unreadable => write!(f, "input unreadable"),
            InputError::BadFunction(fault) => write!(f, "bad function {}", number_of(*fault)),
            InputError::BadMachine => write!(f, "bad machine"),
            InputError::BadOutput(fault) => write!(f, "bad output {}", number_of(*fault)),
            InputError::NotFramed => write!(f, "not framed"),
        }
    }
}

/// Reads a JSON value from `input`, its text.
fn value_from<A: Allocator + Copy, R: Read + Drop>(
    global: Global,
    alloc: A,
    input: R,
) -> Option<Value>
    ensures { IfSome result (λ v. IsTextOfValue (R.remaining input) (view v)) }
{
    let text = io::read_to_string(alloc, input).ok()?;
    Value::from_str(global, &text).ok()
}

/// Reads a stored function from `input`, its JSON text.
fn stored_from<A: Allocator + Copy, R: Read + Drop>(
    global: Global,
    alloc: A,
    input: R,
) -> Option<StoredFunction<A>>
    ensures { IfSome result (IsTextOf (R.remaining input)) }
{
    let value = value_from(global, alloc, input)?;
    StoredFunction::from_value(alloc, &value).ok()
}

/// Returns the function and its machine that the numbers of `stored` name. The machine fits the function.
fn fitting<A: Allocator + Copy>(
    alloc: A,
    stored: &StoredFunction<A>,
) -> Result<SerializableFunction<A>, InputError>
    ensures ok { IfOk result (λ f. (bytes : Option (List ℕ)) → IsTextOf bytes stored.now → TextNamesFitting A bytes (function_of_serializable f) (machine_of f.machine)) }
    ensures err { IfErr result (λ e. (bytes : Option (List ℕ)) → IsTextOf bytes stored.now → IsInputFault A bytes e) }
{
    let f = match SerializableFunction::from_stored(alloc, stored) {
        Ok(f) => f,
        Err(fault) => return Err(InputError::BadFunction(fault)),
    };
    if !machine_fits(&f, f.machine_env()) {
        return Err(InputError::BadMachine);
    }
    Ok(f)
}

/// Reads a function and its machine from `input`, the JSON text of a stored function. The machine fits the function.
pub fn function_from<A: Allocator + Copy, R: Read + Drop>(
    global: Global,
    alloc: A,
    input: R,
) -> Result<SerializableFunction<A>, InputError>
    ensures ok { IfOk result (λ f. TextNamesFitting A (R.remaining input) (function_of_serializable f) (machine_of f.machine)) }
    ensures err { IfErr result (IsInputFault A (R.remaining input)) }
{
    let Some(stored) = stored_from(global, alloc, input) else {
        return Err(InputError::Unreadable);
    };
    fitting(alloc, &stored)
}

/// Returns the stored function and the stored output in `value`, a JSON array of exactly these two.
fn stored_pair<A: Allocator + Copy>(
    alloc: A,
    value: &Value,
) -> Option<(StoredFunction<A>, StoredOutput<A>)>
    ensures { IfSome result (λ pair. IsPairAt (view value.now) pair.0 pair.1) }
{
    if value.get(2).is_some() {
        return None;
    }
    let (first, second) = (value.get(0)?, value.get(1)?);
    let output = StoredOutput::from_value(alloc, second).ok()?;
    let function = StoredFunction::from_value(alloc, first).ok()?;
    Some((function, output))
}

/// Reads a stored function and a stored output from `input`, the JSON text of an array of exactly these two.
fn stored_pair_from<A: Allocator + Copy, R: Read + Drop>(
    global: Global,
    alloc: A,
    input: R,
) -> Option<(StoredFunction<A>, StoredOutput<A>)>
    ensures { IfSome result (λ pair. IsTextOfPair (R.remaining input) pair.0 pair.1) }
{
    let value = value_from(global, alloc, input)?;
    stored_pair(alloc, &value)
}

/// Returns the output of `f` that the numbers of `stored` name. The function is structurally valid.
fn framed_output<A: Allocator + Copy, F: Function>(
    alloc: A,
    f: &F,
    stored: &StoredOutput<A>,
) -> Result<Output<A>, InputError>
    ensures ok { IfOk result (λ out. NamesValues stored.now × (output_of out ≡ output_of_stored stored.now) × IsFramed (F.function f.now)) }
    ensures err { IfErr result (IsOutputRefusal (F.function f.now) stored.now) }
{
    let output = match Output::from_stored(alloc, stored) {
        Ok(output) => output,
        Err(fault) => return Err(InputError::BadOutput(fault)),
    };
    if !is_framed(f) {
        return Err(InputError::NotFramed);
    }
    Ok(output)
}

/// Returns the function and its machine that the numbers of `stored` name, and the output that the numbers of
/// `stored_output` name. The function is structurally valid.
fn framed_pair<A: Allocator + Copy>(
    alloc: A,
    stored: &StoredFunction<A>,
    stored_output: &StoredOutput<A>,
) -> Result<(SerializableFunction<A>, Output<A>), InputError>
    ensures ok { IfOk result (λ pair. (bytes : Option (List ℕ)) → IsTextOfPair bytes stored.now stored_output.now →
        AreGiven A bytes (function_of_serializable pair.0) (machine_of pair.0.machine) (output_of pair.1)) }
    ensures err { IfErr result (λ e. (bytes : Option (List ℕ)) → IsTextOfPair bytes stored.now stored_output.now → IsPairFault A bytes e) }
{
    let f = match SerializableFunction::from_stored(alloc, stored) {
        Ok(f) => f,
        Err(fault) => return Err(InputError::BadFunction(fault)),
    };
    let output = framed_output(alloc, &f, stored_output)?;
    Ok((f, output))
}

/// Reads a function, its machine and an output from `input`, the JSON text of an array of exactly a stored function
/// and a stored output.
///
/// The function is structurally valid, therefore the output can be checked.
pub fn replay_from<A: Allocator + Copy, R: Read + Drop>(
    global: Global,
    alloc: A,
    input: R,
) -> Result<(SerializableFunction<A>, Output<A>), InputError>
    ensures ok { IfOk result (λ pair. AreGiven A (R.remaining input) (function_of_serializable pair.0) (machine_of pair.0.machine) (output_of pair.1)) }
    ensures err { IfErr result (IsPairFault A (R.remaining input)) }
{
    let Some((stored, stored_output)) = stored_pair_from(global, alloc, input) else {
        return Err(InputError::Unreadable);
    };
    framed_pair(alloc, &stored, &stored_output)
}
