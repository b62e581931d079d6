//! The functions that are passed to the calls.

ghost use Rattle.std.specs.Prelude.{IfOk, IfErr, ◌+◌, length};
ghost use Rattle.regalloc2.specs.Views.{machine_of};
ghost use Rattle.regalloc2_serialize.specs.Flat.Columns.Kept.{function_of_flat};
ghost use Rattle.regalloc2_serialize.specs.Tables.{function_of_serializable};
ghost use Rattle.regalloc2_c.specs.Outcome.{AreWordsOf, AreUnreadWords, IsJsonOf, IsTextInput, IsTextFailure, HasNoNumbers};
ghost use Rattle.regalloc2_c.specs.Outcome.{NumbersNameFunction, NumbersName, IsBadFunction, NumbersNameNone};

use super::failure::{Failure, failure_of_columns, failure_to_read};
use super::words::word_of;
use regalloc2::serialize::{SerializableFunction, StoredFunction};
use regalloc2_serialize::flat::FlatFunction;
use regalloc2_text::{TextError, read};
use serde_json::Value;
use std::alloc::Global;

/// The function and the machine that `words` lay out.
pub fn function_from_words(alloc: Global, words: &[u32]) -> Result<FlatFunction, Failure>
    ensures ok { IfOk result (λ f. AreWordsOf words.now (function_of_flat f) (machine_of f.machine)) }
    ensures err { IfErr result (AreUnreadWords words.now) }
{
    match FlatFunction::read(alloc, words) {
        Ok(f) => Ok(f),
        Err(fault) => Err(failure_of_columns(fault)),
    }
}

/// Returns the function and the machine that the numbers of `stored` name.
fn function_from(alloc: Global, stored: &StoredFunction) -> Result<SerializableFunction, Failure>
    ensures ok { IfOk result (λ f. NumbersNameFunction stored.now (function_of_serializable f) (machine_of f.machine)) }
    ensures err { IfErr result (IsBadFunction stored.now) }
{
    match SerializableFunction::from_stored(alloc, stored) {
        Ok(f) => Ok(f),
        Err(fault) => Err(Failure::BadFunction(fault)),
    }
}

/// The numbers of the function with the JSON text `bytes`.
fn stored_from_json(alloc: Global, bytes: &[u8]) -> Result<StoredFunction, Failure>
    ensures ok { IfOk result (IsJsonOf bytes.now) }
    ensures err { IfErr result (HasNoNumbers (IsJsonOf bytes.now) 0) }
{
    let Ok(text) = str::from_utf8(bytes) else {
        return Err(Failure::Unreadable);
    };
    let value = match Value::from_str(alloc, text) {
        Ok(value) => value,
        Err(error) => {
            if error.is_memory() {
                return Err(Failure::NoMemory);
            }
            return Err(Failure::Unreadable);
        }
    };
    match StoredFunction::from_value(alloc, &value) {
        Ok(stored) => Ok(stored),
        Err(fault) => Err(failure_to_read(fault)),
    }
}

/// The function and the machine with the JSON text `bytes`.
pub fn function_from_json(alloc: Global, bytes: &[u8]) -> Result<SerializableFunction, Failure>
    ensures ok { IfOk result (λ f. NumbersName (IsJsonOf bytes.now) (function_of_serializable f) (machine_of f.machine)) }
    ensures err { IfErr result (NumbersNameNone (IsJsonOf bytes.now) 0) }
{
    match stored_from_json(alloc, bytes) {
        Ok(stored) => function_from(alloc, &stored),
        Err(failure) => Err(failure),
    }
}

/// Returns the failure for `error`, of a text that is read.
fn failure_of_text(error: TextError<'_>) -> Failure
    ensures { IsTextFailure error.entry result }
{
    match error {
        TextError::Fault(fault) => Failure::BadText(word_of(fault.line), word_of(fault.column)),
        TextError::Memory => Failure::NoMemory,
    }
}

/// The numbers of the function in the text `bytes`. The reader's contract doesn't say which function that is.
fn stored_from_text(alloc: Global, bytes: &[u8]) -> Result<StoredFunction, Failure>
    ensures ok { IfOk result (IsTextInput bytes.now) }
    ensures err { IfErr result (HasNoNumbers (IsTextInput bytes.now) (1 + length bytes.now)) }
{
    let Ok(text) = str::from_utf8(bytes) else {
        return Err(Failure::Unreadable);
    };
    match read(alloc, text, 1) {
        Ok(text) => Ok(text.function),
        Err(error) => Err(failure_of_text(error)),
    }
}

/// The function and the machine in the text `bytes`.
pub fn function_from_text(alloc: Global, bytes: &[u8]) -> Result<SerializableFunction, Failure>
    ensures ok { IfOk result (λ f. NumbersName (IsTextInput bytes.now) (function_of_serializable f) (machine_of f.machine)) }
    ensures err { IfErr result (NumbersNameNone (IsTextInput bytes.now) (1 + length bytes.now)) }
{
    match stored_from_text(alloc, bytes) {
        Ok(stored) => function_from(alloc, &stored),
        Err(failure) => Err(failure),
    }
}
