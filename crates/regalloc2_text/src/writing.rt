//! Functions, machines and outputs written as text.

use crate::cursor::TextError;
use crate::reading::read;
use crate::same::{same_function, same_outputs};
use crate::writer::lay_out;
use regalloc2_function::StoredOutput;
use regalloc2_serialize::StoredFunction;
use std::alloc::{AllocError, Allocator};
use std::error::Error;
use std::fmt;

/// Why there is no text.
#[derive(Clone, Copy, Debug, PartialEq, Eq)]
pub enum WriteError {
    /// Out of memory.
    Memory,
    /// The text would read back as another function or output.
    Differs,
}

impl fmt::Display for WriteError {
    ghost use Rattle.std.specs.Prelude.{Some};
    ghost use Rattle.regalloc2_text.specs.TextErrors.{write_error_text};

    ghost output = { λ e. Some (write_error_text e) };

    fn fmt<W: fmt::Write>(&self, f: &mut fmt::Formatter<W>) -> fmt::Result {
        match self {
            WriteError::Memory => write!(f, "out of memory"),
            WriteError::Differs => write!(f, "the text reads back as another function or output"),
        }
    }
}

impl Error for WriteError {}

impl From<AllocError> for WriteError {
    fn from(_refused: AllocError) -> WriteError {
        WriteError::Memory
    }
}

impl From<TextError<'_>> for WriteError {
    fn from(error: TextError<'_>) -> WriteError {
        match error {
            TextError::Memory => WriteError::Memory,
            TextError::Fault(_) => WriteError::Differs,
        }
    }
}

/// Tests that `text` reads back as `function` and `output`; returns `Differs` if it doesn't.
fn test_text<A: Allocator + Copy>(
    alloc: A,
    text: &str,
    function: &StoredFunction<A>,
    output: Option<&StoredOutput<A>>,
) -> Result<(), WriteError> {
    let back = read(alloc, text, 1)?;
    let is_same = same_function(&back.function, function)
        && same_outputs(back.output.as_ref(), output);
    drop(back);
    if is_same {
        Ok(())
    } else {
        Err(WriteError::Differs)
    }
}

/// Returns the text of `function` with its machine, and of `output` if there is one; [`read`] gives them back. Linear
/// in them.
///
/// A function may be ill-formed, and its numbers may name nothing. The text is read back before it is returned.
///
/// # Errors
///
/// `Differs` if the text reads back as another function or output, as with 2^32 instructions or blocks; `Memory` if
/// the system is out of memory.
pub fn write<A: Allocator + Copy>(
    alloc: A,
    function: &StoredFunction<A>,
    output: Option<&StoredOutput<A>>,
) -> Result<String<A>, WriteError> {
    let text = lay_out(alloc, function, output)?;
    test_text(alloc, text.as_str(), function, output)?;
    Ok(text)
}
