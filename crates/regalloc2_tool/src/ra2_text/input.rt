//! A function, its machine and an output from bytes: as a text, or as JSON.

use crate::calls::reading::read_text;
use regalloc2_function::StoredFault;
use regalloc2_serialize::{FromValue, StoredFunction};
use regalloc2_text::{Text, TextError, is_logged, write};
use serde_json::Value;
use std::alloc::{AllocError, Global};
use std::{fmt, str};

/// What is read, with the text in which its parts are shown.
#[derive(Drop)]
pub struct Input {
    /// The function with its machine, and an output if one is given.
    pub text: Text,
    /// For JSON, the text of the function; else nothing, since the input is a text.
    pub shown: Option<String>,
}

/// Why an input can't be read.
#[derive(Debug, Drop)]
pub enum InputError {
    /// A byte is part of no character: its line and column, from 1, and the byte.
    NotText(usize, usize, u8),
    /// A line of a text can't be read; the line and what is wrong.
    BadText(String),
    /// The JSON text can't be read; what is wrong.
    BadJson(String),
    /// The JSON value isn't a function, nor an array of a function and an output.
    OtherJson,
    /// Out of memory.
    Memory,
}

impl InputError {
    /// Returns `true` if the error's text begins with a line and a column.
    pub fn has_place(&self) -> bool {
        matches!(self, InputError::NotText(..) | InputError::BadText(_))
    }
}

/// As `12:20: expected ..`, `3:1: the byte 255 is part of no UTF-8 character` or `the JSON value is no function ..`.
impl fmt::Display for InputError {
    fn fmt<W: fmt::Write>(&self, f: &mut fmt::Formatter<W>) -> fmt::Result {
        match self {
            InputError::NotText(line, column, byte) => write!(
                f,
                "{line}:{column}: the byte {byte} is part of no UTF-8 character"
            ),
            InputError::BadText(fault) => write!(f, "{fault}"),
            InputError::BadJson(error) => write!(f, "{error}"),
            InputError::OtherJson => f.write_str(
                "the JSON value is no function, nor an array of a function and an output",
            ),
            InputError::Memory => f.write_str("out of memory"),
        }
    }
}

impl From<AllocError> for InputError {
    fn from(_refused: AllocError) -> InputError {
        InputError::Memory
    }
}

/// Returns the line and the column in bytes, both from 1, of the byte at `place`.
pub fn position_of(bytes: &[u8], place: usize) -> (usize, usize) {
    let mut line = 1usize;
    let mut column = 1usize;
    for byte in bytes.iter().take(place) {
        if *byte == b'\n' {
            line = line.saturating_add(1);
            column = 1;
        } else {
            column = column.saturating_add(1);
        }
    }
    (line, column)
}

/// Returns whether `text` is JSON: its first character but blanks is a brace or a bracket.
///
/// These begin no line of a text, but for a bracket around what a logger writes before the lines of a dump.
fn is_json(text: &str) -> bool {
    let first = text.bytes().find(|byte| !byte.is_ascii_whitespace());
    first == Some(b'{') || (first == Some(b'[') && !is_logged(text.trim_start()))
}

/// Returns the error for `fault`, found in stored numbers.
fn error_of(fault: StoredFault) -> InputError {
    match fault {
        StoredFault::Memory => InputError::Memory,
        _ => InputError::OtherJson,
    }
}

/// Returns the function, or the function and the output, that `value` holds.
fn read_value(alloc: Global, value: &Value) -> Result<Text, InputError> {
    let Some(first) = value.get(0) else {
        let function = StoredFunction::from_value(alloc, value).map_err(error_of)?;
        return Ok(Text {
            function,
            output: None,
        });
    };
    let (Some(second), None) = (value.get(1), value.get(2)) else {
        return Err(InputError::OtherJson);
    };
    let output = FromValue::from_value(alloc, second).map_err(error_of)?;
    let function = StoredFunction::from_value(alloc, first).map_err(error_of)?;
    Ok(Text {
        function,
        output: Some(output),
    })
}

/// Reads a function from the JSON text `text`.
fn read_json(alloc: Global, text: &str) -> Result<Input, InputError> {
    let value = match Value::from_str(alloc, text) {
        Ok(value) => value,
        Err(error) => {
            let Ok(words) = format!(in alloc; "{error}") else {
                return Err(InputError::Memory);
            };
            return Err(InputError::BadJson(words));
        }
    };
    let text = read_value(alloc, &value)?;
    let shown = write(alloc, &text.function, None).ok();
    Ok(Input { text, shown })
}

/// Reads a function from `text`.
fn read_lines(alloc: Global, text: &str) -> Result<Input, InputError> {
    match read_text(alloc, text, 1) {
        Ok(text) => Ok(Input { text, shown: None }),
        Err(TextError::Fault(fault)) => {
            let Ok(words) = format!(in alloc; "{fault}") else {
                return Err(InputError::Memory);
            };
            Err(InputError::BadText(words))
        }
        Err(TextError::Memory) => Err(InputError::Memory),
    }
}

/// Returns the text that `bytes` are, without a byte order mark before it, or an error for the first byte that is
/// part of no character.
pub(crate) fn text_of(bytes: &[u8]) -> Result<&str, InputError> {
    match str::from_utf8(bytes) {
        Ok(text) => Ok(text.strip_prefix('\u{feff}').unwrap_or(text)),
        Err(error) => {
            let place = error.valid_up_to();
            let (line, column) = position_of(bytes, place);
            let byte = bytes.get(place).copied().unwrap_or(0);
            Err(InputError::NotText(line, column, byte))
        }
    }
}

impl Input {
    /// Reads a function from `text`, which is JSON or has the form of a text.
    pub fn read(alloc: Global, text: &str) -> Result<Input, InputError> {
        if is_json(text) {
            read_json(alloc, text)
        } else {
            read_lines(alloc, text)
        }
    }
}
