//! The function that is measured.

use regalloc2::serialize::{FromValue, SerializableFunction, StoredFunction};
use serde_json::Value;
use std::alloc::Global;
use std::io::{self, Read};

/// Returns the function that `input` gives as JSON text of its stored numbers, if it gives one.
pub fn read_function<R: Read + Drop>(alloc: Global, input: R) -> Option<SerializableFunction> {
    let text = io::read_to_string(alloc, input).ok()?;
    let value = Value::from_str(alloc, &text).ok()?;
    let stored = StoredFunction::from_value(alloc, &value).ok()?;
    SerializableFunction::from_stored(alloc, &stored).ok()
}
