//! Stored lists as they stand in JSON, which a `stored` line shares.

use regalloc2_serialize::InstOpcode;
use std::alloc::Allocator;
use std::fmt;

/// What is written as a JSON value: numbers, `null`, truth values, and lists in brackets.
pub(crate) trait JsonText {
    /// Writes the value.
    fn write_json<W: fmt::Write>(&self, to: &mut W) -> fmt::Result;
}

impl JsonText for u8 {
    fn write_json<W: fmt::Write>(&self, to: &mut W) -> fmt::Result {
        write!(to, "{self}")
    }
}

impl JsonText for u32 {
    fn write_json<W: fmt::Write>(&self, to: &mut W) -> fmt::Result {
        write!(to, "{self}")
    }
}

impl JsonText for u64 {
    fn write_json<W: fmt::Write>(&self, to: &mut W) -> fmt::Result {
        write!(to, "{self}")
    }
}

impl JsonText for bool {
    fn write_json<W: fmt::Write>(&self, to: &mut W) -> fmt::Result {
        write!(to, "{self}")
    }
}

impl JsonText for InstOpcode {
    fn write_json<W: fmt::Write>(&self, to: &mut W) -> fmt::Result {
        match self {
            InstOpcode::Op => write!(to, "\"Op\""),
            InstOpcode::Ret => write!(to, "\"Ret\""),
            InstOpcode::Branch => write!(to, "\"Branch\""),
        }
    }
}

impl<T: JsonText> JsonText for Option<T> {
    fn write_json<W: fmt::Write>(&self, to: &mut W) -> fmt::Result {
        match self {
            Some(value) => value.write_json(to),
            None => write!(to, "null"),
        }
    }
}

/// Writes `items` in brackets.
fn write_items<T: JsonText, W: fmt::Write>(items: &[T], to: &mut W) -> fmt::Result {
    write!(to, "[")?;
    for (k, item) in items.iter().enumerate() {
        if k > 0 {
            write!(to, ", ")?;
        }
        item.write_json(to)?;
    }
    write!(to, "]")
}

impl JsonText for (u32, u32) {
    fn write_json<W: fmt::Write>(&self, to: &mut W) -> fmt::Result {
        let (first, second) = *self;
        write_items(&[first, second], to)
    }
}

impl JsonText for (u32, u32, u32) {
    fn write_json<W: fmt::Write>(&self, to: &mut W) -> fmt::Result {
        let (first, second, third) = *self;
        write_items(&[first, second, third], to)
    }
}

impl JsonText for (u32, u32, u32, u32) {
    fn write_json<W: fmt::Write>(&self, to: &mut W) -> fmt::Result {
        let (first, second, third, fourth) = *self;
        write_items(&[first, second, third, fourth], to)
    }
}

impl<T: JsonText, A: Allocator> JsonText for Vec<T, A> {
    fn write_json<W: fmt::Write>(&self, to: &mut W) -> fmt::Result {
        write_items(self.as_slice(), to)
    }
}
