//! What the program prints.

use std::alloc::Global;
use std::fmt::{Debug, Display, Write as _};
use std::io::{self, Write};

/// The text that the program prints, written line by line. If memory runs out, `print` returns that as an error.
///
/// A caller that writes a row needs no test after it.
#[derive(Drop)]
pub struct Report {
    text: String,
    is_out_of_memory: bool,
}

impl Report {
    /// An empty text.
    pub fn new(alloc: Global) -> Report {
        Report {
            text: String::new(alloc),
            is_out_of_memory: false,
        }
    }

    /// Writes `value` as it is displayed.
    pub fn put<T: Display>(&mut self, value: &T) {
        if write!(self.text, "{value}").is_err() {
            self.is_out_of_memory = true;
        }
    }

    /// Writes `words`.
    pub fn words(&mut self, words: &str) {
        self.put(&words);
    }

    /// Writes the row `name` with `value`, what a call returns, for programmers.
    pub fn row<T: Debug>(&mut self, name: &str, value: &T) {
        self.put(&format_args!("{name}: {value:?}\n"));
    }

    /// Writes each of `values` as it is displayed, and for programmers.
    pub fn texts<T: Display + Debug>(&mut self, values: &[T]) {
        for value in values {
            self.put(&format_args!("{value} = {value:?}\n"));
        }
    }

    /// Prints the text.
    pub fn print<W: Write>(&self, out: &mut W) -> io::Result<()> {
        if self.is_out_of_memory {
            return Err(io::Error::from(io::ErrorKind::OutOfMemory));
        }
        out.write_all(self.text.as_bytes())
    }
}
