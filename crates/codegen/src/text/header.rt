//! A module's header for C.

use super::assembly::first_arity;
use codegen_machine::{ModuleCode, NamedCode};
use std::fmt;

/// The line of a function: the number of its arguments.
#[derive(Clone, Copy)]
struct ArityText<'a>(&'a NamedCode);

impl fmt::Display for ArityText<'_> {
    fn fmt<W: fmt::Write>(&self, f: &mut fmt::Formatter<W>) -> fmt::Result {
        let (name, arity) = (self.0.name.as_str(), self.0.arity);
        if name.is_empty() {
            return Ok(());
        }
        write!(f, "    {name}_arguments = {arity},\n")
    }
}

/// The lines of all functions.
#[derive(Clone, Copy)]
struct AritiesText<'a>(&'a [NamedCode]);

impl fmt::Display for AritiesText<'_> {
    fn fmt<W: fmt::Write>(&self, f: &mut fmt::Formatter<W>) -> fmt::Result {
        for function in self.0 {
            fmt::Display::fmt(&ArityText(function), f)?;
        }
        Ok(())
    }
}

/// A header for C of a module's code: the entry's prototype, and constants for memory's size and for
/// the number of each function's arguments.
#[derive(Clone, Copy)]
pub struct HeaderText<'a> {
    /// The code.
    pub code: &'a ModuleCode,
    /// The size of the module's memory, in bytes.
    pub memory_size: usize,
}

impl fmt::Display for HeaderText<'_> {
    fn fmt<W: fmt::Write>(&self, f: &mut fmt::Formatter<W>) -> fmt::Result {
        let (size, all) = (self.memory_size, self.code.functions.as_slice());
        let (first, arities) = (first_arity(all), AritiesText(all));
        write!(
            f,
            "#include <stdint.h>

/* Calls the first function with its arguments, a memory behind eight bytes that the code overwrites, and room
   on the stack for so many words. Traps are SIGILL and SIGFPE, and a stack overflow is SIGTRAP. */
uint64_t compiled(const uint64_t *arguments, uint8_t *memory, uint64_t room);

/* The size of memory in bytes, and how many arguments each function takes. */
enum {{
    compiled_memory = {size},
    compiled_arguments = {first},
{arities}}};
"
        )
    }
}
