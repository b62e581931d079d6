//! Modules: functions that call each other.

ghost use Rattle.std.specs.Prelude.{◌≡◌, ◌<◌, IfErr, IfOk, IsTrue, vec_len};
ghost use Rattle.std.specs.List.{list_all};
ghost use Rattle.codegen_machine.specs.Modules.{arities_of, calls_function, calls_functions, has_memory, IsRefused, passes_registers, reads_argument, reads_arguments};

use super::procedure::Procedure;
use codegen_operation::{Line, Operation};
use std::error::Error;
use std::fmt;

/// A function of a module.
#[derive(Drop)]
pub struct NamedProcedure {
    /// The name of the function.
    pub name: String,
    /// How many arguments a call passes to it.
    pub arity: usize,
    /// The blocks and lines of the function.
    pub procedure: Procedure,
}

/// Functions that call each other, and share a memory. A run starts at function 0.
#[derive(Drop)]
pub struct Module {
    /// The functions by number.
    pub procedures: Vec<NamedProcedure>,
    /// The size of the memory, in bytes.
    pub memory_size: usize,
    pub ghost some: { 0 < vec_len procedures },
    pub ghost memory: { IsTrue (list_all (has_memory memory_size) procedures.items) },
    pub ghost few_arguments: { IsTrue (passes_registers procedures.items) },
    pub ghost arguments: { IsTrue (list_all reads_arguments procedures.items) },
    pub ghost calls: { IsTrue (list_all (calls_functions (arities_of procedures.items)) procedures.items) },
}

/// Why functions are no module.
#[derive(Clone, Copy, Debug, PartialEq, Eq)]
pub enum Refusal {
    /// There is no function.
    NoFunction,
    /// A function has a memory of another size.
    MemorySize,
    /// The first function has more than six arguments.
    ManyArguments,
    /// A line reads an argument that its function doesn't have.
    UnknownArgument,
    /// A call names a function that doesn't exist, or passes another number of arguments.
    WrongCall,
}

impl fmt::Display for Refusal {
    ghost use Rattle.std.specs.Prelude.{Some};
    ghost use Rattle.codegen_machine.specs.ErrorText.{refusal_text};

    ghost output = { λ e. Some (refusal_text e) };

    fn fmt<W: fmt::Write>(&self, f: &mut fmt::Formatter<W>) -> fmt::Result {
        match self {
            Refusal::NoFunction => f.write_str("there is no function"),
            Refusal::MemorySize => f.write_str("a function has a memory of another size"),
            Refusal::ManyArguments => f.write_str("the first function has more than six arguments"),
            Refusal::UnknownArgument => {
                write!(f, "a line reads an argument that its function doesn't have")
            }
            Refusal::WrongCall => write!(
                f,
                "a call names no function, or passes another number of arguments"
            ),
        }
    }
}

impl Error for Refusal {}

/// Whether an argument that a line reads is one of its function's.
fn reads_argument(line: &Line, arity: usize) -> bool
    ensures { result ≡ reads_argument arity line.now.operation }
{
    match line.operation {
        Operation::Argument { index, .. } => (index as usize) < arity,
        _ => true,
    }
}

/// Whether a line, if it is a call, passes a function as many arguments as it has.
fn calls_function(line: &Line, procedures: &[NamedProcedure]) -> bool
    ensures { result ≡ calls_function (arities_of procedures.now) line.now.operation }
{
    match &line.operation {
        Operation::Call {
            function,
            arguments,
            ..
        } => match procedures.get(*function) {
            Some(callee) => callee.arity == arguments.len(),
            None => false,
        },
        _ => true,
    }
}

/// Whether each argument that lines read is one of their function's.
fn lines_read_arguments(lines: &[Line], arity: usize) -> bool
    ensures { result ≡ list_all (λ l. reads_argument arity l.operation) lines.now }
{
    lines.iter().all(|line| reads_argument(line, arity))
}

/// Whether each call on lines passes a function as many arguments as it has.
fn lines_call_functions(lines: &[Line], procedures: &[NamedProcedure]) -> bool
    ensures { result ≡ list_all (λ l. calls_function (arities_of procedures.now) l.operation) lines.now }
{
    lines.iter().all(|line| calls_function(line, procedures))
}

/// Whether each argument that a function reads is one of its own.
fn reads_arguments(procedure: &NamedProcedure) -> bool
    ensures { result ≡ reads_arguments procedure.now }
{
    lines_read_arguments(&procedure.procedure.lines, procedure.arity)
}

/// Whether each of a function's calls passes a function as many arguments as it has.
fn calls_functions(procedure: &NamedProcedure, procedures: &[NamedProcedure]) -> bool
    ensures { result ≡ calls_functions (arities_of procedures.now) procedure.now }
{
    lines_call_functions(&procedure.procedure.lines, procedures)
}

/// Whether each function has a memory of that size.
fn all_have_memory(procedures: &[NamedProcedure], size: usize) -> bool
    ensures { result ≡ list_all (has_memory size) procedures.now }
{
    procedures.iter().all(|p| p.procedure.memory_size == size)
}

/// Whether the first function's arguments are passed in registers: it has at most six.
fn passes_registers(procedures: &[NamedProcedure]) -> bool
    ensures { result ≡ passes_registers procedures.now }
{
    match procedures {
        [first, ..] => first.arity <= 6,
        [] => true,
    }
}

/// Whether each function reads arguments of its own only.
fn all_read_arguments(procedures: &[NamedProcedure]) -> bool
    ensures { result ≡ list_all reads_arguments procedures.now }
{
    procedures.iter().all(|p| reads_arguments(p))
}

/// Whether each function's calls pass functions as many arguments as they have.
fn all_call_functions(procedures: &[NamedProcedure]) -> bool
    ensures { result ≡ list_all (calls_functions (arities_of procedures.now)) procedures.now }
{
    procedures.iter().all(|p| calls_functions(p, procedures))
}

impl Module {
    /// Returns the module of `procedures`, which share a memory of `memory_size` bytes.
    ///
    /// # Errors
    ///
    /// The first that applies, in this order: `NoFunction`, `MemorySize`, `ManyArguments`,
    /// `UnknownArgument`, `WrongCall`.
    pub fn new(procedures: Vec<NamedProcedure>, memory_size: usize) -> Result<Module, Refusal>
        ensures ok { IfOk result (λ m. (m.procedures ≡ procedures) × (m.memory_size ≡ memory_size)) }
        ensures err { IfErr result (IsRefused procedures.items memory_size) }
    {
        if procedures.is_empty() {
            return Err(Refusal::NoFunction);
        }
        if !all_have_memory(&procedures, memory_size) {
            return Err(Refusal::MemorySize);
        }
        if !passes_registers(&procedures) {
            return Err(Refusal::ManyArguments);
        }
        if !all_read_arguments(&procedures) {
            return Err(Refusal::UnknownArgument);
        }
        if !all_call_functions(&procedures) {
            return Err(Refusal::WrongCall);
        }
        Ok(Module {
            procedures,
            memory_size,
        })
    }
}
