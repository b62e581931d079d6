//! The functions of a text read so far, and the module they make.

use super::draft::Draft;
use super::functions::{Callee, FIRST_ARGUMENTS, Functions};
use codegen_machine::{Module, NamedProcedure, Refusal};
use regalloc2_text::cursor::{Cursor, Expected, Found, LineError, Token};
use std::alloc::Global;

/// The greatest size of a memory: an instruction of x86-64 compares an address with it.
const LAST_MEMORY: u64 = (1 << 31) - 1;

/// The functions read so far.
#[derive(Drop)]
pub struct ModuleDraft<'t> {
    /// The functions that the text names.
    functions: Functions<'t>,
    drafts: Vec<Draft>,
    /// The size of memory, once its line is read.
    memory_size: Option<u64>,
}

/// A draft without lines of a function without a name.
fn unnamed(alloc: Global) -> Draft {
    Draft::new(alloc, String::new(alloc), FIRST_ARGUMENTS)
}

impl<'t> ModuleDraft<'t> {
    /// Returns a draft without lines of a module whose text names `functions`.
    pub fn new(alloc: Global, functions: Functions<'t>) -> Self {
        ModuleDraft {
            functions,
            drafts: Vec::new(alloc),
            memory_size: None,
        }
    }

    /// Whether the line of memory may come next: once, before the first function and block.
    fn awaits_memory(&self) -> bool {
        self.drafts.is_empty() && self.memory_size.is_none()
    }

    /// Reads a line from its tokens.
    pub fn read_line(&mut self, alloc: Global, tokens: &[Token<'t>]) -> Result<(), LineError<'t>> {
        if tokens.is_empty() {
            return Ok(());
        }
        let mut cursor = Cursor::new(tokens, 0);
        if cursor.has("function") {
            return self.begin(alloc, cursor.peek().unwrap_or(""));
        }
        if self.awaits_memory() && cursor.has("memory") {
            self.memory_size = Some(cursor.number(LAST_MEMORY));
            return cursor.finish();
        }
        self.read_inner_line(alloc, tokens)
    }

    /// Reads a line of the function that is read.
    fn read_inner_line(
        &mut self,
        alloc: Global,
        tokens: &[Token<'t>],
    ) -> Result<(), LineError<'t>> {
        if self.drafts.is_empty() && self.functions.is_empty() {
            self.drafts.push(unnamed(alloc))?;
        }
        match self.drafts.last_mut() {
            Some(draft) => draft.read_line(alloc, tokens, &self.functions),
            None => refuse_line(tokens),
        }
    }

    /// Begins the function with that name, whose line the text's functions have been read from.
    fn begin(&mut self, alloc: Global, name: &'t str) -> Result<(), LineError<'t>> {
        if let Some(Callee { arity, .. }) = self.functions.named(name) {
            let name = String::from_str(alloc, name)?;
            self.drafts.push(Draft::new(alloc, name, arity))?;
        }
        Ok(())
    }

    /// The module of all functions.
    pub fn finish(self, alloc: Global) -> Result<Module, LineError<'t>> {
        let ModuleDraft {
            functions: _,
            mut drafts,
            memory_size,
        } = self;
        if drafts.is_empty() {
            drafts.push(unnamed(alloc))?;
        }
        let memory_size = memory_size.unwrap_or(0) as usize;
        let procedures = finished(alloc, drafts, memory_size)?;
        match Module::new(procedures, memory_size) {
            Ok(module) => Ok(module),
            Err(refusal) => Err(line_error_of(refusal)),
        }
    }
}

/// The error of a line before the text's first function.
fn refuse_line<'t>(tokens: &[Token<'t>]) -> Result<(), LineError<'t>> {
    let mut cursor = Cursor::new(tokens, 0);
    cursor.misfit("a line `function`, as the text has one");
    cursor.finish()
}

/// Returns the functions of `drafts`, with a memory of `memory_size` bytes.
fn finished<'t>(
    alloc: Global,
    drafts: Vec<Draft>,
    memory_size: usize,
) -> Result<Vec<NamedProcedure>, LineError<'t>> {
    let mut procedures = Vec::new(alloc);
    for draft in drafts {
        procedures.push(draft.finish(alloc, memory_size)?)?;
    }
    Ok(procedures)
}

/// The message for functions that make no module.
fn line_error_of<'t>(refusal: Refusal) -> LineError<'t> {
    let expected = match refusal {
        Refusal::NoFunction => "a function",
        Refusal::MemorySize => "one size of memory",
        Refusal::ManyArguments => "at most six arguments of the first function",
        Refusal::UnknownArgument => "arguments of the function",
        Refusal::WrongCall => "calls with as many arguments as their functions have",
    };
    LineError::new(1, Expected::Words(expected), Found::TextEnd)
}
