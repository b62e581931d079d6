//! The functions that a text names.

ghost use Rattle.std.specs.Prelude.{◌+◌, length, IfErr};
ghost use Rattle.regalloc2_text.specs.Cursor.Lines.{IsOnLineBetween};

use regalloc2_text::cursor::{Cursor, LineError, TextError, Token, split_line, tokenize};
use std::alloc::Global;
use std::collections::HashMap;
use std::hash::{BuildHasherDefault, FoldHasher};

/// The greatest number of the first function's arguments, which registers pass.
pub const FIRST_ARGUMENTS: usize = 6;

/// The greatest number of another function's arguments.
pub const MOST_ARGUMENTS: usize = 1_000_000;

/// The symbol of the assembly's entry.
const ENTRY: &str = "compiled";

/// A function's number and how many arguments a call passes to it.
#[derive(Clone, Copy)]
pub struct Callee {
    /// The number.
    pub function: usize,
    /// The number of arguments.
    pub arity: usize,
}

/// The functions that a text names.
#[derive(Drop)]
pub struct Functions<'t> {
    by_name: HashMap<&'t str, Callee, BuildHasherDefault<FoldHasher>>,
}

/// Whether a word is a symbol: letters, digits and `_`, and no digit first.
fn is_symbol(word: &str) -> bool {
    match word.as_bytes() {
        [b'a'..=b'z' | b'A'..=b'Z' | b'_', after @ ..] => after
            .iter()
            .all(|byte| byte.is_ascii_alphanumeric() || *byte == b'_'),
        _ => false,
    }
}

/// The name of a function.
fn read_name<'t>(cursor: &mut Cursor<'_, 't>) -> &'t str {
    let name = cursor.peek().unwrap_or("");
    if !is_symbol(name) {
        cursor.misfit("a function's name of letters, digits and `_`");
    } else if name == ENTRY {
        cursor.misfit("a function's name other than that of the assembly's entry");
    }
    cursor.advance();
    name
}

/// Reads the number of a function's arguments, at most `most`, from the bracket on.
fn read_arity(cursor: &mut Cursor<'_, '_>, most: usize) -> usize {
    cursor.want("(");
    let arity = cursor.number(most as u64) as usize;
    cursor.want(")");
    cursor.want(":");
    arity
}

impl<'t> Functions<'t> {
    /// The functions of a text, whose first line has the number `first_line`.
    ///
    /// The error is that of the first line of a function that can't be read.
    pub fn of(
        alloc: Global,
        text: &'t str,
        first_line: usize,
    ) -> Result<Functions<'t>, TextError<'t>>
        ensures { IfErr result (λ e. IsOnLineBetween first_line (first_line + length text.now) e) }
    {
        let mut functions = Functions {
            by_name: HashMap::new(alloc),
        };
        let mut tokens: Vec<Token<'t>> = Vec::new(alloc);
        let mut rest = text;
        let mut line = first_line;
        'lines: loop {
            let (content, after) = split_line(rest);
            if let Err(error) = functions.read_line(content, &mut tokens) {
                return Err(error.on_line(line));
            }
            let Some(after) = after else { break };
            rest = after;
            line = line.saturating_add(1);
        }
        Ok(functions)
    }

    /// Reads a line if it is one of a function.
    fn read_line(
        &mut self,
        content: &'t str,
        tokens: &mut Vec<Token<'t>>,
    ) -> Result<(), LineError<'t>> {
        if !content.trim_start().starts_with("function") {
            return Ok(());
        }
        tokenize(content, tokens)?;
        let mut cursor = Cursor::new(tokens.as_slice(), 0);
        if cursor.has("function") {
            self.read_function(cursor)
        } else {
            Ok(())
        }
    }

    /// Reads a function's name and the number of its arguments, from the name on.
    fn read_function(&mut self, mut cursor: Cursor<'_, 't>) -> Result<(), LineError<'t>> {
        let name = read_name(&mut cursor);
        if self.named(name).is_some() {
            cursor.misfit_before("a name that no function before it has");
        }
        let most = if self.is_empty() {
            FIRST_ARGUMENTS
        } else {
            MOST_ARGUMENTS
        };
        let arity = read_arity(&mut cursor, most);
        cursor.finish()?;
        self.add(name, arity)
    }

    /// Adds a function `name` with `arity` arguments.
    fn add(&mut self, name: &'t str, arity: usize) -> Result<(), LineError<'t>> {
        let function = self.by_name.len();
        self.by_name.insert(name, Callee { function, arity })?;
        Ok(())
    }

    /// Whether the text names none.
    pub fn is_empty(&self) -> bool {
        self.by_name.is_empty()
    }

    /// The function with that name.
    pub fn named(&self, name: &str) -> Option<Callee> {
        self.by_name.get(name).copied()
    }
}
