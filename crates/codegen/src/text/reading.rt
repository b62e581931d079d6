//! A module from a text.

ghost use Rattle.std.specs.Prelude.{◌+◌, ◌≤◌, length, IfErr, IfOk};
ghost use Rattle.regalloc2_text.specs.Cursor.Lines.{IsOnLineBetween};

use super::functions::Functions;
use super::module::ModuleDraft;
use codegen_machine::Module;
use regalloc2_text::cursor::{TextError, Token, split_line, tokenize};
use std::alloc::Global;

/// Reads the lines of a text, whose first line has the number `first_line`, into a draft. Returns
/// the number of the last.
fn read_lines<'t>(
    alloc: Global,
    draft: &mut ModuleDraft<'t>,
    text: &'t str,
    first_line: usize,
) -> Result<usize, TextError<'t>>
    ensures on_line { IfErr result (λ e. IsOnLineBetween first_line (first_line + length text.now) e) }
    ensures from { IfOk result (λ line. first_line ≤ line) }
    ensures until { IfOk result (λ line. line ≤ first_line + length text.now) }
{
    let mut tokens: Vec<Token<'t>> = Vec::new(alloc);
    let mut rest = text;
    let mut line = first_line;
    'lines: loop {
        let (content, after) = split_line(rest);
        if let Err(error) = tokenize(content, &mut tokens) {
            return Err(error.on_line(line));
        }
        if let Err(error) = draft.read_line(alloc, tokens.as_slice()) {
            return Err(error.on_line(line));
        }
        let Some(after) = after else { break };
        rest = after;
        line = line.saturating_add(1);
    }
    Ok(line)
}

/// Reads a module from a text whose first line has the number `first_line`. A text that names no
/// function is a module of one, whose name is empty.
///
/// The error names the first line of a function that can't be read, or else the first line that
/// can't be read, or is `Memory` if an allocation failed. An error names a line of the text and a
/// column from 1 on; the contract bounds its line by the text's length in bytes. The functions
/// aren't checked to be well-formed. The contract doesn't specify the module that is read: tests
/// check that.
pub fn read_module<'t>(
    alloc: Global,
    text: &'t str,
    first_line: usize,
) -> Result<Module, TextError<'t>>
    ensures { IfErr result (λ e. IsOnLineBetween first_line (first_line + length text.now) e) }
{
    let functions = match Functions::of(alloc, text, first_line) {
        Ok(functions) => functions,
        Err(error) => return Err(error),
    };
    let mut draft = ModuleDraft::new(alloc, functions);
    let line = match read_lines(alloc, &mut draft, text, first_line) {
        Ok(line) => line,
        Err(error) => return Err(error),
    };
    match draft.finish(alloc) {
        Ok(module) => Ok(module),
        Err(error) => Err(error.on_line(line)),
    }
}
