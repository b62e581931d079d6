//! A function, its machine and an output from a text.

ghost use Rattle.std.specs.Prelude.{ℕ, ◌+◌, ◌≤◌, length, IfErr, IfOk};
ghost use Rattle.regalloc2_text.specs.Cursor.Lines.{IsOnLineBetween};

mod blocks;
mod draft;
mod dump;
mod function;
mod insts;
mod machine;
mod output;
mod settings;
mod stored;

use crate::cursor::{
    Expected, Found, LineError, TextError, Token, is_numbered, split_line, tokenize_from,
};
use draft::{Draft, LineEffect};
pub use dump::is_logged;
use dump::shown_part;
pub(crate) use dump::split_prefix;
use regalloc2_function::StoredOutput;
use regalloc2_serialize::StoredFunction;
use std::alloc::{Allocator, Global};

/// A function with its machine, and an output where the text has one.
#[derive(Debug, Drop)]
pub struct Text<A: Allocator = Global> {
    /// The function and its machine.
    pub function: StoredFunction<A>,
    /// The output of its allocation.
    pub output: Option<StoredOutput<A>>,
}

/// Returns whether a line, given as `tokens`, begins a block.
fn begins_block(tokens: &[Token<'_>]) -> bool {
    match tokens.first() {
        Some(token) => is_numbered(token.text, "block"),
        None => false,
    }
}

/// Returns the line of the last move without a point, after `line` had the effect `effect`. Up to `line` it was
/// `before`.
fn last_move(effect: LineEffect, line: usize, before: usize) -> usize
    ensures low { before ≤ line → before ≤ result }
    ensures high { before ≤ line → result ≤ line }
{
    if effect == LineEffect::Waits {
        line
    } else {
        before
    }
}

/// Returns the error for the move on line `line`: no instruction of its block follows it.
fn no_inst_after<'t>(line: usize) -> TextError<'t>
    ensures { (first : ℕ) → (last : ℕ) → first ≤ line → line ≤ last → IsOnLineBetween first last result }
{
    let expected = Expected::Words(
        "an instruction of the block after this move (or `at` and a point)",
    );
    LineError::new(1, expected, Found::Nothing).on_line(line)
}

/// Reads the lines of a text, whose first line has the number `first_line`, into a draft (what the
/// lines so far say), by way of `tokens`. Returns the number of the last line.
fn read_lines<'t, A: Allocator + Copy>(
    draft: &mut Draft<A>,
    alloc: A,
    tokens: &mut Vec<Token<'t>, A>,
    text: &'t str,
    first_line: usize,
) -> Result<usize, TextError<'t>>
    ensures on_line { IfErr result (λ e. IsOnLineBetween first_line (first_line + length text.now) e) }
    ensures from { IfOk result (λ line. first_line ≤ line) }
    ensures until { IfOk result (λ line. line ≤ first_line + length text.now) }
{
    let mut rest = text;
    let mut line = first_line;
    // Whether an instruction is to follow the move on the line `move_line`.
    let mut waits = false;
    let mut move_line = first_line;
    loop {
        let (content, after) = split_line(rest);
        let (part, column) = shown_part(content);
        if let Err(error) = tokenize_from(part, column, tokens) {
            return Err(error.on_line(line));
        }
        if waits && begins_block(tokens.as_slice()) {
            return Err(no_inst_after(move_line));
        }
        let effect = match draft.read_line(alloc, tokens.as_slice()) {
            Ok(effect) => effect,
            Err(error) => return Err(error.on_line(line)),
        };
        move_line = last_move(effect, line, move_line);
        waits = effect == LineEffect::Waits || (waits && effect == LineEffect::Nothing);
        let Some(after) = after else { break };
        rest = after;
        line = line.saturating_add(1);
    }
    if waits {
        return Err(no_inst_after(move_line));
    }
    Ok(line)
}

/// Reads `text`, whose first line has the number `first_line`.
///
/// A line may also be one in which upstream prints a block, an instruction or a move of its
/// results, behind what a logger wrote in brackets. If instructions are written so, the count of
/// slots is by default that up to the last one named.
///
/// The first line that can't be read is named in the error, or `Memory` is returned where a memory
/// allocation failed. An error is on a line of the text and names a column from 1 on; the contract
/// bounds its line by the text's length in bytes. Whether the function and the output are well
/// formed is not checked, nor does the contract say what is read.
pub fn read<'t, A: Allocator + Copy>(
    alloc: A,
    text: &'t str,
    first_line: usize,
) -> Result<Text<A>, TextError<'t>>
    ensures { IfErr result (λ e. IsOnLineBetween first_line (first_line + length text.now) e) }
{
    let mut draft = Draft::new(alloc);
    let mut tokens = Vec::new(alloc);
    let line = read_lines(&mut draft, alloc, &mut tokens, text, first_line)?;
    match draft.finish(alloc) {
        Ok(text) => Ok(text),
        Err(error) => Err(error.on_line(line)),
    }
}
