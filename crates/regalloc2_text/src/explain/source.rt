//! The lines of a text that hold blocks, instructions and moves.

use crate::cursor::{is_numbered, without_comment};
use crate::explain::cause::Site;
use crate::reading::split_prefix;
use std::fmt;

/// The text of a function, to look up its blocks, instructions and moves.
#[derive(Clone, Copy)]
pub struct Source<'t> {
    /// The text before a line's number, as `loop.txt:`; nothing if lines have no numbers, because the
    /// function was read from JSON.
    pub name: Option<&'t str>,
    /// The text.
    pub text: &'t str,
    /// The number of its first line.
    pub first_line: usize,
}

/// A part of a text.
#[derive(Clone, Copy)]
pub struct SourceLine<'t> {
    /// The text before the line's number.
    name: Option<&'t str>,
    /// The line's number.
    pub number: usize,
    /// The column in bytes, counted from 1, at which the part begins.
    pub column: usize,
    /// The line, without comment and blanks at both ends.
    pub words: &'t str,
}

/// As `loop.txt:12:20: op: Def: v0i reg`, or the line alone if it has no number.
impl fmt::Display for SourceLine<'_> {
    fn fmt<W: fmt::Write>(&self, f: &mut fmt::Formatter<W>) -> fmt::Result {
        let SourceLine {
            name,
            number,
            column,
            words,
        } = self;
        match name {
            Some(name) => write!(f, "{name}{number}:{column}: {words}"),
            None => f.write_str(words),
        }
    }
}

/// Returns the bytes of a text before the byte index `at`, and the bytes from `at` on.
fn split(text: &str, at: usize) -> (&str, &str) {
    text.split_at_checked(at).unwrap_or((text, ""))
}

/// Returns `line` without a logger's prefix in brackets.
fn unlogged(line: &str) -> &str {
    split_prefix(line).0
}

/// Returns how many blanks `line` begins with.
fn indent_of(line: &str) -> usize {
    for (k, byte) in line.as_bytes().iter().enumerate() {
        if *byte != b' ' && *byte != b'\t' {
            return k;
        }
    }
    line.len()
}

/// Returns how many letters and digits `line` begins with.
fn word_len(line: &str) -> usize {
    for (k, byte) in line.as_bytes().iter().enumerate() {
        if !byte.is_ascii_alphanumeric() {
            return k;
        }
    }
    line.len()
}

/// Returns the first word of `line`.
fn first_word(line: &str) -> &str {
    let (_, words) = split(line, indent_of(line));
    split(words, word_len(words)).0
}

/// Returns whether `line` shows an instruction. A dump's line for a move begins with `inst3-`, and
/// is none.
fn is_inst(line: &str) -> bool {
    let word = first_word(line);
    if is_numbered(word, "inst") {
        let (_, behind) = split(line, indent_of(line).saturating_add(word.len()));
        return !behind.starts_with('-');
    }
    word == "op" || word == "branch" || word == "ret"
}

/// Returns whether `line` shows a block.
fn is_block(line: &str) -> bool {
    is_numbered(first_word(line), "block")
}

/// Returns whether `line` shows a move. A dump's line of a move begins with the move's point and a colon.
fn is_move(line: &str) -> bool {
    let shown = without_comment(line);
    match shown.split_once(':') {
        Some((_, behind)) => first_word(behind) == "move",
        None => first_word(shown) == "move",
    }
}

/// A kind of lines.
#[derive(Clone, Copy)]
enum LineKind {
    Block,
    Inst,
    Move,
}

impl LineKind {
    /// Returns whether `line` is of the kind.
    fn has(self, line: &str) -> bool {
        match self {
            LineKind::Block => is_block(line),
            LineKind::Inst => is_inst(line),
            LineKind::Move => is_move(line),
        }
    }
}

/// Returns the length of `line` up to its operands.
///
/// The head ends with the first colon or, in a dump, where a colon follows the instruction's number, with the opcode.
fn head_len(line: &str) -> usize {
    let Some((front, behind)) = line.split_once(':') else {
        return line.len();
    };
    let len = front.len().saturating_add(1);
    if !is_numbered(front.trim(), "inst") {
        return len;
    }
    let opcode = first_word(behind).len();
    len.saturating_add(indent_of(behind)).saturating_add(opcode)
}

/// Returns the index in `line` at which its operand `k` begins. The first operand follows the line's head, each other
/// operand a comma outside brackets.
fn operand_start(line: &str, k: usize) -> usize {
    let head = head_len(line);
    let (_, operands) = split(line, head);
    let mut next = 0usize;
    let mut depth = 0usize;
    for (at, byte) in operands.bytes().enumerate() {
        match byte {
            b'(' | b'[' => depth = depth.saturating_add(1),
            b')' | b']' => depth = depth.saturating_sub(1),
            b',' if depth == 0 => next = next.saturating_add(1),
            b' ' => {}
            _ if next == k && depth == 0 => return head.saturating_add(at),
            _ => {}
        }
    }
    indent_of(line)
}

impl<'t> Source<'t> {
    /// Returns the part of `line`, with the number `number`, from the index `start` after a logger's prefix on.
    fn part(&self, number: usize, line: &'t str, start: usize) -> SourceLine<'t> {
        let (shown, column) = split_prefix(line);
        SourceLine {
            name: self.name,
            number,
            column: column.saturating_add(start),
            words: without_comment(shown).trim(),
        }
    }

    /// Returns the line `k` of `kind`, with its index.
    fn nth(&self, kind: LineKind, k: usize) -> Option<(usize, &'t str)> {
        let mut before = 0usize;
        for (index, line) in self.text.lines().enumerate() {
            if kind.has(unlogged(line)) {
                if before == k {
                    return Some((index, line));
                }
                before = before.saturating_add(1);
            }
        }
        None
    }

    /// Returns the line `k` of `kind`, from the operand `operand` on if one is given.
    fn nth_part(&self, kind: LineKind, k: usize, operand: Option<usize>) -> Option<SourceLine<'t>> {
        let (index, line) = self.nth(kind, k)?;
        let shown = unlogged(line);
        let start = match operand {
            Some(operand) => operand_start(shown, operand),
            None => indent_of(shown),
        };
        let number = self.first_line.saturating_add(index);
        Some(self.part(number, line, start))
    }

    /// Returns the location of `site` in the text, if it has a line. Linear in the text.
    pub fn find(&self, site: Site) -> Option<SourceLine<'t>> {
        match site {
            Site::Function => None,
            Site::Block(block) => self.nth_part(LineKind::Block, block, None),
            Site::Inst(inst) => self.nth_part(LineKind::Inst, inst, None),
            Site::Operand(inst, operand) => self.nth_part(LineKind::Inst, inst, Some(operand)),
            Site::Move(index) => self.nth_part(LineKind::Move, index, None),
        }
    }
}
