//! Why a text can't be read.

ghost use Rattle.std.specs.Prelude.{ℕ, ◌≤◌};

use std::alloc::{AllocError, AllocFailed};
use std::error::Error;
use std::fmt;

/// What a text needs where it has something else.
#[derive(Clone, Copy, Debug)]
pub enum Expected {
    /// What the words say.
    Words(&'static str),
    /// A word or a sign.
    Token(&'static str),
    /// A number up to the bound.
    NumberUpTo(u64),
    /// The block with the number.
    NextBlock(usize),
    /// The instruction with the number.
    NextInst(usize),
    /// No second line of a kind.
    NoSecond(&'static str),
    /// The first word of a line, and the word that was meant, if a caller knows it; `read` names none.
    LineBeginning(Option<&'static str>),
}

impl fmt::Display for Expected {
    ghost use Rattle.std.specs.Prelude.{Some};
    ghost use Rattle.regalloc2_text.specs.TextErrors.{expected_text};

    ghost output = { λ e. Some (expected_text e) };

    fn fmt<W: fmt::Write>(&self, f: &mut fmt::Formatter<W>) -> fmt::Result {
        match self {
            Expected::Words(words) => write!(f, "{words}"),
            Expected::Token(text) => write!(f, "`{text}`"),
            Expected::NumberUpTo(max) => {
                let bound = u128::from(*max) + 1;
                write!(f, "a number below {bound}")
            }
            Expected::NextBlock(number) => write!(f, "`block{number}`, the next number"),
            Expected::NextInst(number) => write!(f, "`inst{number}`, the next number"),
            Expected::NoSecond(name) => write!(f, "no second `{name}` line"),
            Expected::LineBeginning(None) => write!(f, "the beginning of a line"),
            Expected::LineBeginning(Some(near)) => write!(f, "the beginning of a line (`{near}`?)"),
        }
    }
}

/// What stands where a text can't be read.
#[derive(Clone, Copy, Debug)]
pub enum Found<'t> {
    /// A word, a number or a sign.
    Token(&'t str),
    /// A character that begins no word, number or sign.
    Character(char),
    /// The line ends.
    LineEnd,
    /// The text ends.
    TextEnd,
    /// No instruction.
    Nothing,
}

/// The most characters of a token that a message shows.
const SHOWN: usize = 60;

/// Returns the part of `token` that a message shows, and `..` if the token is longer.
fn shown(token: &str) -> (&str, &'static str) {
    match token.get(..SHOWN) {
        Some(front) if front.len() < token.len() => (front, ".."),
        _ => (token, ""),
    }
}

impl fmt::Display for Found<'_> {
    fn fmt<W: fmt::Write>(&self, f: &mut fmt::Formatter<W>) -> fmt::Result {
        match self {
            Found::Token(text) => {
                let (front, rest) = shown(text);
                write!(f, "`{front}{rest}`")
            }
            Found::Character(c) => write!(f, "{c:?}"),
            Found::LineEnd => f.write_str("the end of the line"),
            Found::TextEnd => f.write_str("the end of the text"),
            Found::Nothing => f.write_str("none"),
        }
    }
}

/// The first place at which a text can't be read.
#[derive(Clone, Copy, Debug)]
pub struct TextFault<'t> {
    /// The line, counted from the number that the caller gives the first one.
    pub line: usize,
    /// The column in bytes, counted from 1.
    pub column: usize,
    /// What the text needs there.
    pub expected: Expected,
    /// What stands there.
    pub found: Found<'t>,
    pub ghost from_one: { 1 ≤ column },
}

impl fmt::Display for TextFault<'_> {
    fn fmt<W: fmt::Write>(&self, f: &mut fmt::Formatter<W>) -> fmt::Result {
        let TextFault {
            line,
            column,
            expected,
            found,
        } = self;
        write!(f, "{line}:{column}: expected {expected}, found {found}")
    }
}

impl Error for TextFault<'_> {}

/// Why a text is not read.
#[derive(Clone, Copy, Debug)]
pub enum TextError<'t> {
    /// A line can't be read.
    Fault(TextFault<'t>),
    /// Out of memory.
    Memory,
}

impl fmt::Display for TextError<'_> {
    fn fmt<W: fmt::Write>(&self, f: &mut fmt::Formatter<W>) -> fmt::Result {
        match self {
            TextError::Fault(fault) => fmt::Display::fmt(fault, f),
            TextError::Memory => f.write_str("out of memory"),
        }
    }
}

impl Error for TextError<'_> {}

impl From<AllocError> for TextError<'_> {
    fn from(_refused: AllocError) -> Self {
        TextError::Memory
    }
}

impl<T: Drop> From<AllocFailed<T>> for TextError<'_> {
    fn from(_refused: AllocFailed<T>) -> Self {
        TextError::Memory
    }
}

/// Why a line can't be read.
#[derive(Clone, Copy)]
pub enum LineError<'t> {
    /// A token doesn't fit.
    Fault(LineFault<'t>),
    /// Out of memory.
    Memory,
}

/// The first token of a line that doesn't fit.
#[derive(Clone, Copy)]
pub struct LineFault<'t> {
    /// The column in bytes, counted from 1.
    pub column: usize,
    /// What the line needs there.
    pub expected: Expected,
    /// What stands there.
    pub found: Found<'t>,
    pub ghost from_one: { 1 ≤ column },
}

impl<'t> LineError<'t> {
    ghost use Rattle.regalloc2_text.specs.Cursor.Lines.{IsOnLineBetween};

    /// A token that doesn't fit, at `column`, which is at least 1.
    pub fn new(column: usize, expected: Expected, found: Found<'t>) -> Self
        requires { 1 ≤ column }
    {
        LineError::Fault(LineFault {
            column,
            expected,
            found,
        })
    }

    /// Returns the error of a text whose line `line` has this error.
    pub fn on_line(self, line: usize) -> TextError<'t>
        ensures { (first : ℕ) → (last : ℕ) → first ≤ line → line ≤ last → IsOnLineBetween first last result }
    {
        match self {
            LineError::Fault(
                LineFault {
                    column,
                    expected,
                    found,
                },
            ) => TextError::Fault(TextFault {
                line,
                column,
                expected,
                found,
            }),
            LineError::Memory => TextError::Memory,
        }
    }
}

impl From<AllocError> for LineError<'_> {
    fn from(_refused: AllocError) -> Self {
        LineError::Memory
    }
}

impl<T: Drop> From<AllocFailed<T>> for LineError<'_> {
    fn from(_refused: AllocFailed<T>) -> Self {
        LineError::Memory
    }
}
