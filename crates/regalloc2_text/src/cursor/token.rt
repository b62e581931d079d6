//! The words, numbers and signs of a line.

ghost use Rattle.std.specs.Prelude.{◌<◌, ◌≤◌, length, IfSome};

use super::error::{Expected, Found, LineError};
use std::alloc::Allocator;

/// What a token is.
#[derive(Clone, Copy, PartialEq, Eq)]
pub enum TokenKind {
    /// A letter or `_`, and letters, digits, `_` and `@` after it.
    Word,
    /// Digits.
    Number,
    /// One of `: ; , = ( ) [ ] - -> .. ..=`.
    Sign,
    /// A space or a tab, which is no token.
    Blank,
}

/// A word, a number or a sign of a line.
#[derive(Clone, Copy)]
pub struct Token<'t> {
    /// What it is.
    pub kind: TokenKind,
    /// How it is written.
    pub text: &'t str,
    /// The column in bytes, counted from 1.
    pub column: usize,
    pub ghost from_one: { 1 ≤ column },
}

/// Returns whether `byte` may stand in a word.
fn is_word_byte(byte: u8) -> bool {
    byte.is_ascii_alphanumeric() || byte == b'_' || byte == b'@'
}

/// Returns how many bytes at the front of `bytes` may stand in a word.
fn word_len(bytes: &[u8]) -> usize
    ensures { result ≤ length bytes.now }
{
    for (k, byte) in bytes.iter().enumerate() {
        if !is_word_byte(*byte) {
            return k;
        }
    }
    bytes.len()
}

/// Returns how many digits are at the front of `bytes`.
fn digits_len(bytes: &[u8]) -> usize
    ensures { result ≤ length bytes.now }
{
    for (k, byte) in bytes.iter().enumerate() {
        if !byte.is_ascii_digit() {
            return k;
        }
    }
    bytes.len()
}

/// Returns whether `bytes` are digits.
pub(crate) fn are_digits(bytes: &[u8]) -> bool {
    digits_len(bytes) == bytes.len()
}

/// Returns whether `word` is made of `name` and digits.
pub(crate) fn is_numbered(word: &str, name: &str) -> bool {
    match word.strip_prefix(name) {
        Some(digits) => !digits.is_empty() && are_digits(digits.as_bytes()),
        None => false,
    }
}

/// The number of bytes of the sign that begins with `first`, before the bytes `after`.
fn sign_len(first: u8, after: &[u8]) -> Option<usize>
    ensures { IfSome result (λ len. 1 ≤ len) }
{
    match after {
        [b'.', b'=', ..] if first == b'.' => Some(3),
        [b'.', ..] if first == b'.' => Some(2),
        [b'>', ..] if first == b'-' => Some(2),
        _ if b":;,=()[]-".contains(&first) => Some(1),
        _ => None,
    }
}

/// Returns the kind of the token at the front of `bytes`, and its number of bytes.
fn measured(bytes: &[u8]) -> Option<(TokenKind, usize)>
    ensures { IfSome result (λ found. 1 ≤ found.1) }
{
    let [first, after @ ..] = bytes else {
        return None;
    };
    match *first {
        b' ' | b'\t' => Some((TokenKind::Blank, 1)),
        b'_' | b'a'..=b'z' | b'A'..=b'Z' => Some((TokenKind::Word, 1 + word_len(after))),
        b'0'..=b'9' => Some((TokenKind::Number, 1 + digits_len(after))),
        _ => Some((TokenKind::Sign, sign_len(*first, after)?)),
    }
}

/// Returns the kind and the text of the token or the blank at the front of `text`, and the text after it.
fn split_token(text: &str) -> Option<(TokenKind, &str, &str)>
    ensures { IfSome result (λ parts. length parts.2.now < length text.now) }
{
    let (kind, len) = measured(text.as_bytes())?;
    let (front, after) = text.split_at_checked(len)?;
    Some((kind, front, after))
}

/// Returns `line` without its comment and the carriage return at its end.
pub(crate) fn without_comment(line: &str) -> &str {
    let line = line.strip_suffix('\r').unwrap_or(line);
    match line.split_once('#') {
        Some((front, _)) => front,
        None => line,
    }
}

/// Returns what is at the front of `text`, which is no token.
fn unknown(text: &str) -> Found<'_> {
    match text.chars().next() {
        Some(character) => Found::Character(character),
        None => Found::LineEnd,
    }
}

/// Returns the first line of `text`, and what follows its line feed, if it has one.
pub fn split_line(text: &str) -> (&str, Option<&str>)
    ensures { IfSome result.1 (λ after. length after.now < length text.now) }
{
    match text.split_once('\n') {
        Some((line, after)) => (line, Some(after)),
        None => (text, None),
    }
}

/// Puts the tokens of `line` into `tokens`, in place of what is there.
pub fn tokenize<'t, A: Allocator>(
    line: &'t str,
    tokens: &mut Vec<Token<'t>, A>,
) -> Result<(), LineError<'t>> {
    tokenize_from(line, 1, tokens)
}

/// Puts the tokens of `part`, the part of a line from the column `first_column` on, into `tokens`, in place of what
/// is there.
pub fn tokenize_from<'t, A: Allocator>(
    part: &'t str,
    first_column: usize,
    tokens: &mut Vec<Token<'t>, A>,
) -> Result<(), LineError<'t>>
    requires { 1 ≤ first_column }
{
    tokens.clear();
    let mut rest = without_comment(part);
    let mut column = first_column;
    while !rest.is_empty() {
        let Some((kind, text, after)) = split_token(rest) else {
            return Err(LineError::new(
                column,
                Expected::Words("a word, a number or a sign"),
                unknown(rest),
            ));
        };
        if kind == TokenKind::Number && text.len() > 1 && text.starts_with('0') {
            return Err(LineError::new(
                column,
                Expected::Words("a number without leading zeros"),
                Found::Token(text),
            ));
        }
        if kind != TokenKind::Blank {
            tokens.push(Token { kind, text, column })?;
        }
        column = column.saturating_add(text.len());
        rest = after;
    }
    Ok(())
}
