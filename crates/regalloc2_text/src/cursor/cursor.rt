//! A place among the tokens of a line.

ghost use Rattle.std.specs.Prelude.{◌<◌, ◌≤◌, length, IsTrue, IfSome};
ghost use Rattle.regalloc2_text.specs.Cursor.Cursor.{tokens_left};

use super::error::{Expected, Found, LineError};
use super::token::{Token, TokenKind, are_digits};
use std::alloc::Allocator;

/// A place among the tokens of a line. Reading consumes tokens, and no method goes back.
///
/// The cursor keeps the first error that is found, and no token is left after it: what is read from
/// then on is zeros and empty lists, and `finish` returns the error.
#[derive(Drop)]
pub struct Cursor<'a, 't> {
    /// The tokens of the line.
    tokens: &'a [Token<'t>],
    /// How many of them are read.
    at: usize,
    /// One more than the greatest number of a vreg that was read.
    num_vregs: u64,
    /// Why the line can't be read, where an error was found.
    error: Option<LineError<'t>>,
}

impl<'a, 't> Cursor<'a, 't> {
    /// Returns the place before `tokens`, the tokens of a line; vregs read so far have numbers below `num_vregs`.
    pub fn new(tokens: &'a [Token<'t>], num_vregs: u64) -> Self {
        Cursor {
            tokens,
            at: 0,
            num_vregs,
            error: None,
        }
    }

    /// Returns one more than the greatest number of a vreg that was read.
    pub fn num_vregs(&self) -> u64 {
        self.num_vregs
    }

    /// Records that a vreg with the number `number` was read.
    pub fn show_vreg(&mut self, number: u64)
        ensures { tokens_left self.new ≤ tokens_left self.old }
    {
        self.num_vregs = self.num_vregs.max(number.saturating_add(1));
    }

    /// Returns the next token, if there is one.
    fn next(&self) -> Option<Token<'t>>
        ensures { IfSome result (λ _. self.now.at < length self.now.tokens.now) }
    {
        self.tokens.get(self.at).copied()
    }

    /// Returns the text of the next token, if there is one.
    pub fn peek(&self) -> Option<&'t str> {
        match self.next() {
            Some(token) => Some(token.text),
            None => None,
        }
    }

    /// Returns whether the next token begins with `start`.
    pub fn begins(&self, start: &str) -> bool {
        match self.peek() {
            Some(text) => text.starts_with(start),
            None => false,
        }
    }

    /// Returns the token before the next one, if there is one.
    fn previous(&self) -> Option<Token<'t>> {
        self.tokens.get(self.at.wrapping_sub(1)).copied()
    }

    /// Notes `error`, unless there is an error already.
    pub fn fail(&mut self, error: LineError<'t>)
        ensures { tokens_left self.new ≤ tokens_left self.old }
    {
        self.error = self.error.or(Some(error));
        self.at = self.tokens.len();
    }

    /// Notes that the next token doesn't fit, and that `expected` is needed in its place.
    pub fn fault(&mut self, expected: Expected)
        ensures { tokens_left self.new ≤ tokens_left self.old }
    {
        let (column, found) = match (self.next(), self.previous()) {
            (Some(token), _) => (token.column, Found::Token(token.text)),
            (None, Some(last)) => (last.column.saturating_add(last.text.len()), Found::LineEnd),
            (None, None) => (1, Found::LineEnd),
        };
        self.fail(LineError::new(column, expected, found));
    }

    /// Notes that the next token doesn't fit, and that the words `expected` say what is needed in its place.
    pub fn misfit(&mut self, expected: &'static str)
        ensures { tokens_left self.new ≤ tokens_left self.old }
    {
        self.fault(Expected::Words(expected));
    }

    /// Notes that the token before the next one doesn't fit, and that `expected` is needed in its place.
    pub fn fault_before(&mut self, expected: Expected)
        ensures { tokens_left self.new ≤ tokens_left self.old }
    {
        match self.previous() {
            Some(token) => {
                self.fail(LineError::new(token.column, expected, Found::Token(token.text)));
            }
            None => self.fault(expected),
        }
    }

    /// Notes that the token before the next one doesn't fit, and that the words `expected` say what is needed in its
    /// place.
    pub fn misfit_before(&mut self, expected: &'static str)
        ensures { tokens_left self.new ≤ tokens_left self.old }
    {
        self.fault_before(Expected::Words(expected));
    }

    /// Adds `item` to `list`, or notes that memory is out.
    pub fn push<T: Drop, A: Allocator>(&mut self, list: &mut Vec<T, A>, item: T)
        ensures { tokens_left self.new ≤ tokens_left self.old }
    {
        if let Err(refused) = list.push(item) {
            self.fail(refused.into());
        }
    }

    /// Adds copies of `items` to `list`, or notes that memory is out.
    pub fn extend<A: Allocator>(&mut self, list: &mut Vec<u32, A>, items: &[u32])
        ensures { tokens_left self.new ≤ tokens_left self.old }
    {
        if let Err(refused) = list.extend_from_slice(items) {
            self.fail(refused.into());
        }
    }

    /// Returns `count` empty lists; fewer if memory is out, which is then noted.
    pub fn empty_lists<T: Drop, A: Allocator + Copy>(
        &mut self,
        alloc: A,
        count: usize,
    ) -> Vec<Vec<T, A>, A> {
        let mut lists = Vec::new(alloc);
        for _ in 0..count {
            self.push(&mut lists, Vec::new(alloc));
        }
        lists
    }

    /// Consumes the next token, if there is one.
    pub fn advance(&mut self)
        ensures { tokens_left self.new ≤ tokens_left self.old }
    {
        if self.at < self.tokens.len() {
            self.at += 1;
        }
    }

    /// Consumes the next token if it equals `text`; returns whether it did.
    pub fn has(&mut self, text: &str) -> bool
        ensures left { tokens_left self.new ≤ tokens_left self.old }
        ensures passed { IsTrue result → tokens_left self.new < tokens_left self.old }
    {
        match self.next() {
            Some(token) if token.text == text => {
                self.at += 1;
                true
            }
            _ => false,
        }
    }

    /// Consumes the next token, which has to equal `text`.
    pub fn want(&mut self, text: &'static str)
        ensures { tokens_left self.new ≤ tokens_left self.old }
    {
        if !self.has(text) {
            self.fault(Expected::Token(text));
        }
    }

    /// Requires the line to end here. Returns its first error, if there is one.
    pub fn finish(mut self) -> Result<(), LineError<'t>> {
        if self.next().is_some() {
            self.misfit("the end of the line");
        }
        match self.error {
            Some(error) => Err(error),
            None => Ok(()),
        }
    }

    /// Returns `value` if the line ends here and has no error; else its first error.
    pub(crate) fn finish_with<T: Drop>(self, value: T) -> Result<T, LineError<'t>> {
        self.finish()?;
        Ok(value)
    }

    /// Consumes a number up to `max`, a token of its own, and returns it; 0, with an error, if no such number is next.
    pub fn number(&mut self, max: u64) -> u64
        ensures left { tokens_left self.new ≤ tokens_left self.old }
        ensures up_to { result ≤ max }
    {
        let digits = match self.next() {
            Some(token) if token.kind == TokenKind::Number => token.text,
            _ => {
                self.misfit("a number");
                return 0;
            }
        };
        match digits.parse::<u64>() {
            Ok(number) if number <= max => {
                self.advance();
                number
            }
            _ => {
                self.fault(Expected::NumberUpTo(max));
                0
            }
        }
    }

    /// Consumes a number of 32 bits, a token of its own, and returns it; 0, with an error, if no such number is next.
    pub fn word(&mut self) -> u32
        ensures { tokens_left self.new ≤ tokens_left self.old }
    {
        self.number(u64::from(u32::MAX)) as u32
    }

    /// Consumes a word of `name` and a number of 32 bits, as `inst3`, and returns the number; 0, with an error, if no
    /// such word is next. `expected` says what the word names.
    pub fn named(&mut self, name: &str, expected: &'static str) -> u32
        ensures { tokens_left self.new ≤ tokens_left self.old }
    {
        let word = self.peek().unwrap_or("");
        let digits = word.strip_prefix(name).unwrap_or("");
        if !is_numeral(digits) {
            self.misfit(expected);
            return 0;
        }
        match digits.parse::<u32>() {
            Ok(number) => {
                self.advance();
                number
            }
            Err(_) => {
                self.fault(Expected::NumberUpTo(u64::from(u32::MAX)));
                0
            }
        }
    }
}

/// Returns whether `text` is a number without leading zeros.
pub(crate) fn is_numeral(text: &str) -> bool {
    match text.as_bytes() {
        [b'0'] => true,
        [b'1'..=b'9', digits @ ..] => are_digits(digits),
        _ => false,
    }
}
