//! Reads a user's text.

use regalloc2_text::{Expected, Found, Text, TextError, TextFault, read};
use std::alloc::{AllocError, Global};
use strsim::osa_distance;

/// The words that begin a line, `block` and `inst` without their numbers.
static FIRST_WORDS: [&str; 18] = [
    "regs", "others", "scratch", "stack", "sizes", "flags", "entry", "vregs", "block", "op",
    "branch", "ret", "inst", "move", "slots", "debug", "label", "stored",
];

/// The word that begins a line and is nearest to `word`, at most two edits away; the first of
/// several equally near words.
fn nearest_word(alloc: Global, word: &str) -> Result<Option<&'static str>, AllocError> {
    let mut nearest = None;
    let mut bound = 3;
    for known in &FIRST_WORDS {
        let distance = osa_distance(alloc, word, *known)?;
        if distance < bound {
            nearest = Some(*known);
            bound = distance;
        }
    }
    Ok(nearest)
}

/// Returns `fault`, with a suggestion if a word begins no line.
fn suggesting<'t>(alloc: Global, mut fault: TextFault<'t>) -> Result<TextFault<'t>, AllocError> {
    if let (Expected::LineBeginning(None), Found::Token(word)) = (fault.expected, fault.found) {
        fault.expected = Expected::LineBeginning(nearest_word(alloc, word)?);
    }
    Ok(fault)
}

/// Reads `text` as `regalloc2_text::read` does, but the error for a word that begins no line suggests a similar one
/// that does.
pub fn read_text<'t>(
    alloc: Global,
    text: &'t str,
    first_line: usize,
) -> Result<Text, TextError<'t>> {
    match read(alloc, text, first_line) {
        Err(TextError::Fault(fault)) => Err(TextError::Fault(suggesting(alloc, fault)?)),
        result => result,
    }
}
