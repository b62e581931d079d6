//! What `ra2` returns for arguments and a text.

use crate::test_alloc::Refusing;
use regalloc2_tool::ra2::run_program;
use std::alloc::Global;
use std::io::BufWriter;
use std::{fmt, str};

/// The lines that say that memory ran out: first the lines of status 2, on the standard error, then the lines of
/// status 1.
pub static LACKS: [&str; 5] = [
    "ra2: input unreadable\n",
    "ra2: bad function 5\n",
    "ra2: bad output 5\n",
    "refused 11\n",
    "error 13\n",
];

/// What it wrote on each stream, and its status.
#[derive(Drop, PartialEq)]
pub struct Answer {
    pub status: u8,
    out: Vec<u8>,
    err: Vec<u8>,
}

/// Returns the arguments that are between `+` in `line`.
fn words_of(global: Global, line: &str) -> Option<Vec<String>> {
    let mut words = Vec::new(global);
    for word in line.split('+') {
        words.push(String::from_str(global, word).ok()?).ok()?;
    }
    Some(words)
}

/// Runs `ra2` with the arguments between `+` in `line`, the input `text` and the allocator `alloc`.
pub fn ask(global: Global, alloc: &Refusing<Global>, line: &str, text: &[u8]) -> Option<Answer> {
    let words = words_of(global, line)?;
    let out = BufWriter::new(global, Vec::new(global)).ok()?;
    let mut err = Vec::new(global);
    let (status, out) = run_program(global, alloc, words.as_slice(), text, out, &mut err);
    Some(Answer { status, out, err })
}

/// Returns what was written to `stream`, as text.
fn text_of(stream: &[u8]) -> &str {
    str::from_utf8(stream).unwrap_or("no text")
}

/// The status, and what was written.
impl fmt::Display for Answer {
    fn fmt<W: fmt::Write>(&self, f: &mut fmt::Formatter<W>) -> fmt::Result {
        let (status, out, err) = (self.status, text_of(&self.out), text_of(&self.err));
        let broken = if self.keeps_rules() {
            ""
        } else {
            ", which breaks a rule"
        };
        write!(f, "status {status}{broken}\n{out}{err}")
    }
}

impl Answer {
    /// Returns whether what was written is what the status says: for 0 a listing or a verdict; for 1 one
    /// line with a rejection, or errors; for 2 one line, on the standard error. Nothing may say
    /// that memory ran out.
    pub fn keeps_rules(&self) -> bool {
        let (out, err) = (text_of(&self.out), text_of(&self.err));
        let lines = out.lines().count();
        let last = out.lines().last().unwrap_or("");
        match self.status {
            0 if err.is_empty() => last == "checked"
                || last.starts_with("slots ")
                || last.starts_with("debug "),
            1 if err.is_empty() && lines == 1 && last.starts_with("refused ") => last
                != "refused 11",
            1 if err.is_empty() => last.starts_with("error ") && last != "error 13",
            2 => out.is_empty()
                && err.starts_with("ra2: ")
                && err.lines().count() == 1
                && !err.ends_with(" 5\n"),
            _ => false,
        }
    }
    /// Returns the index in [`LACKS`] of the line that was written, after a part of what `ample`, the answer with
    /// ample memory, has.
    pub fn lack(&self, ample: &Answer) -> Option<usize> {
        let (out, err) = (text_of(&self.out), text_of(&self.err));
        let said = match self.status {
            2 if out.is_empty() && err.starts_with("ra2: ") => err,
            1 if err.is_empty() => out,
            _ => return None,
        };
        LACKS.iter().position(|line| {
            let before = said.strip_suffix(*line);
            before.is_some_and(|before| text_of(&ample.out).starts_with(before))
        })
    }
}
