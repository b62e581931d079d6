//! What `ra2` returns for arguments and texts, and where a read or a write fails.

use super::words_of;
use crate::test_alloc::Refusing;
use regalloc2_tool::ra2::run_program;
use std::alloc::Global;
use std::io::{self, BufWriter, ErrorKind, Read, Write};

/// A definition of a vreg, and a return that reads it, for a machine of ten registers.
const TEXT: &str = "{\"machine_env\":{\"preferred_regs_by_class\":[[0,1,2,3,4,5,6,7,8,9],[],[]],\
    \"non_preferred_regs_by_class\":[[],[],[]],\"scratch_by_class\":[null,null,null],\
    \"fixed_stack_slots\":[]},\"entry_block\":0,\"insts\":[\
    {\"op\":\"Op\",\"operands\":[85899345920],\"clobbers\":[]},\
    {\"op\":\"Ret\",\"operands\":[103079215104],\"clobbers\":[]}],\
    \"blocks\":[[0,2]],\"block_preds\":[[]],\"block_succs\":[[]],\
    \"block_params_in\":[[]],\"block_params_out\":[[]],\"num_vregs\":1,\
    \"debug_value_labels\":[],\"spillslot_size\":[1,1,1],\
    \"multi_spillslot_named_by_last_slot\":false,\"allow_multiple_vreg_defs\":false}";

const LISTING: &str =
    "block0:\n  inst0 op: Def: v0i reg [p9i]\n  inst1 ret: Use: v0i reg [p9i]\nslots 0\n";

const CHECKED: &str =
    "block0:\n  inst0 op: Def: v0i reg [p9i]\n  inst1 ret: Use: v0i reg [p9i]\nslots 0\nchecked\n";

const UNREADABLE: &str = "ra2: input unreadable\n";

/// How many bytes a buffer usually has.
const USUAL: usize = 8192;

/// A reader over `text`, of which the read after `sound_reads` others fails.
#[derive(Clone, Copy)]
struct Failing<'a> {
    text: &'a [u8],
    sound_reads: u32,
}

impl<'a> Failing<'a> {
    /// A reader of `text` of which no read fails.
    fn sound(text: &'a [u8]) -> Failing<'a> {
        Failing {
            text,
            sound_reads: u32::MAX,
        }
    }
}

impl Read for Failing<'_> {
    fn read(&mut self, buf: &mut [u8]) -> io::Result<usize> {
        if self.sound_reads == 0 {
            return Err(io::Error::from(ErrorKind::BrokenPipe));
        }
        self.sound_reads = self.sound_reads.saturating_sub(1);
        self.text.read(buf)
    }
}

/// A writer over memory. The write after `sound_writes` others fails, once, and so may each flush. `is_written_again`
/// tells whether a write came after the failed one.
#[derive(Drop)]
struct Faulty {
    text: Vec<u8>,
    sound_writes: u32,
    has_failed: bool,
    is_written_again: bool,
    flushes: bool,
}

impl Faulty {
    fn new(alloc: Global, sound_writes: u32, flushes: bool) -> Faulty {
        Faulty {
            text: Vec::new(alloc),
            sound_writes,
            has_failed: false,
            is_written_again: false,
            flushes,
        }
    }

    /// A writer of which nothing fails.
    fn sound(alloc: Global) -> Faulty {
        Faulty::new(alloc, u32::MAX, true)
    }
}

impl Write for Faulty {
    fn write(&mut self, buf: &[u8]) -> io::Result<usize> {
        if self.sound_writes == 0 && !self.has_failed {
            self.has_failed = true;
            return Err(io::Error::from(ErrorKind::BrokenPipe));
        }
        self.is_written_again = self.has_failed;
        self.sound_writes = self.sound_writes.saturating_sub(1);
        if self.text.extend_from_slice(buf).is_err() {
            return Err(io::Error::from(ErrorKind::OutOfMemory));
        }
        Ok(buf.len())
    }

    fn flush(&mut self) -> io::Result<()> {
        if self.flushes {
            Ok(())
        } else {
            Err(io::Error::from(ErrorKind::BrokenPipe))
        }
    }
}

/// The status that the program returns for the command line `line` and an `input`, and what it writes over a buffer
/// of `capacity` bytes.
fn call(
    alloc: Global,
    line: &str,
    input: Failing<'_>,
    capacity: usize,
    out: Faulty,
    err: &mut Faulty,
) -> io::Result<(u8, Faulty)> {
    let out = BufWriter::with_capacity(alloc, capacity, out)?;
    let words = words_of(alloc, line)?;
    let ample = &Refusing::counting(alloc);
    Ok(run_program(alloc, ample, words.as_slice(), input, out, err))
}

/// Returns whether the program rejects the arguments `line` with `input` by the status 2 and nothing but `err_line`
/// on standard error.
fn is_refused(alloc: Global, line: &str, input: Failing<'_>, err_line: &str) -> io::Result<bool> {
    let mut err = Faulty::sound(alloc);
    let (status, out) = call(alloc, line, input, USUAL, Faulty::sound(alloc), &mut err)?;
    let is_told = err.text.as_slice() == err_line.as_bytes();
    Ok(status == 2 && out.text.is_empty() && is_told)
}

/// Returns whether a call without arguments is rejected.
pub fn no_words(alloc: Global) -> io::Result<bool> {
    let input = Failing::sound(TEXT.as_bytes());
    is_refused(alloc, "", input, "ra2: bad words\n")
}

/// Returns the positions of the `inputs` that aren't rejected.
fn accepted(alloc: Global, inputs: &[Failing<'_>]) -> io::Result<Vec<usize>> {
    let mut accepted = Vec::new(alloc);
    for at in 0..inputs.len() {
        if !is_refused(alloc, "run", inputs[at], UNREADABLE)? {
            accepted.push(at)?;
        }
    }
    Ok(accepted)
}

/// Returns the lengths at which [`TEXT`] can be cut without being rejected.
pub fn accepted_cuts(alloc: Global) -> io::Result<Vec<usize>> {
    let whole = TEXT.as_bytes();
    let mut cut = Vec::new(alloc);
    for length in 0..whole.len() {
        cut.push(Failing::sound(&whole[..length]))?;
    }
    accepted(alloc, &cut)
}

/// Returns the positions of the bytes that are no function and yet aren't rejected.
pub fn accepted_bytes(alloc: Global) -> io::Result<Vec<usize>> {
    let inputs = [
        Failing::sound(b"{"),
        Failing::sound(b"null"),
        Failing::sound(&[34, 255, 34]),
        Failing::sound(&[195, 40]),
    ];
    accepted(alloc, &inputs)
}

/// Returns for which counts of sound reads, 0 and 1, the failed read that follows isn't reported.
pub fn unreported_failed_reads(alloc: Global) -> io::Result<Vec<usize>> {
    let text = TEXT.as_bytes();
    let at_once = Failing {
        text,
        sound_reads: 0,
    };
    let after_one = Failing {
        text,
        sound_reads: 1,
    };
    accepted(alloc, &[at_once, after_one])
}

/// What the program writes and returns if the write after `sound_writes` others fails, over a buffer
/// of `capacity` bytes.
fn answer_faulty(alloc: Global, capacity: usize, sound_writes: u32) -> io::Result<(u8, Faulty)> {
    let input = Failing::sound(TEXT.as_bytes());
    let out = Faulty::new(alloc, sound_writes, true);
    let mut err = Faulty::sound(alloc);
    let (status, out) = call(alloc, "check", input, capacity, out, &mut err)?;
    if !err.text.is_empty() {
        return Ok((u8::MAX, out));
    }
    Ok((status, out))
}

/// How many writes there are over a buffer of `capacity` bytes, if each of them ends the program where it fails.
fn fatal_writes(alloc: Global, capacity: usize) -> io::Result<Option<u32>> {
    for sound_writes in 0..1000u32 {
        let (status, out) = answer_faulty(alloc, capacity, sound_writes)?;
        if !out.has_failed {
            let is_whole = status == 0 && out.text.as_slice() == CHECKED.as_bytes();
            return Ok(is_whole.then_some(sound_writes));
        }
        let is_ended = status == 2 && !out.is_written_again;
        if !is_ended || !CHECKED.as_bytes().starts_with(out.text.as_slice()) {
            break;
        }
    }
    Ok(None)
}

/// Returns `count`, or 5 if it is greater.
fn up_to_five(count: Option<u32>) -> Option<u32> {
    count.map(|count| count.min(5))
}

/// How many writes there are without a buffer, over 16 bytes, and over 8192, where each of them ends the program if
/// it fails. Five stand for five and more.
pub fn writes_up_to_five(alloc: Global) -> io::Result<[Option<u32>; 3]> {
    let unbuffered = fatal_writes(alloc, 0)?;
    let short = fatal_writes(alloc, 16)?;
    let whole = fatal_writes(alloc, USUAL)?;
    Ok([up_to_five(unbuffered), up_to_five(short), up_to_five(whole)])
}

/// The status where the flush fails; whether the listing was written, and no line on the standard error.
pub fn failed_flush(alloc: Global) -> io::Result<(u8, bool, bool)> {
    let input = Failing::sound(TEXT.as_bytes());
    let out = Faulty::new(alloc, u32::MAX, false);
    let mut err = Faulty::sound(alloc);
    let (status, out) = call(alloc, "run", input, USUAL, out, &mut err)?;
    let is_listed = out.text.as_slice() == LISTING.as_bytes();
    Ok((status, is_listed, err.text.is_empty()))
}

/// The status where arguments are rejected, and the line that says so can't be written; whether
/// nothing else is.
pub fn shut_error_stream(alloc: Global) -> io::Result<(u8, bool)> {
    let input = Failing::sound(TEXT.as_bytes());
    let mut shut = Faulty::new(alloc, 0, false);
    let (status, out) = call(alloc, "walk", input, USUAL, Faulty::sound(alloc), &mut shut)?;
    Ok((status, out.text.is_empty()))
}
