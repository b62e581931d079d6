//! The allocator and the checker for C, C++ and Rust, over arrays of words, over JSON and over texts.
//!
//! `c/regalloc2_c.h` declares the calls. Nothing checks a caller against it: each pointer names memory of its length,
//! which nothing else writes during the call.
#![tactic(auto)]

ghost use Rattle.std.specs.Prelude.{◌≡◌, ◌≤◌, ◌+◌, length};
ghost use Rattle.regalloc2_c.specs.Status.{version};
ghost use Rattle.regalloc2_c.specs.Outcome.{AreWordsOf, AreUnreadWords, IsJsonOf, IsTextInput, NumbersName, NumbersNameNone, ArePartsOf};
ghost use Rattle.regalloc2_c.specs.Outcome.{IsAllocateOutcome, IsRunOutcome, IsJudgeOutcome, IsCheckOutcome};
ghost use Rattle.regalloc2_c.specs.Texts.{text_of_status, text_of_fault, IsTold};

mod calls;
mod failure;
mod faults;
mod handing;
mod judging;
mod payload;
mod reading;
mod texts;
mod words;

use calls::{allocated_of_json, allocated_of_text, allocated_of_words, tested_of_words};
use failure::number_of;
use handing::hand_out;
use judging::{Parts, judged, judged_of_words};
use reading::function_from_words;
use std::alloc::Global;
use texts::{fault_words, status_words, tell};

/// The version of the layouts of words.
const LAYOUTS: u32 = 2;

/// How many calls there are.
const CALLS: u32 = 9;

/// Returns the version of the layouts in the upper 16 bits, and how many calls there are in the lower 16.
#[unsafe(no_mangle)]
pub extern "C" fn regalloc2_c_version() -> u32
    ensures { result ≡ version }
{
    (LAYOUTS << 16) + CALLS
}

/// Writes what `status` says to `text`, in English, as far as there is room. Returns how many bytes the whole takes.
#[unsafe(no_mangle)]
pub extern "C" fn regalloc2_c_status_text(status: u32, text: &mut [u8]) -> usize
    ensures { IsTold (text_of_status status) text.old text.new result }
{
    tell(status_words(status), text)
}

/// Writes what the fault `number` says to `text`, in English, as far as there is room. Returns how many bytes the
/// whole takes.
#[unsafe(no_mangle)]
pub extern "C" fn regalloc2_c_fault_text(number: u32, text: &mut [u8]) -> usize
    ensures { IsTold (text_of_fault number) text.old text.new result }
{
    tell(fault_words(number), text)
}

/// Allocates registers to the function that `words` lay out, runs the checker on the output, and writes the output's
/// words to `out`.
///
/// Returns 0, or a status that says why there is no output; then the words say what the error is about. `needed` is
/// set to how many words there are: if there is no room for them, nothing is written, and the status is the number of
/// `NoRoom`.
#[unsafe(no_mangle)]
pub extern "C" fn regalloc2_c_allocate(
    alloc: Global,
    words: &[u32],
    out: &mut [u32],
    needed: &mut usize,
) -> u32
    ensures status { result ≤ 31 }
    ensures outcome { IsAllocateOutcome (AreWordsOf words.now) (AreUnreadWords words.now) out.old out.new needed.new result }
{
    hand_out(allocated_of_words(alloc, words), out, needed)
}

/// Does what `regalloc2_c_allocate` does for the function in the JSON text `json`.
#[unsafe(no_mangle)]
pub extern "C" fn regalloc2_c_allocate_json(
    alloc: Global,
    json: &[u8],
    out: &mut [u32],
    needed: &mut usize,
) -> u32
    ensures status { result ≤ 31 }
    ensures outcome { IsAllocateOutcome (NumbersName (IsJsonOf json.now)) (NumbersNameNone (IsJsonOf json.now) 0) out.old out.new needed.new result }
{
    hand_out(allocated_of_json(alloc, json), out, needed)
}

/// Does what `regalloc2_c_allocate` does for the function in `text`. An output in it is ignored.
#[unsafe(no_mangle)]
pub extern "C" fn regalloc2_c_allocate_text(
    alloc: Global,
    text: &[u8],
    out: &mut [u32],
    needed: &mut usize,
) -> u32
    ensures status { result ≤ 31 }
    ensures outcome { IsAllocateOutcome (NumbersName (IsTextInput text.now)) (NumbersNameNone (IsTextInput text.now) (1 + length text.now)) out.old out.new needed.new result }
{
    hand_out(allocated_of_text(alloc, text), out, needed)
}

/// Allocates registers to the function that `words` lay out with all tests, definite assignment among them, and
/// without the checker. Writes the output's words to `out`.
///
/// Returns what `regalloc2_c_allocate` returns, and sets `needed` as it does.
#[unsafe(no_mangle)]
pub extern "C" fn regalloc2_c_run(
    alloc: Global,
    words: &[u32],
    out: &mut [u32],
    needed: &mut usize,
) -> u32
    ensures status { result ≤ 31 }
    ensures outcome { IsRunOutcome words.now out.old out.new needed.new result }
{
    hand_out(tested_of_words(alloc, words), out, needed)
}

/// Runs the checker on an output of the function that `words` lay out, given in parts, and tests that its places are
/// cells of their own.
///
/// Returns 0 if both hold, or a status that says why the output isn't accepted, and writes the words of a list of
/// faults to `out`.
#[unsafe(no_mangle)]
pub extern "C" fn regalloc2_c_judge(
    alloc: Global,
    words: &[u32],
    num_spillslots: u64,
    moves: &[u32],
    places: &[u32],
    offsets: &[u32],
    out: &mut [u32],
    needed: &mut usize,
) -> u32
    ensures status { result ≤ 31 }
    ensures outcome { IsJudgeOutcome words.now (ArePartsOf num_spillslots moves.now places.now offsets.now) out.old out.new needed.new result }
{
    let parts = Parts {
        num_spillslots,
        moves,
        places,
        offsets,
    };
    hand_out(judged_of_words(alloc, words, parts), out, needed)
}

/// Runs the checker on the output that `output` lays out, of the function that `words` lay out, and tests that its
/// places are cells of their own. Returns 0 if both hold, or a status that says why the output isn't accepted.
#[unsafe(no_mangle)]
pub extern "C" fn regalloc2_c_check(alloc: Global, words: &[u32], output: &[u32]) -> u32
    ensures status { result ≤ 31 }
    ensures outcome { IsCheckOutcome words.now output.now result }
{
    let f = match function_from_words(alloc, words) {
        Ok(f) => f,
        Err(failure) => return number_of(&failure),
    };
    match judged(alloc, &f, f.machine_env(), output) {
        Ok(()) => 0,
        Err(failure) => number_of(&failure),
    }
}
