//! What the calls that check an output do.

ghost use Rattle.std.specs.Prelude.{◌≡◌, ◌⊎◌, ◌↔◌, IsTrue, All, IfOk, IfErr, OnOk, map};
ghost use Rattle.regalloc2.specs.PlaceBits.{IsPlaceBits, place_of_bits};
ghost use Rattle.regalloc2.specs.Views.{machine_of, output_of, edit_of};
ghost use Rattle.regalloc2.specs.OutputValue.{IsInOrder};
ghost use Rattle.regalloc2.specs.Faithful.{IsFaithful};
ghost use Rattle.regalloc2.specs.Stored.{NamesMove, NamesValues};
ghost use Rattle.regalloc2.specs.WellFormed.{IsFramed};
ghost use Rattle.regalloc2_checker.specs.Cells.{AreCells};
ghost use Rattle.regalloc2_c.specs.Faults.{IsCheckerVerdict, IsVerdict};
ghost use Rattle.regalloc2_c.specs.Outcome.{AreOutputWords, AreMovesOf, ArePartsOf, IsOutput, NumbersNameOutput, NamesNoMoves, NamesNoOutput};
ghost use Rattle.regalloc2_c.specs.Outcome.{IsNoStoredOutput, IsAcceptedOutput, IsCheckFailure, IsJudgeFound};

use super::failure::{Failure, failure_to_read};
use super::faults::{Judged, failure_of_cells, failure_of_errors, failure_to_prepare};
use super::reading::function_from_words;
use regalloc2::serialize::{StoredFault, StoredOutput};
use regalloc2::{Allocation, Edit, Function, MachineEnv, Output, ProgPoint, is_framed};
use regalloc2_checker::{check_output, test_cells};
use regalloc2_serialize::flat::value_of;
use std::alloc::Global;

/// The parts of an output, as a caller keeps them.
#[derive(Clone, Copy)]
pub struct Parts<'a> {
    /// How many units the slots take.
    pub num_spillslots: u64,
    /// Moves of three words: a point, the place that is read, and the place that is written.
    pub moves: &'a [u32],
    /// The places of all operands.
    pub places: &'a [u32],
    /// For each instruction, where its places begin.
    pub offsets: &'a [u32],
}

/// Runs the checker on `output`.
pub fn checked<F: Function>(
    alloc: Global,
    f: &F,
    env: &MachineEnv,
    output: &Output,
) -> Result<(), Failure>
    requires framed { IsFramed (F.function f.now) }
    ensures ok { OnOk result (IsInOrder (F.function f.now) (output_of output.now)
        × IsFaithful (F.function f.now) (machine_of env.now) (output_of output.now)) }
    ensures err { IfErr result (IsCheckerVerdict (F.function f.now) (machine_of env.now) (output_of output.now)) }
{
    match check_output(alloc, f, env, output) {
        Ok(errors) => {
            if errors.is_empty() {
                return Ok(());
            }
            Err(failure_of_errors(alloc, &Judged { f, output }, &errors))
        }
        Err(error) => Err(failure_to_prepare(alloc, &error)),
    }
}

/// Runs the checker on `output`, and tests that its places are cells of their own.
fn judge<F: Function>(
    alloc: Global,
    f: &F,
    env: &MachineEnv,
    output: &Output,
) -> Result<(), Failure>
    requires framed { IsFramed (F.function f.now) }
    ensures ok { OnOk result (IsInOrder (F.function f.now) (output_of output.now)
        × IsFaithful (F.function f.now) (machine_of env.now) (output_of output.now)
        × AreCells (F.function f.now) (machine_of env.now) (output_of output.now)) }
    ensures err { IfErr result (IsVerdict (F.function f.now) (machine_of env.now) (output_of output.now)) }
{
    match checked(alloc, f, env, output) {
        Ok(()) => {}
        Err(failure) => return Err(failure),
    }
    match test_cells(alloc, f, env, output) {
        Ok(()) => Ok(()),
        Err(fault) => Err(failure_of_cells(alloc, fault)),
    }
}

/// Returns the numbers of the output that `words` lay out.
fn stored_output(alloc: Global, words: &[u32]) -> Result<StoredOutput, Failure>
    ensures ok { IfOk result (AreOutputWords words.now) }
    ensures err { IfErr result (IsNoStoredOutput (AreOutputWords words.now)) }
{
    match value_of::<StoredOutput>(alloc, words) {
        Ok(numbers) => Ok(numbers),
        Err(fault) => Err(failure_to_read(fault)),
    }
}

/// Returns whether `point` encodes a point, and `from` and `to` encode places.
fn is_move(point: u32, from: u32, to: u32) -> bool
    ensures { IsTrue result ↔ NamesMove (point, from, to) }
{
    ProgPoint::is_index(point) && Allocation::is_bits(from) && Allocation::is_bits(to)
}

/// Returns the moves that `words` encode, three words each.
fn moves_from(alloc: Global, words: &[u32]) -> Result<Vec<(ProgPoint, Edit)>, Failure>
    ensures ok { IfOk result (λ v. AreMovesOf words.now (map edit_of v.items)) }
    ensures err { IfErr result (NamesNoMoves words.now) }
{
    if words.len() % 3 != 0 {
        return Err(Failure::Unreadable);
    }
    let Ok(mut moves) = Vec::with_capacity(alloc, words.len() / 3) else {
        return Err(Failure::NoMemory);
    };
    for k in 0..words.len() / 3 {
        let (point, from, to) = (words[3 * k], words[3 * k + 1], words[3 * k + 2]);
        if !is_move(point, from, to) {
            return Err(Failure::BadOutput);
        }
        let (from, to) = (Allocation::from_bits(from), Allocation::from_bits(to));
        let Ok(()) = moves.push((ProgPoint::from_index(point), Edit::Move { from, to })) else {
            return Err(Failure::NoMemory);
        };
    }
    Ok(moves)
}

/// Returns the places that `words` encode.
fn places_from(alloc: Global, words: &[u32]) -> Result<Vec<Allocation>, Failure>
    ensures places { IfOk result (λ v. v.items ≡ map place_of_bits words.now) }
    ensures names { IfOk result (λ v. All IsPlaceBits words.now) }
    ensures err { IfErr result (λ e. (e ≡ Failure.NoMemory) ⊎ ((e ≡ Failure.BadOutput) × (All IsPlaceBits words.now → ⊥))) }
{
    let Ok(mut places) = Vec::with_capacity(alloc, words.len()) else {
        return Err(Failure::NoMemory);
    };
    for bits in words {
        if !Allocation::is_bits(*bits) {
            return Err(Failure::BadOutput);
        }
        let Ok(()) = places.push(Allocation::from_bits(*bits)) else {
            return Err(Failure::NoMemory);
        };
    }
    Ok(places)
}

/// Returns a copy of `words`.
fn copy_of(alloc: Global, words: &[u32]) -> Result<Vec<u32>, Failure>
    ensures ok { IfOk result (λ v. v.items ≡ words.now) }
    ensures err { IfErr result (λ e. e ≡ Failure.NoMemory) }
{
    let Ok(mut copy) = Vec::with_capacity(alloc, words.len()) else {
        return Err(Failure::NoMemory);
    };
    match copy.extend_from_slice(words) {
        Ok(()) => Ok(copy),
        Err(_) => Err(Failure::NoMemory),
    }
}

/// Returns the output with the parts `parts`, and without debug locations.
fn output_from_parts(alloc: Global, parts: Parts<'_>) -> Result<Output, Failure>
    ensures ok { IfOk result (λ o. IsOutput (ArePartsOf parts.entry.num_spillslots parts.entry.moves.now parts.entry.places.now
        parts.entry.offsets.now) (output_of o)) }
    ensures err { IfErr result (NamesNoOutput (ArePartsOf parts.entry.num_spillslots parts.entry.moves.now parts.entry.places.now
        parts.entry.offsets.now)) }
{
    let edits = match moves_from(alloc, parts.moves) {
        Ok(edits) => edits,
        Err(failure) => return Err(failure),
    };
    let allocs = match places_from(alloc, parts.places) {
        Ok(allocs) => allocs,
        Err(failure) => return Err(failure),
    };
    match copy_of(alloc, parts.offsets) {
        Ok(inst_alloc_offsets) => Ok(Output {
            num_spillslots: parts.num_spillslots as usize,
            edits,
            allocs,
            inst_alloc_offsets,
            debug_locations: Vec::new(alloc),
        }),
        Err(failure) => Err(failure),
    }
}

/// Returns the output that `numbers` name.
fn output_from(alloc: Global, numbers: &StoredOutput) -> Result<Output, Failure>
    ensures ok { IfOk result (λ o. NumbersNameOutput numbers.now (output_of o)) }
    ensures err { IfErr result (λ e. (e ≡ Failure.NoMemory) ⊎ ((e ≡ Failure.BadOutput) × (NamesValues numbers.now → ⊥))) }
{
    match Output::from_stored(alloc, numbers) {
        Ok(output) => Ok(output),
        Err(StoredFault::Bits) => Err(Failure::BadOutput),
        Err(_) => Err(Failure::NoMemory),
    }
}

/// Checks the output with the numbers `numbers`.
fn judge_numbers<F: Function>(
    alloc: Global,
    f: &F,
    env: &MachineEnv,
    numbers: &StoredOutput,
) -> Result<(), Failure>
    requires framed { IsFramed (F.function f.now) }
    ensures ok { OnOk result (IsAcceptedOutput (λ o. o ≡ numbers.now) (F.function f.now) (machine_of env.now)) }
    ensures err { IfErr result (IsCheckFailure (λ o. o ≡ numbers.now) (F.function f.now) (machine_of env.now)) }
{
    let output = match output_from(alloc, numbers) {
        Ok(output) => output,
        Err(failure) => return Err(failure),
    };
    judge(alloc, f, env, &output)
}

/// Checks the output of `f` that `words` lay out.
pub fn judged<F: Function>(
    alloc: Global,
    f: &F,
    env: &MachineEnv,
    words: &[u32],
) -> Result<(), Failure>
    ensures ok { OnOk result (IsAcceptedOutput (AreOutputWords words.now) (F.function f.now) (machine_of env.now)) }
    ensures err { IfErr result (IsCheckFailure (AreOutputWords words.now) (F.function f.now) (machine_of env.now)) }
{
    if !is_framed(f) {
        return Err(Failure::NotFramed);
    }
    let numbers = match stored_output(alloc, words) {
        Ok(numbers) => numbers,
        Err(failure) => return Err(failure),
    };
    judge_numbers(alloc, f, env, &numbers)
}

/// Checks the output of `f` in `parts`.
fn judged_parts<F: Function>(
    alloc: Global,
    f: &F,
    env: &MachineEnv,
    parts: Parts<'_>,
) -> Result<(), Failure>
    ensures ok { OnOk result (IsAcceptedOutput (ArePartsOf parts.entry.num_spillslots parts.entry.moves.now parts.entry.places.now
        parts.entry.offsets.now) (F.function f.now) (machine_of env.now)) }
    ensures err { IfErr result (IsCheckFailure (ArePartsOf parts.entry.num_spillslots parts.entry.moves.now parts.entry.places.now
        parts.entry.offsets.now) (F.function f.now) (machine_of env.now)) }
{
    if !is_framed(f) {
        return Err(Failure::NotFramed);
    }
    let output = match output_from_parts(alloc, parts) {
        Ok(output) => output,
        Err(failure) => return Err(failure),
    };
    judge(alloc, f, env, &output)
}

/// Checks the output in `parts`, of the function that `words` lay out. If it is accepted, returns no words.
pub fn judged_of_words(alloc: Global, words: &[u32], parts: Parts<'_>) -> Result<Vec<u32>, Failure>
    ensures { IsJudgeFound words.now (ArePartsOf parts.entry.num_spillslots parts.entry.moves.now parts.entry.places.now
        parts.entry.offsets.now) result }
{
    let f = match function_from_words(alloc, words) {
        Ok(f) => f,
        Err(failure) => return Err(failure),
    };
    match judged_parts(alloc, &f, f.machine_env(), parts) {
        Ok(()) => Ok(Vec::new(alloc)),
        Err(failure) => Err(failure),
    }
}
