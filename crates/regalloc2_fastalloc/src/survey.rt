//! One pass over all instructions, before the walk, and the tests of operands.
//!
//! The pass counts operands, and reads none: reading them is most of the work, and so the walk, which
//! reads them anyway, finds whether they pass their tests, and what debug locations need. Where they
//! don't pass, or the walk fails, the tests are made one after the other.

ghost use Rattle.std.specs.Prelude.{◌≡◌, ◌+◌, ◌<◌, ◌^◌, ◌⊎◌, IfOk, IfErr, IsTrue, OnOk, SomeIff};
ghost use Rattle.regalloc2_fastalloc_walk.specs.Findings.{AllPassTests};
ghost use Rattle.regalloc2_fastalloc.specs.Survey.{IsRefusal, IsSurvey, IsSurveyError};

use regalloc2_analysis::live_ranges::marked_labels;
use regalloc2_fastalloc_state::validate::constraints::validate_operands;
use regalloc2_function::{Function, count_operands};
use regalloc2_index::Inst;
use regalloc2_names::RegAllocError;
use std::alloc::Allocator;

/// What one pass over all instructions finds.
#[derive(Drop)]
pub struct Survey<A: Allocator> {
    /// Where the places of each instruction's operands begin.
    pub offsets: Vec<u32, A>,
    /// How many operands there are in all.
    pub total: u32,
    /// By number, whether a label names the vreg. Empty if there are no labels.
    pub wanted: Vec<bool, A>,
}

/// Adds `operands` to `total`, if the sum is below 2^32.
fn add_operands(total: u32, operands: usize) -> Option<u32>
    ensures { SomeIff result (total + operands < 2 ^ 32) (total + operands) }
{
    total.checked_add(u32::try_from(operands).ok()?)
}

/// Makes the pass over `f`. Stops if memory runs out or there are 2^32 operands; the error doesn't
/// tell which.
fn survey_once<A: Allocator + Copy, F: Function>(
    alloc: A,
    f: &F,
) -> Result<Survey<A>, RegAllocError>
    ensures { IfOk result (λ s. IsSurvey (F.function f.now) s.offsets.items s.total s.wanted.items) }
{
    let wanted = marked_labels(alloc, f)?;
    let mut offsets = Vec::with_capacity(alloc, f.num_insts())?;
    let mut total = 0u32;
    for i in 0..f.num_insts() {
        offsets.push(total)?;
        let operands = f.inst_operands(Inst::new(i));
        let Some(next) = add_operands(total, operands.len()) else {
            return Err(RegAllocError::TooManyOperands);
        };
        total = next;
    }
    Ok(Survey {
        offsets,
        total,
        wanted,
    })
}

/// Makes the pass over `f`. The error is `TooManyOperands` if there are 2^32 operands or more, even
/// if memory runs out before they are counted; else it is `Memory`.
pub fn survey_operands<A: Allocator + Copy, F: Function>(
    alloc: A,
    f: &F,
) -> Result<Survey<A>, RegAllocError>
    ensures ok { IfOk result (λ s. IsSurvey (F.function f.now) s.offsets.items s.total s.wanted.items) }
    ensures err { IfErr result (IsSurveyError (F.function f.now)) }
{
    if let Ok(survey) = survey_once(alloc, f) {
        return Ok(survey);
    }
    if count_operands(f).is_none() {
        return Err(RegAllocError::TooManyOperands);
    }
    Err(RegAllocError::Memory)
}

/// Makes the operand tests of `f` one after the other unless `passes` is true, for the error that
/// comes first.
pub fn validate_unless_passed<F: Function>(f: &F, passes: bool) -> Result<(), RegAllocError>
    requires { IsTrue passes → AllPassTests (F.function f.now) }
    ensures passes { OnOk result (AllPassTests (F.function f.now)) }
    ensures refused { IfErr result (IsRefusal (F.function f.now)) }
{
    if passes {
        return Ok(());
    }
    validate_operands(f)
}

/// Returns the error of an allocation that failed with `error`: the refusal of an instruction that fails an
/// operand test comes before what the walk lacked.
pub fn first_error<F: Function>(f: &F, error: RegAllocError) -> RegAllocError
    ensures { IsRefusal (F.function f.now) result ⊎ ((result ≡ error) × AllPassTests (F.function f.now)) }
{
    match validate_operands(f) {
        Ok(()) => error,
        Err(refusal) => refusal,
    }
}
