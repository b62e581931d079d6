//! The whole walk, and the output.

ghost use Rattle.std.specs.Prelude.{map, IfOk, IfErr, OnOk};
ghost use Rattle.regalloc2_function.specs.Stored.{location_of};
ghost use Rattle.regalloc2_function.specs.Views.{edit_of, machine_of, output_of};
ghost use Rattle.regalloc2_function.specs.WellFormed.{IsWellFormed};
ghost use Rattle.regalloc2_function.specs.Fitting.{MachineFits};
ghost use Rattle.regalloc2_fastalloc.specs.Guarantee.{IsAllocation};
ghost use Rattle.regalloc2_fastalloc.specs.Survey.{LacksIfPassed, IsSurvey};
ghost use Rattle.regalloc2_fastalloc.specs.BeforeSteps.{IsBeforeFilling};
ghost use Rattle.regalloc2_fastalloc_walk.specs.Findings.{AllPassTests};

use super::debug;
use super::survey::{Survey, validate_unless_passed};
use regalloc2_fastalloc_walk::state::State;
use regalloc2_function::table_length::table_length;
use regalloc2_function::{Edit, Function, MachineEnv, Output};
use regalloc2_names::{Allocation, ProgPoint, RegAllocError};
use regalloc2_semantics::reads_the_same_numbers;
use std::alloc::Allocator;

/// The parts of an output beside the places: how many units slots take, the moves as they are
/// listed, and the debug locations.
#[derive(Drop)]
struct Rest<A: Allocator> {
    num_spillslots: usize,
    edits: Vec<(ProgPoint, Edit), A>,
    debug_locations: Vec<(u32, ProgPoint, ProgPoint, Allocation), A>,
}

/// Walks from a fresh state and fills in the place of each operand in `allocs`. Returns the rest of
/// the output.
fn fill_places<A: Allocator + Copy, F: Function, B: Allocator>(
    alloc: A,
    f: &F,
    env: &MachineEnv<B>,
    offsets: &[u32],
    allocs: &mut [Allocation],
    wanted: &[bool],
) -> Result<Rest<A>, RegAllocError>
    requires { IsBeforeFilling (F.function f.now) (machine_of env.now) offsets.now allocs.old wanted.now }
    ensures allocation { IfOk result (λ rest. IsAllocation (F.function f.now) (machine_of env.now)
        (record {
          num_spillslots = rest.num_spillslots;
          edits = map edit_of rest.edits.items;
          allocs = allocs.new;
          offsets = offsets.now;
          debug_locations = map location_of rest.debug_locations.items;
        })) }
    ensures passes { OnOk result (AllPassTests (F.function f.now)) }
    ensures err { IfErr result (LacksIfPassed (F.function f.now) (machine_of env.now)) }
{
    let vregs = table_length(f);
    let mut state = State::new(&alloc, f, env, vregs, wanted)?;
    let mut found = state.alloc_blocks(alloc, f, offsets, allocs)?;
    // the walk's tables are freed first, because locating labels takes tables by vreg, too
    drop(state.places);
    drop(state.registers);
    validate_unless_passed(f, found.passes)?;
    // the walk goes backward
    found.changed.reverse();
    let debug_locations = debug::locations(
        alloc,
        f,
        &state.slots,
        offsets,
        allocs,
        wanted,
        &found.changed,
    )?;
    let num_spillslots = state.slots.num_units();
    drop(found);
    // the slots are freed before the moves are listed: a listed move takes more memory than a kept one
    drop(state.slots);
    let edits = state.edits.listed(alloc)?;
    // a lemma, which the contract needs: the call does nothing
    reads_the_same_numbers();
    Ok(Rest {
        num_spillslots,
        edits,
        debug_locations,
    })
}

/// Allocates registers to the operands of the well-formed function `f`, of which `survey` is the survey. Returns an
/// error if some instruction fails an operand test, though perhaps another error than that test's.
pub fn allocate<A: Allocator + Copy, F: Function, B: Allocator>(
    alloc: A,
    f: &F,
    env: &MachineEnv<B>,
    survey: Survey<A>,
) -> Result<Output<A>, RegAllocError>
    requires machine { MachineFits (F.function f.now) (machine_of env.now) }
    requires well_formed { IsWellFormed (machine_of env.now) (F.function f.now) }
    requires survey { IsSurvey (F.function f.now) survey.offsets.items survey.total survey.wanted.items }
    ensures allocation { IfOk result (λ out. IsAllocation (F.function f.now) (machine_of env.now) (output_of out)) }
    ensures passes { OnOk result (AllPassTests (F.function f.now)) }
    ensures err { IfErr result (LacksIfPassed (F.function f.now) (machine_of env.now)) }
{
    let Survey {
        offsets,
        total,
        wanted,
    } = survey;
    let mut allocs = vec![in alloc; Allocation::none(); total as usize]?;
    let rest = fill_places(alloc, f, env, &offsets, &mut allocs, &wanted)?;
    Ok(Output {
        num_spillslots: rest.num_spillslots,
        edits: rest.edits,
        allocs,
        inst_alloc_offsets: offsets,
        debug_locations: rest.debug_locations,
    })
}
