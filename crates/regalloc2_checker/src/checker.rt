//! The checker as its callers see it.

ghost use Rattle.std.specs.Prelude.{◌≡◌, ◌<◌, ◌⊎◌, ◌↔◌, ◌∷◌, [], None, Some, IfOk, IfErr, OnOk, IfSome};
ghost use Rattle.std.specs.Vec.{vec_len, vec_capacity};
ghost use Rattle.std.proofs.Props.{props};
ghost use Rattle.regalloc2_function.specs.OutputValue.{OutputValue, IsInOrder};
ghost use Rattle.regalloc2_function.specs.Views.{output_of, machine_of};
ghost use Rattle.regalloc2_function.specs.WellFormed.{IsFramed};
ghost use Rattle.regalloc2_semantics.specs.Faithful.{IsFaithful};
ghost use Rattle.regalloc2_checker.specs.Report.{IsReport};
ghost use Rattle.regalloc2_checker.specs.FramedIsProp.{framed-once};

use crate::errors::{CheckerError, CheckerErrors};
use crate::find_errors::find_errors;
use crate::output::copied;
use regalloc2_function::{Function, MachineEnv, Output};
use std::alloc::{Allocator, Global};

/// Checks `out` as [`Checker`] does, without a copy. Returns the errors: none if `out` is accepted.
///
/// Fails with `MalformedOutput` exactly where `out` isn't well-ordered, and with `Memory` where a memory allocation
/// failed.
pub fn check_output<F: Function, A: Allocator + Copy, B: Allocator, C: Allocator>(
    alloc: A,
    f: &F,
    env: &MachineEnv<B>,
    out: &Output<C>,
) -> Result<Vec<CheckerError<A>, A>, CheckerError<A>>
    requires { IsFramed (F.function f.now) }
    ensures order { IfOk result (λ es. IsInOrder (F.function f.now) (output_of out.now)) }
    ensures verdict { IfOk result (λ es. (es.items ≡ []) ↔ IsFaithful (F.function f.now) (machine_of env.now) (output_of out.now)) }
    ensures report { IfOk result (λ es. IsReport (F.function f.now) (machine_of env.now) (output_of out.now) es.items) }
    ensures err { IfErr result (λ e. ((e ≡ CheckerError.MalformedOutput) × (IsInOrder (F.function f.now) (output_of out.now) → ⊥))
        ⊎ ((e ≡ CheckerError.Memory) × IsInOrder (F.function f.now) (output_of out.now))) }
{
    if !out.is_in_order(f) {
        return Err(CheckerError::MalformedOutput);
    }
    match find_errors(alloc, f, env, out) {
        Ok(errors) => Ok(errors),
        Err(_) => Err(CheckerError::Memory),
    }
}

/// Checks what an allocation gave for one function on one machine.
///
/// The output is the one that [`Checker::prepare`] was last given, of which the checker holds a copy.
#[derive(Debug, Drop)]
pub struct Checker<'a, F: Function, A: Allocator = Global, B: Allocator = Global> {
    f: &'a F,
    env: &'a MachineEnv<B>,
    alloc: A,
    prepared: Option<Output<A>>,
    room: Vec<CheckerError<A>, A>,
    ghost framed: { IsFramed (F.function f.now) } by { framed-once (F.function f.now) },
    ghost in_order: { IfSome prepared (λ o. IsInOrder (F.function f.now) (output_of o)) } by { Prim.hlevel props },
    ghost empty: { vec_len room ≡ 0 },
    ghost room_for_one: { 0 < vec_capacity room },
}

/// Returns a list of `error` alone, in `room`, which was allocated earlier.
fn single_error<E: Drop, A: Allocator>(mut room: Vec<E, A>, error: E) -> Vec<E, A>
    requires empty { vec_len room ≡ 0 }
    requires space { 0 < vec_capacity room }
    ensures { result.items ≡ error ∷ [] }
{
    room.push_reserved(error);
    room
}

impl<'a, F: Function, A: Allocator + Copy, B: Allocator> Checker<'a, F, A, B> {
    ghost use Rattle.regalloc2_checker.specs.ErrorsFound.{errors_of};
    ghost use Rattle.regalloc2_checker.specs.Prepared.{subject_of, machine_in, output_in};

    /// Returns a checker without an output. Allocates room for one error, and fails with `Memory` if it can't.
    pub fn new(
        alloc: A,
        f: &'a F,
        env: &'a MachineEnv<B>,
    ) -> Result<Checker<'a, F, A, B>, CheckerError<A>>
        requires { IsFramed (F.function f.now) }
        ensures ok { IfOk result (λ c. (subject_of c ≡ f.now) × (machine_in c ≡ machine_of env.now) × (output_in c ≡ None)) }
        ensures err { IfErr result (λ e. e ≡ CheckerError.Memory) }
    {
        match Vec::with_capacity(alloc, 1) {
            Ok(room) => Ok(Checker {
                f,
                env,
                alloc,
                prepared: None,
                room,
            }),
            Err(_) => Err(CheckerError::Memory),
        }
    }

    /// Copies `out`, in place of what was prepared before.
    ///
    /// Fails with `MalformedOutput` exactly where `out` isn't well-ordered, and with `Memory` where a memory allocation
    /// failed. The checker is unprepared then.
    pub fn prepare<C: Allocator>(&mut self, out: &Output<C>) -> Result<(), CheckerError<A>>
        ensures subject { subject_of self.new ≡ subject_of self.old }
        ensures machine { machine_in self.new ≡ machine_in self.old }
        ensures ok { OnOk result (IsInOrder (F.function (subject_of self.old)) (output_of out.now) × (output_in self.new ≡ Some (output_of out.now))) }
        ensures err { IfErr result (λ e. (output_in self.new ≡ None)
            × (((e ≡ CheckerError.MalformedOutput) × (IsInOrder (F.function (subject_of self.old)) (output_of out.now) → ⊥))
            ⊎ ((e ≡ CheckerError.Memory) × IsInOrder (F.function (subject_of self.old)) (output_of out.now)))) }
    {
        self.prepared = None;
        if !out.is_in_order(self.f) {
            return Err(CheckerError::MalformedOutput);
        }
        match copied(self.alloc, out) {
            Ok(copy) => {
                self.prepared = Some(copy);
                Ok(())
            }
            Err(_) => Err(CheckerError::Memory),
        }
    }

    /// Returns the errors of the prepared output: `MalformedOutput` alone if none is prepared, and `Memory` alone if a
    /// memory allocation failed.
    fn found(self) -> Vec<CheckerError<A>, A>
        ensures unprepared { output_in self.entry ≡ None → result.items ≡ CheckerError.MalformedOutput ∷ [] }
        ensures prepared { (o : OutputValue) → output_in self.entry ≡ Some o → (result.items ≡ CheckerError.Memory ∷ [])
            ⊎ IsReport (F.function (subject_of self.entry)) (machine_in self.entry) o result.items }
    {
        let Checker {
            f,
            env,
            alloc,
            prepared,
            room,
        } = self;
        let Some(out) = prepared else {
            return single_error(room, CheckerError::MalformedOutput);
        };
        match find_errors(alloc, f, env, &out) {
            Ok(errors) => errors,
            Err(_) => single_error(room, CheckerError::Memory),
        }
    }

    /// Checks the prepared output: whether on every path each use reads what its vreg has in the function's
    /// own run, every constraint is met, and no move goes from one stack place to another.
    ///
    /// The errors are listed by rising block and instruction, a move's where the move is listed, at
    /// most one for each of an instruction's two positions. Where no output is prepared they are
    /// `MalformedOutput` alone, and where a memory allocation failed `Memory` alone.
    pub fn run(self) -> Result<(), CheckerErrors<A>>
        ensures accepted { OnOk result ((o : OutputValue) × (output_in self.entry ≡ Some o)
            × IsFaithful (F.function (subject_of self.entry)) (machine_in self.entry) o) }
        ensures unprepared { output_in self.entry ≡ None → IfErr result (λ es. errors_of es ≡ CheckerError.MalformedOutput ∷ []) }
        ensures refused { (o : OutputValue) → output_in self.entry ≡ Some o → IfErr result (λ es. (errors_of es ≡ CheckerError.Memory ∷ [])
            ⊎ ((IsFaithful (F.function (subject_of self.entry)) (machine_in self.entry) o → ⊥)
            × IsReport (F.function (subject_of self.entry)) (machine_in self.entry) o (errors_of es))) }
    {
        let errors = self.found();
        if errors.is_empty() {
            return Ok(());
        }
        Err(CheckerErrors::of(errors))
    }
}
