//! The interpreter of a module: frames of its functions, step by step.

ghost use Rattle.std.specs.Prelude.{◌≡◌, ◌<◌, ◌^◌, ◌+◌, ◌∷◌, [], IfOk, IfSome, MatchOption, OnOk, slice_get};
ghost use Rattle.std.specs.Option.{option_map};
ghost use Rattle.codegen_machine.specs.Frames.{call_on, frame_called, frame_stepped, module_begun, module_step, returned_to};
ghost use Rattle.codegen_machine.specs.Meaning.{procedure_step};
ghost use Rattle.codegen_machine.specs.Modules.{procedures_of};
ghost use Rattle.codegen_operation.specs.Numbers.{Running};
ghost use Rattle.codegen_machine.specs.Seen.{function_of_procedure, operations};
ghost use Rattle.codegen.specs.Run.Runs.{arguments_of, IsModuleRun, module_outcome};
ghost use Rattle.codegen.specs.Run.States.{call_value, frame_of, frames_of, frames_outcome, frames_state, state_of};

use super::frame::Frame;
use super::procedure::{State, first_line, no_numbers, numbers_at, put};
use super::standing::{Run, Standing};
use codegen_machine::{Module, Procedure};
use codegen_operation::Operation;
use regalloc2_names::VReg;
use std::alloc::{AllocError, Global};
use std::mem;

/// A call on a line.
#[derive(Clone, Copy)]
pub struct Calling<'a> {
    /// The function's number.
    function: usize,
    /// The vreg that it defines.
    to: VReg,
    /// The arguments.
    arguments: &'a [VReg],
}

/// The running frame, with the module's memory, and the suspended ones, the newest last.
#[derive(Drop)]
pub struct Frames {
    procedure: usize,
    arguments: Vec<u64>,
    state: State,
    callers: Vec<Frame>,
}

/// The call on a line, if there is one.
fn call_on(procedure: &Procedure, inst: usize) -> Option<Calling<'_>>
    ensures value { option_map call_value result ≡ call_on (slice_get (operations procedure.now).items inst) }
    ensures room { IfSome result (λ c. inst + 1 < 2 ^ 64) }
{
    let line = procedure.lines.get(inst)?;
    match &line.operation {
        Operation::Call {
            function,
            to,
            arguments,
        } => Some(Calling {
            function: *function,
            to: *to,
            arguments,
        }),
        _ => None,
    }
}

/// Appends a frame.
fn push(frames: &mut Vec<Frame>, frame: Frame) -> Result<(), AllocError>
    ensures { OnOk result (frames_of frames.new.items ≡ frame_of frame ∷ frames_of frames.old.items) }
{
    frames.push(frame)?;
    Ok(())
}

/// Removes the newest frame.
fn pop(frames: &mut Vec<Frame>) -> Option<Frame>
    ensures { MatchOption result (frames_of frames.old.items ≡ []) (λ f. frames_of frames.old.items ≡ frame_of f ∷ frames_of frames.new.items) }
{
    frames.pop()
}

impl Frames {
    /// The frame of function 0.
    fn new(
        alloc: Global,
        m: &Module,
        arguments: &[u64],
        memory: Vec<u8>,
    ) -> Result<Frames, AllocError>
        ensures { IfOk result (λ f. module_begun (procedures_of m.now.procedures.items) (λ v. 0) (arguments_of arguments.now) memory.items
            ≡ Running (frames_state f)) }
    {
        Ok(Frames {
            procedure: 0,
            arguments: arguments.to_vec(alloc)?,
            state: State::first(alloc, &m.procedures[0].procedure, memory),
            callers: Vec::new(alloc),
        })
    }

    /// Suspends the running frame, and enters a function.
    fn call(
        &mut self,
        alloc: Global,
        m: &Module,
        calling: Calling<'_>,
    ) -> Result<Standing, AllocError>
        requires room { self.old.state.inst + 1 < 2 ^ 64 }
        ensures { IfOk result (λ r. frame_called (procedures_of m.now.procedures.items) (λ v. 0) (frames_state self.old) (call_value calling.entry)
            ≡ frames_outcome r self.new) }
    {
        let Some(callee) = m.procedures.get(calling.function) else {
            return Ok(Standing::Stuck);
        };
        let arguments = numbers_at(alloc, &self.state.numbers, calling.arguments)?;
        let frame = Frame {
            procedure: self.procedure,
            arguments: mem::replace(&mut self.arguments, arguments),
            block: self.state.block,
            inst: self.state.inst,
            numbers: mem::replace(&mut self.state.numbers, no_numbers(alloc)),
            to: calling.to,
        };
        push(&mut self.callers, frame)?;
        self.procedure = calling.function;
        self.state.block = 0;
        self.state.inst = first_line(&callee.procedure, 0);
        Ok(Standing::Running)
    }

    /// Returns a number to the newest suspended frame, which goes on; if there is none, it is the
    /// module's.
    fn give(&mut self, number: u64) -> Result<Standing, AllocError>
        ensures { IfOk result (λ r. returned_to (frames_state self.old).callers number self.old.state.memory.items ≡ frames_outcome r self.new) }
    {
        let Some(frame) = pop(&mut self.callers) else {
            return Ok(Standing::Returned(number));
        };
        self.procedure = frame.procedure;
        self.arguments = frame.arguments;
        self.state.block = frame.block;
        self.state.inst = frame.inst + 1;
        self.state.numbers = frame.numbers;
        put(&mut self.state.numbers, frame.to, number)?;
        Ok(Standing::Running)
    }

    /// Makes a step of the running frame.
    fn step_within(&mut self, alloc: Global, procedure: &Procedure) -> Result<Standing, AllocError>
        ensures { IfOk result (λ r. frame_stepped (frames_state self.old)
            (procedure_step (function_of_procedure procedure.now) (operations procedure.now) (arguments_of self.old.arguments.items) (state_of self.old.state))
            ≡ frames_outcome r self.new) }
    {
        let standing = self.state.step(alloc, procedure, &self.arguments)?;
        match standing {
            Standing::Returned(number) => self.give(number),
            _ => Ok(standing),
        }
    }

    /// Makes a step.
    fn step(&mut self, alloc: Global, m: &Module) -> Result<Standing, AllocError>
        ensures { IfOk result (λ r. module_step (procedures_of m.now.procedures.items) (λ v. 0) (frames_state self.old) ≡ frames_outcome r self.new) }
    {
        let Some(running) = m.procedures.get(self.procedure) else {
            return Ok(Standing::Stuck);
        };
        match call_on(&running.procedure, self.state.inst) {
            Some(calling) => self.call(alloc, m, calling),
            None => self.step_within(alloc, &running.procedure),
        }
    }
}

/// Returns the outcome of running function 0 of a module for `steps` steps, and the memory that it
/// leaves, with 0 in all vregs of new frames. Arguments past the given ones are 0.
pub fn run_module(
    alloc: Global,
    m: &Module,
    arguments: &[u64],
    memory: Vec<u8>,
    steps: u64,
) -> Result<Run, AllocError>
    ensures { IfOk result (IsModuleRun (module_outcome m.now arguments.now memory.items steps)) }
{
    let mut frames = Frames::new(alloc, m, arguments, memory)?;
    for _step in 0..steps {
        let standing = frames.step(alloc, m)?;
        match standing {
            Standing::Running => {}
            _ => {
                let state = frames.state;
                return Ok(Run {
                    standing,
                    memory: state.memory,
                });
            }
        }
    }
    let state = frames.state;
    Ok(Run {
        standing: Standing::Running,
        memory: state.memory,
    })
}
