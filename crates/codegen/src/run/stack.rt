//! The interpreter of a module's code: activations of its functions on a stack, step by step.

ghost use Rattle.std.specs.Prelude.{ℕ, ◌≡◌, ◌<◌, ◌^◌, ◌+◌, ◌∷◌, ◌++◌, [], IfOk, IfSome, MatchOption, OnOk, nat_lt, if◌then◌else◌, map, slice_get, slice_index, vec_len, Some, None};
ghost use Rattle.std.specs.Option.{option_map};
ghost use Rattle.codegen_operation.specs.Numbers.{put};
ghost use Rattle.codegen_operation.specs.Operands.{argument_registers};
ghost use Rattle.codegen_machine.specs.Calls.{StackState, act_on_stack, activation_stepped, functions_of, passed, registers_returned, returned_into};
ghost use Rattle.codegen_machine.specs.Calls.{stack_step, words_of};
ghost use Rattle.codegen_machine.specs.Machine.{code_of, machine_step};
ghost use Rattle.codegen.specs.Run.Runs.{arguments_of, empty_stack, IsStackRun, stack_outcome};
ghost use Rattle.codegen.specs.Run.States.{act_of, function_of, instruction_called, IsSound, machine_state, stack_standing, stack_state, suspensions_of};

use super::machine::{Machine, zeros};
use super::standing::{Run, Standing};
use codegen_machine::{Code, Instruction, ModuleCode, NamedCode};
use std::alloc::{AllocError, Global};
use std::mem;

/// An activation suspended at a call.
#[derive(Drop)]
pub struct Activation {
    function: usize,
    arguments: Vec<u64>,
    pc: usize,
    frame: Vec<u64>,
    outgoing: Vec<u64>,
    registers: [u64; 16],
}

/// The running activation, with all registers, the memory and its outgoing words, the suspended
/// ones, the newest last, and the words that they take of the stack's room.
#[derive(Drop)]
pub struct Stack {
    function: usize,
    arguments: Vec<u64>,
    machine: Machine,
    outgoing: Vec<u64>,
    callers: Vec<Activation>,
    words: u64,
    room: u64,
}

/// What an instruction does to the stack.
pub enum StackAct {
    /// A call of a function.
    Call(usize),
    /// A register put into an outgoing word.
    Pass {
        /// The word.
        index: usize,
        /// The register.
        from: usize,
    },
}

/// What the current instruction does to the stack, if anything.
fn act_on_stack(code: &Code, pc: usize) -> Option<StackAct>
    ensures value { option_map act_of result ≡ act_on_stack (slice_get (code_of code.now).instructions pc) }
    ensures room { IfSome result (λ a. pc + 1 < 2 ^ 64) }
{
    match code.instructions.get(pc)? {
        Instruction::Call { function } => Some(StackAct::Call(*function)),
        Instruction::Pass { index, from } => Some(StackAct::Pass {
            index: *index,
            from: *from,
        }),
        _ => None,
    }
}

/// The words that an activation of a function takes.
fn words_of(function: &NamedCode) -> u128
    ensures value { result ≡ words_of (Some (function_of function.now)) }
    ensures small { result < 2 ^ 66 }
{
    let kept = function.arity.min(6);
    let numbers = kept as u128 + function.code.slots as u128 + function.code.outgoing as u128;
    6 + (numbers + numbers % 2)
}

/// Returns `words` and the words of an activation of `function`, unless the sum exceeds `room`.
fn words_with(function: &NamedCode, words: u64, room: u64) -> Option<u64>
    ensures { let all = words_of (Some (function_of function.now)) + words in result ≡ (if nat_lt room all then None else Some all) }
{
    let all = words_of(function) + u128::from(words);
    if all > u128::from(room) {
        return None;
    }
    Some(all as u64)
}

/// The arguments that a call passes: six in registers, the others in the outgoing words.
fn passed(alloc: Global, registers: &[u64; 16], outgoing: &[u64]) -> Result<Vec<u64>, AllocError>
    ensures items { IfOk result (λ v. v.items ≡ map (λ r. slice_index registers.now r) argument_registers ++ outgoing.now) }
{
    let (first, second, third) = (registers[7], registers[6], registers[2]);
    let (fourth, fifth, sixth) = (registers[1], registers[8], registers[9]);
    let mut arguments = [first, second, third, fourth, fifth, sixth].to_vec(alloc)?;
    arguments.extend_from_slice(outgoing)?;
    Ok(arguments)
}

/// Returns the registers at a return: registers that a callee preserves are as at the call.
fn registers_returned(saved: &[u64; 16], left: &[u64; 16], number: u64) -> [u64; 16]
    ensures { (λ r. slice_index result r) ≡ registers_returned (λ r. slice_index saved.now r) (put (λ r. slice_index left.now r) 0 number) }
{
    let mut registers = *saved;
    registers[0] = number;
    registers[1] = left[1];
    registers[2] = left[2];
    registers[6] = left[6];
    registers[7] = left[7];
    registers[8] = left[8];
    registers[9] = left[9];
    registers[10] = left[10];
    registers[11] = left[11];
    registers
}

/// Appends an activation.
fn push(activations: &mut Vec<Activation>, activation: Activation) -> Result<(), AllocError>
    ensures { OnOk result (activations.new.items ≡ activations.old.items ++ activation ∷ []) }
{
    activations.push(activation)?;
    Ok(())
}

/// Removes the newest activation.
fn pop(activations: &mut Vec<Activation>) -> Option<Activation>
    ensures { MatchOption result ((activations.old.items ≡ []) × (activations.new.items ≡ [])) (λ a. activations.old.items ≡ activations.new.items ++ a ∷ []) }
{
    activations.pop()
}

impl Stack {
    /// Suspends the running activation, and activates a function if the stack has room for it.
    fn call(
        &mut self,
        alloc: Global,
        code: &ModuleCode,
        callee: usize,
    ) -> Result<Standing, AllocError>
        requires sound { IsSound (functions_of code.now.functions.items) self.old }
        requires room { self.old.machine.pc + 1 < 2 ^ 64 }
        ensures sound { OnOk result (IsSound (functions_of code.now.functions.items) self.new) }
        ensures room { OnOk result (self.new.room ≡ self.old.room) }
        ensures step { IfOk result (λ r. (n : ℕ) → instruction_called (functions_of code.now.functions.items) self.old.room (stack_state n self.old) callee
            ≡ stack_standing (n + 1) r self.new) }
    {
        let Some(function) = code.functions.get(callee) else {
            return Ok(Standing::Stuck);
        };
        let Some(words) = words_with(function, self.words, self.room) else {
            return Ok(Standing::Overflowed);
        };
        let registers = self.machine.registers;
        let arguments = passed(alloc, &registers, &self.outgoing)?;
        let frame = zeros(alloc, function.code.slots)?;
        let outgoing = zeros(alloc, function.code.outgoing)?;
        let caller = Activation {
            function: self.function,
            arguments: mem::replace(&mut self.arguments, arguments),
            pc: self.machine.pc + 1,
            frame: mem::replace(&mut self.machine.frame, frame),
            outgoing: mem::replace(&mut self.outgoing, outgoing),
            registers,
        };
        push(&mut self.callers, caller)?;
        self.function = callee;
        self.machine.pc = 0;
        self.machine.registers = [0; 16];
        self.machine.compared = None;
        self.words = words;
        Ok(Standing::Running)
    }

    /// Puts a register into an outgoing word.
    fn pass(&mut self, index: usize, from: usize) -> Standing
        requires room { self.old.machine.pc + 1 < 2 ^ 64 }
        ensures function { self.new.function ≡ self.old.function }
        ensures callers { self.new.callers ≡ self.old.callers }
        ensures words { self.new.words ≡ self.old.words }
        ensures room { self.new.room ≡ self.old.room }
        ensures slots { vec_len self.new.machine.frame ≡ vec_len self.old.machine.frame }
        ensures outgoing { vec_len self.new.outgoing ≡ vec_len self.old.outgoing }
        ensures step { (n : ℕ) → passed (vec_len self.old.outgoing) (stack_state n self.old) index from ≡ stack_standing n result self.new }
    {
        let Some(number) = self.machine.register(from) else {
            return Standing::Stuck;
        };
        if index >= self.outgoing.len() {
            return Standing::Stuck;
        }
        self.outgoing[index] = number;
        self.machine.pc += 1;
        Standing::Running
    }

    /// Returns a number, and leaves these registers, to the newest suspended activation, which
    /// continues; if there is none, the number is the module's.
    fn give(
        &mut self,
        code: &ModuleCode,
        function: &NamedCode,
        left: &[u64; 16],
        number: u64,
    ) -> Standing
        requires sound { IsSound (functions_of code.now.functions.items) self.old }
        requires running { slice_get (functions_of code.now.functions.items) self.old.function ≡ Some (function_of function.now) }
        ensures sound { IsSound (functions_of code.now.functions.items) self.new }
        ensures room { self.new.room ≡ self.old.room }
        ensures step { (s : StackState) → s.state.registers ≡ (λ r. slice_index left.now r) →
            returned_into s (suspensions_of self.old.callers.items) number self.old.machine.memory.items ≡ stack_standing s.activations result self.new }
    {
        let Some(caller) = pop(&mut self.callers) else {
            return Standing::Returned(number);
        };
        let words = self.words;
        let taken = words_of(function) as u64;
        self.words = words - taken;
        self.function = caller.function;
        self.arguments = caller.arguments;
        self.machine.pc = caller.pc;
        self.machine.registers = registers_returned(&caller.registers, left, number);
        self.machine.frame = caller.frame;
        self.outgoing = caller.outgoing;
        self.machine.compared = None;
        Standing::Running
    }

    /// Makes a step of the running activation.
    fn step_within(&mut self, code: &ModuleCode, function: &NamedCode) -> Standing
        requires sound { IsSound (functions_of code.now.functions.items) self.old }
        requires running { slice_get (functions_of code.now.functions.items) self.old.function ≡ Some (function_of function.now) }
        ensures sound { IsSound (functions_of code.now.functions.items) self.new }
        ensures room { self.new.room ≡ self.old.room }
        ensures step { (n : ℕ) → activation_stepped (stack_state n self.old)
            (machine_step (code_of function.now.code) (arguments_of self.old.arguments.items) (machine_state self.old.machine)) ≡ stack_standing n result self.new }
    {
        let left = self.machine.registers;
        let standing = self.machine.step(&function.code, &self.arguments);
        match standing {
            Standing::Returned(number) => self.give(code, function, &left, number),
            _ => standing,
        }
    }

    /// Makes a step.
    fn step(&mut self, alloc: Global, code: &ModuleCode) -> Result<Standing, AllocError>
        requires sound { IsSound (functions_of code.now.functions.items) self.old }
        ensures sound { OnOk result (IsSound (functions_of code.now.functions.items) self.new) }
        ensures room { OnOk result (self.new.room ≡ self.old.room) }
        ensures step { IfOk result (λ r. (n : ℕ) → (k : ℕ) × (stack_step (functions_of code.now.functions.items) (empty_stack self.old.room)
            (stack_state n self.old) ≡ stack_standing k r self.new)) }
    {
        let Some(function) = code.functions.get(self.function) else {
            return Ok(Standing::Stuck);
        };
        match act_on_stack(&function.code, self.machine.pc) {
            Some(StackAct::Call(callee)) => self.call(alloc, code, callee),
            Some(StackAct::Pass { index, from }) => Ok(self.pass(index, from)),
            None => Ok(self.step_within(code, function)),
        }
    }
}

/// A copy of numbers.
fn copied(alloc: Global, numbers: &[u64]) -> Result<Vec<u64>, AllocError>
    ensures { IfOk result (λ v. v.items ≡ numbers.now) }
{
    numbers.to_vec(alloc)
}

/// Returns the outcome of running a module's code for `steps` steps on a stack of `room` words, and
/// the memory that it leaves, with 0 in all registers and slots of new activations. Arguments
/// past the given ones are 0.
pub fn run_module_code(
    alloc: Global,
    code: &ModuleCode,
    arguments: &[u64],
    memory: Vec<u8>,
    room: u64,
    steps: u64,
) -> Result<Run, AllocError>
    ensures { IfOk result (IsStackRun (stack_outcome code.now room arguments.now memory.items steps)) }
{
    let Some(function) = code.functions.get(0) else {
        let standing = Standing::Stuck;
        return Ok(Run { standing, memory });
    };
    let Some(words) = words_with(function, 0, room) else {
        let standing = Standing::Overflowed;
        return Ok(Run { standing, memory });
    };
    let given = copied(alloc, arguments)?;
    let outgoing = zeros(alloc, function.code.outgoing)?;
    let machine = Machine::new(alloc, function.code.slots, memory)?;
    let mut stack = Stack {
        function: 0,
        arguments: given,
        machine,
        outgoing,
        callers: Vec::new(alloc),
        words,
        room,
    };
    for _step in 0..steps {
        let standing = stack.step(alloc, code)?;
        match standing {
            Standing::Running => {}
            _ => {
                let machine = stack.machine;
                return Ok(Run {
                    standing,
                    memory: machine.memory,
                });
            }
        }
    }
    let machine = stack.machine;
    Ok(Run {
        standing: Standing::Running,
        memory: machine.memory,
    })
}
