//! The interpreter of a function, step by step.

ghost use Rattle.std.specs.Prelude.{◌≡◌, ◌<◌, ◌^◌, ◌+◌, IfOk, OnOk, Some, if◌then◌else◌, length, map};
ghost use Rattle.regalloc2_function.specs.FunctionValue.{block_at};
ghost use Rattle.regalloc2_semantics.specs.Runs.{first_of, arguments_at, assigned, passed};
ghost use Rattle.codegen_operation.specs.Numbers.{condition_holds, divided_at, division_traps, is_within, number_at, widened, with_number, Trapped};
ghost use Rattle.codegen_machine.specs.Meaning.{along, count_number, done, onward, right_number, stored, procedure_run, procedure_step};
ghost use Rattle.codegen_machine.specs.Seen.{function_of_procedure, operations};
ghost use Rattle.codegen.specs.Run.Runs.{arguments_of, first_state, IsProcedureRun};
ghost use Rattle.codegen.specs.Run.States.{numbers_by_vreg, procedure_outcome, state_of};

use super::memory::{is_within, number_at, put_number};
use super::numbers::{argument, compute_at, divided_at, does_hold, does_trap, shift_at, widened};
use super::standing::{Run, Standing};
use codegen_machine::Procedure;
use codegen_operation::{Bytes, Condition, Count, DivisionPart, Operation, Right, Width};
use regalloc2_function::Function;
use regalloc2_index::Block;
use regalloc2_names::VReg;
use std::alloc::{AllocError, Global};
use std::collections::HashMap;
use std::hash::{BuildHasherDefault, FoldHasher};

/// The numbers of the virtual registers written so far, by the vregs' encodings. The others are 0.
pub type Numbers = HashMap<u32, u64, BuildHasherDefault<FoldHasher>>;

/// The current line of a run, the numbers of the vregs, and memory.
#[derive(Drop)]
pub struct State {
    pub block: usize,
    pub inst: usize,
    pub numbers: Numbers,
    pub memory: Vec<u8>,
}

/// The number of a vreg.
fn number_of(numbers: &Numbers, vreg: VReg) -> u64
    ensures { result ≡ numbers_by_vreg numbers.now vreg }
{
    numbers.get(&(vreg.bits() as u32)).copied().unwrap_or(0)
}

/// The numbers of vregs at the start of a frame: all are 0.
pub fn no_numbers(alloc: Global) -> Numbers
    ensures { numbers_by_vreg result ≡ (λ v. 0) }
{
    HashMap::new(alloc)
}

/// Puts a number into a vreg.
pub fn put(numbers: &mut Numbers, vreg: VReg, number: u64) -> Result<(), AllocError>
    ensures { OnOk result (numbers_by_vreg numbers.new ≡ assigned (numbers_by_vreg numbers.old) vreg number) }
{
    numbers.insert(vreg.bits() as u32, number)?;
    Ok(())
}

/// The numbers of vregs.
pub fn numbers_at(alloc: Global, numbers: &Numbers, vregs: &[VReg]) -> Result<Vec<u64>, AllocError>
    ensures { IfOk result (λ ns. ns.items ≡ map (numbers_by_vreg numbers.now) vregs.now) }
{
    vregs
        .iter()
        .map(|vreg| number_of(numbers, *vreg))
        .collect(alloc)
}

/// Assigns the arguments to the parameters, all in parallel.
fn pass(
    alloc: Global,
    numbers: &mut Numbers,
    params: &[VReg],
    arguments: &[VReg],
) -> Result<(), AllocError>
    ensures { OnOk result (numbers_by_vreg numbers.new
        ≡ passed params.now arguments.now (numbers_by_vreg numbers.old) (numbers_by_vreg numbers.old)) }
{
    let values = numbers_at(alloc, numbers, arguments)?;
    for at in 0..params.len().min(values.len()) {
        put(numbers, params[at], values[at])?;
    }
    Ok(())
}

/// The arguments for the successor of a block at a position.
fn arguments_for(procedure: &Procedure, block: Block, position: usize) -> &[VReg]
    requires { block < length (function_of_procedure procedure.now).blocks }
    ensures { result.now ≡ arguments_at (function_of_procedure procedure.now) block position }
{
    match procedure.parts[block.index()].arguments.get(position) {
        Some(arguments) => arguments,
        None => &[],
    }
}

/// The parameters of a block.
fn params_of(procedure: &Procedure, block: usize) -> &[VReg]
    ensures { result.now ≡ (block_at (function_of_procedure procedure.now) block).params }
{
    if block < procedure.num_blocks() {
        procedure.block_params(Block::new(block))
    } else {
        &[]
    }
}

/// The number of a block's first line.
pub fn first_line(procedure: &Procedure, block: usize) -> usize
    ensures { result ≡ (first_of (function_of_procedure procedure.now) block).inst }
{
    if block >= procedure.num_blocks() {
        return 0;
    }
    let range = procedure.block_insns(Block::new(block));
    range.end().index() - range.len()
}

impl State {
    /// The state before the first step.
    pub fn first(alloc: Global, procedure: &Procedure, memory: Vec<u8>) -> State
        ensures { state_of result ≡ first_state procedure.now memory.items }
    {
        State {
            block: 0,
            inst: first_line(procedure, 0),
            numbers: no_numbers(alloc),
            memory,
        }
    }

    /// The number of a vreg.
    fn number(&self, vreg: VReg) -> u64
        ensures { result ≡ (state_of self.now).numbers vreg }
    {
        number_of(&self.numbers, vreg)
    }

    /// The value of a second number.
    fn right(&self, right: Right) -> u64
        ensures { result ≡ right_number (numbers_by_vreg self.now.numbers) right }
    {
        match right {
            Right::VReg(vreg) => self.number(vreg),
            Right::Number(number) => u64::from(number),
        }
    }

    /// The value of a shift count.
    fn count(&self, count: Count) -> u64
        ensures { result ≡ count_number (numbers_by_vreg self.now.numbers) count }
    {
        match count {
            Count::VReg(vreg) => self.number(vreg),
            Count::Number(number) => u64::from(number),
        }
    }

    /// Whether a condition holds.
    fn holds(&self, width: Width, condition: Condition, left: VReg, right: Right) -> bool
        ensures { result ≡ condition_holds condition (widened width (numbers_by_vreg self.now.numbers left))
            (widened width (right_number (numbers_by_vreg self.now.numbers) right)) }
    {
        let (left, right) = (self.number(left), self.right(right));
        does_hold(condition, widened(width, left), widened(width, right))
    }

    /// Continues at the block's next line, with a vreg written.
    fn write(&mut self, to: VReg, number: u64) -> Result<Standing, AllocError>
        requires room { self.old.inst + 1 < 2 ^ 64 }
        ensures { IfOk result (λ r. onward (state_of self.old) to number ≡ procedure_outcome r self.new) }
    {
        put(&mut self.numbers, to, number)?;
        self.inst += 1;
        Ok(Standing::Running)
    }

    /// Continues at the next line with a result of a division in a vreg, or traps.
    fn divide(
        &mut self,
        width: Width,
        part: DivisionPart,
        is_signed: bool,
        to: VReg,
        left: u64,
        right: u64,
    ) -> Result<Standing, AllocError>
        requires room { self.old.inst + 1 < 2 ^ 64 }
        ensures { IfOk result (λ r. (if division_traps width is_signed left right then Trapped (state_of self.old).memory
            else onward (state_of self.old) to (divided_at width part is_signed left right))
            ≡ procedure_outcome r self.new) }
    {
        if does_trap(width, is_signed, left, right) {
            return Ok(Standing::Trapped);
        }
        self.write(to, divided_at(width, part, is_signed, left, right))
    }

    /// Continues at the next line with a number from memory in a vreg, or traps.
    fn load(&mut self, bytes: Bytes, to: VReg, address: u64) -> Result<Standing, AllocError>
        requires room { self.old.inst + 1 < 2 ^ 64 }
        ensures { IfOk result (λ r. (if is_within (state_of self.old).memory bytes address
            then onward (state_of self.old) to (number_at bytes (state_of self.old).memory address)
            else Trapped (state_of self.old).memory) ≡ procedure_outcome r self.new) }
    {
        if !is_within(&self.memory, bytes, address) {
            return Ok(Standing::Trapped);
        }
        let number = number_at(&self.memory, bytes, address as usize);
        self.write(to, number)
    }

    /// Continues at the next line with a number in memory, or traps.
    fn store(&mut self, bytes: Bytes, address: u64, number: u64) -> Standing
        requires room { self.old.inst + 1 < 2 ^ 64 }
        ensures { (if is_within (state_of self.old).memory bytes address
            then stored (state_of self.old) (with_number bytes (state_of self.old).memory address number)
            else Trapped (state_of self.old).memory) ≡ procedure_outcome result self.new }
    {
        if !is_within(&self.memory, bytes, address) {
            return Standing::Trapped;
        }
        put_number(&mut self.memory, bytes, address as usize, number);
        self.inst += 1;
        Standing::Running
    }

    /// Continues at the successor at a position.
    fn enter(
        &mut self,
        alloc: Global,
        procedure: &Procedure,
        position: usize,
    ) -> Result<Standing, AllocError>
        ensures { IfOk result (λ r. along (function_of_procedure procedure.now) (state_of self.old) position ≡ procedure_outcome r self.new) }
    {
        if self.block >= procedure.num_blocks() {
            return Ok(Standing::Stuck);
        }
        let block = Block::new(self.block);
        let Some(succ) = procedure.block_succs(block).get(position) else {
            return Ok(Standing::Stuck);
        };
        let succ = succ.index();
        let arguments = arguments_for(procedure, block, position);
        pass(
            alloc,
            &mut self.numbers,
            params_of(procedure, succ),
            arguments,
        )?;
        self.block = succ;
        self.inst = first_line(procedure, succ);
        Ok(Standing::Running)
    }

    /// Makes the step of an operation.
    fn perform(
        &mut self,
        alloc: Global,
        procedure: &Procedure,
        operation: &Operation,
        arguments: &[u64],
    ) -> Result<Standing, AllocError>
        requires room { self.old.inst + 1 < 2 ^ 64 }
        ensures { IfOk result (λ r. done (function_of_procedure procedure.now) (arguments_of arguments.now) (Some operation.now) (state_of self.old)
            ≡ procedure_outcome r self.new) }
    {
        match *operation {
            Operation::Argument { to, index } => self.write(to, argument(arguments, index)),
            Operation::Constant { to, value } => self.write(to, value),
            Operation::Copy { to, from } => {
                let number = self.number(from);
                self.write(to, number)
            }
            Operation::Compute {
                width,
                operator,
                to,
                left,
                right,
            } => {
                let number = compute_at(width, operator, self.number(left), self.right(right));
                self.write(to, number)
            }
            Operation::Shift {
                width,
                operator,
                to,
                left,
                count,
            } => {
                let number = shift_at(width, operator, self.number(left), self.count(count));
                self.write(to, number)
            }
            Operation::Divide {
                width,
                part,
                is_signed,
                to,
                left,
                right,
            } => {
                let (left, right) = (self.number(left), self.number(right));
                self.divide(width, part, is_signed, to, left, right)
            }
            Operation::Compare {
                width,
                condition,
                to,
                left,
                right,
            } => {
                let holds = self.holds(width, condition, left, right);
                self.write(to, u64::from(holds))
            }
            Operation::Select {
                to,
                condition,
                yes,
                no,
            } => {
                let taken = if self.number(condition) == 0 { no } else { yes };
                let number = self.number(taken);
                self.write(to, number)
            }
            Operation::Load { bytes, to, address } => {
                let address = self.number(address);
                self.load(bytes, to, address)
            }
            Operation::Store {
                bytes,
                address,
                value,
            } => {
                let (address, number) = (self.number(address), self.number(value));
                Ok(self.store(bytes, address, number))
            }
            Operation::Jump => self.enter(alloc, procedure, 0),
            Operation::BranchIf { value } => {
                let position = usize::from(self.number(value) == 0);
                self.enter(alloc, procedure, position)
            }
            Operation::BranchIfHolds {
                width,
                condition,
                left,
                right,
            } => {
                let holds = self.holds(width, condition, left, right);
                self.enter(alloc, procedure, usize::from(!holds))
            }
            Operation::Call { .. } => Ok(Standing::Stuck),
            Operation::Return { value } => Ok(Standing::Returned(self.number(value))),
        }
    }

    /// Makes a step: that of the current line.
    pub fn step(
        &mut self,
        alloc: Global,
        procedure: &Procedure,
        arguments: &[u64],
    ) -> Result<Standing, AllocError>
        ensures { IfOk result (λ r. procedure_step (function_of_procedure procedure.now) (operations procedure.now) (arguments_of arguments.now) (state_of self.old)
            ≡ procedure_outcome r self.new) }
    {
        match procedure.lines.get(self.inst) {
            Some(line) => self.perform(alloc, procedure, &line.operation, arguments),
            None => Ok(Standing::Stuck),
        }
    }
}

/// Returns the outcome of running a function for `steps` steps, and the memory that it leaves,
/// with 0 in all vregs at the start. Arguments past the given ones are 0.
pub fn run_procedure(
    alloc: Global,
    procedure: &Procedure,
    arguments: &[u64],
    memory: Vec<u8>,
    steps: u64,
) -> Result<Run, AllocError>
    ensures { IfOk result (IsProcedureRun (procedure_run (function_of_procedure procedure.now) (operations procedure.now)
        (arguments_of arguments.now) steps (first_state procedure.now memory.items))) }
{
    let mut state = State::first(alloc, procedure, memory);
    for _step in 0..steps {
        let standing = state.step(alloc, procedure, arguments)?;
        match standing {
            Standing::Running => {}
            _ => {
                return Ok(Run {
                    standing,
                    memory: state.memory,
                });
            }
        }
    }
    Ok(Run {
        standing: Standing::Running,
        memory: state.memory,
    })
}
