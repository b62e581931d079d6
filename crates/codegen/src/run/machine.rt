//! The machine, step by step.

ghost use Rattle.std.specs.Prelude.{◌≡◌, ◌+◌, ◌<◌, ◌^◌, IfOk, true, nat_lt, if◌then◌else◌, replicate, vec_len};
ghost use Rattle.codegen_operation.specs.Numbers.{computed_at, condition_holds, extended, shifted_at, truth, widened};
ghost use Rattle.codegen_machine.specs.Machine.{code_of, compared_to, divides, executed, is_general, jumped, machine_run, machine_step};
ghost use Rattle.codegen_machine.specs.Machine.{frame_stored, guarded, memory_read, memory_written, with_compared, with_register, with_source, written};
ghost use Rattle.codegen.specs.Run.Runs.{arguments_of, first_machine, IsMachineRun};
ghost use Rattle.codegen.specs.Run.States.{machine_outcome, machine_state, source_number, MakesOutcome};

use super::memory::{is_within, number_at, put_number};
use super::numbers::{
    argument, compute_at, divided_at, does_hold, does_trap, extended, shift_at, widened,
};
use super::standing::{Run, Standing};
use codegen_machine::{Code, Instruction, Source};
use codegen_operation::{Bytes, Condition, DivisionPart, Operator, ShiftOperator, Width};
use std::alloc::{AllocError, Global};

/// The machine's state: the current instruction, the numbers in registers and slots, the numbers
/// last compared, unless an instruction has clobbered them, and memory.
#[derive(Drop)]
pub struct Machine {
    pub pc: usize,
    pub registers: [u64; 16],
    pub frame: Vec<u64>,
    pub compared: Option<(u64, u64)>,
    pub memory: Vec<u8>,
}

/// Whether a register holds numbers.
fn is_for_numbers(register: usize) -> bool
    ensures { result ≡ is_general register }
{
    register < 15 && register != 4
}

impl Machine {
    /// Returns the state before the first step, with a frame of `slots` slots.
    pub fn new(alloc: Global, slots: usize, memory: Vec<u8>) -> Result<Machine, AllocError>
        ensures state { IfOk result (λ m. machine_state m ≡ first_machine memory.items) }
        ensures frame { IfOk result (λ m. vec_len m.frame ≡ slots) }
    {
        Ok(Machine {
            pc: 0,
            registers: [0; 16],
            frame: zeros(alloc, slots)?,
            compared: None,
            memory,
        })
    }

    /// The number in a register.
    pub fn register(&self, register: usize) -> Option<u64>
        ensures { result ≡ (if is_general register then Some ((machine_state self.now).registers register) else None) }
    {
        if is_for_numbers(register) {
            self.registers.get(register).copied()
        } else {
            None
        }
    }

    /// The number in a slot.
    fn slot(&self, slot: usize) -> Option<u64>
        ensures { result ≡ (if nat_lt slot (vec_len self.now.frame) then Some ((machine_state self.now).frame slot) else None) }
    {
        self.frame.get(slot).copied()
    }

    /// The number of a source.
    fn source(&self, source: Source) -> Option<u64>
        ensures { result ≡ source_number (vec_len self.now.frame) (machine_state self.now) source }
    {
        match source {
            Source::Register(register) => self.register(register),
            Source::Slot(slot) => self.slot(slot),
            Source::Number(number) => Some(u64::from(number)),
        }
    }

    /// Continues at the next instruction, with a register written.
    fn write(&mut self, to: usize, number: u64, compared: Option<(u64, u64)>) -> Option<Standing>
        requires room { self.old.pc + 1 < 2 ^ 64 }
        ensures { MakesOutcome (written (machine_state self.old) to number compared) self.old self.new result }
    {
        if !is_for_numbers(to) {
            return None;
        }
        self.registers[to] = number;
        self.compared = compared;
        self.pc += 1;
        Some(Standing::Running)
    }

    /// Copies a register or a slot into a register.
    fn fetch(&mut self, to: usize, from: Source) -> Option<Standing>
        requires room { self.old.pc + 1 < 2 ^ 64 }
        ensures { let s = machine_state self.old in
            MakesOutcome (with_source (vec_len self.old.frame) s from (λ n. written s to n s.compared)) self.old self.new result }
    {
        let number = self.source(from)?;
        let compared = self.compared;
        self.write(to, number, compared)
    }

    /// Copies a register into a slot.
    fn store(&mut self, slot: usize, from: usize) -> Option<Standing>
        requires room { self.old.pc + 1 < 2 ^ 64 }
        ensures { let s = machine_state self.old in
            MakesOutcome (with_register s from (λ n. frame_stored (vec_len self.old.frame) s slot n)) self.old self.new result }
    {
        let number = self.register(from)?;
        if slot >= self.frame.len() {
            return None;
        }
        self.frame[slot] = number;
        self.pc += 1;
        Some(Standing::Running)
    }

    /// Computes with a register.
    fn compute(
        &mut self,
        width: Width,
        operator: Operator,
        to: usize,
        from: Source,
    ) -> Option<Standing>
        requires room { self.old.pc + 1 < 2 ^ 64 }
        ensures { let s = machine_state self.old in MakesOutcome (with_register s to (λ a. with_source (vec_len self.old.frame) s from
            (λ b. written s to (computed_at width operator a b) None))) self.old self.new result }
    {
        let left = self.register(to)?;
        let right = self.source(from)?;
        self.write(to, compute_at(width, operator, left, right), None)
    }

    /// Shifts a register by a number.
    fn shift_by(
        &mut self,
        width: Width,
        operator: ShiftOperator,
        to: usize,
        count: u64,
    ) -> Option<Standing>
        requires room { self.old.pc + 1 < 2 ^ 64 }
        ensures { let s = machine_state self.old in
            MakesOutcome (with_register s to (λ a. written s to (shifted_at width operator a count) None)) self.old self.new result }
    {
        let number = self.register(to)?;
        self.write(to, shift_at(width, operator, number, count), None)
    }

    /// Shifts a register by the number in register 1.
    fn shift(&mut self, width: Width, operator: ShiftOperator, to: usize) -> Option<Standing>
        requires room { self.old.pc + 1 < 2 ^ 64 }
        ensures { let s = machine_state self.old in MakesOutcome (with_register s to (λ a. with_register s 1
            (λ n. written s to (shifted_at width operator a n) None))) self.old self.new result }
    {
        let number = self.register(to)?;
        let count = self.register(1)?;
        self.write(to, shift_at(width, operator, number, count), None)
    }

    /// Extends register 0 into register 2.
    fn extend_sign(&mut self, width: Width) -> Option<Standing>
        requires room { self.old.pc + 1 < 2 ^ 64 }
        ensures { let s = machine_state self.old in MakesOutcome (written s 2 (extended width true (s.registers 0)) s.compared) self.old self.new result }
    {
        let (number, compared) = (extended(width, true, self.registers[0]), self.compared);
        self.write(2, number, compared)
    }

    /// Divides the number in register 0.
    fn divide_by(&mut self, width: Width, is_signed: bool, divisor: u64) -> Option<Standing>
        requires room { self.old.pc + 1 < 2 ^ 64 }
        ensures { MakesOutcome (divides (machine_state self.old) width is_signed divisor) self.old self.new result }
    {
        let dividend = self.registers[0];
        if self.registers[2] != extended(width, is_signed, dividend) {
            return None;
        }
        if does_trap(width, is_signed, dividend, divisor) {
            return Some(Standing::Trapped);
        }
        let quotient = divided_at(width, DivisionPart::Quotient, is_signed, dividend, divisor);
        let remainder = divided_at(width, DivisionPart::Remainder, is_signed, dividend, divisor);
        self.registers[0] = quotient;
        self.registers[2] = remainder;
        self.compared = None;
        self.pc += 1;
        Some(Standing::Running)
    }

    /// Divides the number in register 0 by the number of a source.
    fn divide(&mut self, width: Width, is_signed: bool, from: Source) -> Option<Standing>
        requires room { self.old.pc + 1 < 2 ^ 64 }
        ensures { let s = machine_state self.old in
            MakesOutcome (with_source (vec_len self.old.frame) s from (λ b. divides s width is_signed b)) self.old self.new result }
    {
        let divisor = self.source(from)?;
        self.divide_by(width, is_signed, divisor)
    }

    /// Sets the numbers last compared.
    fn compare(&mut self, left: u64, right: u64) -> Option<Standing>
        requires room { self.old.pc + 1 < 2 ^ 64 }
        ensures { MakesOutcome (compared_to (machine_state self.old) left right) self.old self.new result }
    {
        self.compared = Some((left, right));
        self.pc += 1;
        Some(Standing::Running)
    }

    /// Compares a register with a number.
    fn compare_to(&mut self, width: Width, left: usize, right: Source) -> Option<Standing>
        requires room { self.old.pc + 1 < 2 ^ 64 }
        ensures { let s = machine_state self.old in MakesOutcome (with_register s left (λ a. with_source (vec_len self.old.frame) s right
            (λ b. compared_to s (widened width a) (widened width b)))) self.old self.new result }
    {
        let left = self.register(left)?;
        let right = self.source(right)?;
        self.compare(widened(width, left), widened(width, right))
    }

    /// Sets a register to 1 if a condition holds, else to 0.
    fn set(&mut self, to: usize, condition: Condition) -> Option<Standing>
        requires room { self.old.pc + 1 < 2 ^ 64 }
        ensures { let s = machine_state self.old in MakesOutcome (with_compared s.compared
            (λ a b. written s to (truth (condition_holds condition a b)) s.compared)) self.old self.new result }
    {
        let compared = self.compared;
        let (left, right) = compared?;
        let number = u64::from(does_hold(condition, left, right));
        self.write(to, number, compared)
    }

    /// Puts a number into a register if a condition holds.
    fn move_if(&mut self, condition: Condition, to: usize, from: Source) -> Option<Standing>
        requires room { self.old.pc + 1 < 2 ^ 64 }
        ensures { let s = machine_state self.old in MakesOutcome (with_compared s.compared (λ a b. with_register s to (λ x.
            with_source (vec_len self.old.frame) s from (λ y. written s to (if condition_holds condition a b then y else x) s.compared))))
            self.old self.new result }
    {
        let compared = self.compared;
        let (left, right) = compared?;
        let kept = self.register(to)?;
        let taken = self.source(from)?;
        let number = if does_hold(condition, left, right) {
            taken
        } else {
            kept
        };
        self.write(to, number, compared)
    }

    /// Traps unless the number in a register is below a limit.
    fn guard(&mut self, address: usize, limit: usize) -> Option<Standing>
        requires room { self.old.pc + 1 < 2 ^ 64 }
        ensures { let s = machine_state self.old in MakesOutcome (with_register s address (λ a. guarded s a limit)) self.old self.new result }
    {
        let address = self.register(address)?;
        if address >= limit as u64 {
            return Some(Standing::Trapped);
        }
        self.compared = None;
        self.pc += 1;
        Some(Standing::Running)
    }

    /// Reads a number from memory.
    fn read(&mut self, bytes: Bytes, to: usize, address: usize) -> Option<Standing>
        requires room { self.old.pc + 1 < 2 ^ 64 }
        ensures { let s = machine_state self.old in MakesOutcome (with_register s address (λ a. memory_read s bytes to a)) self.old self.new result }
    {
        let address = self.register(address)?;
        if !is_within(&self.memory, bytes, address) {
            return None;
        }
        let (number, compared) = (
            number_at(&self.memory, bytes, address as usize),
            self.compared,
        );
        self.write(to, number, compared)
    }

    /// Writes a number to memory.
    fn write_memory(&mut self, bytes: Bytes, address: usize, from: usize) -> Option<Standing>
        requires room { self.old.pc + 1 < 2 ^ 64 }
        ensures { let s = machine_state self.old in MakesOutcome (with_register s address (λ a. with_register s from
            (λ n. memory_written s bytes a n))) self.old self.new result }
    {
        let address = self.register(address)?;
        let number = self.register(from)?;
        if !is_within(&self.memory, bytes, address) {
            return None;
        }
        put_number(&mut self.memory, bytes, address as usize, number);
        self.pc += 1;
        Some(Standing::Running)
    }

    /// Jumps if a condition holds.
    fn jump_if(&mut self, condition: Condition, target: usize) -> Option<Standing>
        requires room { self.old.pc + 1 < 2 ^ 64 }
        ensures { let s = machine_state self.old in MakesOutcome (with_compared s.compared
            (λ a b. jumped s (if condition_holds condition a b then target else s.pc + 1))) self.old self.new result }
    {
        let (left, right) = self.compared?;
        if does_hold(condition, left, right) {
            self.pc = target;
        } else {
            self.pc += 1;
        }
        Some(Standing::Running)
    }

    /// Executes an instruction; returns nothing if the machine is stuck at it.
    fn execute(&mut self, arguments: &[u64], instruction: Instruction) -> Option<Standing>
        requires room { self.old.pc + 1 < 2 ^ 64 }
        ensures { MakesOutcome (executed (arguments_of arguments.now) (vec_len self.old.frame) (Some instruction) (machine_state self.old))
            self.old self.new result }
    {
        let compared = self.compared;
        match instruction {
            Instruction::Constant { to, value } => self.write(to, value, compared),
            Instruction::Clear { to } => self.write(to, 0, None),
            Instruction::Argument { to, index } => {
                self.write(to, argument(arguments, index), compared)
            }
            Instruction::Move { to, from } => self.fetch(to, Source::Register(from)),
            Instruction::Load { to, slot } => self.fetch(to, Source::Slot(slot)),
            Instruction::Store { slot, from } => self.store(slot, from),
            Instruction::Compute {
                width,
                operator,
                to,
                from,
            } => self.compute(width, operator, to, from),
            Instruction::Shift {
                width,
                operator,
                to,
            } => self.shift(width, operator, to),
            Instruction::ShiftBy {
                width,
                operator,
                to,
                count,
            } => self.shift_by(width, operator, to, u64::from(count)),
            Instruction::ExtendSign { width } => self.extend_sign(width),
            Instruction::Divide {
                width,
                is_signed,
                from,
            } => self.divide(width, is_signed, from),
            Instruction::Compare { width, left, right } => self.compare_to(width, left, right),
            Instruction::Set { to, condition } => self.set(to, condition),
            Instruction::MoveIf {
                condition,
                to,
                from,
            } => self.move_if(condition, to, from),
            Instruction::Test { from } => {
                let number = self.source(from)?;
                self.compare(number, 0)
            }
            Instruction::Guard { address, limit } => self.guard(address, limit),
            Instruction::Read { bytes, to, address } => self.read(bytes, to, address),
            Instruction::Write {
                bytes,
                address,
                from,
            } => self.write_memory(bytes, address, from),
            Instruction::Jump { target } => {
                self.pc = target;
                Some(Standing::Running)
            }
            Instruction::JumpIf { condition, target } => self.jump_if(condition, target),
            Instruction::Call { .. } | Instruction::Pass { .. } => None,
            Instruction::Return => Some(Standing::Returned(self.registers[0])),
        }
    }

    /// Makes a step.
    pub fn step(&mut self, code: &Code, arguments: &[u64]) -> Standing
        requires { vec_len self.old.frame ≡ code.now.slots }
        ensures step { machine_step (code_of code.now) (arguments_of arguments.now) (machine_state self.old) ≡ machine_outcome result self.new }
        ensures frame { vec_len self.new.frame ≡ vec_len self.old.frame }
    {
        match code.instructions.get(self.pc) {
            Some(instruction) => self
                .execute(arguments, *instruction)
                .unwrap_or(Standing::Stuck),
            None => Standing::Stuck,
        }
    }
}

/// That many zeros.
pub fn zeros(alloc: Global, count: usize) -> Result<Vec<u64>, AllocError>
    ensures items { IfOk result (λ v. v.items ≡ replicate count 0) }
    ensures len { IfOk result (λ v. vec_len v ≡ count) }
{
    vec![in alloc; 0; count]
}

/// Returns the outcome of running the code for `steps` steps, and the memory that it leaves, with
/// 0 in all registers and slots at the start. Arguments past the given ones are 0.
pub fn run_code(
    alloc: Global,
    code: &Code,
    arguments: &[u64],
    memory: Vec<u8>,
    steps: u64,
) -> Result<Run, AllocError>
    ensures { IfOk result (IsMachineRun (machine_run (code_of code.now) (arguments_of arguments.now) steps (first_machine memory.items))) }
{
    let mut machine = Machine::new(alloc, code.slots, memory)?;
    for _step in 0..steps {
        let standing = machine.step(code, arguments);
        match standing {
            Standing::Running => {}
            _ => {
                return Ok(Run {
                    standing,
                    memory: machine.memory,
                });
            }
        }
    }
    Ok(Run {
        standing: Standing::Running,
        memory: machine.memory,
    })
}
