//! Code as assembly for x86-64, in the syntax of AT&T.

ghost use Rattle.std.specs.Prelude.{◌≡◌, ◌+◌, ◌++◌, codes, length, nat_eq, Some};
ghost use Rattle.std.specs.Fmt.{decimal};
ghost use Rattle.codegen.specs.Text.Assembly.{byte_name, condition_letters, division_name, half_name, letter, name_at, operator_name, register_name, shift_name};
ghost use Rattle.codegen.specs.Text.Assembly.{guard_text, read_name, read_text, word_name, write_text};
ghost use Rattle.codegen.specs.Text.Assembly.{assembly_text, call_text, first_arity, function_text, functions_text};
ghost use Rattle.codegen.specs.Text.Assembly.{instruction_text, is_next, line_text, lines_text, move_text, source_text, stub_text, symbol_text, traps_text, transfer_text};

use super::frame::{
    ArgumentLoadsText, ArgumentText, EntryText, ExitText, FrameWords, LimitText, SlotText,
    frame_words,
};
use codegen_machine::{Instruction, ModuleCode, NamedCode, Source};
use codegen_operation::{Bytes, Condition, Operator, ShiftOperator, Width};
use std::fmt;

/// The start of the entry: keeps the memory's address, and below it the stack's limit.
#[tactic(auto, unfolding(crate::specs::Text::Assembly::stub_text))]
fn stub_text() -> &'static str
    ensures { result.now ≡ stub_text }
{
    "  .globl compiled
compiled:
  pushq %r15
  movq %rsi, %r15
  movq %rsp, %rax
  shrq $3, %rax
  xorl %ecx, %ecx
  subq %rdx, %rax
  cmovbq %rcx, %rax
  shlq $3, %rax
  movq %rax, -8(%r15)
  movq %rdi, %rax
"
}

/// The end of the entry: calls function 0.
#[tactic(auto, unfolding(crate::specs::Text::Assembly::call_text))]
fn call_text() -> &'static str
    ensures { result.now ≡ call_text }
{
    "  call .Lf0
  popq %r15
  ret
"
}

/// The instructions where the code traps and where the stack overflows.
#[tactic(auto, unfolding(crate::specs::Text::Assembly::traps_text))]
fn traps_text() -> &'static str
    ensures { result.now ≡ traps_text }
{
    ".Ltrap:
  ud2
.Loverflow:
  int3
  .section .note.GNU-stack,\"\",@progbits
"
}

/// The name of a register.
fn register_name(register: usize) -> &'static str
    ensures { result.now ≡ register_name register }
{
    match register {
        0 => "%rax",
        1 => "%rcx",
        2 => "%rdx",
        3 => "%rbx",
        4 => "%rsp",
        5 => "%rbp",
        6 => "%rsi",
        7 => "%rdi",
        8 => "%r8",
        9 => "%r9",
        10 => "%r10",
        11 => "%r11",
        12 => "%r12",
        13 => "%r13",
        14 => "%r14",
        15 => "%r15",
        _ => "%none",
    }
}

/// The name of a register's lowest byte.
fn byte_name(register: usize) -> &'static str
    ensures { result.now ≡ byte_name register }
{
    match register {
        0 => "%al",
        1 => "%cl",
        2 => "%dl",
        3 => "%bl",
        4 => "%spl",
        5 => "%bpl",
        6 => "%sil",
        7 => "%dil",
        8 => "%r8b",
        9 => "%r9b",
        10 => "%r10b",
        11 => "%r11b",
        12 => "%r12b",
        13 => "%r13b",
        14 => "%r14b",
        15 => "%r15b",
        _ => "%none",
    }
}

/// The name of a register's lower 32 bits.
fn half_name(register: usize) -> &'static str
    ensures { result.now ≡ half_name register }
{
    match register {
        0 => "%eax",
        1 => "%ecx",
        2 => "%edx",
        3 => "%ebx",
        4 => "%esp",
        5 => "%ebp",
        6 => "%esi",
        7 => "%edi",
        8 => "%r8d",
        9 => "%r9d",
        10 => "%r10d",
        11 => "%r11d",
        12 => "%r12d",
        13 => "%r13d",
        14 => "%r14d",
        15 => "%r15d",
        _ => "%none",
    }
}

/// The name of a register's lower 16 bits.
fn word_name(register: usize) -> &'static str
    ensures { result.now ≡ word_name register }
{
    match register {
        0 => "%ax",
        1 => "%cx",
        2 => "%dx",
        3 => "%bx",
        4 => "%sp",
        5 => "%bp",
        6 => "%si",
        7 => "%di",
        8 => "%r8w",
        9 => "%r9w",
        10 => "%r10w",
        11 => "%r11w",
        12 => "%r12w",
        13 => "%r13w",
        14 => "%r14w",
        15 => "%r15w",
        _ => "%none",
    }
}

/// The name of a register at a width.
fn name_at(width: Width, register: usize) -> &'static str
    ensures { result.now ≡ name_at width register }
{
    match width {
        Width::Full => register_name(register),
        Width::Half => half_name(register),
    }
}

/// The last letter of an instruction's name at a width.
fn letter(width: Width) -> &'static str
    ensures { result.now ≡ letter width }
{
    match width {
        Width::Full => "q",
        Width::Half => "l",
    }
}

/// The name of an operator's instruction.
fn operator_name(operator: Operator) -> &'static str
    ensures { result.now ≡ operator_name operator }
{
    match operator {
        Operator::Add => "add",
        Operator::Sub => "sub",
        Operator::Mul => "imul",
        Operator::And => "and",
        Operator::Or => "or",
        Operator::Xor => "xor",
    }
}

/// The name of a shift's instruction.
fn shift_name(operator: ShiftOperator) -> &'static str
    ensures { result.now ≡ shift_name operator }
{
    match operator {
        ShiftOperator::Left => "shl",
        ShiftOperator::Right => "shr",
        ShiftOperator::SignedRight => "sar",
    }
}

/// The name of a division's instruction.
fn division_name(is_signed: bool) -> &'static str
    ensures { result.now ≡ division_name is_signed }
{
    if is_signed { "idiv" } else { "div" }
}

/// The suffix of instructions that test a condition.
fn condition_letters(condition: Condition) -> &'static str
    ensures { result.now ≡ condition_letters condition }
{
    match condition {
        Condition::Equal => "e",
        Condition::NotEqual => "ne",
        Condition::Less => "b",
        Condition::LessOrEqual => "be",
        Condition::Greater => "a",
        Condition::GreaterOrEqual => "ae",
        Condition::SignedLess => "l",
        Condition::SignedLessOrEqual => "le",
        Condition::SignedGreater => "g",
        Condition::SignedGreaterOrEqual => "ge",
    }
}

/// A frame's number of outgoing words, a width, and a number or a register or slot at that width.
#[derive(Clone, Copy)]
struct SourceText(usize, Width, Source);

impl fmt::Display for SourceText {
    ghost output = { λ t. Some (source_text t.0 t.1 t.2) };

    fn fmt<W: fmt::Write>(&self, f: &mut fmt::Formatter<W>) -> fmt::Result {
        match self.2 {
            Source::Register(register) => f.write_str(name_at(self.1, register)),
            Source::Slot(slot) => fmt::Display::fmt(&SlotText(self.0, slot), f),
            Source::Number(number) => write!(f, "${number}"),
        }
    }
}

/// A guard of the address in a register, by a limit.
#[derive(Clone, Copy)]
struct GuardText(usize, usize);

impl fmt::Display for GuardText {
    ghost output = { λ t. Some (guard_text t.0 t.1) };

    fn fmt<W: fmt::Write>(&self, f: &mut fmt::Formatter<W>) -> fmt::Result {
        let (address, limit) = (register_name(self.0), self.1);
        write!(f, "cmpq ${limit}, {address}; jae .Ltrap")
    }
}

/// A read of memory into a register, at the address in another.
#[derive(Clone, Copy)]
struct ReadText(Bytes, usize, usize);

impl fmt::Display for ReadText {
    ghost output = { λ t. Some (read_text t.0 t.2 ++ read_name t.0 t.1) };

    fn fmt<W: fmt::Write>(&self, f: &mut fmt::Formatter<W>) -> fmt::Result {
        let address = register_name(self.2);
        let (name, to) = match self.0 {
            Bytes::One => ("movzbl", half_name(self.1)),
            Bytes::Two => ("movzwl", half_name(self.1)),
            Bytes::Four => ("movl", half_name(self.1)),
            Bytes::Eight => ("movq", register_name(self.1)),
        };
        write!(f, "{name} (%r15,{address}), {to}")
    }
}

/// A write of a register to memory, at the address in another.
#[derive(Clone, Copy)]
struct WriteText(Bytes, usize, usize);

impl fmt::Display for WriteText {
    ghost output = { λ t. Some (write_text t.0 t.1 ++ codes ", (%r15," ++ register_name t.2 ++ codes ")") };

    fn fmt<W: fmt::Write>(&self, f: &mut fmt::Formatter<W>) -> fmt::Result {
        let address = register_name(self.2);
        let (name, from) = match self.0 {
            Bytes::One => ("movb", byte_name(self.1)),
            Bytes::Two => ("movw", word_name(self.1)),
            Bytes::Four => ("movl", half_name(self.1)),
            Bytes::Eight => ("movq", register_name(self.1)),
        };
        write!(f, "{name} {from}, (%r15,{address})")
    }
}

/// An instruction with that name, a source and a register.
#[derive(Clone, Copy)]
struct PairText(&'static str, SourceText, usize);

impl fmt::Display for PairText {
    ghost output = { λ t. Some (t.0.now ++ letter t.1.1 ++ codes " " ++ source_text t.1.0 t.1.1 t.1.2 ++ codes ", " ++ name_at t.1.1 t.2) };

    fn fmt<W: fmt::Write>(&self, f: &mut fmt::Formatter<W>) -> fmt::Result {
        let (name, letter) = (self.0, letter(self.1.1));
        let (from, to) = (self.1, name_at(self.1.1, self.2));
        write!(f, "{name}{letter} {from}, {to}")
    }
}

/// A shift of a register by another.
#[derive(Clone, Copy)]
struct ShiftText(Width, ShiftOperator, usize);

impl fmt::Display for ShiftText {
    ghost output = { λ t. Some (shift_name t.1 ++ letter t.0 ++ codes " %cl, " ++ name_at t.0 t.2) };

    fn fmt<W: fmt::Write>(&self, f: &mut fmt::Formatter<W>) -> fmt::Result {
        let (name, letter) = (shift_name(self.1), letter(self.0));
        let to = name_at(self.0, self.2);
        write!(f, "{name}{letter} %cl, {to}")
    }
}

/// A shift of a register by a constant.
#[derive(Clone, Copy)]
struct ShiftByText(Width, ShiftOperator, usize, u8);

impl fmt::Display for ShiftByText {
    ghost output = { λ t. Some (shift_name t.1 ++ letter t.0 ++ codes " $" ++ decimal t.3 ++ codes ", " ++ name_at t.0 t.2) };

    fn fmt<W: fmt::Write>(&self, f: &mut fmt::Formatter<W>) -> fmt::Result {
        let (name, letter) = (shift_name(self.1), letter(self.0));
        let (count, to) = (self.3, name_at(self.0, self.2));
        write!(f, "{name}{letter} ${count}, {to}")
    }
}

/// A division, signed or not, by a source.
#[derive(Clone, Copy)]
struct DivideText(bool, SourceText);

impl fmt::Display for DivideText {
    ghost output = { λ t. Some (division_name t.0 ++ letter t.1.1 ++ codes " " ++ source_text t.1.0 t.1.1 t.1.2) };

    fn fmt<W: fmt::Write>(&self, f: &mut fmt::Formatter<W>) -> fmt::Result {
        let (name, letter, from) = (division_name(self.0), letter(self.1.1), self.1);
        write!(f, "{name}{letter} {from}")
    }
}

/// A condition as a number in a register.
#[derive(Clone, Copy)]
struct SetText(Condition, usize);

impl fmt::Display for SetText {
    ghost output = { λ t. Some (codes "set" ++ condition_letters t.0 ++ codes " " ++ byte_name t.1 ++ codes "; movzbq " ++ byte_name t.1 ++ codes ", " ++ register_name t.1) };

    fn fmt<W: fmt::Write>(&self, f: &mut fmt::Formatter<W>) -> fmt::Result {
        let letters = condition_letters(self.0);
        let (byte, to) = (byte_name(self.1), register_name(self.1));
        write!(f, "set{letters} {byte}; movzbq {byte}, {to}")
    }
}

/// A source into a register under a condition.
#[derive(Clone, Copy)]
struct MoveIfText(Condition, SourceText, usize);

impl fmt::Display for MoveIfText {
    ghost output = { λ t. Some (codes "cmov" ++ condition_letters t.0 ++ codes "q " ++ source_text t.1.0 t.1.1 t.1.2 ++ codes ", " ++ register_name t.2) };

    fn fmt<W: fmt::Write>(&self, f: &mut fmt::Formatter<W>) -> fmt::Result {
        let (letters, from, to) = (condition_letters(self.0), self.1, register_name(self.2));
        write!(f, "cmov{letters}q {from}, {to}")
    }
}

/// An instruction of a function with that frame that only sets a register or a word of the stack;
/// nothing for another.
#[derive(Clone, Copy)]
struct MoveText(FrameWords, Instruction);

impl fmt::Display for MoveText {
    ghost output = { λ t. Some (move_text t.0 t.1) };

    fn fmt<W: fmt::Write>(&self, f: &mut fmt::Formatter<W>) -> fmt::Result {
        match self.1 {
            Instruction::Constant { to, value } => {
                let to = register_name(to);
                write!(f, "movabsq ${value}, {to}")
            }
            Instruction::Clear { to } => {
                let from = SourceText(self.0.outgoing, Width::Full, Source::Register(to));
                fmt::Display::fmt(&PairText("xor", from, to), f)
            }
            Instruction::Argument { to, index } => {
                let (from, to) = (ArgumentText(self.0, index as usize), register_name(to));
                write!(f, "movq {from}, {to}")
            }
            Instruction::Move { to, from } => {
                let from = SourceText(self.0.outgoing, Width::Full, Source::Register(from));
                fmt::Display::fmt(&PairText("mov", from, to), f)
            }
            Instruction::Load { to, slot } => {
                let from = SourceText(self.0.outgoing, Width::Full, Source::Slot(slot));
                fmt::Display::fmt(&PairText("mov", from, to), f)
            }
            Instruction::Store { slot, from } => {
                let (from, to) = (register_name(from), SlotText(self.0.outgoing, slot));
                write!(f, "movq {from}, {to}")
            }
            Instruction::Pass { index, from } => {
                let from = register_name(from);
                write!(f, "movq {from}, 8*{index}(%rsp)")
            }
            _ => f.write_str(""),
        }
    }
}

/// An instruction of the function with that number that continues elsewhere; nothing for another.
#[derive(Clone, Copy)]
struct TransferText(usize, Instruction);

impl fmt::Display for TransferText {
    ghost output = { λ t. Some (transfer_text t.0 t.1) };

    fn fmt<W: fmt::Write>(&self, f: &mut fmt::Formatter<W>) -> fmt::Result {
        let function = self.0;
        match self.1 {
            Instruction::Jump { target } => write!(f, "jmp .L{function}_{target}"),
            Instruction::JumpIf { condition, target } => {
                let letters = condition_letters(condition);
                write!(f, "j{letters} .L{function}_{target}")
            }
            Instruction::Call { function: callee } => write!(f, "call .Lf{callee}"),
            Instruction::Return => write!(f, "jmp .L{function}_return"),
            _ => f.write_str(""),
        }
    }
}

/// An instruction of a function as assembly: one machine instruction, but two for `Set` and `Guard`.
#[derive(Clone, Copy)]
pub struct InstructionText {
    /// The function's number.
    pub function: usize,
    /// The words of its frame.
    pub frame: FrameWords,
    /// The instruction.
    pub instruction: Instruction,
}

impl fmt::Display for InstructionText {
    ghost output = { λ t. Some (instruction_text t.function t.frame t.instruction) };

    fn fmt<W: fmt::Write>(&self, f: &mut fmt::Formatter<W>) -> fmt::Result {
        let outgoing = self.frame.outgoing;
        match self.instruction {
            Instruction::Constant { .. }
            | Instruction::Clear { .. }
            | Instruction::Argument { .. }
            | Instruction::Move { .. }
            | Instruction::Load { .. }
            | Instruction::Store { .. }
            | Instruction::Pass { .. } => {
                fmt::Display::fmt(&MoveText(self.frame, self.instruction), f)
            }
            Instruction::Jump { .. }
            | Instruction::JumpIf { .. }
            | Instruction::Call { .. }
            | Instruction::Return => {
                fmt::Display::fmt(&TransferText(self.function, self.instruction), f)
            }
            Instruction::Compute {
                width,
                operator,
                to,
                from,
            } => {
                let (name, from) = (operator_name(operator), SourceText(outgoing, width, from));
                fmt::Display::fmt(&PairText(name, from, to), f)
            }
            Instruction::Shift {
                width,
                operator,
                to,
            } => fmt::Display::fmt(&ShiftText(width, operator, to), f),
            Instruction::ShiftBy {
                width,
                operator,
                to,
                count,
            } => fmt::Display::fmt(&ShiftByText(width, operator, to, count), f),
            Instruction::ExtendSign { width: Width::Full } => f.write_str("cqto"),
            Instruction::ExtendSign { width: Width::Half } => f.write_str("cltd"),
            Instruction::Divide {
                width,
                is_signed,
                from,
            } => fmt::Display::fmt(&DivideText(is_signed, SourceText(outgoing, width, from)), f),
            Instruction::Compare { width, left, right } => {
                let right = SourceText(outgoing, width, right);
                fmt::Display::fmt(&PairText("cmp", right, left), f)
            }
            Instruction::Set { to, condition } => fmt::Display::fmt(&SetText(condition, to), f),
            Instruction::MoveIf {
                condition,
                to,
                from,
            } => fmt::Display::fmt(
                &MoveIfText(condition, SourceText(outgoing, Width::Full, from), to),
                f,
            ),
            Instruction::Test { from } => {
                let from = SourceText(outgoing, Width::Full, from);
                write!(f, "cmpq $0, {from}")
            }
            Instruction::Guard { address, limit } => fmt::Display::fmt(
                &GuardText(address, limit),
                f,
            ),
            Instruction::Read { bytes, to, address } => fmt::Display::fmt(
                &ReadText(bytes, to, address),
                f,
            ),
            Instruction::Write {
                bytes,
                address,
                from,
            } => fmt::Display::fmt(&WriteText(bytes, from, address), f),
        }
    }
}

/// The instruction with that number, of a function's `count` instructions, as a line with its
/// label. A jump to the next line is omitted.
#[derive(Clone, Copy)]
struct LineText {
    function: usize,
    frame: FrameWords,
    count: usize,
    at: usize,
    instruction: Instruction,
}

/// Whether a line is the next one after line `at`.
fn is_after(line: usize, at: usize) -> bool
    ensures { result ≡ nat_eq line (at + 1) }
{
    line > at && line - at == 1
}

impl LineText {
    /// Whether the instruction is only a jump to the next line.
    fn is_next(&self) -> bool
        ensures { result ≡ is_next self.now.count self.now.at self.now.instruction }
    {
        match self.instruction {
            Instruction::Jump { target } => is_after(target, self.at),
            Instruction::Return => is_after(self.count, self.at),
            _ => false,
        }
    }
}

impl fmt::Display for LineText {
    ghost output = { λ l. Some (line_text l.function l.frame l.count l.at l.instruction) };

    fn fmt<W: fmt::Write>(&self, f: &mut fmt::Formatter<W>) -> fmt::Result {
        let (function, at) = (self.function, self.at);
        let text = InstructionText {
            function,
            frame: self.frame,
            instruction: self.instruction,
        };
        if self.is_next() {
            writeln!(f, ".L{function}_{at}:")
        } else {
            writeln!(f, ".L{function}_{at}: {text}")
        }
    }
}

/// The instructions of a function as assembly, one on each line, with labels by number.
#[derive(Clone, Copy)]
struct LinesText<'a> {
    function: usize,
    frame: FrameWords,
    instructions: &'a [Instruction],
}

impl fmt::Display for LinesText<'_> {
    ghost output = { λ t. Some (lines_text t.function t.frame (length t.instructions.now) 0 t.instructions.now) };

    fn fmt<W: fmt::Write>(&self, f: &mut fmt::Formatter<W>) -> fmt::Result {
        let LinesText {
            function,
            frame,
            instructions,
        } = *self;
        let count = instructions.len();
        for at in 0..count {
            let line = LineText {
                function,
                frame,
                count,
                at,
                instruction: instructions[at],
            };
            fmt::Display::fmt(&line, f)?;
        }
        Ok(())
    }
}

/// The name of a function as a symbol of the assembly; nothing if it is empty.
#[derive(Clone, Copy)]
struct SymbolText<'a>(&'a str);

impl fmt::Display for SymbolText<'_> {
    ghost output = { λ t. Some (symbol_text t.0.now) };

    #[tactic(auto, unfolding(crate::specs::Text::Assembly::symbol_text))]
    fn fmt<W: fmt::Write>(&self, f: &mut fmt::Formatter<W>) -> fmt::Result {
        let name = self.0;
        if name.is_empty() {
            f.write_str("")
        } else {
            write!(f, "{name}:\n")
        }
    }
}

/// The function of a module with that number.
#[derive(Clone, Copy)]
struct FunctionText<'a>(usize, &'a NamedCode);

impl fmt::Display for FunctionText<'_> {
    ghost output = { λ t. Some (function_text t.0 t.1.now) };

    #[tactic(auto, unfolding(crate::specs::Text::Assembly::function_text))]
    fn fmt<W: fmt::Write>(&self, f: &mut fmt::Formatter<W>) -> fmt::Result {
        let FunctionText(function, named) = *self;
        let (symbol, frame) = (SymbolText(named.name.as_str()), frame_words(named));
        let (limit, entry, exit) = (
            LimitText(function, frame),
            EntryText(frame),
            ExitText(function, frame),
        );
        let lines = LinesText {
            function,
            frame,
            instructions: named.code.instructions.as_slice(),
        };
        write!(f, "{symbol}{limit}{entry}{lines}{exit}")
    }
}

/// The functions of a module, one after another.
#[derive(Clone, Copy)]
struct FunctionsText<'a>(&'a [NamedCode]);

impl fmt::Display for FunctionsText<'_> {
    ghost output = { λ t. Some (functions_text 0 t.0.now) };

    fn fmt<W: fmt::Write>(&self, f: &mut fmt::Formatter<W>) -> fmt::Result {
        let FunctionsText(functions) = *self;
        for at in 0..functions.len() {
            fmt::Display::fmt(&FunctionText(at, &functions[at]), f)?;
        }
        Ok(())
    }
}

/// How many arguments function 0 of a module has.
pub(super) fn first_arity(functions: &[NamedCode]) -> usize
    ensures { result ≡ first_arity functions.now }
{
    match functions {
        [first, ..] => first.arity,
        [] => 0,
    }
}

/// A module's code as assembly, with a symbol for each function that has a name and for the entry
/// `compiled`, which calls function 0 as C's function
///
/// ```c
/// uint64_t compiled(const uint64_t *arguments, uint8_t *memory, uint64_t room);
/// ```
///
/// `arguments` are as many as function 0 has, `memory` as many bytes as the module's memory, behind
/// eight bytes that the code overwrites, and `room` the words that its activations may take on the
/// stack. A trap is an illegal instruction (`SIGILL`) or a bad division (`SIGFPE`), a stack overflow
/// a breakpoint (`SIGTRAP`).
///
/// The entry preserves its caller's registers. The functions' own symbols are for debuggers; they
/// are local, so that a function may be named `main`.
#[derive(Clone, Copy)]
pub struct AssemblyText<'a>(pub &'a ModuleCode);

impl fmt::Display for AssemblyText<'_> {
    ghost output = { λ t. Some (assembly_text t.0.now) };

    fn fmt<W: fmt::Write>(&self, f: &mut fmt::Formatter<W>) -> fmt::Result {
        let all = self.0.functions.as_slice();
        let (loads, functions) = (ArgumentLoadsText(first_arity(all)), FunctionsText(all));
        let (stub, call, traps) = (stub_text(), call_text(), traps_text());
        write!(f, "{stub}{loads}{call}{functions}{traps}")
    }
}
