//! The frame of a function as assembly: its words, the function's start, and its end.
//!
//! From the stack pointer on, a frame has outgoing words, slots, the arguments that registers
//! passed, and one more word if their number is odd. Above it are five saved registers, the return
//! address, and the caller's outgoing words, which are the arguments from number 6 on.

ghost use Rattle.std.specs.Prelude.{◌≡◌, Some};
ghost use Rattle.codegen.specs.Text.Assembly.{argument_load_text, argument_loads_text, argument_name, argument_store_text, argument_stores_text};
ghost use Rattle.codegen.specs.Text.Assembly.{argument_text, entry_text, exit_text, frame_text, frame_words, kept_text, limit_text, pop_text, push_text, slot_text};

use codegen_machine::NamedCode;
use std::fmt;

/// Pushes the registers that a function must preserve for its caller.
#[tactic(auto, unfolding(crate::specs::Text::Assembly::push_text))]
pub fn push_text() -> &'static str
    ensures { result.now ≡ push_text }
{
    "  pushq %rbx
  pushq %rbp
  pushq %r12
  pushq %r13
  pushq %r14
"
}

/// Returns the text that pops the registers of `push_text`, and returns.
#[tactic(auto, unfolding(crate::specs::Text::Assembly::pop_text))]
pub fn pop_text() -> &'static str
    ensures { result.now ≡ pop_text }
{
    "  popq %r14
  popq %r13
  popq %r12
  popq %rbp
  popq %rbx
  ret
"
}

/// The name of the register that passes an argument.
pub fn argument_name(index: usize) -> &'static str
    ensures { result.now ≡ argument_name index }
{
    match index {
        0 => "%rdi",
        1 => "%rsi",
        2 => "%rdx",
        3 => "%rcx",
        4 => "%r8",
        5 => "%r9",
        _ => "%none",
    }
}

/// The words of a function's frame, from the stack pointer on: outgoing words, slots, and the
/// arguments that registers passed.
#[derive(Clone, Copy)]
pub struct FrameWords {
    /// The number of outgoing words.
    pub outgoing: usize,
    /// The number of slots.
    pub slots: usize,
    /// How many arguments the function has: six at most are kept in the frame.
    pub arity: usize,
}

/// The words of a function's frame.
pub fn frame_words(named: &NamedCode) -> FrameWords
    ensures { result ≡ frame_words named.now }
{
    FrameWords {
        outgoing: named.code.outgoing,
        slots: named.code.slots,
        arity: named.arity,
    }
}

/// The number of words of a frame, made even, as a sum.
#[derive(Clone, Copy)]
struct FrameText(FrameWords);

impl fmt::Display for FrameText {
    ghost output = { λ t. Some (frame_text t.0) };

    #[tactic(auto, unfolding(crate::specs::Text::Assembly::frame_text))]
    fn fmt<W: fmt::Write>(&self, f: &mut fmt::Formatter<W>) -> fmt::Result {
        let FrameWords {
            outgoing,
            slots,
            arity,
        } = self.0;
        let kept = arity.min(6);
        let odd = (outgoing % 2 + slots % 2 + kept % 2) % 2;
        write!(f, "{outgoing}+{slots}+{kept}+{odd}")
    }
}

/// A frame's number of outgoing words, and a slot of the frame.
#[derive(Clone, Copy)]
pub struct SlotText(pub usize, pub usize);

impl fmt::Display for SlotText {
    ghost output = { λ t. Some (slot_text t.0 t.1) };

    fn fmt<W: fmt::Write>(&self, f: &mut fmt::Formatter<W>) -> fmt::Result {
        let (outgoing, slot) = (self.0, self.1);
        write!(f, "8*({outgoing}+{slot})(%rsp)")
    }
}

/// An argument that a register passed, kept in the frame.
#[derive(Clone, Copy)]
struct KeptText(FrameWords, usize);

impl fmt::Display for KeptText {
    ghost output = { λ t. Some (kept_text t.0 t.1) };

    fn fmt<W: fmt::Write>(&self, f: &mut fmt::Formatter<W>) -> fmt::Result {
        let (outgoing, slots, index) = (self.0.outgoing, self.0.slots, self.1);
        write!(f, "8*({outgoing}+{slots}+{index})(%rsp)")
    }
}

/// An argument: in the frame, or above it, where the caller put it.
#[derive(Clone, Copy)]
pub struct ArgumentText(pub FrameWords, pub usize);

impl fmt::Display for ArgumentText {
    ghost output = { λ t. Some (argument_text t.0 t.1) };

    fn fmt<W: fmt::Write>(&self, f: &mut fmt::Formatter<W>) -> fmt::Result {
        let (words, index) = (FrameText(self.0), self.1);
        if index < 6 {
            fmt::Display::fmt(&KeptText(self.0, index), f)
        } else {
            write!(f, "8*({words}+{index})(%rsp)")
        }
    }
}

/// The line that stores an argument in the frame, if the function has it.
#[derive(Clone, Copy)]
struct ArgumentStoreText(FrameWords, usize);

impl fmt::Display for ArgumentStoreText {
    ghost output = { λ t. Some (argument_store_text t.0 t.1) };

    #[tactic(auto, unfolding(crate::specs::Text::Assembly::argument_store_text))]
    fn fmt<W: fmt::Write>(&self, f: &mut fmt::Formatter<W>) -> fmt::Result {
        let (index, from) = (self.1, argument_name(self.1));
        let kept = KeptText(self.0, index);
        if index < self.0.arity {
            write!(f, "  movq {from}, {kept}\n")
        } else {
            f.write_str("")
        }
    }
}

/// The lines that store the arguments that registers passed.
#[derive(Clone, Copy)]
struct ArgumentStoresText(FrameWords);

impl ArgumentStoresText {
    /// The line of an argument.
    fn line(&self, index: usize) -> ArgumentStoreText
        ensures frame { result.0 ≡ self.now.0 }
        ensures index { result.1 ≡ index }
    {
        ArgumentStoreText(self.0, index)
    }
}

impl fmt::Display for ArgumentStoresText {
    ghost output = { λ t. Some (argument_stores_text t.0) };

    #[tactic(auto, unfolding(crate::specs::Text::Assembly::argument_stores_text))]
    fn fmt<W: fmt::Write>(&self, f: &mut fmt::Formatter<W>) -> fmt::Result {
        let (a, b, c) = (self.line(0), self.line(1), self.line(2));
        let (d, e, g) = (self.line(3), self.line(4), self.line(5));
        write!(f, "{a}{b}{c}{d}{e}{g}")
    }
}

/// The line that loads an argument of function 0 from the array of arguments, if the function has
/// it.
#[derive(Clone, Copy)]
struct ArgumentLoadText {
    arity: usize,
    index: usize,
}

impl fmt::Display for ArgumentLoadText {
    ghost output = { λ t. Some (argument_load_text t.arity t.index) };

    fn fmt<W: fmt::Write>(&self, f: &mut fmt::Formatter<W>) -> fmt::Result {
        let (index, to) = (self.index, argument_name(self.index));
        if index < self.arity {
            write!(f, "  movq 8*{index}(%rax), {to}\n")
        } else {
            f.write_str("")
        }
    }
}

/// The lines that load the arguments of function 0.
#[derive(Clone, Copy)]
pub struct ArgumentLoadsText(pub usize);

impl ArgumentLoadsText {
    /// The line of an argument.
    fn line(&self, index: usize) -> ArgumentLoadText
        ensures { result ≡ record { arity = self.now.0; index = index } }
    {
        ArgumentLoadText {
            arity: self.0,
            index,
        }
    }
}

impl fmt::Display for ArgumentLoadsText {
    ghost output = { λ t. Some (argument_loads_text t.0) };

    fn fmt<W: fmt::Write>(&self, f: &mut fmt::Formatter<W>) -> fmt::Result {
        let (a, b, c) = (self.line(0), self.line(1), self.line(2));
        let (d, e, g) = (self.line(3), self.line(4), self.line(5));
        write!(f, "{a}{b}{c}{d}{e}{g}")
    }
}

/// The label of the function with that number, and the test that its activation doesn't exceed the
/// stack's limit.
#[derive(Clone, Copy)]
pub struct LimitText(pub usize, pub FrameWords);

impl fmt::Display for LimitText {
    ghost output = { λ t. Some (limit_text t.0 t.1) };

    fn fmt<W: fmt::Write>(&self, f: &mut fmt::Formatter<W>) -> fmt::Result {
        let (function, words) = (self.0, FrameText(self.1));
        write!(
            f,
            ".Lf{function}:\n  leaq -8*({words}+5)(%rsp), %rax\n  cmpq -8(%r15), %rax\n  jb .Loverflow\n"
        )
    }
}

/// The start of a function: it pushes registers, allocates its frame, and stores its arguments.
#[derive(Clone, Copy)]
pub struct EntryText(pub FrameWords);

impl fmt::Display for EntryText {
    ghost output = { λ t. Some (entry_text t.0) };

    fn fmt<W: fmt::Write>(&self, f: &mut fmt::Formatter<W>) -> fmt::Result {
        let (words, push) = (FrameText(self.0), push_text());
        let stores = ArgumentStoresText(self.0);
        write!(f, "{push}  subq $8*({words}), %rsp\n{stores}")
    }
}

/// The end of the function with that number, which frees its frame.
#[derive(Clone, Copy)]
pub struct ExitText(pub usize, pub FrameWords);

impl fmt::Display for ExitText {
    ghost output = { λ t. Some (exit_text t.0 t.1) };

    fn fmt<W: fmt::Write>(&self, f: &mut fmt::Formatter<W>) -> fmt::Result {
        let (function, words, pop) = (self.0, FrameText(self.1), pop_text());
        write!(f, ".L{function}_return:\n  addq $8*({words}), %rsp\n{pop}")
    }
}
