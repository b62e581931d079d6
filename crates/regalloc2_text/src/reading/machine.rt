//! The registers of a machine, from the lines that name them.

ghost use Rattle.std.specs.Prelude.{◌≤◌};
ghost use Rattle.regalloc2_text.specs.Cursor.Cursor.{tokens_left};

use crate::cursor::{Cursor, class_named};
use crate::named::register_of;
use regalloc2_names::{PReg, RegClass};
use regalloc2_serialize::StoredMachine;
use std::alloc::Allocator;

/// A value of each class.
#[derive(Drop)]
pub(super) struct ByClass<T> {
    int: T,
    float: T,
    vector: T,
}

impl<T> ByClass<T> {
    /// A value of each class: `int`, `float` and `vector`.
    pub(super) fn new(int: T, float: T, vector: T) -> Self {
        ByClass { int, float, vector }
    }

    /// The value of `class`.
    pub(super) fn of(&mut self, class: RegClass) -> &mut T {
        match class {
            RegClass::Int => &mut self.int,
            RegClass::Float => &mut self.float,
            RegClass::Vector => &mut self.vector,
        }
    }
}

impl<T: Drop> ByClass<T> {
    /// The values of the classes in order.
    pub(super) fn into_vec<A: Allocator>(self, alloc: A, cursor: &mut Cursor<'_, '_>) -> Vec<T, A> {
        let mut list = Vec::new(alloc);
        cursor.push(&mut list, self.int);
        cursor.push(&mut list, self.float);
        cursor.push(&mut list, self.vector);
        list
    }
}

/// Registers from `first` to `last`, and the class whose list they stand in.
#[derive(Clone, Copy)]
pub(super) struct Span {
    class: RegClass,
    first: u8,
    last: u8,
}

/// The class of the register of `index`, if the index is valid.
fn class_of(index: u8) -> Option<RegClass> {
    register_of(index).map(|register| register.class())
}

/// A register or neighbours, for the list of `class` or else of their own.
fn read_span(cursor: &mut Cursor<'_, '_>, class: Option<RegClass>) -> Span
    ensures { tokens_left cursor.new ≤ tokens_left cursor.old }
{
    let first = cursor.register_bits();
    let own = class_of(first);
    let class = class.or(own);
    if class.is_none() {
        cursor.misfit_before("a class before a register without one");
    }
    let class = class.unwrap_or(RegClass::Int);
    if !cursor.has("..") {
        let last = first;
        return Span { class, first, last };
    }
    let named = cursor.register();
    let last = PReg::new(named.number, named.class).index() as u8;
    if own != Some(named.class) || last < first {
        cursor.misfit_before("a register of the same class, not below the first");
    }
    Span { class, first, last }
}

/// Registers for the list of `class` or else of their own, or `none`.
fn read_span_list<A: Allocator>(
    alloc: A,
    cursor: &mut Cursor<'_, '_>,
    class: Option<RegClass>,
) -> Vec<Span, A>
    ensures { tokens_left cursor.new ≤ tokens_left cursor.old }
{
    let mut spans = Vec::new(alloc);
    if cursor.has("none") {
        return spans;
    }
    loop {
        let span = read_span(cursor, class);
        cursor.push(&mut spans, span);
        if !cursor.has(",") {
            break;
        }
    }
    spans
}

/// Adds the registers of `span` to `list`.
fn push_span<A: Allocator>(cursor: &mut Cursor<'_, '_>, list: &mut Vec<u8, A>, span: Span)
    ensures { tokens_left cursor.new ≤ tokens_left cursor.old }
{
    for index in span.first..=span.last {
        cursor.push(list, index);
    }
}

/// Reads registers, or `none`, and adds their indexes to `list`.
pub(super) fn read_registers<A: Allocator>(
    alloc: A,
    cursor: &mut Cursor<'_, '_>,
    list: &mut Vec<u8, A>,
)
    ensures { tokens_left cursor.new ≤ tokens_left cursor.old }
{
    let spans = read_span_list(alloc, cursor, Some(RegClass::Int));
    for span in &spans {
        push_span(cursor, list, *span);
    }
}

/// Adds the registers of `spans` to the lists of their classes.
fn push_spans<A: Allocator>(
    cursor: &mut Cursor<'_, '_>,
    lists: &mut ByClass<Vec<u8, A>>,
    spans: &[Span],
) {
    for span in spans {
        push_span(cursor, lists.of(span.class), *span);
    }
}

/// What the lines so far say of the machine.
#[derive(Drop)]
pub(super) struct DraftMachine<A: Allocator> {
    /// Whether a line names registers.
    is_named: bool,
    preferred: ByClass<Vec<u8, A>>,
    others: ByClass<Vec<u8, A>>,
    scratch: ByClass<Option<u8>>,
    fixed_stack_slots: Vec<u8, A>,
}

impl<A: Allocator + Copy> DraftMachine<A> {
    /// Returns the draft before the first line: no registers.
    pub(super) fn new(alloc: A) -> Self {
        DraftMachine {
            is_named: false,
            preferred: ByClass::new(Vec::new(alloc), Vec::new(alloc), Vec::new(alloc)),
            others: ByClass::new(Vec::new(alloc), Vec::new(alloc), Vec::new(alloc)),
            scratch: ByClass::new(None, None, None),
            fixed_stack_slots: Vec::new(alloc),
        }
    }

    /// Reads what follows the first word of a line: the name of a class, if there is one, and registers. Returns the
    /// registers.
    fn read_spans(&mut self, alloc: A, cursor: &mut Cursor<'_, '_>) -> Vec<Span, A> {
        self.is_named = true;
        let class = class_named(cursor.peek().unwrap_or(""));
        if class.is_some() {
            cursor.advance();
        }
        read_span_list(alloc, cursor, class)
    }

    /// Reads what follows `regs`.
    pub(super) fn read_preferred(&mut self, alloc: A, cursor: &mut Cursor<'_, '_>) {
        let spans = self.read_spans(alloc, cursor);
        push_spans(cursor, &mut self.preferred, spans.as_slice());
    }

    /// Reads what follows `others`.
    pub(super) fn read_others(&mut self, alloc: A, cursor: &mut Cursor<'_, '_>) {
        let spans = self.read_spans(alloc, cursor);
        push_spans(cursor, &mut self.others, spans.as_slice());
    }

    /// Reads what follows `scratch`.
    pub(super) fn read_scratch(&mut self, alloc: A, cursor: &mut Cursor<'_, '_>) {
        let spans = self.read_spans(alloc, cursor);
        for span in &spans {
            let scratch = self.scratch.of(span.class);
            if scratch.is_some() || span.first != span.last {
                cursor.misfit_before("one scratch register of a class");
            }
            *scratch = Some(span.first);
        }
    }

    /// Reads what follows `stack`.
    pub(super) fn read_stack(&mut self, alloc: A, cursor: &mut Cursor<'_, '_>) {
        self.is_named = true;
        read_registers(alloc, cursor, &mut self.fixed_stack_slots);
    }

    /// Returns the machine. If no line names registers, it has the integer registers 0 to 9.
    pub(super) fn finish(self, alloc: A, cursor: &mut Cursor<'_, '_>) -> StoredMachine<A> {
        let mut preferred = self.preferred;
        if !self.is_named {
            let class = RegClass::Int;
            let span = Span {
                class,
                first: 0,
                last: 9,
            };
            push_span(cursor, preferred.of(class), span);
        }
        StoredMachine {
            preferred_regs_by_class: preferred.into_vec(alloc, cursor),
            non_preferred_regs_by_class: self.others.into_vec(alloc, cursor),
            scratch_by_class: self.scratch.into_vec(alloc, cursor),
            fixed_stack_slots: self.fixed_stack_slots,
        }
    }
}
