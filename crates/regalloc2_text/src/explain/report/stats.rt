//! Counts of an allocated function.

use crate::named::{operand_of, place_of, register_of};
use regalloc2_function::StoredOutput;
use regalloc2_names::{OperandConstraint, PRegSet};
use regalloc2_serialize::{StoredFunction, StoredMachine};
use std::fmt;

/// Counts of an allocated function: as a table when it is displayed, as JSON through [`StatsJson`].
#[derive(Clone, Copy)]
pub struct Stats {
    /// The instructions.
    pub insts: usize,
    /// The blocks.
    pub blocks: usize,
    /// The number of vregs that the function reports.
    pub vregs: u64,
    /// The operands by constraint: `any`, `reg`, `stack`, `fixed`, `reuse` and `limit`.
    pub operands: [u64; 6],
    /// The moves from register to register.
    pub register_moves: u64,
    /// The moves from the stack to a register.
    pub loads: u64,
    /// The moves from a register to the stack.
    pub stores: u64,
    /// The units of spill slots.
    pub slots: u64,
}

/// Returns the counts `operands`, each with the name of its constraint.
fn by_constraint(operands: &[u64; 6]) -> [(&'static str, u64); 6] {
    let [any, reg, stack, fixed, reuse, limit] = *operands;
    [
        ("any", any),
        ("reg", reg),
        ("stack", stack),
        ("fixed", fixed),
        ("reuse", reuse),
        ("limit", limit),
    ]
}

/// Returns the index of the count of `constraint`.
fn index_of(constraint: OperandConstraint) -> usize {
    match constraint {
        OperandConstraint::Any => 0,
        OperandConstraint::Reg => 1,
        OperandConstraint::Stack => 2,
        OperandConstraint::FixedReg(_) => 3,
        OperandConstraint::Reuse(_) => 4,
        OperandConstraint::Limit(_) => 5,
    }
}

/// Returns the fixed stack slots of `machine`.
fn fixed_stack_of(machine: &StoredMachine) -> PRegSet {
    let mut slots = PRegSet::empty();
    for index in &machine.fixed_stack_slots {
        if let Some(register) = register_of(*index) {
            slots.add(register);
        }
    }
    slots
}

/// Returns whether `bits` encode a stack place on a machine with the fixed stack slots `fixed_stack`.
fn is_stack_place(bits: u32, fixed_stack: PRegSet) -> bool {
    match place_of(bits) {
        Some(place) => place.is_on_stack(fixed_stack),
        None => false,
    }
}

impl Stats {
    /// Returns the counts of `function` with `output`. Linear in both.
    ///
    /// A stack-to-stack move, which no faithful output has, counts as a store.
    pub fn of(function: &StoredFunction, output: &StoredOutput) -> Stats {
        let mut stats = Stats {
            insts: function.insts.len(),
            blocks: function.blocks.len(),
            vregs: function.num_vregs,
            operands: [0; 6],
            register_moves: 0,
            loads: 0,
            stores: 0,
            slots: output.num_spillslots,
        };
        for inst in &function.insts {
            stats.count_operands(inst.operands.as_slice());
        }
        let fixed_stack = fixed_stack_of(&function.machine_env);
        for (_, from, to) in &output.edits {
            stats.count_move(fixed_stack, *from, *to);
        }
        stats
    }

    /// Counts `operands`.
    fn count_operands(&mut self, operands: &[u64]) {
        for bits in operands {
            if let Some(operand) = operand_of(*bits) {
                if let Some(count) = self.operands.get_mut(index_of(operand.constraint())) {
                    *count = count.saturating_add(1);
                }
            }
        }
    }

    /// Counts the move from place `from` to place `to` on a machine with the fixed stack slots `fixed_stack`.
    fn count_move(&mut self, fixed_stack: PRegSet, from: u32, to: u32) {
        if is_stack_place(to, fixed_stack) {
            self.stores = self.stores.saturating_add(1);
        } else if is_stack_place(from, fixed_stack) {
            self.loads = self.loads.saturating_add(1);
        } else {
            self.register_moves = self.register_moves.saturating_add(1);
        }
    }
}

/// A table: a line for each count, with the name first.
impl fmt::Display for Stats {
    fn fmt<W: fmt::Write>(&self, f: &mut fmt::Formatter<W>) -> fmt::Result {
        let Stats {
            insts,
            blocks,
            vregs,
            operands,
            register_moves,
            loads,
            stores,
            slots,
        } = self;
        write!(
            f,
            "instructions       {insts}\nblocks             {blocks}\nvirtual registers  {vregs}\n"
        )?;
        for (name, count) in &by_constraint(operands) {
            writeln!(f, "operands {name:<9} {count}")?;
        }
        writeln!(
            f,
            "moves              {register_moves}\nloads              {loads}\nstores             {stores}\nunits of slots     {slots}"
        )
    }
}

/// The members of a JSON object: counts with their names.
#[derive(Clone, Copy)]
struct Members<'a>(&'a [(&'static str, u64)]);

impl<'a> fmt::Display for Members<'a> {
    fn fmt<W: fmt::Write>(&self, f: &mut fmt::Formatter<W>) -> fmt::Result {
        let mut before = "";
        for (name, count) in self.0 {
            write!(f, "{before}\"{name}\": {count}")?;
            before = ", ";
        }
        Ok(())
    }
}

/// Counts as a JSON object on one line.
#[derive(Clone, Copy)]
pub struct StatsJson(pub Stats);

impl fmt::Display for StatsJson {
    fn fmt<W: fmt::Write>(&self, f: &mut fmt::Formatter<W>) -> fmt::Result {
        let Stats {
            insts,
            blocks,
            vregs,
            operands,
            register_moves,
            loads,
            stores,
            slots,
        } = self.0;
        let sizes = [
            ("instructions", insts as u64),
            ("blocks", blocks as u64),
            ("vregs", vregs),
        ];
        let moves = [
            ("register", register_moves),
            ("load", loads),
            ("store", stores),
        ];
        let operands = by_constraint(&operands);
        let (sizes, operands, moves) = (Members(&sizes), Members(&operands), Members(&moves));
        writeln!(
            f,
            "{{{sizes}, \"operands\": {{{operands}}}, \"moves\": {{{moves}}}, \"slots\": {slots}}}"
        )
    }
}
