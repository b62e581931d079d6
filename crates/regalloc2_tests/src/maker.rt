//! Randomly generated functions: well-formed, each instruction fits, and each use comes after the
//! definition on every path.

ghost use Rattle.std.specs.Prelude.{◌≡◌, ◌<◌};

use super::graph::Graph;
use super::instructions::Draft;
use super::random::{Random, any_class, any_machine, preg};
use regalloc2::{Block, MachineEnv, Operand, OperandKind, PRegSet, RegClass, VReg};
use regalloc2_names::CLASSES;
use regalloc2_serialize::InstOpcode;
use regalloc2_serialize::table_function::{SlotUnits, TableBuilder, TableFunction, TableInst};
use std::alloc::Global;

/// A function that is being made, and its machine.
#[derive(Drop)]
pub struct Maker {
    alloc: Global,
    pub random: Random,
    pub env: MachineEnv,
    /// The registers and fixed stack slots of the machine.
    usable: PRegSet,
    /// How many registers of each class an instruction may require.
    most: [usize; 3],
    /// How many vregs are named.
    named: usize,
    /// The vregs that may be read.
    known: Vec<VReg>,
    /// Whether instructions require registers as long as there are any, as in most functions.
    is_filled: bool,
}

impl Maker {
    /// A machine, made from `seed`, and no instruction yet.
    pub fn new(alloc: Global, seed: u64) -> Option<Maker> {
        let mut random = Random::new(seed);
        let (env, most) = any_machine(alloc, &mut random)?;
        let is_filled = !random.once_in(4);
        let mut usable = PRegSet::from(&env);
        for slot in &env.fixed_stack_slots {
            usable.add(*slot);
        }
        Some(Maker {
            alloc,
            random,
            env,
            usable,
            most,
            named: 0,
            known: Vec::new(alloc),
            is_filled,
        })
    }

    /// A number above that of each vreg.
    fn num_vregs(&self) -> usize
        ensures { result < 1000000 }
    {
        self.named % 1_000_000
    }

    /// Returns a vreg of `class` that wasn't named yet.
    fn fresh(&mut self, class: RegClass) -> VReg
        ensures { result.class ≡ class }
    {
        let vreg = VReg::new(self.num_vregs(), class);
        self.named = self.named.wrapping_add(1);
        vreg
    }

    /// Adds to `draft` a use of one of the first `defined` vregs that may be read.
    fn add_use(&mut self, draft: &mut Draft, defined: usize) -> Option<()> {
        let vreg = *self.known.get(self.random.below(defined.max(1)))?;
        draft.add(&mut self.random, vreg, OperandKind::Use)
    }

    /// Adds to `draft` uses of the first `defined` vregs that may be read, as long as registers are left for them.
    fn fill_up(&mut self, draft: &mut Draft, defined: usize) -> Option<()> {
        for _ in 0..32 {
            let vreg = *self.known.get(self.random.below(defined.max(1)))?;
            draft.add_if_left(&mut self.random, vreg)?;
        }
        Some(())
    }

    /// Adds to `draft` a definition of a vreg that wasn't named yet.
    fn add_def(&mut self, draft: &mut Draft) -> Option<()> {
        let class = any_class(&mut self.random);
        let vreg = self.fresh(class);
        self.known.push(vreg).ok()?;
        draft.add(&mut self.random, vreg, OperandKind::Def)
    }

    /// Adds to `draft` a definition that reuses one of its operands, if one may be reused.
    fn add_reuse(&mut self, draft: &mut Draft) -> Option<()> {
        let Some((index, class)) = draft.reused(&mut self.random) else {
            return Some(());
        };
        let vreg = self.fresh(class);
        self.known.push(vreg).ok()?;
        let operand = Operand::reg_reuse_def(vreg, index % 32);
        draft.operands.push(operand).ok()
    }

    /// An instruction of fewer than `below` operands, and the operands that fill it up. A branch has uses alone, and
    /// isn't filled up.
    fn inst(&mut self, below: usize, op: InstOpcode) -> Option<TableInst>
        requires { 0 < below }
    {
        let is_branch = op.is_branch();
        let defined = self.known.len();
        let mut draft = Draft::new(self.alloc, self.usable, self.most);
        for _ in 0..self.random.below(below) {
            let choice = if is_branch { 8 } else { self.random.below(9) };
            match choice {
                0 | 1 | 2 => self.add_def(&mut draft)?,
                3 | 4 => self.add_reuse(&mut draft)?,
                5 => {
                    let fixed = preg(60, any_class(&mut self.random));
                    let operand = Operand::fixed_nonallocatable(fixed);
                    draft.operands.push(operand).ok()?
                }
                _ => self.add_use(&mut draft, defined)?,
            }
        }
        if self.is_filled && !is_branch {
            self.fill_up(&mut draft, defined)?;
        }
        Some(draft.finish(&mut self.random, op))
    }

    /// Adds an instruction that defines the first vreg of each class.
    fn add_bases(&mut self, f: &mut TableBuilder) -> Option<()> {
        let mut defs = [Operand::any_def(VReg::new(0, RegClass::Int)); 3];
        for at in 0..3 {
            let vreg = self.fresh(CLASSES[at]);
            self.known.push(vreg).ok()?;
            defs[at] = Operand::any_def(vreg);
        }
        f.op(Block(0), &defs).ok()
    }

    /// Adds a parameter to `block`.
    fn name_parameter(&mut self, graph: &mut Graph, block: usize) -> Option<()> {
        let class = any_class(&mut self.random);
        let param = self.fresh(class);
        graph.nodes.get_mut(block)?.params.push(param).ok()
    }

    /// Adds up to three parameters to each block of `graph` but the entry.
    fn name_few_parameters(&mut self, graph: &mut Graph) -> Option<()> {
        for number in 3..3 * graph.nodes.len().min(100) {
            if self.random.once_in(2) {
                self.name_parameter(graph, number / 3)?;
            }
        }
        Some(())
    }

    /// Adds 9 to 20 more parameters to a block of `graph` that isn't the entry, if there is one. Their arguments
    /// repeat, since few vregs may be read.
    fn name_many_parameters(&mut self, graph: &mut Graph) -> Option<()> {
        let blocks = graph.nodes.len().saturating_sub(1);
        if blocks == 0 {
            return Some(());
        }
        let block = self.random.below(blocks).saturating_add(1);
        for _ in 0..self.random.below(12).saturating_add(9) {
            self.name_parameter(graph, block)?;
        }
        Some(())
    }

    /// Adds the parameters of `graph`: few to each block, and in one function of four many to one block.
    fn name_parameters(&mut self, graph: &mut Graph) -> Option<()> {
        self.name_few_parameters(graph)?;
        if self.random.once_in(4) {
            self.name_many_parameters(graph)?;
        }
        Some(())
    }

    /// Returns an argument of `class`: a vreg that may be read.
    fn argument(&mut self, class: RegClass) -> Option<VReg> {
        for _ in 0..12 {
            let vreg = *self.known.get(self.random.below(self.known.len().max(1)))?;
            if vreg.class() == class {
                return Some(vreg);
            }
        }
        Some(VReg::new(class.code(), class))
    }

    /// Returns the arguments for block `to`.
    fn arguments(&mut self, graph: &Graph, to: usize) -> Option<Vec<VReg>> {
        let mut arguments = Vec::new(self.alloc);
        for param in &graph.nodes.get(to)?.params {
            arguments.push(self.argument(param.class())?).ok()?;
        }
        Some(arguments)
    }

    /// Gives `block` its successors, with arguments.
    fn pass(&mut self, graph: &Graph, f: &mut TableBuilder, block: Block) -> Option<()> {
        for succ in &graph.nodes.get(block.index())?.succs {
            let arguments = self.arguments(graph, succ.index())?;
            f.succ(block, *succ, &arguments).ok()?;
        }
        Some(())
    }

    /// Sets the vregs that may be read to the ones at the beginning of block `number`, which isn't the entry: the
    /// ones after the block above it, and its parameters.
    fn enter(&mut self, graph: &Graph, number: usize) -> Option<()> {
        let node = graph.nodes.get(number)?;
        self.known = graph.nodes.get(node.above)?.known.to_vec(self.alloc).ok()?;
        self.known.extend_from_slice(&node.params).ok()
    }

    /// Returns the last instruction of block `number`: most often a return, if no other block comes next.
    fn ending(&mut self, graph: &Graph, number: usize) -> Option<TableInst> {
        if graph.nodes.get(number)?.succs.is_empty() && !self.random.once_in(20) {
            self.inst(5, InstOpcode::Ret)
        } else {
            let below = if graph.may_use(number)? { 3 } else { 1 };
            self.inst(below, InstOpcode::Branch)
        }
    }

    /// Fills block `number`.
    fn fill(&mut self, graph: &mut Graph, f: &mut TableBuilder, number: usize) -> Option<()> {
        let block = Block::new(number % 100);
        for _ in 0..self.random.below(6) {
            f.inst(block, self.inst(7, InstOpcode::Op)?).ok()?;
        }
        f.inst(block, self.ending(graph, number)?).ok()?;
        graph.nodes.get_mut(number)?.known = self.known.to_vec(self.alloc).ok()?;
        self.pass(graph, f, block)
    }

    /// Fills all blocks of `graph`.
    fn fill_all(&mut self, graph: &mut Graph, f: &mut TableBuilder) -> Option<()> {
        f.block(&[]).ok()?;
        self.add_bases(f)?;
        self.name_parameters(graph)?;
        for number in 0..graph.nodes.len() {
            if number > 0 {
                f.block(&graph.nodes.get(number)?.params).ok()?;
                self.enter(graph, number)?;
            }
            self.fill(graph, f, number)?;
        }
        Some(())
    }

    /// A function of up to twelve blocks.
    pub fn function(&mut self) -> Option<TableFunction> {
        let mut graph = Graph::any(self.alloc, &mut self.random)?;
        let mut f = TableBuilder::new(self.alloc);
        self.fill_all(&mut graph, &mut f)?;
        let mut f = f.finish(self.num_vregs()).ok()?;
        f.float_slot = SlotUnits::two();
        f.named_by_last_slot = self.random.once_in(2);
        Some(f)
    }
}
