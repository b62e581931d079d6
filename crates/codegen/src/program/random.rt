//! Randomly generated modules, as texts.

ghost use Rattle.std.specs.Prelude.{◌<◌};

use super::numbers::Random;
use std::alloc::{AllocError, Global};

/// The operations of two numbers, additions more often than others.
static OPERATIONS: [&str; 18] = [
    "add",
    "add",
    "add",
    "sub",
    "mul",
    "and",
    "or",
    "xor",
    "equal",
    "not_equal",
    "less",
    "less_or_equal",
    "greater",
    "greater_or_equal",
    "signed_less",
    "signed_less_or_equal",
    "signed_greater",
    "signed_greater_or_equal",
];

/// The shifts.
static SHIFTS: [&str; 3] = ["shift_left", "shift_right", "signed_shift_right"];

/// The divisions.
static DIVISIONS: [&str; 4] = ["div", "rem", "signed_div", "signed_rem"];

/// The ends of the names of accesses to memory.
static ACCESSES: [&str; 4] = ["", "32", "16", "8"];

/// The greatest address of most accesses. All lower ones are used too, so it has zeros in no bit.
const LAST_ADDRESS: u32 = 63;

/// The size of memory. The greatest access at the greatest address ends there.
const MEMORY: u32 = LAST_ADDRESS + 8;

/// The greatest address of the accesses that may trap.
const LAST_WIDE_ADDRESS: u32 = 127;

/// The position of the first condition among the operations.
const CONDITIONS: usize = 8;

/// The number of arguments of the first function.
const ARGUMENTS: usize = 3;

/// The greatest depth of calls, which the lower bits of a function's first argument give: it is
/// passed on less by one.
const LAST_DEPTH: u32 = 3;

/// A module that is being written, and its current function.
#[derive(Drop)]
struct Draft {
    random: Random,
    text: String,
    /// How many arguments each function has.
    arities: Vec<usize>,
    /// The virtual registers written on every path to the end of the text so far.
    known: Vec<u32>,
    /// The vreg with the depth of calls, if the function makes calls.
    depth: Option<u32>,
    /// The number of vregs.
    num_vregs: u32,
    /// The number of blocks.
    num_blocks: u32,
}

impl Draft {
    /// The number of a new vreg.
    fn new_vreg(&mut self) -> u32 {
        let number = self.num_vregs;
        self.num_vregs = number.saturating_add(1);
        number
    }

    /// The numbers of three new vregs.
    fn new_vregs(&mut self) -> [u32; 3] {
        [self.new_vreg(), self.new_vreg(), self.new_vreg()]
    }

    /// The number of a new block.
    fn new_block(&mut self) -> u32 {
        let number = self.num_blocks;
        self.num_blocks = number.saturating_add(1);
        number
    }

    /// The numbers of three new blocks.
    fn new_blocks(&mut self) -> [u32; 3] {
        [self.new_block(), self.new_block(), self.new_block()]
    }

    /// Returns one of the vregs that are written, later ones more often.
    fn pick(&mut self) -> u32 {
        let count = self.known.len().max(1);
        let at = self.random.below(count).max(self.random.below(count));
        self.known.get(at).copied().unwrap_or(0)
    }

    /// The end of an operation's name: one time in four it is a 32-bit form.
    fn ending(&mut self) -> &'static str {
        if self.random.once_in(4) { "32" } else { "" }
    }

    /// Writes an operation of two numbers; one time in three the second is a constant.
    fn write_pair(&mut self, name: &str) -> Result<(), AllocError> {
        let (ending, left) = (self.ending(), self.pick());
        let (mark, right) = if self.random.below(3) == 0 {
            let number = self.random.next() >> 33 >> (self.random.next() >> 59);
            ("", number)
        } else {
            ("v", u64::from(self.pick()))
        };
        write!(self.text, "{name}{ending} v{left}, {mark}{right}")
    }

    /// Writes a shift, by a constant or by a vreg.
    fn write_shift(&mut self, name: &str) -> Result<(), AllocError> {
        let (ending, left) = (self.ending(), self.pick());
        let (mark, right) = if self.random.below(2) == 0 {
            let places = if ending.is_empty() {
                self.random.below(64)
            } else {
                self.random.below(32)
            };
            ("", places)
        } else {
            ("v", self.pick() as usize)
        };
        write!(self.text, "{name}{ending} v{left}, {mark}{right}")
    }

    /// Writes a division of odd numbers, which doesn't trap.
    fn write_division(&mut self, to: u32) -> Result<(), AllocError> {
        let (left, right) = (self.pick(), self.pick());
        let (dividend, divisor) = (self.new_vreg(), self.new_vreg());
        writeln!(self.text, "  v{dividend} = or v{left}, 1")?;
        writeln!(self.text, "  v{divisor} = or v{right}, 1")?;
        let (name, ending) = (self.choose(&DIVISIONS), self.ending());
        write!(
            self.text,
            "  v{to} = {name}{ending} v{dividend}, v{divisor}"
        )
    }

    /// Writes an address from the lower bits of a number, and returns it. It is seldom outside
    /// memory.
    fn write_address(&mut self) -> Result<u32, AllocError> {
        let (from, address) = (self.pick(), self.new_vreg());
        let last = if self.random.once_in(50) {
            LAST_WIDE_ADDRESS
        } else {
            LAST_ADDRESS
        };
        writeln!(self.text, "  v{address} = and v{from}, {last}")?;
        Ok(address)
    }

    /// Returns one of `names`, which are names or ends of names.
    fn choose(&mut self, names: &[&'static str; 4]) -> &'static str {
        let at = self.random.below(names.len());
        names.get(at).copied().unwrap_or("")
    }

    /// Writes a read of memory.
    fn write_load(&mut self, to: u32) -> Result<(), AllocError> {
        let (address, ending) = (self.write_address()?, self.choose(&ACCESSES));
        write!(self.text, "  v{to} = load{ending} v{address}")
    }

    /// Writes a write to memory.
    fn write_store(&mut self) -> Result<(), AllocError> {
        let (address, ending) = (self.write_address()?, self.choose(&ACCESSES));
        let value = self.pick();
        writeln!(self.text, "  store{ending} v{address}, v{value}")
    }

    /// Writes an operation.
    fn write_operation(&mut self) -> Result<(), AllocError> {
        if self.random.once_in(8) {
            self.write_store()?;
        }
        let to = self.new_vreg();
        if self.random.once_in(8) {
            self.write_division(to)?;
        } else if self.random.once_in(8) {
            self.write_load(to)?;
        } else {
            self.write_plain(to)?;
        }
        self.text.push_str("\n")?;
        self.known.push(to)?;
        Ok(())
    }

    /// Writes an operation that neither divides nor reads memory.
    fn write_plain(&mut self, to: u32) -> Result<(), AllocError> {
        write!(self.text, "  v{to} = ")?;
        let at = self.random.below(24);
        if let Some(name) = OPERATIONS.get(at) {
            self.write_pair(name)
        } else if at == 18 {
            let from = self.pick();
            write!(self.text, "copy v{from}")
        } else if at == 19 {
            let (test, left, right) = (self.pick(), self.pick(), self.pick());
            write!(self.text, "select v{test}, v{left}, v{right}")
        } else if let Some(name) = SHIFTS.get(at.saturating_sub(20)) {
            self.write_shift(name)
        } else {
            let number = self.random.next();
            write!(self.text, "constant {number}")
        }
    }

    /// Writes at least one and at most `most` operations.
    fn write_operations(&mut self, most: usize) -> Result<(), AllocError>
        requires { 0 < most }
    {
        let count = self.random.below(most);
        for _ in 0..=count {
            self.write_operation()?;
        }
        Ok(())
    }

    /// Writes a block with one parameter that jumps to `join` with its result.
    fn write_side(&mut self, block: u32, join: u32) -> Result<(), AllocError> {
        let before = self.known.len();
        let param = self.new_vreg();
        writeln!(self.text, "block{block}(v{param}):")?;
        self.known.push(param)?;
        self.write_operations(6)?;
        let (left, right) = (self.pick(), self.pick());
        self.known.truncate(before);
        writeln!(self.text, "  jump block{join}(v{left}, v{right})")
    }

    /// Writes the deciding part of a branch: a number, or a condition of two.
    fn write_test(&mut self) -> Result<(), AllocError> {
        let at = self.random.below(2 * (OPERATIONS.len() - CONDITIONS));
        if let Some(name) = OPERATIONS.get(CONDITIONS + at) {
            return self.write_pair(name);
        }
        let test = self.pick();
        write!(self.text, "v{test}")
    }

    /// Writes a branch to two blocks, and the block where they join.
    fn write_fork(&mut self) -> Result<(), AllocError> {
        let [first, second, join] = self.new_blocks();
        self.text.push_str("  branch_if ")?;
        self.write_test()?;
        let (left, right) = (self.pick(), self.pick());
        writeln!(self.text, " block{first}(v{left}), block{second}(v{right})")?;
        self.write_side(first, join)?;
        self.write_side(second, join)?;
        let params = [self.new_vreg(), self.new_vreg()];
        let [left, right] = params;
        writeln!(self.text, "block{join}(v{left}, v{right}):")?;
        self.known.extend_from_slice(&params)
    }

    /// Writes the head of a loop of a few iterations, with three parameters, the first of which
    /// counts the remaining iterations, and the start of its body.
    fn write_head(&mut self, head: u32, body: u32, end: u32) -> Result<[u32; 3], AllocError> {
        let turns = self.random.below(7) as u32;
        let (left, right, first) = (self.pick(), self.pick(), self.new_vreg());
        writeln!(self.text, "  v{first} = constant {turns}")?;
        writeln!(self.text, "  jump block{head}(v{first}, v{left}, v{right})")?;
        let params = self.new_vregs();
        let [count, left, right] = params;
        writeln!(self.text, "block{head}(v{count}, v{left}, v{right}):")?;
        writeln!(
            self.text,
            "  branch_if v{count} block{body}(), block{end}()"
        )?;
        writeln!(self.text, "block{body}():")?;
        self.known.extend_from_slice(&params)?;
        Ok(params)
    }

    /// The numbers of the blocks of a call, if the function makes calls.
    fn new_call(&mut self) -> Option<(u32, [u32; 3])> {
        let depth = self.depth?;
        Some((depth, self.new_blocks()))
    }

    /// Writes a call of any function, unless calls are at their greatest depth, and the block where
    /// both ways join.
    fn write_call(&mut self, (depth, blocks): (u32, [u32; 3])) -> Result<(), AllocError> {
        let ([taken, other, join], count) = (blocks, self.arities.len().max(1));
        let callee = self.random.below(count);
        let (less, result, instead) = (self.new_vreg(), self.new_vreg(), self.pick());
        writeln!(
            self.text,
            "  branch_if v{depth} block{taken}(), block{other}()"
        )?;
        writeln!(self.text, "block{taken}():")?;
        writeln!(self.text, "  v{less} = sub v{depth}, 1")?;
        write!(self.text, "  v{result} = call ")?;
        self.write_callee(callee, less)?;
        let param = self.new_vreg();
        writeln!(self.text, ")")?;
        writeln!(self.text, "  jump block{join}(v{result})")?;
        writeln!(self.text, "block{other}():")?;
        writeln!(self.text, "  jump block{join}(v{instead})")?;
        writeln!(self.text, "block{join}(v{param}):")?;
        self.known.push(param)?;
        Ok(())
    }

    /// Writes the called function and the arguments of a call, the first of which is given.
    fn write_callee(&mut self, callee: usize, first: u32) -> Result<(), AllocError> {
        write!(self.text, "f{callee}(")?;
        let arity = self.arities.get(callee).copied().unwrap_or(0);
        if arity > 0 {
            write!(self.text, "v{first}")?;
        }
        for _ in 1..arity {
            let number = self.pick();
            write!(self.text, ", v{number}")?;
        }
        Ok(())
    }

    /// Writes a loop of a few iterations, whose body passes its second parameter on as the second
    /// last.
    fn write_loop(&mut self) -> Result<(), AllocError> {
        let (head, body) = (self.new_block(), self.new_block());
        let call = if self.random.once_in(3) {
            self.new_call()
        } else {
            None
        };
        let end = self.new_block();
        let [count, _, right] = self.write_head(head, body, end)?;
        let before = self.known.len();
        self.write_operations(8)?;
        if let Some(call) = call {
            self.write_call(call)?;
        }
        let (one, next, last) = (self.new_vreg(), self.new_vreg(), self.pick());
        self.known.truncate(before);
        writeln!(self.text, "  v{one} = constant 1")?;
        writeln!(self.text, "  v{next} = sub v{count}, v{one}")?;
        writeln!(self.text, "  jump block{head}(v{next}, v{right}, v{last})")?;
        writeln!(self.text, "block{end}():")
    }

    /// Writes the return of a number to which each of the written vregs contributes.
    fn write_return(&mut self) -> Result<(), AllocError> {
        let (mut sum, factor) = (self.new_vreg(), self.new_vreg());
        writeln!(self.text, "  v{sum} = constant 1")?;
        writeln!(self.text, "  v{factor} = constant 31")?;
        for at in 0..self.known.len() {
            let number = self.known.get(at).copied().unwrap_or(0);
            let (product, next) = (self.new_vreg(), self.new_vreg());
            writeln!(self.text, "  v{product} = mul v{sum}, v{factor}")?;
            writeln!(self.text, "  v{next} = add v{product}, v{number}")?;
            sum = next;
        }
        writeln!(self.text, "  return v{sum}")
    }

    /// Writes the first block's start: the arguments, which are the vregs of the same numbers, and
    /// the depth of calls if the function has one to give.
    fn write_arguments(&mut self, arity: usize) -> Result<(), AllocError> {
        self.text.push_str("block0:\n")?;
        for _ in 0..arity {
            let to = self.new_vreg();
            writeln!(self.text, "  v{to} = argument {to}")?;
            self.known.push(to)?;
        }
        if arity == 0 {
            let to = self.new_vreg();
            writeln!(self.text, "  v{to} = constant 7")?;
            self.known.push(to)?;
        } else if self.arities.len() > 1 {
            let depth = self.new_vreg();
            writeln!(self.text, "  v{depth} = and v0, {LAST_DEPTH}")?;
            self.depth = Some(depth);
        }
        Ok(())
    }

    /// Writes a section of a function: operations, and a fork, a loop or a call.
    fn write_section(&mut self) -> Result<(), AllocError> {
        self.write_operations(6)?;
        let kinds = if self.depth.is_some() { 5 } else { 3 };
        match self.random.below(kinds) {
            0 => self.write_fork(),
            1 => self.write_loop(),
            2 => Ok(()),
            _ => match self.new_call() {
                Some(call) => self.write_call(call),
                None => Ok(()),
            },
        }
    }

    /// Writes a function of `arity` arguments and `sections` sections.
    fn write_function(&mut self, arity: usize, sections: usize) -> Result<(), AllocError> {
        self.known.clear();
        self.depth = None;
        self.num_vregs = 0;
        self.num_blocks = 1;
        self.write_arguments(arity)?;
        for _ in 0..sections {
            self.write_section()?;
        }
        self.write_return()
    }

    /// Chooses how many arguments each function has.
    fn choose_arities(&mut self) -> Result<(), AllocError> {
        self.arities.push(ARGUMENTS)?;
        for _ in 0..self.random.below(4) {
            let arity = self.random.below(10);
            self.arities.push(arity)?;
        }
        Ok(())
    }

    /// Writes the module.
    fn write_module(&mut self) -> Result<(), AllocError> {
        writeln!(self.text, "memory {MEMORY}")?;
        self.choose_arities()?;
        let count = self.arities.len();
        let sections = if count == 1 { 6 } else { 3 };
        for at in 0..count {
            let arity = self.arities.get(at).copied().unwrap_or(0);
            if count > 1 {
                writeln!(self.text, "function f{at}({arity}):")?;
            }
            self.write_function(arity, sections)?;
        }
        Ok(())
    }
}

/// Returns the text of a randomly generated module with memory, the same for the same seed: up to
/// four functions, the first of three arguments, the others of up to nine. A single function has no
/// name. Each terminates for all arguments, seldom by a trap.
pub fn random_program(alloc: Global, seed: u64) -> Result<String, AllocError> {
    let mut draft = Draft {
        random: Random::new(seed),
        text: String::new(alloc),
        arities: Vec::new(alloc),
        known: Vec::new(alloc),
        depth: None,
        num_vregs: 0,
        num_blocks: 0,
    };
    draft.write_module()?;
    Ok(draft.text)
}
