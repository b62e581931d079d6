//! A block's head.

ghost use Rattle.std.specs.Prelude.{◌<◌, length};

use regalloc2_function::Function;
use regalloc2_index::Block;
use regalloc2_names::{VReg, VRegText};
use std::fmt;

/// A block with its parameters, and its successors with the arguments that it passes: `block1(v2i) to block2(),
/// block3(v2i)`.
#[derive(Drop)]
pub(crate) struct Head<'a, F: Function> {
    /// The function.
    pub(crate) f: &'a F,
    /// The block.
    pub(crate) block: Block,
}

/// Vregs in brackets.
#[derive(Clone, Copy)]
struct InBrackets<'a>(&'a [VReg]);

impl fmt::Display for InBrackets<'_> {
    fn fmt<W: fmt::Write>(&self, f: &mut fmt::Formatter<W>) -> fmt::Result {
        write!(f, "(")?;
        for (k, vreg) in self.0.iter().enumerate() {
            let before = if k == 0 { "" } else { ", " };
            write!(f, "{before}{}", VRegText(*vreg))?;
        }
        write!(f, ")")
    }
}

impl<F: Function> Head<'_, F> {
    /// Writes the successors with the arguments that the block passes.
    fn write_succs<W: fmt::Write>(&self, f: &mut fmt::Formatter<W>) -> fmt::Result
        requires { self.now.block < length (F.function self.now.f.now).blocks }
    {
        let range = self.f.block_insns(self.block);
        if range.len() == 0 {
            return Ok(());
        }
        let succs = self.f.block_succs(self.block);
        for k in 0..succs.len() {
            let before = if k == 0 { " to" } else { "," };
            let succ = succs[k].index();
            let arguments = self.f.branch_blockparams(self.block, range.last(), k);
            write!(f, "{before} block{succ}{}", InBrackets(arguments))?;
        }
        Ok(())
    }
}

impl<F: Function> fmt::Display for Head<'_, F> {
    fn fmt<W: fmt::Write>(&self, f: &mut fmt::Formatter<W>) -> fmt::Result {
        let number = self.block.index();
        write!(f, "block{number}")?;
        if number >= self.f.num_blocks() {
            return Ok(());
        }
        let params = self.f.block_params(self.block);
        if !params.is_empty() {
            write!(f, "{}", InBrackets(params))?;
        }
        self.write_succs(f)
    }
}
