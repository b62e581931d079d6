//! The calls that allocate memory, with their results as text.

use crate::calls::{order, run_fitting, run_with_ctx_fitting};
use crate::test_alloc::{Call, Refusing};
use regalloc2::cfg::{CFGInfo, CFGInfoCtx};
use regalloc2::checker::{Checker, CheckerError, CheckerErrors};
use regalloc2::ssa::{reads_written, validate_ssa};
use regalloc2::{
    AllocateError, Ctx, Function, MachineEnv, Output, RegAllocError, TestedRunError, allocate,
    is_framed, run_tested,
};
use std::alloc::{AllocError, Allocator, Global};

/// A call.
#[derive(Clone, Copy, Debug)]
pub enum Name {
    Run,
    RunWithCtx,
    RunTested,
    Allocate,
    Tables,
    Order,
    Definitions,
    ReadsWritten,
    Check,
    CheckWithoutMoves,
}

/// All of them.
pub static NAMES: [Name; 10] = [
    Name::Run,
    Name::RunWithCtx,
    Name::RunTested,
    Name::Allocate,
    Name::Tables,
    Name::Order,
    Name::Definitions,
    Name::ReadsWritten,
    Name::Check,
    Name::CheckWithoutMoves,
];

/// A call, the function and the output that it is made with, and its expected result.
#[derive(Drop)]
pub struct Given<'a, F: Function> {
    /// Makes the texts.
    pub global: Global,
    pub name: Name,
    pub f: &'a F,
    pub env: &'a MachineEnv,
    /// What `run` gives.
    pub out: &'a Output,
    /// `out` without its moves.
    pub without_moves: &'a Output,
    pub wanted: String,
}

impl<F: Function> Call for Given<'_, F> {
    fn make(&self, alloc: &Refusing<Global>) -> Result<bool, AllocError> {
        let outcome = self.outcome(alloc)?;
        Ok(outcome == self.wanted)
    }
}

/// Returns the text of `error`. That memory ran out is passed on.
fn told(global: Global, error: RegAllocError) -> Result<String, AllocError> {
    if error == RegAllocError::Memory {
        return Err(AllocError);
    }
    format!(in global; "{error}")
}

/// The text of an output.
fn text_of<A: Allocator>(global: Global, out: &Output<A>) -> Result<String, AllocError> {
    let (slots, edits, allocs) = (
        out.num_spillslots,
        out.edits.as_slice(),
        out.allocs.as_slice(),
    );
    let (offsets, labels) = (
        out.inst_alloc_offsets.as_slice(),
        out.debug_locations.as_slice(),
    );
    format!(in global; "{slots} {edits:?} {allocs:?} {offsets:?} {labels:?}")
}

/// Returns the text of `errors`. That memory ran out, which has to be the only error, is passed on.
fn faults<A: Allocator>(global: Global, errors: &[CheckerError<A>]) -> Result<String, AllocError> {
    if matches!(errors, [CheckerError::Memory]) {
        return Err(AllocError);
    }
    let mut text = String::new(global);
    for error in errors {
        let line = format!(in global; "{error}\n")?;
        text.push_str(&line)?;
    }
    Ok(text)
}

impl<F: Function> Given<'_, F> {
    /// What the call returns. An error says that the call reported that memory ran out, and left
    /// what it should.
    pub fn outcome<A: Allocator + Copy>(&self, alloc: A) -> Result<String, AllocError> {
        match self.name {
            Name::Run => self.run(alloc),
            Name::RunWithCtx => self.run_with_ctx(alloc),
            Name::RunTested => self.run_tested(alloc),
            Name::Allocate => self.allocate(alloc),
            Name::Tables => self.tables(alloc),
            Name::Order => self.order(alloc),
            Name::Definitions => self.definitions(alloc),
            Name::ReadsWritten => self.reads_written(alloc),
            Name::Check => self.check(alloc, self.out),
            Name::CheckWithoutMoves => self.check(alloc, self.without_moves),
        }
    }

    /// Returns `words`, the result of a call that isn't made, or breaks a rule.
    fn words(&self, words: &str) -> Result<String, AllocError> {
        String::from_str(self.global, words)
    }

    fn run<A: Allocator + Copy>(&self, alloc: A) -> Result<String, AllocError> {
        match run_fitting(alloc, self.f, self.env) {
            Some(Ok(out)) => text_of(self.global, &out),
            Some(Err(error)) => told(self.global, error),
            None => self.words("the machine doesn't fit"),
        }
    }

    /// Runs with `ctx`. An error leaves the whole output that it had.
    fn run_once<A: Allocator + Copy>(&self, ctx: &mut Ctx<A>) -> Result<String, AllocError> {
        let had = text_of(self.global, &ctx.output)?;
        let Some(answer) = run_with_ctx_fitting(self.f, self.env, ctx) else {
            return self.words("the machine doesn't fit");
        };
        let text = text_of(self.global, &ctx.output)?;
        match answer {
            Ok(_) => Ok(text),
            Err(_) if text != had => self.words("the output is lost"),
            Err(error) => told(self.global, error),
        }
    }

    /// Runs three times with `ctx`: the second run finds an output, and the third one shows that the context still
    /// serves.
    fn run_thrice<A: Allocator + Copy>(&self, ctx: &mut Ctx<A>) -> Result<String, AllocError> {
        let (first, second) = (self.run_once(ctx), self.run_once(ctx));
        let third = self.run_once(ctx)?;
        let mut is_refused = false;
        for run in [first, second] {
            match run {
                Ok(text) if text != third => return Ok(text),
                Ok(_) => {}
                Err(_) if third != self.wanted => return self.words("the context serves no more"),
                Err(_) => is_refused = true,
            }
        }
        if is_refused {
            return Err(AllocError);
        }
        Ok(third)
    }

    /// [`Self::run_thrice`] with a context whose output isn't empty.
    fn run_with_ctx<A: Allocator + Copy>(&self, alloc: A) -> Result<String, AllocError> {
        let mut ctx = Ctx::new(alloc);
        ctx.output.num_spillslots = 7;
        self.run_thrice(&mut ctx)
    }

    fn run_tested<A: Allocator + Copy>(&self, alloc: A) -> Result<String, AllocError> {
        match run_tested(alloc, self.f, self.env) {
            Ok(out) => text_of(self.global, &out),
            Err(TestedRunError::Refused(error)) => told(self.global, error),
            Err(error) => format!(in self.global; "{error}"),
        }
    }

    fn allocate<A: Allocator + Copy>(&self, alloc: A) -> Result<String, AllocError> {
        match allocate(alloc, self.f, self.env) {
            Ok(out) => text_of(self.global, &out),
            Err(AllocateError::Refused(error)) => told(self.global, error),
            Err(AllocateError::Unjudged) => Err(AllocError),
            Err(error) => format!(in self.global; "{error}"),
        }
    }

    /// If memory runs out, the tables are empty.
    fn tables<A: Allocator + Copy>(&self, alloc: A) -> Result<String, AllocError> {
        let mut info = CFGInfo::empty(alloc);
        match info.init(self.f, &mut CFGInfoCtx::new(alloc)) {
            Ok(()) => tables_text(self.global, &info),
            Err(error) => match left_in(&info) {
                Some(words) => self.words(words),
                None => told(self.global, error),
            },
        }
    }

    /// If memory runs out, the list is empty.
    fn order<A: Allocator + Copy>(&self, alloc: A) -> Result<String, AllocError> {
        let mut out = Vec::new(alloc);
        let answer = order(alloc, self.f, &mut out);
        let blocks = out.as_slice();
        match answer {
            Ok(()) => format!(in self.global; "{blocks:?}"),
            Err(_) if !blocks.is_empty() => self.words("blocks are left"),
            Err(error) => told(self.global, error),
        }
    }

    fn definitions<A: Allocator + Copy>(&self, alloc: A) -> Result<String, AllocError> {
        match definitions(alloc, self.f) {
            Ok(()) => self.words("valid"),
            Err(error) => told(self.global, error),
        }
    }

    fn reads_written<A: Allocator + Copy>(&self, alloc: A) -> Result<String, AllocError> {
        if !is_framed(self.f) {
            return self.words("not framed");
        }
        match reads_written(alloc, self.f) {
            Ok(answer) => format!(in self.global; "{answer}"),
            Err(error) => told(self.global, error),
        }
    }

    /// If memory runs out while an output is prepared, none is, and the checker serves once more.
    fn check<A: Allocator + Copy>(&self, alloc: A, out: &Output) -> Result<String, AllocError> {
        if !is_framed(self.f) {
            return self.words("not framed");
        }
        match Checker::new(alloc, self.f, self.env) {
            Ok(checker) => self.check_by(checker, out),
            Err(CheckerError::Memory) => Err(AllocError),
            Err(error) => format!(in self.global; "{error}"),
        }
    }

    /// Returns the result of a check of `out` by `checker`, which is new.
    fn check_by<A: Allocator + Copy>(
        &self,
        mut checker: Checker<'_, F, A>,
        out: &Output,
    ) -> Result<String, AllocError> {
        match lacks_memory(&mut checker, out) {
            Some(is_refused) => self.verdict(checker.run(), is_refused),
            None => self.words("the checker serves no more"),
        }
    }

    /// Returns the text of the checker's `report`. If `is_refused`, memory ran out before it, and the report has to
    /// be the usual one.
    fn verdict<A: Allocator>(
        &self,
        report: Result<(), CheckerErrors<A>>,
        is_refused: bool,
    ) -> Result<String, AllocError> {
        let text = match report {
            Ok(()) => self.words("checked")?,
            Err(errors) => faults(self.global, errors.errors())?,
        };
        if is_refused && text == self.wanted {
            return Err(AllocError);
        }
        Ok(text)
    }
}

/// Returns whether memory runs out as `checker` prepares `out`; `None` if the checker then serves no more.
fn lacks_memory<F: Function, A: Allocator + Copy>(
    checker: &mut Checker<'_, F, A>,
    out: &Output,
) -> Option<bool> {
    match checker.prepare(out) {
        Err(CheckerError::Memory) => match checker.prepare(out) {
            Ok(()) => Some(true),
            Err(_) => None,
        },
        _ => Some(false),
    }
}

/// Returns the text of the tables `info`.
fn tables_text<A: Allocator>(global: Global, info: &CFGInfo<A>) -> Result<String, AllocError> {
    let (blocks, insts) = (info.postorder.as_slice(), info.insn_block.as_slice());
    let (first, last) = (info.block_entry.as_slice(), info.block_exit.as_slice());
    format!(in global; "{blocks:?} {insts:?} {first:?} {last:?}")
}

/// Returns what is said of the tables `info`, which should be empty, if they aren't.
fn left_in<A: Allocator>(info: &CFGInfo<A>) -> Option<&'static str> {
    if !info.postorder.is_empty() || !info.insn_block.is_empty() {
        Some("a table is left")
    } else if !info.block_entry.is_empty() || !info.block_exit.is_empty() {
        Some("points are left")
    } else {
        None
    }
}

/// Tests the definitions and uses of a function, by its tables.
fn definitions<A: Allocator + Copy, F: Function>(alloc: A, f: &F) -> Result<(), RegAllocError> {
    let info = CFGInfo::new(alloc, f)?;
    validate_ssa(alloc, f, &info)
}
