//! The outcome of a run.

ghost use Rattle.std.specs.Prelude.{Some};
ghost use Rattle.codegen.specs.Run.Runs.{standing_text};

use std::fmt;

/// The outcome of a run after some number of steps.
#[derive(Clone, Copy, PartialEq, Eq)]
pub enum Standing {
    /// The run goes on.
    Running,
    /// The run has returned a number.
    Returned(u64),
    /// The run has trapped.
    Trapped,
    /// The stack has overflowed.
    Overflowed,
    /// The run is stuck.
    Stuck,
}

/// A run after some number of steps.
#[derive(Drop)]
pub struct Run {
    /// The outcome of the run.
    pub standing: Standing,
    /// The memory that it has left so far.
    pub memory: Vec<u8>,
}

impl fmt::Display for Standing {
    ghost output = { λ s. Some (standing_text s) };

    fn fmt<W: fmt::Write>(&self, f: &mut fmt::Formatter<W>) -> fmt::Result {
        match self {
            Standing::Running => f.write_str("still running"),
            Standing::Returned(number) => write!(f, "{number}"),
            Standing::Trapped => f.write_str("trapped"),
            Standing::Overflowed => f.write_str("stack overflow"),
            Standing::Stuck => f.write_str("stuck"),
        }
    }
}
