//! The text of an allocator's error with its number.

use regalloc2_names::RegAllocError;
use std::fmt;

/// An allocator's error with its number, what it names and its cause, as `refused 5: the entry has
/// parameters`.
#[derive(Clone, Copy)]
pub struct RefusalText(pub RegAllocError);

impl fmt::Display for RefusalText {
    ghost use Rattle.std.specs.Prelude.{Some};
    ghost use Rattle.regalloc2_text.specs.Refusal.{numbered_refusal_text};

    ghost output = { λ t. Some (numbered_refusal_text t.0) };

    fn fmt<W: fmt::Write>(&self, f: &mut fmt::Formatter<W>) -> fmt::Result {
        let number = self.0.kind().number();
        let reason = self.0;
        write!(f, "refused {number}: {reason}")
    }
}
