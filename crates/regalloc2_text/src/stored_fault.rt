//! The error numbers of `StoredFault`, and its texts.

ghost use Rattle.std.specs.Prelude.{◌≡◌, Some};
ghost use Rattle.regalloc2_text.specs.StoredFault.{fault_number, stored_fault_text};

use crate::explain::StoredCause;
use regalloc2_function::StoredFault;
use std::fmt;

/// Returns the error number of `fault`, counted from 1 in the order of the variants.
pub fn number_of(fault: StoredFault) -> u8
    ensures { result ≡ fault_number fault }
{
    match fault {
        StoredFault::Lengths => 1,
        StoredFault::Index => 2,
        StoredFault::Bits => 3,
        StoredFault::Limit => 4,
        StoredFault::Memory => 5,
        StoredFault::Shape => 6,
    }
}

/// An error in stored numbers, with its error number and its cause, as `2: the entry is block1, and
/// the function has 1 block`.
#[derive(Clone, Copy)]
pub struct FaultText(pub StoredFault, pub StoredCause);

impl fmt::Display for FaultText {
    ghost output = { λ t. Some (stored_fault_text t.0 t.1) };

    fn fmt<W: fmt::Write>(&self, f: &mut fmt::Formatter<W>) -> fmt::Result {
        let number = number_of(self.0);
        let cause = self.1;
        write!(f, "{number}: {cause}")
    }
}
