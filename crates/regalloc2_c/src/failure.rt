//! Why a call gives nothing.

ghost use Rattle.std.specs.Prelude.{◌≡◌};
ghost use Rattle.regalloc2_c.specs.Status.{failure_number, allocate_failure, run_failure, columns_failure, read_failure, write_failure};

use regalloc2::serialize::StoredFault;
use regalloc2::{AllocateError, RegAllocError, TestedRunError};
use regalloc2_function::MachineMisfit;
use regalloc2_text::stored_fault;

/// Why a call gives nothing.
#[derive(Drop)]
pub enum Failure {
    /// The input lays out no function, or no output.
    Unreadable,
    /// The machine doesn't fit the function.
    BadMachine(MachineMisfit),
    /// The output takes more words than there is room for.
    NoRoom,
    /// The checker found faults in the output, or its places aren't cells: the words of a list of them.
    Faults(Vec<u32>),
    /// A memory allocation failed.
    NoMemory,
    /// The function isn't structurally valid, so no output can be checked.
    NotFramed,
    /// The output's numbers name none.
    BadOutput,
    /// Some path reads or passes a vreg before it is written.
    ReadBeforeWritten,
    /// A line of the text can't be read: its number and the column, both counted from 1.
    BadText(u32, u32),
    /// The numbers name no function.
    BadFunction(StoredFault),
    /// The function was rejected, or registers, slots or memory ran out.
    Refused(RegAllocError),
}

/// The number of a failure. The header lists them.
pub fn number_of(failure: &Failure) -> u32
    ensures { result ≡ failure_number failure.now }
{
    match failure {
        Failure::Unreadable => 1,
        Failure::BadMachine(_) => 2,
        Failure::NoRoom => 3,
        Failure::Faults(_) => 4,
        Failure::NoMemory => 5,
        Failure::NotFramed => 6,
        Failure::BadOutput => 7,
        Failure::ReadBeforeWritten => 8,
        Failure::BadText(..) => 9,
        Failure::BadFunction(fault) => 10 + u32::from(stored_fault::number_of(*fault)),
        Failure::Refused(error) => 20 + u32::from(error.kind().number()),
    }
}

/// The failure that an allocation's error is. Without the checker it has no faults.
pub fn failure_of(error: &AllocateError) -> Failure
    ensures { result ≡ allocate_failure error.now }
{
    match error {
        AllocateError::Misfit(misfit) => Failure::BadMachine(*misfit),
        AllocateError::Refused(error) => Failure::Refused(*error),
        AllocateError::Faults(_) | AllocateError::Unjudged => Failure::NoMemory,
    }
}

/// Returns the failure for `error`, of a tested run.
pub fn failure_of_run(error: &TestedRunError) -> Failure
    ensures { result ≡ run_failure error.now }
{
    match error {
        TestedRunError::Misfit(misfit) => Failure::BadMachine(*misfit),
        TestedRunError::Refused(error) => Failure::Refused(*error),
        TestedRunError::ReadBeforeWritten => Failure::ReadBeforeWritten,
    }
}

/// Returns the failure for `fault`, found when words are read in columns.
pub fn failure_of_columns(fault: StoredFault) -> Failure
    ensures { result ≡ columns_failure fault }
{
    match fault {
        StoredFault::Shape => Failure::Unreadable,
        StoredFault::Memory => Failure::NoMemory,
        _ => Failure::BadFunction(fault),
    }
}

/// Returns the failure for `fault`, found when an input is read.
pub fn failure_to_read(fault: StoredFault) -> Failure
    ensures { result ≡ read_failure fault }
{
    match fault {
        StoredFault::Shape => Failure::Unreadable,
        _ => Failure::NoMemory,
    }
}

/// Returns the failure for `fault`, found when an output's words are listed.
pub fn failure_to_write(fault: StoredFault) -> Failure
    ensures { result ≡ write_failure fault }
{
    match fault {
        StoredFault::Limit => Failure::NoRoom,
        _ => Failure::NoMemory,
    }
}
