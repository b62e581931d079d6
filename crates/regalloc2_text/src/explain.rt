//! Why a function is rejected, or what causes a finding of the checker: the instruction or block as
//! it is written, and the cause with numbers.
//!
//! All calls take stored functions, also ill-formed ones, whose numbers may name nothing. [`report`] counts and
//! compares allocations.

mod blocks;
mod cause;
mod definitions;
mod edges;
mod explanation;
mod fault_site;
mod faults;
mod operands;
mod paths;
mod pressure;
pub mod report;
mod source;
pub(crate) mod stored;
mod stored_cause;
mod write_search;
mod writes;

pub use cause::{
    ArgumentCause, Cause, ConstraintCause, CountCause, EdgeCause, EndCause, OrderCause, ReuseCause,
    Site, VRegCause,
};
pub use explanation::{Explanation, explain, misfit_at};
pub use faults::{explain_function, explain_output};
pub use paths::{UnwrittenRead, find_unwritten_read};
pub use source::{Source, SourceLine};
pub use stored_cause::{
    EncodingCause, IndexCause, LengthCause, LimitCause, OutputCause, StoredCause,
};
pub use write_search::{LastWrites, WriteOnPath, last_writes};
pub use writes::LastWrite;
