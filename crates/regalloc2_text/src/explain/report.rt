//! A back-end developer's reports about an allocation: counts, differences, and the form in which
//! upstream prints it.

mod diff;
mod dump;
mod operand;
mod stats;

pub use diff::write_diff;
pub use dump::write_dump;
pub use stats::{Stats, StatsJson};
