//! What is known of a function's vregs before it is allocated: which reads come after a write, what
//! branches define, and where the labelled vregs live.
#![tactic(auto)]

pub mod branch_defs;
pub mod live_ranges;
pub mod liveness;
mod marks;
