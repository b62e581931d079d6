//! Functions, machines and outputs as text: read by a [`cursor`] over lines, laid out by [`writer`]; errors with
//! their numbers ([`refusal`], [`stored_fault`]), and their causes ([`explain`]).
#![tactic(auto)]

pub mod cursor;
pub mod explain;
mod named;
mod reading;
pub mod refusal;
mod same;
mod spell;
pub mod stored_fault;
pub mod writer;
mod writing;

pub use crate::cursor::{Expected, Found, TextError, TextFault};
pub use crate::spell::PointText;
pub use crate::writer::write_json;
pub use reading::{Text, is_logged, read};
pub use writing::{WriteError, write};
