//! Functions as plain data: stored numbers, the function that they name, and the JSON value that they are read from.
//!
//! [`flat`] lays functions and outputs out as words for C, [`table_function`] keeps a function in tables and builds it,
//! and [`rewrite`] lays functions out anew.
#![tactic(auto)]

mod data;
mod decode;
mod encode;
pub mod flat;
pub mod from_function;
mod from_json;
mod json_outputs;
pub mod limits;
pub mod rewrite;
pub mod table_function;
mod tables;
mod validate;

pub use data::{InstOpcode, StoredFunction, StoredInst, StoredMachine};
pub use from_json::FromValue;
pub use tables::SerializableFunction;
