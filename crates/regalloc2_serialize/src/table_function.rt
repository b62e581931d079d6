//! A function that is kept in tables, and its builder.

pub mod build;
pub mod builder;
pub mod table;

pub use builder::{BlockDraft, BuildError, TableBuilder};
pub use table::{SlotUnits, TableBlock, TableFunction, TableInst};
