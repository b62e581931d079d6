//! Functions and outputs laid out as words, for callers in other languages.
//!
//! A function comes in columns ([`FlatFunction`]; `specs/Flat/Columns.antt` has the layout). An output's fields
//! follow one another, and a list is its length and then its members (`specs/Flat/Flat.antt`).

mod columns;
mod long;
mod read;
mod stored;
mod write;

pub use columns::FlatFunction;
pub use long::halves;
pub use read::{Flat, Words, value_of};
pub use write::{Written, words_of};
