//! Lines of a text: their words, numbers and signs, a place among them, what the registers, operands, places and
//! points there are, and why a text can't be read.

mod cursor;
mod error;
mod items;
mod token;

pub use cursor::Cursor;
pub(crate) use cursor::is_numeral;
pub use error::{Expected, Found, LineError, LineFault, TextError, TextFault};
pub use items::{Named, class_named};
pub(crate) use token::{is_numbered, without_comment};
pub use token::{Token, TokenKind, split_line, tokenize, tokenize_from};
