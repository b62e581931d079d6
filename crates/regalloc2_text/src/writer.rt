//! Writes functions, machines and outputs as text, and functions as JSON.

mod insts;
mod json;
mod lines;
mod lists;
mod machine;
mod moves;
mod places;
mod preds;
mod registers;
mod shown;

pub use json::write_json;
pub use lines::lay_out;
