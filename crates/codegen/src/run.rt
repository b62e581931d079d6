//! Interpreters of functions and modules over 64-bit integers and of the machine's code: bounded
//! runs, as the specs define them.

mod frame;
mod machine;
mod memory;
mod module;
mod numbers;
mod procedure;
mod stack;
mod standing;

pub use machine::run_code;
pub use module::run_module;
pub use procedure::run_procedure;
pub use stack::run_module_code;
pub use standing::{Run, Standing};
