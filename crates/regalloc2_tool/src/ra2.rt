//! The program `ra2`: reads a stored function, allocates registers to it, and prints the result, or
//! checks a stored output.

mod judging;
mod program;
mod reading;
mod task;

pub use judging::{judge, show};
pub use program::{UNUSABLE, refuse_words, run_program};
pub use reading::{InputError, function_from, replay_from};
pub use task::{Command, Task};
