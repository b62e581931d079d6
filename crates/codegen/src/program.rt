//! The program `compile`: writes a module, given as a text, as x86-64 assembly, or runs it.

mod agree;
mod numbers;
mod program;
mod random;
mod task;

pub use agree::{ROOM, agrees_at_random};
pub use numbers::Random;
pub use program::{UNUSABLE, run_task};
pub use random::random_program;
pub use task::{Action, RunOptions, Task};
