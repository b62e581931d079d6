//! What the program `ra2_text` does with its words and with a text.

mod input;
mod program;
mod task;

pub use command_line::{words, write_result};
pub use input::{Input, InputError, position_of};
pub use program::{UNUSABLE, perform_task};
pub use task::{Action, Task};
