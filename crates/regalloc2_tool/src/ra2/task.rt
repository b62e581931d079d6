//! The program's commands.

ghost use Rattle.std.specs.Prelude.{◌≡◌};
ghost use Rattle.regalloc2_tool.specs.Ra2.Words.{command_of};

/// What to do with a function.
#[derive(Clone, Copy)]
pub enum Task {
    /// To allocate registers.
    Run,
    /// To allocate registers, and to check the output.
    Check,
}

/// A command of the program.
#[derive(Clone, Copy)]
pub enum Command {
    /// A task with a stored function.
    Allocate(Task),
    /// To check a stored output of a stored function.
    Replay,
}

impl Command {
    /// Returns the command that `words` name: exactly one word, `run`, `check` or `replay`. All others are invalid.
    pub fn of(words: &[String]) -> Option<Command>
        ensures { result ≡ command_of words.now }
    {
        let [word] = words else {
            return None;
        };
        match word.as_str() {
            "run" => Some(Command::Allocate(Task::Run)),
            "check" => Some(Command::Allocate(Task::Check)),
            "replay" => Some(Command::Replay),
            _ => None,
        }
    }
}
