//! The tasks of the program.

use crate::calls::call::Call;
use clap::error::ErrorKind;
use clap::{ArgMatches, Command, Error};
use command_line::{Argument, Commands, Form};
use std::alloc::{AllocError, Global};

/// The subcommands, with what their help says.
static SUBCOMMANDS: [(&str, &str); 10] = [
    (
        "run",
        "Allocate registers, and write the function with its machine and output as a text",
    ),
    (
        "check",
        "Write `checked`, or what the checker finds in the output that FILE gives or else in the allocator's",
    ),
    (
        "replay",
        "Do as check does, but only with an output that FILE gives",
    ),
    (
        "text",
        "Write what FILE gives as a text in its one form, and allocate nothing",
    ),
    (
        "svg",
        "Allocate registers, and write a picture of where each virtual register is",
    ),
    (
        "reads",
        "Write whether each read comes after a write on every path, and else a shortest path on which one doesn't",
    ),
    (
        "stats",
        "Write counts of the output that FILE gives, or else of the allocator's: a table, or JSON with --json",
    ),
    ("dump", "Write such an output as upstream does"),
    (
        "diff",
        "Write how the outputs that FILE and OTHER give differ, and whether each is faithful",
    ),
    (
        "json",
        "Write the function with its machine as JSON, for ra2",
    ),
];

/// What the help says of statuses.
const STATUSES: &str = "\
The status is 0; or 1 if the allocator rejects the function or something is found; or 2 if
words or input are bad or nothing can be written. Results are on standard output, and errors
on standard error: for a rejected function its cause, with the line and column at which it lies.";

/// What is to be done with a text.
#[derive(Clone, Copy)]
pub enum Action {
    /// A call on a text or on JSON.
    Call(Call),
    /// To write the function as JSON.
    Json,
}

impl Action {
    /// Returns the action that `word` names, with `--json` if `is_json`.
    fn named(word: &str, is_json: bool) -> Option<Action> {
        match word {
            "json" => Some(Action::Json),
            "stats" if is_json => Some(Action::Call(Call::StatsJson)),
            // the listing that shows everything is the text
            "run" => Some(Action::Call(Call::Allocated)),
            _ => Call::named(word).map(Action::Call),
        }
    }
}

/// What is to be done with the function in a file.
#[derive(Clone, Copy)]
pub struct Task<'a> {
    /// What is to be done.
    pub action: Action,
    /// The file's path; `-` is standard input.
    pub path: &'a str,
    /// The path of the file with the other output of `diff`; without one, the allocator's is compared.
    pub other: Option<&'a str>,
    /// The path of the file to which the result is written, in place of standard output.
    pub output: Option<&'a str>,
    /// Whether nothing is written but errors in arguments or input.
    pub is_quiet: bool,
}

/// The arguments of the subcommands, in the order of the help.
static ARGUMENTS: [Argument; 5] = [
    Argument {
        command: "",
        id: "FILE",
        form: Form::Word,
        short: None,
        is_required: true,
        is_number: false,
        help: "A function with its machine, as a text, as JSON or as upstream prints it; - is standard input",
    },
    Argument {
        command: "",
        id: "output",
        form: Form::Valued("OUT"),
        short: Some('o'),
        is_required: false,
        is_number: false,
        help: "Write the answer to the file OUT",
    },
    Argument {
        command: "",
        id: "quiet",
        form: Form::Flag,
        short: Some('q'),
        is_required: false,
        is_number: false,
        help: "Write neither answer nor rejection: the status tells",
    },
    Argument {
        command: "diff",
        id: "OTHER",
        form: Form::Word,
        short: None,
        is_required: false,
        is_number: false,
        help: "The same function with another output; without it, the allocator's",
    },
    Argument {
        command: "stats",
        id: "json",
        form: Form::Flag,
        short: None,
        is_required: false,
        is_number: false,
        help: "Write the counts as JSON",
    },
];

/// Returns the command with its subcommands.
fn command<'a>(alloc: Global) -> Result<Command<'a>, AllocError> {
    let commands = Commands {
        subcommands: &SUBCOMMANDS,
        arguments: &ARGUMENTS,
        after_help: STATUSES,
    };
    let subcommands = commands.subcommands(alloc)?;
    Command::new(alloc, "ra2_text")
        .version("0.1.0")
        .about("Allocates registers to a function that is given as a text or as JSON")
        .after_help(STATUSES)
        .subcommand_required(true)
        .arg_required_else_help(true)
        .subcommands(subcommands)
}

/// Returns the task in `given`, the matches of the subcommand `name`.
fn task_of<'a>(name: &str, given: &ArgMatches<'a>) -> Option<Task<'a>> {
    Some(Task {
        action: Action::named(name, given.get_flag("json"))?,
        path: given.get_str("FILE")?,
        other: given.get_str("OTHER"),
        output: given.get_str("output"),
        is_quiet: given.get_flag("quiet"),
    })
}

/// Returns the task in `matches`, the matches of `command`, or an error if there is none.
fn task_in<'a>(command: &mut Command<'a>, matches: &ArgMatches<'a>) -> Result<Task<'a>, Error> {
    if let Some((name, given)) = matches.subcommand() {
        if let Some(task) = task_of(name, given) {
            return Ok(task);
        }
    }
    Err(command.error(
        ErrorKind::MissingSubcommand,
        "a subcommand and a file are wanted",
    )?)
}

/// Returns the task that `words` name to `command`.
fn parsed<'a>(command: &mut Command<'a>, words: &'a [String]) -> Result<Task<'a>, Error> {
    let matches = command.try_get_matches_from_mut(words)?;
    task_in(command, &matches)
}

impl<'a> Task<'a> {
    /// Returns the task that `words` name, of which the first is the program's own name.
    ///
    /// The error's text is for the user: that the arguments are wrong, or the help or the version if that is
    /// requested.
    pub fn of(alloc: Global, words: &'a [String]) -> Result<Task<'a>, Error> {
        parsed(&mut command(alloc)?, words)
    }
}
