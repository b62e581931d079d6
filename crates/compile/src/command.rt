//! The command line.

use clap::error::ErrorKind;
use clap::{ArgMatches, Command, Error};
use codegen::program::{Action, ROOM, RunOptions, Task};
use command_line::{Argument, Commands, Form};
use std::alloc::{AllocError, Global};

/// The help's text about the exit status.
const STATUSES: &str = "\
The status is 0; or 1 if the function is rejected, or it and its code don't return alike; or 2 if
words or input are bad or nothing can be written. Errors are on standard error.";

/// The request in the arguments.
#[derive(Drop)]
pub struct Request<'a> {
    /// The task.
    pub task: Task<'a>,
    /// The path of the file to which the output is written, instead of standard output.
    pub output: Option<&'a str>,
    /// Whether nothing is written except errors in the arguments or the input.
    pub is_quiet: bool,
}

/// The arguments of the commands, in the order of the help.
static ARGUMENTS: [Argument; 9] = [
    Argument {
        command: "compile",
        id: "FILE",
        form: Form::Word,
        short: None,
        is_required: false,
        is_number: false,
        help: "A function or several, as a text; - is standard input",
    },
    Argument {
        command: "compile",
        id: "header",
        form: Form::Flag,
        short: None,
        is_required: false,
        is_number: false,
        help: "Write a header for C in place of the assembly",
    },
    Argument {
        command: "run",
        id: "FILE",
        form: Form::Word,
        short: None,
        is_required: true,
        is_number: false,
        help: "A function or several, as a text; - is standard input",
    },
    Argument {
        command: "run",
        id: "NUMBER",
        form: Form::Words,
        short: None,
        is_required: false,
        is_number: true,
        help: "The arguments; those past them are 0",
    },
    Argument {
        command: "run",
        id: "room",
        form: Form::Valued("WORDS"),
        short: None,
        is_required: false,
        is_number: true,
        help: "How many words the code may take on the stack, 131072 unless given",
    },
    Argument {
        command: "run",
        id: "memory",
        form: Form::Flag,
        short: None,
        is_required: false,
        is_number: false,
        help: "Write the hash of the memory that the code leaves (FNV-1a, 64 bits)",
    },
    Argument {
        command: "random",
        id: "SEED",
        form: Form::Word,
        short: None,
        is_required: true,
        is_number: true,
        help: "A number; the same one gives the same functions",
    },
    Argument {
        command: "",
        id: "output",
        form: Form::Valued("OUT"),
        short: Some('o'),
        is_required: false,
        is_number: false,
        help: "Write the answer to the file OUT",
    },
    Argument {
        command: "",
        id: "quiet",
        form: Form::Flag,
        short: Some('q'),
        is_required: false,
        is_number: false,
        help: "Write neither answer nor rejection nor what is wrong with a text: the status tells",
    },
];

/// The subcommands, with what their help says.
static SUBCOMMANDS: [(&str, &str); 2] = [
    (
        "run",
        "Write what the function and its code return, by interpreters",
    ),
    (
        "random",
        "Write the text of up to four functions that look random and end",
    ),
];

/// The whole command.
fn command<'a>(alloc: Global) -> Result<Command<'a>, AllocError> {
    let commands = Commands {
        subcommands: &SUBCOMMANDS,
        arguments: &ARGUMENTS,
        after_help: STATUSES,
    };
    let subcommands = commands.subcommands(alloc)?;
    commands
        .command(alloc, "compile", "Writes a function as assembly for x86-64")?
        .version("0.1.0")
        .arg_required_else_help(true)
        .args_conflicts_with_subcommands(true)
        .subcommands(subcommands)
}

/// The arguments of `run`.
fn numbers_of(alloc: Global, given: &ArgMatches<'_>) -> Result<Vec<u64>, Error> {
    let mut numbers = Vec::new(alloc);
    let Some(words) = given.get_strs("NUMBER") else {
        return Ok(numbers);
    };
    for word in words {
        if let Ok(number) = word.parse::<u64>() {
            numbers.push(number)?;
        }
    }
    Ok(numbers)
}

/// What `run` is to do.
fn run_of(alloc: Global, given: &ArgMatches<'_>) -> Result<Action, Error> {
    Ok(Action::Run(RunOptions {
        arguments: numbers_of(alloc, given)?,
        room: given.get_one::<u64>("room").unwrap_or(ROOM),
        shows_memory: given.get_flag("memory"),
    }))
}

/// The task in the matches of a command, unless it names no file.
fn task_of<'a>(
    alloc: Global,
    name: &str,
    given: &ArgMatches<'a>,
) -> Result<Option<Task<'a>>, Error> {
    if name == "random" {
        return Ok(match given.get_one::<u64>("SEED") {
            Some(seed) => Some(Task::Random(seed)),
            None => None,
        });
    }
    let Some(path) = given.get_str("FILE") else {
        return Ok(None);
    };
    let action = match name {
        "run" => run_of(alloc, given)?,
        _ if given.get_flag("header") => Action::Header,
        _ => Action::Write,
    };
    Ok(Some(Task::Read(path, action)))
}

/// The request in the matches of the whole command, or the error that there is none.
fn request_in<'a>(
    alloc: Global,
    command: &mut Command<'a>,
    matches: &ArgMatches<'a>,
) -> Result<Request<'a>, Error> {
    let (name, given) = matches.subcommand().unwrap_or(("", matches));
    match task_of(alloc, name, given)? {
        Some(task) => Ok(Request {
            task,
            output: given.get_str("output"),
            is_quiet: given.get_flag("quiet"),
        }),
        None => Err(command.error(ErrorKind::MissingRequiredArgument, "a file is wanted")?),
    }
}

/// Parses the program's arguments by its command.
fn parsed<'a>(
    alloc: Global,
    command: &mut Command<'a>,
    words: &'a [String],
) -> Result<Request<'a>, Error> {
    let matches = command.try_get_matches_from_mut(words)?;
    request_in(alloc, command, &matches)
}

impl<'a> Request<'a> {
    /// Parses the program's arguments, the first of which is its own name. The error's text is for
    /// the user: the error in the arguments, or the help or the version if requested.
    pub fn of(alloc: Global, words: &'a [String]) -> Result<Request<'a>, Error> {
        parsed(alloc, &mut command(alloc)?, words)
    }
}
