//! A program's command line as a table of arguments, from which a command of `clap` is made; its words, and where its
//! result goes.
#![tactic(auto)]

use clap::{Arg, ArgAction, Command, value_parser};
use std::alloc::{AllocError, Global};
use std::env::{self, Env};
use std::fs::{File, Files};
use std::io::{self, Write};

/// Returns the program's words, its name first.
pub fn words(rt: &(impl Env + AllocGlobal)) -> io::Result<Vec<String>> {
    Ok(env::args(rt)?.collect(rt.alloc())?)
}

/// Writes the result `bytes` to the file with the path `output`, or to `stdout` if no path is given.
pub fn write_result<R: Files, O: Write>(
    files: &R,
    output: Option<&str>,
    bytes: &[u8],
    stdout: &mut O,
) -> io::Result<()> {
    match output {
        Some(path) => File::create(files, path)?.write_all(bytes),
        None => stdout.write_all(bytes),
    }
}

/// How an argument is given.
#[derive(Clone, Copy)]
pub enum Form {
    /// A word in its place.
    Word,
    /// All words that are left.
    Words,
    /// An option with its long name and no value.
    Flag,
    /// An option with its long name and a value, which the help calls by this name.
    Valued(&'static str),
}

/// An argument.
pub struct Argument {
    /// The command that takes the argument; empty if each does.
    pub command: &'static str,
    /// The name by which `clap` finds the value: the option's, or the word's in the help.
    pub id: &'static str,
    /// How the argument is given.
    pub form: Form,
    /// The option's letter.
    pub short: Option<char>,
    /// Whether the command needs the argument.
    pub is_required: bool,
    /// Whether the values are numbers of 64 bits.
    pub is_number: bool,
    /// What the help says of the argument.
    pub help: &'static str,
}

/// The commands of a program.
#[derive(Clone, Copy)]
pub struct Commands {
    /// The subcommands, with what their help says.
    pub subcommands: &'static [(&'static str, &'static str)],
    /// The arguments, in the order of the help.
    pub arguments: &'static [Argument],
    /// The end of each command's help.
    pub after_help: &'static str,
}

/// Returns the argument of `clap` for `row` of a table.
fn arg_of<'a>(alloc: Global, row: &Argument) -> Arg<'a> {
    let arg = Arg::new(alloc, row.id)
        .help(row.help)
        .required(row.is_required);
    let arg = match row.form {
        Form::Word => arg.action(ArgAction::Set),
        Form::Words => arg.action(ArgAction::Append).num_args(0..),
        Form::Flag => arg.action(ArgAction::SetTrue).long(row.id),
        Form::Valued(name) => arg.action(ArgAction::Set).long(row.id).value_name(name),
    };
    let arg = match row.short {
        Some(short) => arg.short(short),
        None => arg,
    };
    if row.is_number {
        arg.value_parser(value_parser!(u64))
    } else {
        arg
    }
}

impl Commands {
    /// Returns the command `name` with its arguments, without subcommands; `about` is what its help says. Fails only if
    /// memory runs out.
    pub fn command<'a>(
        &self,
        alloc: Global,
        name: &'static str,
        about: &'static str,
    ) -> Result<Command<'a>, AllocError> {
        let mut command = Command::new(alloc, name)
            .about(about)
            .after_help(self.after_help);
        for row in self.arguments {
            if row.command.is_empty() || row.command == name {
                command = command.arg(arg_of(alloc, row))?;
            }
        }
        Ok(command)
    }

    /// Returns the subcommands, in order. Fails only if memory runs out.
    pub fn subcommands<'a>(&self, alloc: Global) -> Result<Vec<Command<'a>>, AllocError> {
        let mut commands = Vec::new(alloc);
        for (name, about) in self.subcommands {
            commands.push(self.command(alloc, *name, *about)?)?;
        }
        Ok(commands)
    }
}
