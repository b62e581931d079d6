//! The program's tasks.

/// The action on a module that is read from a text.
#[derive(Drop)]
pub enum Action {
    /// Write it as assembly.
    Write,
    /// Write a header for C of its assembly.
    Header,
    /// Run it.
    Run(RunOptions),
}

/// The options of a run.
#[derive(Drop)]
pub struct RunOptions {
    /// The arguments of function 0; further arguments are 0.
    pub arguments: Vec<u64>,
    /// How many words the code's activations may take on the stack.
    pub room: u64,
    /// Whether a hash of the memory is written that the code leaves.
    pub shows_memory: bool,
}

/// The task in the arguments.
#[derive(Drop)]
pub enum Task<'a> {
    /// Read a module from the file at that path, and apply an action to it.
    Read(&'a str, Action),
    /// Write the text of a randomly generated module, from that seed.
    Random(u64),
}
