//! `ra2`: allocates registers to a stored function, and prints the result.
//!
//! The argument `run` prints the listing of the allocated function, and `check` also checks it;
//! `replay` checks a stored output. Standard input holds the stored function, as JSON; for
//! `replay`, an array of the function and the output. The status is 0; or 1 if the function is
//! rejected or an error is found; or 2 if the arguments or the input are invalid or the output
//! can't be written.
#![tactic(auto)]

use std::env::{self, Env};
use std::io::BufWriter;
use std::process::ExitCode;

/// The arguments after the program's name.
fn words(rt: &(impl Env + AllocGlobal)) -> std::io::Result<Vec<String>> {
    Ok(env::args(rt)?.skip(1).collect(rt.alloc())?)
}

fn main(rt: HostRuntime) -> ExitCode {
    let Ok(words) = words(&rt) else {
        return ExitCode::from(regalloc2_tool::ra2::refuse_words(&mut rt.stderr()));
    };
    let out = match BufWriter::new(rt.alloc(), rt.stdout()) {
        Ok(out) => out,
        // a buffer of no bytes allocates nothing
        Err(_) => BufWriter::with_capacity(rt.alloc(), 0, rt.stdout()).unwrap(),
    };
    let (status, _) = regalloc2_tool::ra2::run_program(
        rt.alloc(),
        rt.alloc(),
        words.as_slice(),
        rt.stdin(),
        out,
        &mut rt.stderr(),
    );
    ExitCode::from(status)
}
