//! The program `scf`.
#![tactic(auto)]

use scf_insn::Counted;
use scf_tool::{report_usage_error, run_command};
use std::process::ExitCode;
use std::{env, io};

fn words_of(rt: &HostRuntime) -> io::Result<Vec<String>> {
    Ok(env::args(rt)?.collect(rt.alloc())?)
}

/// Hands the words, standard input and standard output on, and answers the exit status.
fn main(rt: HostRuntime) -> ExitCode {
    let mut input = Counted::new(rt.reader());
    let mut out = Counted::new(io::writer(&rt));
    let status = match words_of(&rt) {
        Ok(words) => run_command(rt.alloc(), words.as_slice(), &mut input, &mut out),
        Err(error) => report_usage_error(&error, &mut out),
    };
    ExitCode::from(status)
}
