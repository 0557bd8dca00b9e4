//! Reads the bytes of a section and then commands on it from the standard input, executes the
//! commands and prints one line for each.
#![tactic(auto)]

mod accepted_calls;
mod commands;
mod input;
mod program;
mod sections;
#[cfg(test)]
mod tests;

use std::process::ExitCode;

fn main(rt: HostRuntime) -> ExitCode {
    ExitCode::from(program::run(rt.alloc(), rt.stdin(), rt.stdout()))
}
