// Shows what table files hold.
#![tactic(auto)]

mod demo;
mod help;
mod tables;

use std::env::Args;
use std::process::ExitCode;
use std::{env, io};

// A failure is told by the status 1 and nothing more: what is refused was printed before.
fn main(rt: HostRuntime) -> ExitCode {
    match answer(&rt) {
        Ok(()) => ExitCode::SUCCESS,
        Err(_) => ExitCode::FAILURE,
    }
}

// Runs the command that the program was called with.
fn answer(rt: &HostRuntime) -> io::Result<()> {
    let mut words = env::args(rt)?;
    let _program = words.next();
    match words.next() {
        Some(command) => run(rt, command.as_str(), words),
        None => help::help(rt),
    }
}

// Runs a command on the words behind it. A match and no table of functions, since commands take different things.
fn run(rt: &HostRuntime, command: &str, words: Args) -> io::Result<()> {
    match command {
        "table" => tables::tables(rt, words),
        "demo" => demo::demo(rt),
        "help" => help::help(rt),
        _ => help::unknown(rt, command),
    }
}
