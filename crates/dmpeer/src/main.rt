//! The program `dmpeer`: reads standard input as its words ask, and prints to standard output.
//!
//! Its words are `show`, `check`, `check --dict`, `build` or `replay`. What comes of them is dm_tool's; dm_io reads the
//! command line and makes the status.
#![tactic(auto)]

use dm_io::{command_line_words, exit_code};
use dm_tool::run_program;
use std::process::ExitCode;

fn main(rt: HostRuntime) -> ExitCode {
    let words = command_line_words(&rt);
    let ended = run_program(
        rt.alloc(),
        words,
        &mut rt.stdin(),
        &mut rt.stdout(),
        &mut rt.stderr(),
    );
    exit_code(&ended)
}
