//! The program `dmlive`: one peer, or a node of several neighbours, with its connections, told by the lines of standard
//! input, each answered at once on standard output. What comes of the lines is dm_live's; dm_io reads the command line,
//! which is to have no words, and makes the status.
#![tactic(auto)]

use dm_io::{command_line_words, exit_code};
use dm_live::run_program;
use std::process::ExitCode;

fn main(rt: HostRuntime) -> ExitCode {
    let words = command_line_words(&rt);
    let ended = run_program(
        rt.alloc(),
        words,
        rt.stdin(),
        &mut rt.stdout(),
        &mut rt.stderr(),
    );
    exit_code(&ended)
}
