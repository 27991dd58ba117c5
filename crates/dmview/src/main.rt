//! The program `dmview`: its runs over lines, a stream or captures, what they are asked to say and whether in colours,
//! and their status.
//!
//! It tells what Diameter messages say, in names and values, and all that is wrong with them. What it prints for lines
//! and streams is dm_view_lines', for captures dm_trace_view's; here are the command line, the files, the dictionary of
//! a run and the status.
#![tactic(auto)]

ghost use Rattle.std.specs.Prelude.{◌≡◌, true, false, if◌then◌else◌};
ghost use Rattle.dm_view_lines.specs.declared.message_reports.Task.TheVariants.{Show, Check, ShowJson, CheckJson};

mod capture;
mod command;
mod dictionary;
mod input;
mod output;

use crate::capture::{
    capture_options_of, has_capture_option, looks_from_options, refuse_capture_options,
};
use crate::command::command_line;
use crate::dictionary::dictionary_of_files;
use crate::input::{
    are_captures, file_with_front, files_joined_as_lines, open_dictionary_files, open_input_files,
};
use crate::output::say_lines_or_stream;
use anyhow::{Context, Error, Result};
use clap::{ArgMatches, error};
use dm_dict::Dictionary;
use dm_io::READ_AT_ONCE;
use dm_trace_view::{Looks, say_capture};
use dm_view_lines::{Inputs, RunFault, Style, Task};
use std::collections::VecDeque;
use std::fs::File;
use std::hash::RandomState;
use std::io::{BufReader, ErrorKind, IsTerminal, Read, Write};
use std::process::ExitCode;
use std::{env, mem};

/// The error of a run that stopped by this fault, with the name of what was read; or the status 3, without a word,
/// where nobody reads the output any more.
fn status_or_error(fault: RunFault, name: &str) -> Result<u8> {
    match fault {
        RunFault::Write(error) => {
            if error.kind() == ErrorKind::BrokenPipe {
                return Ok(3);
            }
            Err(Error::msg(format_args!("dmview: {error}")))
        }
        RunFault::Memory => Err(Error::msg("dmview: no memory is left")),
        other => Err(Error::msg(format_args!("dmview: {name}: {other}"))),
    }
}

/// Writes what is said of the inputs as they are read, and tells the status. They have these names.
fn say_hexadecimal_inputs<R: Read + Drop>(
    rt: &HostRuntime,
    dictionary: &Dictionary,
    style: Style,
    is_stream: bool,
    inputs: Inputs<R>,
    names: &[&str],
) -> Result<u8> {
    let mut output = rt.stdout();
    let mut reader = BufReader::with_capacity(rt.alloc(), READ_AT_ONCE, inputs).context("dmview")?;
    let said = say_lines_or_stream(
        rt.alloc(),
        dictionary,
        style,
        is_stream,
        &mut reader,
        &mut output,
    );
    let at = reader.get_ref().ended_reader_count();
    drop(reader);
    match said {
        Ok(good) => Ok(status_of(good)),
        Err(fault) => status_or_error(fault, names.get(at).copied().unwrap_or("standard input")),
    }
}

/// Writes what is said of standard input, and tells the status.
fn say_hexadecimal_standard_input(
    rt: &HostRuntime,
    dictionary: &Dictionary,
    style: Style,
    is_stream: bool,
) -> Result<u8> {
    let mut inputs = Inputs::new(rt.alloc());
    inputs.push_as_lines(rt.stdin()).context("dmview")?;
    say_hexadecimal_inputs(rt, dictionary, style, is_stream, inputs, &[])
}

/// Writes what is said of a capture, as it is read, and tells the status.
fn say_one_capture<R: Read + Drop>(
    rt: &HostRuntime,
    dictionary: &Dictionary,
    style: Style,
    looks: Looks<'_>,
    input: R,
    name: &str,
) -> Result<u8> {
    let mut output = rt.stdout();
    let keys = RandomState::new(rt).context("dmview")?;
    let mut reader = BufReader::with_capacity(rt.alloc(), READ_AT_ONCE, input).context("dmview")?;
    let said = say_capture(
        rt.alloc(),
        keys,
        dictionary,
        style,
        looks,
        &mut reader,
        &mut output,
    );
    drop(reader);
    match said {
        Ok(good) => Ok(status_of(good)),
        Err(fault) => status_or_error(fault, name),
    }
}

/// Writes what is said of captures, each by itself, up to one that can't be read to its end, and tells the status.
fn say_captures(
    rt: &HostRuntime,
    dictionary: &Dictionary,
    style: Style,
    looks: Looks<'_>,
    mut front: VecDeque<u8>,
    mut files: VecDeque<File>,
    names: &[&str],
) -> Result<u8> {
    let mut status = 0;
    for name in names {
        if let Some(file) = files.pop_front() {
            let read = mem::replace(&mut front, VecDeque::new(rt.alloc()));
            let input = file_with_front(read, file);
            status = status.max(say_one_capture(rt, dictionary, style, looks, input, name)?);
        }
        if status > 1 {
            break;
        }
    }
    Ok(status)
}

/// What the input is, and what of it is said.
enum InputKind<'a> {
    /// Lines, or one stream of them.
    Lines { is_stream: bool },
    /// Captures.
    Captures(Looks<'a>),
}

/// Writes what is said of the files or, where none is named, of standard input, and tells the status.
fn say_input(
    rt: &HostRuntime,
    dictionary: &Dictionary,
    style: Style,
    kind: InputKind<'_>,
    front: VecDeque<u8>,
    files: VecDeque<File>,
    names: &[&str],
) -> Result<u8> {
    match (kind, names.is_empty()) {
        (InputKind::Lines { is_stream }, true) => say_hexadecimal_standard_input(
            rt, dictionary, style, is_stream,
        ),
        (InputKind::Lines { is_stream }, false) => {
            let inputs = files_joined_as_lines(rt.alloc(), front, files)?;
            say_hexadecimal_inputs(rt, dictionary, style, is_stream, inputs, names)
        }
        (InputKind::Captures(looks), true) => {
            say_one_capture(rt, dictionary, style, looks, rt.stdin(), "standard input")
        }
        (InputKind::Captures(looks), false) => {
            say_captures(rt, dictionary, style, looks, front, files, names)
        }
    }
}

/// Whether the output is coloured: always, never, or else where standard output is a terminal.
fn is_coloured_by_option_or_terminal(rt: &HostRuntime, when: Option<&str>) -> bool {
    match when {
        Some("always") => true,
        Some("never") => false,
        _ => rt.stdout().is_terminal(),
    }
}

/// What is said of each message: what it says or all that is wrong with it, as text or in JSON.
fn task_of(is_check: bool, is_json: bool) -> Task
    ensures show { is_check ≡ false → result ≡ (if is_json then ShowJson else Show) }
    ensures check { is_check ≡ true → result ≡ (if is_json then CheckJson else Check) }
{
    match (is_check, is_json) {
        (false, false) => Task::Show,
        (false, true) => Task::ShowJson,
        (true, false) => Task::Check,
        (true, true) => Task::CheckJson,
    }
}

/// Opens the files, reads the dictionaries, and writes what is said of the input. It tells the status.
fn run_subcommand(rt: &HostRuntime, is_check: bool, matches: &ArgMatches<'_>) -> Result<u8> {
    let style = Style {
        task: task_of(is_check, matches.get_flag("json")),
        coloured: is_coloured_by_option_or_terminal(rt, matches.get_str("color")),
    };
    let texts_names = matches.get_strs("dict").unwrap_or(&[]);
    let texts = open_dictionary_files(rt, texts_names)?;
    let names = matches.get_strs("file").unwrap_or(&[]);
    let mut files = open_input_files(rt, names)?;
    let asked = capture_options_of(rt.alloc(), matches)?;
    let mut front = VecDeque::new(rt.alloc());
    let is_capture = are_captures(rt, matches, &mut files, &mut front, names)?;
    if !is_capture && has_capture_option(matches) {
        return refuse_capture_options(rt);
    }
    let dictionary = dictionary_of_files(rt, texts_names, texts)?;
    let kind = if is_capture {
        InputKind::Captures(looks_from_options(&asked))
    } else {
        InputKind::Lines {
            is_stream: matches.get_flag("stream"),
        }
    };
    let status = say_input(rt, &dictionary, style, kind, front, files, names);
    drop(dictionary);
    drop(asked);
    status
}

/// Prints why the words of the command line are refused, or the help or the version that they ask for, and tells the
/// status.
fn print_clap_error(rt: &HostRuntime, error: &clap::Error) -> Result<u8> {
    error.print(rt).context("dmview")?;
    if error.kind() == error::ErrorKind::OutOfMemory {
        return Ok(3);
    }
    Ok(error.exit_code() as u8)
}

/// The status of a run that came to its end: 0 where nothing was bad, else 1.
fn status_of(good: bool) -> u8
    ensures good { good ≡ true → result ≡ 0 }
    ensures bad { good ≡ false → result ≡ 1 }
{
    if good { 0 } else { 1 }
}

/// Runs what the words of the command line ask for, and tells the status.
fn run_command_line(rt: &HostRuntime) -> Result<u8> {
    let words: Vec<String> = env::args(rt)
        .context("dmview")?
        .collect(rt.alloc())
        .context("dmview")?;
    let line = command_line(rt.alloc()).context("dmview")?;
    let matches = match line.try_get_matches_from(words.as_slice()) {
        Ok(matches) => matches,
        Err(error) => return print_clap_error(rt, &error),
    };
    match matches.subcommand() {
        Some(("check", inner)) => run_subcommand(rt, true, inner),
        Some((_, inner)) => run_subcommand(rt, false, inner),
        None => Ok(status_of(false)),
    }
}

fn main(rt: HostRuntime) -> ExitCode {
    match run_command_line(&rt) {
        Ok(status) => ExitCode::from(status),
        Err(error) => {
            let _ = writeln!(rt.stderr(), "{error:#}");
            ExitCode::from(3)
        }
    }
}
