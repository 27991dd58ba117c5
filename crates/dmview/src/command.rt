//! The command line: `show` and `check`, with their options and files.
use clap::{Arg, ArgAction, Command, value_parser};
use std::alloc::{AllocError, Global};

/// When colours are wanted.
const COLOURS: [&str; 3] = ["auto", "always", "never"];

/// How the times of a capture are said.
const TIMES: [&str; 2] = ["utc", "relative"];

/// The options of what the files are, and of a capture's ports and times, for a word of the command line.
fn with_kind_port_and_time_options<'a>(
    alloc: Global,
    word: Command<'a>,
) -> Result<Command<'a>, AllocError> {
    let hex = Arg::new(alloc, "hex")
        .long("hex")
        .help("the files are lines of hexadecimal, whatever they begin with")
        .action(ArgAction::SetTrue);
    let capture = Arg::new(alloc, "capture")
        .long("capture")
        .help("the files, or standard input, are captures of packets, whatever they begin with")
        .action(ArgAction::SetTrue);
    let port = Arg::new(alloc, "port")
        .long("port")
        .value_name("PORT")
        .help("of a capture: connections of this port, at either end; 3868 where none is named")
        .value_parser(value_parser!(u16))
        .action(ArgAction::Append);
    let any = Arg::new(alloc, "any")
        .long("any")
        .help("of a capture: connections of any port, from a capabilities exchange on")
        .action(ArgAction::SetTrue);
    let time = Arg::new(alloc, "time")
        .long("time")
        .value_name("FORM")
        .help("of a capture: whether times are UTC, or seconds since the first packet")
        .value_parser(TIMES.as_slice())
        .action(ArgAction::Set);
    word.arg(hex)?.arg(capture)?.arg(port)?.arg(any)?.arg(time)
}

/// The options that say which messages of a capture something is said of.
fn with_filter_options<'a>(alloc: Global, word: Command<'a>) -> Result<Command<'a>, AllocError> {
    let peer = Arg::new(alloc, "peer")
        .long("peer")
        .value_name("HOST")
        .help("of a capture: messages with this Origin-Host or Destination-Host")
        .action(ArgAction::Set);
    let session = Arg::new(alloc, "session")
        .long("session")
        .value_name("TEXT")
        .help("of a capture: messages of this Session-Id")
        .action(ArgAction::Set);
    let command = Arg::new(alloc, "command")
        .long("command")
        .value_name("COMMAND")
        .help("of a capture: messages of this command, by its name or its code")
        .action(ArgAction::Set);
    let bad = Arg::new(alloc, "bad")
        .long("bad")
        .help("of a capture: messages with which something is wrong")
        .action(ArgAction::SetTrue);
    word.arg(peer)?.arg(session)?.arg(command)?.arg(bad)
}

/// A word with its options and files.
fn new_subcommand<'a>(
    alloc: Global,
    name: &'a str,
    about: &'a str,
) -> Result<Command<'a>, AllocError> {
    let dict = Arg::new(alloc, "dict")
        .long("dict")
        .value_name("FILE")
        .help("a text that defines AVPs and commands, beside those of the base protocol")
        .action(ArgAction::Append);
    let colour = Arg::new(alloc, "color")
        .long("color")
        .value_name("WHEN")
        .help("whether with colours; auto: where standard output is a terminal")
        .value_parser(COLOURS.as_slice())
        .action(ArgAction::Set);
    let stream = Arg::new(alloc, "stream")
        .long("stream")
        .help("the octets of all lines are one stream, cut anywhere")
        .action(ArgAction::SetTrue);
    let json = Arg::new(alloc, "json")
        .long("json")
        .help("a JSON object on a line of its own for each message; without colours")
        .action(ArgAction::SetTrue);
    let file = Arg::new(alloc, "file")
        .value_name("FILE")
        .help(
            "a capture, or lines of hexadecimal, a message each; standard input where no file is named",
        )
        .action(ArgAction::Append)
        .num_args(0..);
    let word = Command::new(alloc, name)
        .about(about)
        .arg(dict)?
        .arg(colour)?
        .arg(stream)?
        .arg(json)?
        .arg(file)?;
    let word = with_kind_port_and_time_options(alloc, word)?;
    with_filter_options(alloc, word)
}

/// The whole command line.
pub fn command_line<'a>(alloc: Global) -> Result<Command<'a>, AllocError> {
    Command::new(alloc, "dmview")
        .about("What Diameter messages say, in names and values, and all that is wrong with them")
        .version("0.1")
        .subcommand_required(true)
        .subcommand(new_subcommand(alloc, "show", "prints each message by name")?)?
        .subcommand(new_subcommand(alloc, "check", "prints all that is wrong with each message")?)
}
