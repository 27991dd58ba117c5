//! Captures of packets: whether a file is one, and what of it is looked at, by the options of the command line.
use anyhow::{Context, Result};
use clap::ArgMatches;
use dm_capture::CaptureReader;
use dm_connections::{Choice, DIAMETER_PORT, Limits, MAX_CONNECTIONS, MAX_HELD};
use dm_trace_view::{Filter, Looks, Times, Wanted};
use std::alloc::{AllocError, Global};
use std::io::Write;

/// How many octets tell whether a file is a capture.
pub const FRONT_LEN: usize = 4;

/// How much of a capture's connections is held.
const LIMITS: Limits = Limits {
    connections: MAX_CONNECTIONS,
    octets: MAX_HELD,
};

/// Whether a file with these octets at its front is a capture.
pub fn is_capture_front(alloc: Global, front: &[u8]) -> Result<bool, AllocError> {
    if front.len() < FRONT_LEN {
        return Ok(false);
    }
    let mut capture = CaptureReader::new(alloc);
    capture.feed(front)?;
    let is_capture = capture.next().is_ok();
    drop(capture);
    Ok(is_capture)
}

/// What of captures is asked for: which connections and messages, and how times are said.
#[derive(Drop)]
pub struct Asked {
    ports: Vec<u16>,
    host: Option<String>,
    session: Option<String>,
    command: Option<String>,
    is_any: bool,
    is_bad: bool,
    is_relative: bool,
}

/// The options with a text that captures alone have.
const TEXTS: [&str; 4] = ["time", "peer", "session", "command"];

/// What is said where the input is no capture, though an option of captures is there.
const MISPLACED: &str =
    "dmview: the input is no capture: --port, --any, --time, --peer, --session, --command and --bad are of captures";

/// Whether an option is given that captures alone have.
pub fn has_capture_option(matches: &ArgMatches<'_>) -> bool {
    TEXTS.iter().any(|name| matches.get_str(name).is_some())
        || matches.get_many::<u16>("port").is_some()
        || matches.get_flag("any")
        || matches.get_flag("bad")
}

/// Says that the input is no capture, though an option of captures is there, and tells the status.
pub fn refuse_capture_options(rt: &HostRuntime) -> Result<u8> {
    writeln!(rt.stderr(), "{MISPLACED}").context("dmview")?;
    Ok(2)
}

/// The ports that are named, or else that of Diameter.
fn asked_or_default_ports(alloc: Global, matches: &ArgMatches<'_>) -> Result<Vec<u16>> {
    let mut ports = Vec::new(alloc);
    if let Some(named) = matches.get_many::<u16>("port") {
        for port in named {
            let port = port.context("dmview")?;
            ports
                .push(port)
                .map_err(AllocError::from)
                .context("dmview")?;
        }
    }
    if ports.is_empty() {
        ports
            .push(DIAMETER_PORT)
            .map_err(AllocError::from)
            .context("dmview")?;
    }
    Ok(ports)
}

/// The text of the option with this name; None where it isn't given.
fn option_text(alloc: Global, matches: &ArgMatches<'_>, name: &str) -> Result<Option<String>> {
    match matches.get_str(name) {
        Some(text) => Ok(Some(String::from_str(alloc, text).context("dmview")?)),
        None => Ok(None),
    }
}

/// What of captures the words ask for.
pub fn capture_options_of(alloc: Global, matches: &ArgMatches<'_>) -> Result<Asked> {
    Ok(Asked {
        ports: asked_or_default_ports(alloc, matches)?,
        host: option_text(alloc, matches, "peer")?,
        session: option_text(alloc, matches, "session")?,
        command: option_text(alloc, matches, "command")?,
        is_any: matches.get_flag("any"),
        is_bad: matches.get_flag("bad"),
        is_relative: matches.get_str("time") == Some("relative"),
    })
}

/// The octets of a text, where there is one.
fn octets_of_optional_text(text: &Option<String>) -> Option<&[u8]> {
    match text {
        Some(text) => Some(text.as_bytes()),
        None => None,
    }
}

/// The command that a word asks for, by its code or else by its name; None where there is no word.
fn wanted_command(word: &Option<String>) -> Option<Wanted<'_>> {
    match word {
        Some(word) => match word.parse::<u32>() {
            Ok(code) => Some(Wanted::Code(code)),
            Err(_) => Some(Wanted::Named(word.as_bytes())),
        },
        None => None,
    }
}

/// What of a capture is looked at, and how its times are said.
pub fn looks_from_options(asked: &Asked) -> Looks<'_> {
    Looks {
        choice: if asked.is_any {
            Choice::Any
        } else {
            Choice::Ports(asked.ports.as_slice())
        },
        limits: LIMITS,
        times: if asked.is_relative {
            Times::Relative
        } else {
            Times::Utc
        },
        filter: Filter {
            host: octets_of_optional_text(&asked.host),
            session: octets_of_optional_text(&asked.session),
            command: wanted_command(&asked.command),
            bad: asked.is_bad,
        },
    }
}
