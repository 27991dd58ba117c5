//! The requests that the commands of a step send, by which the numbers of a peer go.
ghost use Rattle.std.specs.Prelude.{◌≡◌};
ghost use Rattle.dm_peer.specs.After.{is_dwr, request_of, request_in};

use dm_machine::Command;

/// A request that takes a number.
#[derive(Clone, Copy)]
pub(crate) enum Request {
    Cer,
    Dwr,
    Dpr,
}

/// Whether the request is a DWR.
pub(crate) fn is_dwr(sent: Option<Request>) -> bool
    ensures { result ≡ is_dwr sent }
{
    match sent {
        Some(Request::Dwr) => true,
        _ => false,
    }
}

/// The request that the command sends; None where it sends none.
fn request_of_command(command: Command) -> Option<Request>
    ensures { result ≡ request_of command }
{
    match command {
        Command::SendCer(_) => Some(Request::Cer),
        Command::SendDwr(_) => Some(Request::Dwr),
        Command::SendDpr(_) => Some(Request::Dpr),
        _ => None,
    }
}

/// The first request that the commands send; None where they send none.
pub(crate) fn first_request(commands: &[Command]) -> Option<Request>
    ensures { result ≡ request_in commands.now }
{
    let mut left = commands;
    while let [command, rest @ ..] = left {
        if let Some(request) = request_of_command(*command) {
            return Some(request);
        }
        left = rest;
    }
    None
}
