//! What the commands of a step ask for: an action for each, by the event, by what was heard, and by the CER that waits
//! (RFC 6733, 5.3 to 5.6).
ghost use Rattle.std.specs.Prelude.{◌≡◌, ◌<◌, ◌≤◌, ◌+◌, ◌++◌, ◌∷◌, [], IfOk, OnOk, OnErr, IsTrue, length};
ghost use Rattle.std.specs.List.{list_any};
ghost use Rattle.arrayvec.specs.ArrayVec.{array_vec_len};
ghost use Rattle.dm_peer.specs.Events.{event_told, octets_in, cause_in};
ghost use Rattle.dm_peer.specs.Lent.{heard_by};
ghost use Rattle.dm_peer.specs.Sent.{cer_answered, action_of, actions_of, takes_memory};

use crate::heard_message::{HeardRef, header_heard_or_zeros};
use crate::sending::{
    push_send_cer, push_send_dpr, push_send_dwr, push_send_refusal, push_send_success_cea,
    push_send_success_dwa_or_dpa,
};
use crate::{Action, Actions, Event, Peer};
use dm_base::Cause;
use dm_dict::NoMemory;
use dm_machine::Command;
use dm_wire::{Header, Octets};
use std::alloc::Global;

/// The CER that a CEA answers: the one that waits, else the one just heard.
fn answered_cer_header(waiting: Option<Header>, heard: Option<&HeardRef<'_>>) -> Header
    ensures { result ≡ cer_answered waiting (heard_by heard.entry) }
{
    match waiting {
        Some(to) => to,
        None => header_heard_or_zeros(heard),
    }
}

/// A copy of the octets that the event brings; or want of memory. An event without octets brings none.
fn copied_event_octets(alloc: Global, event: Event<'_>) -> Result<Octets, NoMemory>
    ensures { IfOk result (λ octets. octets ≡ octets_in (event_told event.entry)) }
{
    let octets = match event {
        Event::Arrived(_, octets) | Event::Submit(octets) => octets,
        _ => &[],
    };
    Ok(Octets::from_slice(alloc, octets)?)
}

/// The cause of a Stop, which alone has one; Rebooting for any other event.
fn stop_cause(event: Event<'_>) -> Cause
    ensures { result ≡ cause_in (event_told event.entry) }
{
    match event {
        Event::Stop(cause) => cause,
        _ => Cause::Rebooting,
    }
}

/// Appends what a command asks for; or want of memory, which only what is sent or handed up takes.
#[inline(always)]
fn push_action_of_command(
    alloc: Global,
    peer: &Peer,
    event: Event<'_>,
    heard: Option<&HeardRef<'_>>,
    command: Command,
    actions: &mut Actions,
) -> Result<(), NoMemory>
    requires { array_vec_len actions.old < 4 }
    ensures found { OnOk result (actions.new.items ≡ actions.old.items
        ++ action_of peer.now (event_told event.entry) (heard_by heard.entry) command ∷ []) }
    ensures memory { OnErr result (IsTrue (takes_memory
        (action_of peer.now (event_told event.entry) (heard_by heard.entry) command))) }
{
    let node = &peer.config.node;
    let standing = peer.standing.get();
    let next = standing.next;
    match command {
        Command::Connect(conn) => actions.push(Action::Connect(conn)),
        Command::Close(conn) => actions.push(Action::Close(conn)),
        Command::SendCer(conn) => push_send_cer(alloc, conn, node, next, actions)?,
        Command::SendDwr(conn) => push_send_dwr(alloc, conn, node, next, actions)?,
        Command::SendDpr(conn) => push_send_dpr(
            alloc,
            conn,
            node,
            next,
            stop_cause(event),
            actions,
        )?,
        Command::SendCea(conn) => {
            let to = answered_cer_header(standing.waiting, heard);
            push_send_success_cea(alloc, conn, node, &to, actions)?
        }
        Command::SendDwa(conn) | Command::SendDpa(conn) => {
            push_send_success_dwa_or_dpa(alloc, conn, node, &header_heard_or_zeros(heard), actions)?
        }
        Command::SendRefusal(conn) => push_send_refusal(alloc, conn, node, heard, actions)?,
        Command::SendSubmit(conn) => actions.push(Action::Send(
            conn,
            copied_event_octets(alloc, event)?,
        )),
        Command::Up => actions.push(Action::Up(copied_event_octets(alloc, event)?)),
    }
    Ok(())
}

/// Appends what the commands ask for, in order; or want of memory, which only what is sent or handed up takes.
pub(crate) fn push_command_actions(
    alloc: Global,
    peer: &Peer,
    event: Event<'_>,
    heard: Option<&HeardRef<'_>>,
    commands: &[Command],
    actions: &mut Actions,
) -> Result<(), NoMemory>
    requires { array_vec_len actions.old + length commands.now ≤ 4 }
    ensures found { OnOk result (actions.new.items ≡ actions.old.items
        ++ actions_of peer.now (event_told event.entry) (heard_by heard.entry) commands.now) }
    ensures memory { OnErr result (IsTrue (list_any takes_memory
        (actions_of peer.now (event_told event.entry) (heard_by heard.entry) commands.now))) }
{
    let mut left = commands;
    while let [command, rest @ ..] = left {
        push_action_of_command(alloc, peer, event, heard, *command, actions)?;
        left = rest;
    }
    Ok(())
}
