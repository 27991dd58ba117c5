//! The sending of a peer's own messages, as octets: its requests, its answers of success, and those that refuse
//! (RFC 6733, 5.3 to 5.6).
ghost use Rattle.std.specs.Prelude.{◌≡◌, ◌<◌, ◌++◌, ◌∷◌, [], IfOk, OnOk, None};
ghost use Rattle.std.specs.Option.{option_copied};
ghost use Rattle.arrayvec.specs.ArrayVec.{array_vec_len};
ghost use Rattle.dm_base.specs.Codes.{success};
ghost use Rattle.dm_base.specs.Built.{built_cer, built_cea, built_dwr, built_dpr, built_answer};
ghost use Rattle.dm_peer.specs.Lent.{heard_by};
ghost use Rattle.dm_peer.specs.Octets.{octets_of};
ghost use Rattle.dm_peer.specs.Sent.{sent, is_protocol_error, refusal, header_of, fault_in};

use crate::heard_message::{HeardRef, fault_heard_or_unable_to_comply, header_heard_or_zeros};
use crate::message::sent_octets;
use crate::{Action, Actions};
use dm_base::codes::SUCCESS;
use dm_base::{
    BaseCommand, Cause, Node, cea, cer, dpa, dpr, dwa, dwr, error_answer, success_octets,
};
use dm_dict::{NoMemory, Verdict};
use dm_machine::Conn;
use dm_wire::{Avp, Header, Message, Octets};
use std::alloc::Global;

/// Appends the sending of the message; or want of memory.
fn push_send(
    alloc: Global,
    conn: Conn,
    message: Message,
    actions: &mut Actions,
) -> Result<(), NoMemory>
    requires { array_vec_len actions.old < 4 }
    ensures { OnOk result (actions.new.items ≡ actions.old.items ++ sent conn message ∷ []) }
{
    let octets = sent_octets(alloc, &message)?;
    actions.push(Action::Send(conn, octets));
    Ok(())
}

/// Appends the sending of a CER with the next number; or want of memory.
#[inline(never)]
pub(crate) fn push_send_cer(
    alloc: Global,
    conn: Conn,
    node: &Node,
    next: u32,
    actions: &mut Actions,
) -> Result<(), NoMemory>
    requires { array_vec_len actions.old < 4 }
    ensures { OnOk result (actions.new.items ≡ actions.old.items ++ sent conn (built_cer node.now next) ∷ []) }
{
    push_send(alloc, conn, cer(alloc, node, next)?, actions)
}

/// Appends the sending of a DWR with the next number; or want of memory.
#[inline(never)]
pub(crate) fn push_send_dwr(
    alloc: Global,
    conn: Conn,
    node: &Node,
    next: u32,
    actions: &mut Actions,
) -> Result<(), NoMemory>
    requires { array_vec_len actions.old < 4 }
    ensures { OnOk result (actions.new.items ≡ actions.old.items ++ sent conn (built_dwr node.now next) ∷ []) }
{
    push_send(alloc, conn, dwr(alloc, node, next)?, actions)
}

/// Appends the sending of a DPR with the next number for this cause; or want of memory.
#[inline(never)]
pub(crate) fn push_send_dpr(
    alloc: Global,
    conn: Conn,
    node: &Node,
    next: u32,
    cause: Cause,
    actions: &mut Actions,
) -> Result<(), NoMemory>
    requires { array_vec_len actions.old < 4 }
    ensures { OnOk result (actions.new.items ≡ actions.old.items ++ sent conn (built_dpr node.now next cause) ∷ []) }
{
    push_send(alloc, conn, dpr(alloc, node, next, cause)?, actions)
}

/// Appends the sending of a CEA of success to a request of this header; or want of memory.
#[inline(never)]
pub(crate) fn push_send_success_cea(
    alloc: Global,
    conn: Conn,
    node: &Node,
    to: &Header,
    actions: &mut Actions,
) -> Result<(), NoMemory>
    requires { array_vec_len actions.old < 4 }
    ensures { OnOk result (actions.new.items
        ≡ actions.old.items ++ sent conn (built_cea node.now to.now success None) ∷ []) }
{
    push_send(alloc, conn, cea(alloc, node, to, SUCCESS, None)?, actions)
}

/// The octets of a DWA or DPA of success.
#[tactic(auto, unfolding(crate::specs::Octets::octets_of))]
#[inline(always)]
fn success_dwa_or_dpa_octets(alloc: Global, node: &Node, to: &Header) -> Result<Octets, NoMemory>
    ensures { IfOk result (λ octets. octets ≡ octets_of (built_answer node.now to.now success None)) }
{
    match success_octets(alloc, node, to) {
        Ok(octets) => Ok(Octets::from_vec(octets)),
        Err(_) => Err(NoMemory),
    }
}

/// Appends the sending of a DWA or DPA of success to a request of this header; or want of memory.
pub(crate) fn push_send_success_dwa_or_dpa(
    alloc: Global,
    conn: Conn,
    node: &Node,
    to: &Header,
    actions: &mut Actions,
) -> Result<(), NoMemory>
    requires { array_vec_len actions.old < 4 }
    ensures { OnOk result (actions.new.items
        ≡ actions.old.items ++ sent conn (built_answer node.now to.now success None) ∷ []) }
{
    let answer = success_dwa_or_dpa_octets(alloc, node, to)?;
    actions.push(Action::Send(conn, answer));
    Ok(())
}

/// Whether the Result-Code is that of a protocol error (RFC 6733, 7.1.3).
fn is_protocol_error(code: u32) -> bool
    ensures { result ≡ is_protocol_error code }
{
    code >= 3000 && code < 4000
}

/// The answer that refuses a message.
fn refusing_answer(
    alloc: Global,
    node: &Node,
    to: &Header,
    code: u32,
    failed: Option<&Avp>,
) -> Result<Message, NoMemory>
    ensures { IfOk result (λ message. message
        ≡ refusal node.now to.now (record { code = code; failed = option_copied failed.entry })) }
{
    if is_protocol_error(code) {
        return error_answer(alloc, node, to, code);
    }
    match BaseCommand::of(to.command) {
        Some(BaseCommand::CapabilitiesExchange) => cea(alloc, node, to, code, failed),
        Some(BaseCommand::DeviceWatchdog) => dwa(alloc, node, to, code, failed),
        _ => dpa(alloc, node, to, code, failed),
    }
}

/// Appends the sending of the answer that refuses what was heard; or want of memory.
#[inline(never)]
pub(crate) fn push_send_refusal(
    alloc: Global,
    conn: Conn,
    node: &Node,
    heard: Option<&HeardRef<'_>>,
    actions: &mut Actions,
) -> Result<(), NoMemory>
    requires { array_vec_len actions.old < 4 }
    ensures { OnOk result (actions.new.items ≡ actions.old.items
        ++ sent conn (refusal node.now (header_of (heard_by heard.entry)) (fault_in (heard_by heard.entry))) ∷ []) }
{
    let to = header_heard_or_zeros(heard);
    match fault_heard_or_unable_to_comply(heard).verdict(alloc)? {
        Verdict::Bad { code, failed } => {
            let message = refusing_answer(alloc, node, &to, code, failed.as_ref())?;
            push_send(alloc, conn, message, actions)
        }
        Verdict::Good => unreachable!(),
    }
}
