//! What an event comes to: the octets that came or are submitted are read, and the state machine takes one step, by an
//! election where the state can hold one.
ghost use Rattle.std.specs.Prelude.{◌≡◌, ◌&&◌, IfOk, IfErr, OnOk, OnErr, List, [], Some};
ghost use Rattle.dm_wire.specs.declared.avp.Avp.{Avp};
ghost use Rattle.dm_wire.specs.Spelling.{SpellsList};
ghost use Rattle.dm_wire.specs.Whole.{message_in};
ghost use Rattle.dm_machine.specs.Connection.{hold_of};
ghost use Rattle.dm_machine.specs.Elections.{holds_elections};
ghost use Rattle.dm_machine.specs.Moves as moves;
ghost use Rattle.dm_machine.specs.declared.outputs.Refusal.{Refusal};
ghost use Rattle.dm_peer.specs.Acts.{
  Moved,
  acts,
  steps,
  heard_outcome,
  turned,
  input_of,
  IsRefused,
  can_submit,
};
ghost use Rattle.dm_peer.specs.Configs.{wins};
ghost use Rattle.dm_peer.specs.Events.{event_told, Arrived, Submit};
ghost use Rattle.dm_peer.specs.Faults.{fault_of};
ghost use Rattle.dm_peer.specs.Places.{footing_of};
ghost use Rattle.dm_peer.specs.Lent.{heard_by};

use crate::arrivals::{Footing, connection_footing, is_answer_dropped, leaves_octets_unread};
use crate::command_actions::push_command_actions;
use crate::heard_message::{HeardRef, hear_message, heard_as_good, word_heard_or_unreadable};
use crate::message::read_message;
use crate::next_standing::set_standing_after_step;
use crate::requests::first_request;
use crate::{Actions, Config, Event, Peer, PeerFault};
use dm_base::is_base_command;
use dm_machine::laws::each_state_decides_refusals_and_elections;
use dm_machine::{Commands, Conn, Core, Input, State, Word, step};
use dm_wire::MessageRef;
use dm_wire::laws::{message_in_octets_is_what_they_spell, octets_of_messages_have_no_fault};
use std::alloc::Global;

/// Whether the state can hold an election.
fn can_hold_election(state: State) -> bool
    ensures { result ≡ holds_elections state }
{
    match state {
        State::WaitICea | State::WaitConnAckElect => true,
        _ => false,
    }
}

/// Whether the own side wins where an election can be held: elsewhere hosts aren't compared.
fn wins_election_in(config: &Config, state: State) -> bool
    ensures { result ≡ (holds_elections state && wins config.now) }
{
    can_hold_election(state) && config.wins_election()
}

/// One step of the state machine.
#[tactic(auto, unfolding(crate::specs::Acts::turned))]
fn step_core(core: &Core, input: Input, config: &Config) -> Result<(Core, Commands), PeerFault>
    ensures moved { IfOk result (λ r. turned core.now input (wins config.now) ≡ moves.NodeMoved r.1.items r.0) }
    ensures refused { IfErr result (λ f. (r : Refusal)
        × (turned core.now input (wins config.now) ≡ moves.NodeRefused r) × (f ≡ fault_of r)) }
{
    each_state_decides_refusals_and_elections();
    match step(core, input, wins_election_in(config, core.state())) {
        Ok(turn) => Ok(turn),
        Err(refusal) => Err(PeerFault::from(refusal)),
    }
}

/// The event as the state machine's input.
fn input_of_event(event: Event<'_>, heard: Option<&HeardRef<'_>>) -> Input
    ensures { result ≡ input_of (event_told event.entry) (heard_by heard.entry) }
{
    match event {
        Event::Start(conn) => Input::Start(conn),
        Event::Stop(_) => Input::Stop,
        Event::Timeout => Input::Timeout,
        Event::Tick => Input::Tick,
        Event::Ack(conn) => Input::Ack(conn),
        Event::Nack(conn) => Input::Nack(conn),
        Event::Arrived(conn, _) => Input::Heard(conn, word_heard_or_unreadable(heard)),
        Event::Gone(conn) => Input::Gone(conn),
        Event::Submit(_) => Input::Submit,
    }
}

/// One step at the event, after what was heard, by which the event goes: the peer becomes the next one, and the actions
/// are put in. Behind a refusal these are of no use.
fn step_peer(
    alloc: Global,
    peer: &mut Peer,
    event: Event<'_>,
    heard: Option<&HeardRef<'_>>,
    actions: &mut Actions,
) -> Result<(), PeerFault>
    requires goes { acts peer.old (event_told event) ≡ steps peer.old (event_told event) (heard_by heard) }
    requires none { actions.old.items ≡ [] }
    ensures moved { OnOk result (acts peer.old (event_told event.entry) ≡ Moved actions.new.items peer.new) }
    ensures refused { IfErr result (IsRefused (acts peer.old (event_told event.entry))) }
    ensures unchanged { OnErr result (peer.new ≡ peer.old) }
{
    let input = input_of_event(event, heard);
    let (core, commands) = step_core(&peer.standing.get().core, input, &peer.config)?;
    push_command_actions(alloc, peer, event, heard, commands.as_slice(), actions)?;
    let sent = first_request(commands.as_slice());
    set_standing_after_step(peer, event, heard, sent, core, actions);
    Ok(())
}

/// What a message that came on the connection comes to: the peer becomes the next one, and the actions are put in.
/// Behind a refusal these are of no use.
fn handle_message(
    alloc: Global,
    peer: &mut Peer,
    event: Event<'_>,
    conn: Conn,
    footing: Footing,
    message: &MessageRef<'_>,
    actions: &mut Actions,
) -> Result<(), PeerFault>
    requires footing { footing ≡ footing_of (hold_of peer.old.standing.core conn) }
    requires goes { (l : List Avp) × SpellsList l message.now.rest.now × (acts peer.old (event_told event)
        ≡ heard_outcome peer.old (event_told event) conn (Some (record { header = message.now.header; avps = l }))) }
    requires none { actions.old.items ≡ [] }
    ensures moved { OnOk result (acts peer.old (event_told event.entry) ≡ Moved actions.new.items peer.new) }
    ensures refused { IfErr result (IsRefused (acts peer.old (event_told event.entry))) }
    ensures unchanged { OnErr result (peer.new ≡ peer.old) }
{
    if is_answer_dropped(&peer.standing.get().awaited, footing, &message.header) {
        return Ok(());
    }
    let mut heard = heard_as_good(&message.header, Word::Other);
    hear_message(&peer.config, message, &mut heard);
    step_peer(alloc, peer, event, Some(&heard), actions)
}

/// What octets that came on the connection come to: the peer becomes the next one, and the actions are put in. Behind a
/// refusal these are of no use.
fn handle_arrival(
    alloc: Global,
    peer: &mut Peer,
    conn: Conn,
    octets: &[u8],
    actions: &mut Actions,
) -> Result<(), PeerFault>
    requires none { actions.old.items ≡ [] }
    ensures moved { OnOk result (acts peer.old (Arrived conn octets.now) ≡ Moved actions.new.items peer.new) }
    ensures refused { IfErr result (IsRefused (acts peer.old (Arrived conn octets.now))) }
    ensures unchanged { OnErr result (peer.new ≡ peer.old) }
{
    let core = &peer.standing.get().core;
    let footing = connection_footing(core, conn);
    if leaves_octets_unread(core.state(), footing) {
        return step_peer(alloc, peer, Event::Arrived(conn, octets), None, actions);
    }
    message_in_octets_is_what_they_spell();
    octets_of_messages_have_no_fault();
    let event = Event::Arrived(conn, octets);
    // (It is told where it is read, and isn't moved.)
    match &MessageRef::read(octets) {
        Ok(message) => handle_message(alloc, peer, event, conn, footing, message, actions),
        Err(_) => step_peer(alloc, peer, event, None, actions),
    }
}

/// Whether the octets are a message that may be submitted: of another command than 257, 280 and 282.
fn can_submit(octets: &[u8]) -> bool
    ensures { result ≡ can_submit (message_in octets.now) }
{
    match read_message(octets) {
        Some(message) => !is_base_command(message.header.command),
        None => false,
    }
}

/// What octets that the user submits come to: the peer becomes the next one, and the actions are put in. Behind a
/// refusal these are of no use.
fn handle_submit(
    alloc: Global,
    peer: &mut Peer,
    octets: &[u8],
    actions: &mut Actions,
) -> Result<(), PeerFault>
    requires none { actions.old.items ≡ [] }
    ensures moved { OnOk result (acts peer.old (Submit octets.now) ≡ Moved actions.new.items peer.new) }
    ensures refused { IfErr result (IsRefused (acts peer.old (Submit octets.now))) }
    ensures unchanged { OnErr result (peer.new ≡ peer.old) }
{
    if !peer.is_open() {
        return Err(PeerFault::NotOpen);
    }
    if !can_submit(octets) {
        return Err(PeerFault::BadSubmit);
    }
    step_peer(alloc, peer, Event::Submit(octets), None, actions)
}

/// What the event comes to: the peer becomes the next one, and the actions are put in. Behind a refusal these are of
/// no use.
pub(crate) fn handle_event(
    alloc: Global,
    peer: &mut Peer,
    event: Event<'_>,
    actions: &mut Actions,
) -> Result<(), PeerFault>
    requires none { actions.old.items ≡ [] }
    ensures moved { OnOk result (acts peer.old (event_told event.entry) ≡ Moved actions.new.items peer.new) }
    ensures refused { IfErr result (IsRefused (acts peer.old (event_told event.entry))) }
    ensures unchanged { OnErr result (peer.new ≡ peer.old) }
{
    match event {
        Event::Arrived(conn, octets) => handle_arrival(alloc, peer, conn, octets, actions),
        Event::Submit(octets) => handle_submit(alloc, peer, octets, actions),
        other => step_peer(alloc, peer, other, None, actions),
    }
}
