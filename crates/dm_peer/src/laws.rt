//! Laws of peers. Each function is a law: it does nothing but call the laws that it stands on, and its contract is the
//! law.
ghost use Rattle.dm_peer.specs.Cases.{EachEventIsACase};
ghost use Rattle.dm_peer.specs.Comparing.{PlainGoesByCode, OtherSenderFails, PeerIsHeardAlike, OthersAreHeardAlike};
ghost use Rattle.dm_peer.specs.Holding.{OthersStayUnheld, ClosedIsUnheld, GoneIsUnheld};
ghost use Rattle.dm_peer.specs.Kept.{IsKept};
ghost use Rattle.dm_peer.specs.Laws.{
  HeardHasItsHeader,
  SentIsHeard,
  CerIsGood,
  CeaIsGood,
  DwrIsGood,
  DwaIsGood,
  DprIsGood,
  DpaIsGood,
};
ghost use Rattle.dm_peer.specs.Refusing.{RefusesByRule};
ghost use Rattle.dm_peer.specs.Settled.{FreshIsSettled, EachEventKeepsSettled};
ghost use Rattle.dm_peer.specs.Silence.{SilentTakesNone};
ghost use Rattle.dm_peer.specs.Spelled.{FreshIsFitting, EachSendIsSpelled};
ghost use Rattle.dm_peer.specs.Steps.{EachEventIsOneStep};
ghost use Rattle.dm_peer.specs.Strangers.{StrangersChangeNothing};

use crate::Peer;
use dm_base::laws::{
    applications_are_common_by_shared_id_or_relay, built_messages_are_good_and_as_meant,
    built_messages_have_spellings,
};
use dm_machine::laws::{
    connection_changes_and_orders_are_allowed, each_state_decides_refusals_and_elections,
    few_steps_stand_for_all, given_up_is_closed_unnamed_stays_unheld,
    messages_do_the_same_where_unread, only_good_cers_admit_strangers,
    steps_keep_shape_in_few_commands,
};
use dm_wire::laws::{
    canonical_octets_spell_message, message_in_octets_is_what_they_spell, spelled_message_is_found,
};

/// What an event comes to, case by case: a step of the state machine, after what was heard; an answer that nothing
/// awaits, which is dropped; or a Submit that is refused. The law stands for users, and the others rest on it.
pub fn events_are_steps_drops_or_refusals()
    ensures { EachEventIsACase }
{}

/// Where an event isn't refused it is one step of the state machine, with an action for each command, and what a
/// settled peer's commands say is there (an answer's request, a refusal's fault); or a message on a connection that is
/// held and made is dropped, and nothing changes. The law stands for users.
pub fn done_events_are_steps_or_drops()
    ensures { EachEventIsOneStep }
{
    few_steps_stand_for_all();
}

/// What a peer waits for goes by its state: a new peer's, one's after `reset`, and each event keeps it so. The law
/// stands for users.
pub fn each_event_keeps_peers_settled()
    ensures fresh { FreshIsSettled }
    ensures kept { EachEventKeepsSettled }
{
    few_steps_stand_for_all();
    steps_keep_shape_in_few_commands();
}

/// What every peer holds, whatever it was told: what it waits for goes by its state, and its numbers fit their fields.
/// The law stands for users, as the premise of the others.
pub fn peers_are_settled_with_encodable_numbers(peer: &Peer)
    ensures { IsKept peer.now }
{
    let _kept = peer.standing.get();
}

/// What an event leaves of the connections that a peer holds: it takes none but the one that it names, it closes none
/// that it holds on to, and one that has ended it doesn't hold. The law stands for users: whoever has a place for each
/// connection that is held needs one more at the events that name one, and none for what is closed.
pub fn events_take_named_release_closed_connections()
    ensures others { OthersStayUnheld }
    ensures closed { ClosedIsUnheld }
    ensures gone { GoneIsUnheld }
{
    done_events_are_steps_or_drops();
    connection_changes_and_orders_are_allowed();
    given_up_is_closed_unnamed_stays_unheld();
}

/// At a Start, at a Timeout, where octets aren't looked at, and where an answer is dropped, nothing is sent or handed
/// up, so no memory is wanted.
pub fn starts_timeouts_drops_take_no_memory()
    ensures { SilentTakesNone }
{
    few_steps_stand_for_all();
    messages_do_the_same_where_unread();
}

/// A stranger changes nothing: where octets come on a connection that isn't held, the peer stays what it is, and closes
/// the connection, behind an answer or none; but for a good CER of the configured host in Closed, Wait-Conn-Ack or
/// Wait-I-CEA.
pub fn strangers_change_nothing()
    ensures { StrangersChangeNothing }
{
    only_good_cers_admit_strangers();
}

/// But for want of memory, an event is refused just by these rules: a Start outside Closed, a Stop or Submit outside
/// the open states, and in them a Submit of what is no message of the user.
pub fn event_refusals_go_by_rule()
    ensures { RefusesByRule }
{
    each_state_decides_refusals_and_elections();
}

/// What a peer sends is a message: at each event the octets of each Send spell one, since the numbers that it goes by
/// fit their fields. They do at a new peer and at one after `reset`, and each event keeps it so (RFC 6733, 3).
pub fn each_send_spells_a_message()
    ensures fresh { FreshIsFitting }
    ensures kept { EachSendIsSpelled }
{
    few_steps_stand_for_all();
    message_in_octets_is_what_they_spell();
    canonical_octets_spell_message();
    built_messages_have_spellings();
}

/// What is heard of a message has its header.
pub fn heard_has_its_header()
    ensures { HeardHasItsHeader }
{}

/// The octets of a message that has a spelling are heard as that message. The law stands for users.
pub fn octets_are_heard_as_their_message()
    ensures { SentIsHeard }
{
    canonical_octets_spell_message();
    spelled_message_is_found();
}

/// What comparing changes: a CEA that passes its check fails where its sender isn't the configured peer, and goes by
/// its Result-Code without the option; what the configured peer sends, and any other message, says the same with it and
/// without it. The law stands for users.
pub fn comparing_fails_only_ceas_of_others()
    ensures plain { PlainGoesByCode }
    ensures fails { OtherSenderFails }
    ensures peer { PeerIsHeardAlike }
    ensures others { OthersAreHeardAlike }
{}

/// The octets that a node sends are good to the other side: a CER to a peer that is configured for it and has an
/// application in common with it; the CEA that accepts it to every peer that doesn't compare hosts, and to one that
/// does where it is configured for the node; a watchdog, a disconnect and their answers to every peer (RFC 6733, 5.3
/// to 5.5). The law stands for users: two peers rest on it.
pub fn requests_and_successes_are_heard_as_good()
    ensures cer { CerIsGood }
    ensures cea { CeaIsGood }
    ensures dwr { DwrIsGood }
    ensures dwa { DwaIsGood }
    ensures dpr { DprIsGood }
    ensures dpa { DpaIsGood }
{
    octets_are_heard_as_their_message();
    built_messages_are_good_and_as_meant();
    built_messages_have_spellings();
    applications_are_common_by_shared_id_or_relay();
}
