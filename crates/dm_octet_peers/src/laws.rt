//! Laws of two peers over octets. Each function is a law: it does nothing but call the laws that it stands on, and its
//! contract is the law. They stand for the world of two peers.
ghost use Rattle.dm_two_peers.specs.Follows.{IsMachine};
ghost use Rattle.dm_octet_peers.specs.Laws.{OctetsAreElecting, FreshArePeers, HappeningKeepsPeers, OctetsAreSized};
ghost use Rattle.dm_octet_peers.specs.Laws.{EachOctetRunSettles, EachOctetRunFallsQuiet, EachOctetRunCanFallQuiet};
ghost use Rattle.dm_octet_peers.specs.Recovering.{EachOctetWorldCanOpen, EachOctetRunCanOpen};
ghost use Rattle.dm_octet_peers.specs.Recovering.{OctetQuietIsJoined, EachOctetQuietRunIsJoined};
ghost use Rattle.dm_octet_peers.specs.Carrying.{OctetsCarry, EachOctetRunDelivers, EachOctetRunHandsUpWhatCame};
ghost use Rattle.dm_octet_peers.specs.Matching.{OctetAnswersMatch, EachOctetQuietRunIsClosedOrOpen};
ghost use Rattle.dm_octet_peers.specs.Frames.{OctetsAreFrames};
ghost use Rattle.dm_octet_peers.specs.Octets.{octet_peers};

use dm_base::laws::{
    applications_are_common_by_shared_id_or_relay, built_messages_are_good_and_as_meant,
    built_messages_have_spellings,
};
use dm_machine::laws::{
    connection_changes_and_orders_are_allowed, connection_orders_are_its_commands,
    few_steps_stand_for_all, messages_do_the_same_where_unread,
    one_open_connection_carries_user_messages, shaped_cores_have_eight_forms,
    steps_keep_shape_in_few_commands,
};
use dm_peer::laws::{
    done_events_are_steps_or_drops, events_are_steps_drops_or_refusals,
    requests_and_successes_are_heard_as_good,
};
use dm_peer::{Config, Peer};
use dm_two_peers::laws::{
    clean_runs_can_settle_as_elected, clean_runs_fall_quiet, clean_runs_settle_as_elected,
    closed_peers_make_a_sound_world, each_happening_keeps_worlds_sound,
    each_quiet_run_is_closed_or_open, each_run_delivers_in_order, each_run_hands_up_only_arrivals,
    each_world_can_restart_and_open, quiet_peers_are_closed_or_joined,
    winners_never_enter_wait_returns,
};
use dm_wire::laws::{
    canonical_octets_spell_message, message_in_octets_is_what_they_spell,
    spelled_and_canonical_messages_are_frames, spelled_message_is_found,
};
use dm_wire::{Header, Octets};

/// Peers over octets move as the state machine.
pub fn octet_peers_move_as_the_machine()
    ensures { IsMachine octet_peers }
{
    done_events_are_steps_or_drops();
}

/// Of two peers that are configured for each other and have an application in common one wins the election, and each
/// reads the other's CER and CEA as good ones (RFC 6733, 5.3 and 5.6.4).
pub fn paired_octet_peers_hear_and_elect()
    ensures { OctetsAreElecting }
{
    applications_are_common_by_shared_id_or_relay();
    few_steps_stand_for_all();
    steps_keep_shape_in_few_commands();
    requests_and_successes_are_heard_as_good();
}

/// Two new peers that are configured for each other are peers as these laws ask for them, and whatever happens keeps it
/// so.
pub fn octet_peers_begin_and_stay_paired()
    ensures fresh { FreshArePeers }
    ensures kept { HappeningKeepsPeers }
{
    steps_keep_shape_in_few_commands();
    winners_never_enter_wait_returns();
}

/// Every message that a peer over octets sends has octets.
pub fn octet_peers_send_no_empty_message()
    ensures { OctetsAreSized }
{}

/// Every message that a peer over octets sends is a frame, at most 16777212 octets long: a framer hands it out whole
/// (3).
pub fn every_message_sent_is_a_frame()
    ensures { OctetsAreFrames }
{
    built_messages_have_spellings();
    message_in_octets_is_what_they_spell();
    spelled_and_canonical_messages_are_frames();
}

/// What each clean run (of Starts, Acks, deliveries and pieces alone) comes to of two closed peers that are configured
/// for each other, from where nothing is under way. One course is put in, up to what is still to come: a CER on each
/// connection that a taken Start made, from its opener; where both sides started, the winner's disconnect of its own;
/// the CEA on the connection that the election keeps; and the disconnect that answers the winner's. Where a Start is
/// taken and it falls quiet, all of it was put in, and both are open on that connection (5.6.4).
pub fn clean_octet_runs_settle_as_elected()
    ensures { EachOctetRunSettles }
{
    clean_runs_settle_as_elected::<Peer, Octets, Config, Header>();
    paired_octet_peers_hear_and_elect();
}

/// A clean run (of Starts, Acks, deliveries and pieces alone) of two closed peers that are configured for each other,
/// from where nothing is under way, falls quiet, in whatever order things come: it is quiet where no Ack and no
/// delivery is done any more, after nine steps, and where one side alone starts after four. A piece that ends no
/// message is no step.
pub fn clean_octet_runs_fall_quiet()
    ensures { EachOctetRunFallsQuiet }
{
    clean_runs_fall_quiet::<Peer, Octets, Config, Header>();
    paired_octet_peers_hear_and_elect();
}

/// A clean run (of Starts, Acks, deliveries and pieces alone) of two closed peers that are configured for each other,
/// from where nothing is under way, can fall quiet: after some Acks and deliveries, with its own steps nine at most,
/// nothing is under way, and where a Start was taken both are open on the connection that the election keeps (5.6.4).
pub fn clean_octet_runs_can_settle_as_elected()
    ensures { EachOctetRunCanFallQuiet }
{
    clean_runs_can_settle_as_elected::<Peer, Octets, Config, Header>();
    paired_octet_peers_hear_and_elect();
}

/// From each sound world of two peers that are configured for each other, whatever happened before, both sides can
/// restart, and after some deliveries a Start of either side, the Ack and two deliveries open both on the connection
/// that it makes. A list that does it exists, which isn't to say that peers take it by themselves.
pub fn each_octet_world_can_restart_and_open()
    ensures { EachOctetWorldCanOpen }
{
    each_world_can_restart_and_open::<Peer, Octets, Config, Header>();
    octet_peers_move_as_the_machine();
    paired_octet_peers_hear_and_elect();
}

/// After any list of happenings to two new peers that are configured for each other both sides can restart, and after
/// some deliveries a Start of either side, the Ack and two deliveries open both on the connection that it makes: no run
/// is a trap.
pub fn each_octet_run_can_restart_and_open()
    ensures { EachOctetRunCanOpen }
{
    closed_peers_make_a_sound_world::<Peer, Octets>();
    each_happening_keeps_worlds_sound::<Peer, Octets>();
    octet_peers_begin_and_stay_paired();
    each_octet_world_can_restart_and_open();
    octet_peers_move_as_the_machine();
}

/// In each sound world of two peers that are configured for each other in which nothing is under way, whatever happened
/// before, both are Closed, or each stands on one connection alone, the same one, in opposite roles: none is in
/// Wait-Conn-Ack, Wait-Conn-Ack/Elect or Wait-Returns (5.6).
pub fn quiet_octet_peers_are_closed_or_joined()
    ensures { OctetQuietIsJoined }
{
    quiet_peers_are_closed_or_joined::<Peer, Octets>();
    paired_octet_peers_hear_and_elect();
}

/// Wherever a run of two new peers that are configured for each other falls quiet, whatever was lost and restarted,
/// both are Closed, or each stands on one connection alone, the same one, in opposite roles: none is in Wait-Conn-Ack,
/// Wait-Conn-Ack/Elect or Wait-Returns (5.6).
pub fn each_octet_quiet_run_is_closed_or_joined()
    ensures { EachOctetQuietRunIsJoined }
{
    closed_peers_make_a_sound_world::<Peer, Octets>();
    each_happening_keeps_worlds_sound::<Peer, Octets>();
    octet_peers_begin_and_stay_paired();
    quiet_octet_peers_are_closed_or_joined();
    octet_peers_move_as_the_machine();
}

/// Peers over octets match an answer with its request by the Hop-by-Hop Identifier, at the exchanges that open and end
/// a connection: a CER is answered by the CEA of its number, and a DPR by the DPA of its number, whatever came in
/// between, and neither is dropped by the peer that awaits it (3, 5.3, 5.4 and 6.2.1).
pub fn ceas_and_dpas_match_their_requests()
    ensures { OctetAnswersMatch }
{
    built_messages_are_good_and_as_meant();
    built_messages_have_spellings();
    canonical_octets_spell_message();
    connection_changes_and_orders_are_allowed();
    events_are_steps_drops_or_refusals();
    shaped_cores_have_eight_forms();
    connection_orders_are_its_commands();
    few_steps_stand_for_all();
    steps_keep_shape_in_few_commands();
    spelled_message_is_found();
    messages_do_the_same_where_unread();
}

/// Wherever a run of two new peers that are configured for each other falls quiet, whatever was lost and restarted,
/// both are Closed, or both are open on one connection in opposite roles, I-Open against R-Open (5.6).
pub fn each_octet_quiet_run_is_closed_or_open()
    ensures { EachOctetQuietRunIsClosedOrOpen }
{
    closed_peers_make_a_sound_world::<Peer, Octets>();
    each_happening_keeps_worlds_sound::<Peer, Octets>();
    octet_peers_begin_and_stay_paired();
    each_quiet_run_is_closed_or_open::<Peer, Octets>();
    ceas_and_dpas_match_their_requests();
    octet_peers_move_as_the_machine();
    paired_octet_peers_hear_and_elect();
}

/// Peers over octets carry messages of applications: what is submitted in an open state is sent as it is, no other
/// event sends such a message, and one that comes on the open connection is handed up as it is, and nothing else is.
pub fn octet_peers_carry_user_messages()
    ensures { OctetsCarry }
{
    connection_changes_and_orders_are_allowed();
    shaped_cores_have_eight_forms();
    few_steps_stand_for_all();
    one_open_connection_carries_user_messages();
}

/// After every list of happenings of two new peers, losses and restarts too and whatever their configurations, what a
/// side's user was handed up on a link is a front of what the other side's user submitted on it: each message once, in
/// order, octet for octet, and nothing else. Where the side is open on the link and the link had no loss, the rest is
/// what is under way.
pub fn each_octet_run_delivers_in_order()
    ensures { EachOctetRunDelivers }
{
    each_run_delivers_in_order::<Peer, Octets>();
    octet_peers_move_as_the_machine();
    octet_peers_carry_user_messages();
}

/// What two new peers, whatever their configurations, hand up at an event of any list of happenings are the octets that
/// it brings, once, or nothing: nothing is handed up but where a message arrives.
pub fn each_octet_run_hands_up_only_arrivals()
    ensures { EachOctetRunHandsUpWhatCame }
{
    each_run_hands_up_only_arrivals::<Peer, Octets>();
    octet_peers_move_as_the_machine();
    octet_peers_carry_user_messages();
}
