//! Laws of one peer and what has happened to it, whatever the other side is. Each function is a law: it does nothing
//! but call the laws that it stands on, and its contract is the law. They stand for users.
ghost use Rattle.dm_history.specs.Carrying.{EachRunCarries};
ghost use Rattle.dm_history.specs.InOrder.{EachRunIsInOrder, EachSubmitIsSent, EachRunSends};
ghost use Rattle.dm_history.specs.Over.{EachEndIsLast, NothingFollowsClose};
ghost use Rattle.dm_history.specs.Staying.{EachOpenStays, EachOpenLasts, EachCountIsOfTicks};
ghost use Rattle.dm_history.specs.Opened.{EachOpeningWasAsked};

use dm_machine::laws::{
    acked_taken_and_open_connections_have_causes, ceas_open_and_cers_go_at_acks,
    connection_changes_and_orders_are_allowed, connection_orders_are_its_commands,
    dwas_dpas_and_refusing_answers_have_requests, few_steps_stand_for_all,
    given_up_is_closed_unnamed_stays_unheld, messages_do_the_same_where_unread,
    one_open_connection_carries_user_messages, shaped_cores_have_eight_forms,
};
use dm_peer::laws::{each_event_keeps_peers_settled, events_are_steps_drops_or_refusals};

/// A peer is open only on a connection that was opened as RFC 6733, 5.6, asks: on an accepted one after a good CER, the
/// first message there since it last was closed or told ended, or ever, and the CEA that answers it; on an initiated
/// one after the own CER, sent at its Ack, and a good CEA of its number.
pub fn each_opening_follows_cer_and_cea()
    ensures { EachOpeningWasAsked }
{
    each_event_keeps_peers_settled();
    shaped_cores_have_eight_forms();
    acked_taken_and_open_connections_have_causes();
    ceas_open_and_cers_go_at_acks();
    given_up_is_closed_unnamed_stays_unheld();
    connection_orders_are_its_commands();
    messages_do_the_same_where_unread();
}

/// What a peer hands up came just then on the one connection on which it is open, where each message of another command
/// than 257, 280 and 282 is handed up, and no other; what it sends is its own base message, or one of another command
/// that was submitted just then and goes on that connection.
pub fn user_messages_have_submits_or_arrivals()
    ensures { EachRunCarries }
{
    each_event_keeps_peers_settled();
    shaped_cores_have_eight_forms();
    acked_taken_and_open_connections_have_causes();
    ceas_open_and_cers_go_at_acks();
    given_up_is_closed_unnamed_stays_unheld();
    dwas_dpas_and_refusing_answers_have_requests();
    connection_orders_are_its_commands();
    messages_do_the_same_where_unread();
    one_open_connection_carries_user_messages();
}

/// A connection that has ended, by a Close of the peer, its disconnect, or its Nack before it was made, stays unheld,
/// and nothing is sent on it, until an event names it again. Behind a Close at the same event nothing is sent on its
/// connection. Both whatever else the driver does.
pub fn ended_connections_stay_silent_until_named()
    ensures last { EachEndIsLast }
    ensures behind { NothingFollowsClose }
{
    connection_changes_and_orders_are_allowed();
    each_event_keeps_peers_settled();
    given_up_is_closed_unnamed_stays_unheld();
    connection_orders_are_its_commands();
}

/// From any peer on, through every list of events: what is handed up is just the messages of other commands than 257,
/// 280 and 282 that came on the connection on which the peer was open, each once, in order, octet for octet.
pub fn runs_hand_up_all_in_order()
    ensures { EachRunIsInOrder }
{
    each_event_keeps_peers_settled();
    one_open_connection_carries_user_messages();
}

/// An open connection stays open exactly at all events but these: a Stop, its disconnect, the third Tick since
/// something came on it, octets on it that are no message, a CER on it, good or not, and a good DPR. So it is open
/// until one of these is told.
pub fn only_listed_events_end_open_connections()
    ensures exactly { EachOpenStays }
    ensures lasts { EachOpenLasts }
{
    events_are_steps_drops_or_refusals();
    each_event_keeps_peers_settled();
    shaped_cores_have_eight_forms();
}

/// The watchdog's count of an open peer is that of the Ticks since something came on its connection, or since it was
/// opened. An answer that nothing awaits is dropped, and counts as nothing that came.
pub fn watchdogs_count_ticks_since_something_came()
    ensures { EachCountIsOfTicks }
{
    events_are_steps_drops_or_refusals();
    each_event_keeps_peers_settled();
    shaped_cores_have_eight_forms();
    few_steps_stand_for_all();
}

/// Each Submit that is done is one Send of its octets, on the connection on which the peer is open, and nothing else is
/// done.
pub fn each_done_submit_is_sent_once()
    ensures once { EachSubmitIsSent }
    ensures throughout { EachRunSends }
{
    each_event_keeps_peers_settled();
    shaped_cores_have_eight_forms();
}
