//! What is sent on a connection, and what of it is unread: the messages that it hands out are said, and what is lost.
ghost use Rattle.std.specs.Prelude.{◌≡◌, ◌++◌, ℕ, List, IfOk, OnOk, option_copied};
ghost use Rattle.std.specs.String.{string_bytes};
ghost use Rattle.dm_trace_view.specs.Talks.{talk_of};
ghost use Rattle.dm_trace_view.specs.Traces.{counted_sent, with_unread, unread_in, unread_before, unread_since};
ghost use Rattle.dm_trace_view.specs.Traces.{lost_between, passed_text, secured_text, unread_text, SaysSent};

use crate::counts::Counts;
use crate::handed_messages::hand_out_messages_and_put_passing;
use crate::let_go_connections::let_go_and_put_excess_connections;
use crate::lost::{Lost, LostIn, put_lost};
use crate::packet_context::{Hearing, Reckoned};
use dm_connections::{Connections, Ends, Takes, TwoWay};
use dm_dict::{Dictionary, NoMemory};
use std::alloc::{AllocError, Global};

/// How many octets of a connection aren't read: those that were passed over, and those of Diameter over DTLS.
#[derive(Clone, Copy, Debug)]
pub(crate) struct Unread {
    pub(crate) passed: u64,
    pub(crate) secured: u64,
}

/// No octets at all.
const NONE_UNREAD: Unread = Unread {
    passed: 0,
    secured: 0,
};

impl Unread {
    /// How many octets more aren't read than before, of either kind.
    fn unread_since(self, before: Unread) -> Unread
        ensures { result ≡ unread_since before self }
    {
        Unread {
            passed: self.passed.saturating_sub(before.passed),
            secured: self.secured.saturating_sub(before.secured),
        }
    }
}

/// The counts with these octets more that aren't read.
fn counts_with_unread(counts: Counts, unread: Unread) -> Counts
    ensures { result ≡ with_unread unread counts }
{
    Counts {
        passed: counts.passed.saturating_add(unread.passed),
        secured: counts.secured.saturating_add(unread.secured),
        ..counts
    }
}

/// The counts with these octets more that aren't read, and one connection more where none was held.
fn counts_with_connection_and_unread(counts: Counts, held: Option<Ends>, unread: Unread) -> Counts
    ensures { result ≡ counted_sent held unread counts }
{
    let counts = counts_with_unread(counts, unread);
    match held {
        Some(_) => counts,
        None => Counts {
            connections: counts.connections.saturating_add(1),
            ..counts
        },
    }
}

/// How many octets of a connection aren't read so far; none of one that isn't there.
fn unread_octets_of<C: TwoWay>(connection: Option<&C>) -> Unread
    ensures { result ≡ unread_in C.passed_in C.secured_in (option_copied connection.entry) }
{
    match connection {
        Some(connection) => Unread {
            passed: connection.octets_passed_over(),
            secured: connection.octets_of_dtls(),
        },
        None => NONE_UNREAD,
    }
}

/// How many octets of a connection aren't read so far; none of one that isn't held.
fn unread_octets_of_held<C: TwoWay>(connections: &Connections<C>, held: Option<Ends>) -> Unread
    ensures { result ≡ unread_before C.passed_in C.secured_in connections.now.held held }
{
    match held {
        Some(ends) => unread_octets_of(connections.get(ends)),
        None => NONE_UNREAD,
    }
}

/// Appends what was lost of what is sent between these ends.
fn put_lost_between(
    alloc: Global,
    text: &mut String,
    hearing: Hearing<'_>,
    between: Ends,
    lost: Lost,
) -> Result<(), AllocError>
    ensures { OnOk result (string_bytes text.new ≡ string_bytes text.old ++ lost_between hearing.entry between lost) }
{
    let told = LostIn {
        packet: hearing.packet,
        from: between.first,
        to: between.second,
        lost,
    };
    put_lost(alloc, text, hearing.task, told)
}

/// Appends how many octets were passed over from `before` to `after`, where some were.
fn put_octets_passed_over_if_any(
    alloc: Global,
    text: &mut String,
    hearing: Hearing<'_>,
    between: Ends,
    before: u64,
    after: u64,
) -> Result<(), AllocError>
    ensures { OnOk result (string_bytes text.new
        ≡ string_bytes text.old ++ passed_text hearing.entry between before after) }
{
    if before >= after {
        return Ok(());
    }
    put_lost_between(alloc, text, hearing, between, Lost::Passed(after - before))
}

/// Appends how many octets of Diameter over DTLS came, where they are the first of their connection.
fn put_dtls_octets_if_first(
    alloc: Global,
    text: &mut String,
    hearing: Hearing<'_>,
    between: Ends,
    before: u64,
    after: u64,
) -> Result<(), AllocError>
    ensures { OnOk result (string_bytes text.new
        ≡ string_bytes text.old ++ secured_text hearing.entry between before after) }
{
    if before != 0 || after == 0 {
        return Ok(());
    }
    put_lost_between(alloc, text, hearing, between, Lost::Secured(after))
}

/// Appends how many octets were passed over from `before` to `after`, and the first ones of Diameter over DTLS.
fn put_unread_octets(
    alloc: Global,
    text: &mut String,
    hearing: Hearing<'_>,
    between: Ends,
    before: Unread,
    after: Unread,
) -> Result<(), AllocError>
    ensures { OnOk result (string_bytes text.new
        ≡ string_bytes text.old ++ unread_text hearing.entry between before after) }
{
    put_octets_passed_over_if_any(alloc, text, hearing, between, before.passed, after.passed)?;
    put_dtls_octets_if_first(alloc, text, hearing, between, before.secured, after.secured)?;
    Ok(())
}

/// Gives what is sent to its connection, where that is held or one to look at, and says the messages that it hands out
/// then, and what is lost; else it does nothing.
pub(crate) fn say_sent_if_held_or_wanted<S: Copy, C: Takes<S>>(
    alloc: Global,
    text: &mut String,
    dictionary: &Dictionary,
    hearing: Hearing<'_>,
    connections: &mut Connections<C>,
    sent: S,
    before: Reckoned,
) -> Result<Reckoned, NoMemory>
    ensures { IfOk result (λ after. (more : List ℕ) × (string_bytes text.new ≡ string_bytes text.old ++ more)
        × SaysSent (talk_of C.new_of C.passed_in C.secured_in C.held_in C.pending_in C.one_way C.with_way C.Hands
        C.HandsNone)
        dictionary.now hearing.entry (C.between sent) (C.BeginsExchange sent) (λ from to. C.TakesSent from sent to)
        connections.old before connections.new after more) }
{
    let between = C::sender_and_receiver_of(sent);
    let held = connections.find_held_ends(between.first, between.second);
    let ago = unread_octets_of_held(connections, held);
    let Some(ends) = connections.take_if_held_or_wanted(hearing.looks.choice, sent)? else {
        return Ok(before);
    };
    let direction = hearing.direction_between(between, ends);
    let saying = hearing.task_and_filter();
    let numbered = hand_out_messages_and_put_passing(
        alloc,
        text,
        dictionary,
        saying,
        connections,
        direction,
        before.numbered,
    )?;
    let now = unread_octets_of_held(connections, Some(ends));
    put_unread_octets(alloc, text, hearing, between, ago, now)?;
    let counts = counts_with_connection_and_unread(before.counts, held, now.unread_since(ago));
    let lost = let_go_and_put_excess_connections(alloc, text, hearing, connections, counts.passed)?;
    Ok(Reckoned {
        numbered,
        counts: Counts {
            passed: lost,
            ..counts
        },
    })
}
