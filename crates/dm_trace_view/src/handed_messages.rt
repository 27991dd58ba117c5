//! The messages that are handed out in one direction, each said and counted in turn.
ghost use Rattle.std.specs.Prelude.{◌≡◌, ◌++◌, ℕ, List, Some, IfOk, IfSome};
ghost use Rattle.std.specs.String.{string_bytes};
ghost use Rattle.dm_view_lines.specs.Counts.{tallied, tally_of};
ghost use Rattle.dm_trace_view.specs.Handed.{SaysOne, SaysHanded};
ghost use Rattle.dm_trace_view.specs.Talks.{talk_of};

use crate::filter::{Filter, octets_pass_filter};
use crate::seen_front::SeenFront;
use dm_connections::{Connections, Ends, TwoWay};
use dm_dict::{Dictionary, NoMemory};
use dm_trace::{Clock, Seen};
use dm_view_lines::{Tally, Task, put_octets_report};
use std::alloc::Global;

/// One direction of a connection: how the time of its messages is said, where they are seen, and who sends them.
#[derive(Clone, Copy, Debug)]
pub(crate) struct Direction {
    pub(crate) clock: Clock,
    pub(crate) seen: Seen,
    pub(crate) ends: Ends,
    /// Whether its first end sends.
    pub(crate) from_first: bool,
}

/// How many messages were handed out, and how many of those that something is said of are good and bad.
#[derive(Clone, Copy, Debug)]
pub(crate) struct Numbered {
    pub(crate) messages: u64,
    pub(crate) tally: Tally,
}

/// What is said of messages, and of which.
#[derive(Clone, Copy, Debug)]
pub(crate) struct Saying<'a> {
    pub(crate) task: Task,
    pub(crate) filter: Filter<'a>,
}

/// The tally with one more message, good or bad; `None` where it is beyond what can be counted.
fn tally_with_one_more(tally: Tally, good: bool) -> Option<Tally>
    ensures { IfSome result (λ counted. counted ≡ tallied tally (tally_of (Some good))) }
{
    if good {
        Some(Tally {
            good: tally.good.checked_add(1)?,
            bad: tally.bad,
        })
    } else {
        Some(Tally {
            good: tally.good,
            bad: tally.bad.checked_add(1)?,
        })
    }
}

/// What was counted, with `messages` handed out and one more of them said, good or bad; an Err where it is beyond what
/// can be counted.
fn numbered_with_said_message(
    before: Numbered,
    messages: u64,
    good: bool,
) -> Result<Numbered, NoMemory>
    ensures { IfOk result (λ after. after
        ≡ record before { messages = messages; tally = tallied before.tally (tally_of (Some good)) }) }
{
    match tally_with_one_more(before.tally, good) {
        Some(tally) => Ok(Numbered { messages, tally }),
        None => Err(NoMemory),
    }
}

/// Numbers a message behind those that were handed out; where it passes the filter, appends what is said of it, and
/// counts it as good or bad.
fn number_message_and_put_if_passing(
    alloc: Global,
    text: &mut String,
    dictionary: &Dictionary,
    saying: Saying<'_>,
    direction: Direction,
    before: Numbered,
    message: &[u8],
) -> Result<Numbered, NoMemory>
    ensures { IfOk result (λ after. (said : List ℕ) × (string_bytes text.new ≡ string_bytes text.old ++ said)
        × SaysOne saying.entry.task dictionary.now saying.entry.filter direction before message.now after said) }
{
    let Some(number) = before.messages.checked_add(1) else {
        return Err(NoMemory);
    };
    if !octets_pass_filter(saying.filter, dictionary, message) {
        return Ok(Numbered {
            messages: number,
            tally: before.tally,
        });
    }
    let front = SeenFront {
        number,
        clock: direction.clock,
        seen: direction.seen,
    };
    let good = put_octets_report(alloc, text, dictionary, saying.task, &front, message)?;
    numbered_with_said_message(before, number, good)
}

/// Hands out the whole messages of one direction and numbers them; appends what is said of those that pass the filter,
/// and counts them as good or bad.
pub(crate) fn hand_out_messages_and_put_passing<C: TwoWay>(
    alloc: Global,
    text: &mut String,
    dictionary: &Dictionary,
    saying: Saying<'_>,
    connections: &mut Connections<C>,
    direction: Direction,
    before: Numbered,
) -> Result<Numbered, NoMemory>
    ensures { IfOk result (λ after. (more : List ℕ) × (string_bytes text.new ≡ string_bytes text.old ++ more)
        × SaysHanded (talk_of C.new_of C.passed_in C.secured_in C.held_in C.pending_in C.one_way C.with_way C.Hands
        C.HandsNone)
        saying.entry.task dictionary.now saying.entry.filter direction before connections.old after connections.new
        more) }
{
    let mut so_far = before;
    for _ in 0..u64::MAX {
        let handed = connections.next_message_of(direction.ends, direction.from_first)?;
        let Some(message) = handed else {
            return Ok(so_far);
        };
        let said = number_message_and_put_if_passing(
            alloc,
            text,
            dictionary,
            saying,
            direction,
            so_far,
            message.as_slice(),
        );
        drop(message);
        so_far = said?;
    }
    Err(NoMemory)
}
