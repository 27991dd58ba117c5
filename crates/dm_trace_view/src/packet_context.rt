//! The context in which a packet is told, whatever its transport: the task, what is looked at, its time and its number;
//! and what was counted.
ghost use Rattle.std.specs.Prelude.{◌≡◌};
ghost use Rattle.dm_trace_view.specs.Traces.{same_end, seen_by, direction_by};

use crate::counts::Counts;
use crate::handed_messages::{Direction, Numbered, Saying};
use crate::looks::Looks;
use dm_capture::Time;
use dm_connections::Ends;
use dm_flows::Endpoint;
use dm_trace::{Clock, Seen, Transport};
use dm_view_lines::Task;

/// What is said of a packet, of which connections and which messages; how its time is said, that time, its place among
/// those of the file, and what carries its messages.
#[derive(Clone, Copy, Debug)]
pub(crate) struct Hearing<'a> {
    pub(crate) task: Task,
    pub(crate) looks: Looks<'a>,
    pub(crate) clock: Clock,
    pub(crate) time: Option<Time>,
    pub(crate) packet: u64,
    pub(crate) transport: Transport,
}

/// What was counted: messages, and what of the capture a check tells.
#[derive(Clone, Copy, Debug)]
pub(crate) struct Reckoned {
    pub(crate) numbered: Numbered,
    pub(crate) counts: Counts,
}

/// Whether both are the same end.
fn is_same_end(one: Endpoint, other: Endpoint) -> bool
    ensures { result ≡ same_end one other }
{
    one == other
}

impl<'a> Hearing<'a> {
    /// The task and the filter: what is said of messages, and of which.
    pub(crate) fn task_and_filter(self) -> Saying<'a>
        ensures { result ≡ record { task = self.entry.task; filter = self.entry.looks.filter } }
    {
        Saying {
            task: self.task,
            filter: self.looks.filter,
        }
    }

    /// When, between whom and in which packet a message is seen that is sent from the first of these ends to the
    /// second.
    fn seen_between(self, between: Ends) -> Seen
        ensures { result ≡ seen_by self.entry between }
    {
        Seen {
            time: self.time,
            from: between.first,
            to: between.second,
            transport: self.transport,
            packet: self.packet,
        }
    }

    /// The direction of what is sent from the first of the ends `between` to the second, on the connection held by
    /// `ends`.
    pub(crate) fn direction_between(self, between: Ends, ends: Ends) -> Direction
        ensures { result ≡ direction_by self.entry between ends }
    {
        Direction {
            clock: self.clock,
            seen: self.seen_between(between),
            ends,
            from_first: is_same_end(between.first, ends.first),
        }
    }
}
