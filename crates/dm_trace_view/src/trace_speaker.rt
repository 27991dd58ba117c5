//! The speaker of packets: what is said of each, by what it carries, and what is counted, up to the end, where all
//! connections are let go.
ghost use Rattle.std.specs.Prelude.{◌≡◌, ◌++◌, ℕ, List, IfOk, OnOk};
ghost use Rattle.std.specs.String.{string_bytes};
ghost use Rattle.dm_capture.specs.Packets.{captured_of};
ghost use Rattle.dm_flows.specs.Sctps.{sctp_seen};
ghost use Rattle.dm_flows.specs.Tcps.{segment_seen};
ghost use Rattle.dm_trace_view.specs.Captures.{counts_behind, trace_begun};
ghost use Rattle.dm_trace_view.specs.Traces.{counted_passed, hearing_of, carries_other, with_passed};
ghost use Rattle.dm_trace_view.specs.Traces.{SaysSegment, SaysSctp, SaysOther};

use crate::counts::Counts;
use crate::handed_messages::Numbered;
use crate::let_go_connections::let_all_go_and_count_pending;
use crate::looks::Looks;
use crate::packet_context::{Hearing, Reckoned};
use crate::sent_and_unread::say_sent_if_held_or_wanted;
use crate::speaker::PacketSpeaker;
use crate::times::first_known_time;
use dm_associations::Associations;
use dm_capture::{Packet, Time};
use dm_connections::Connections;
use dm_dict::{Dictionary, NoMemory};
use dm_flows::{Passed, SctpPacket, Segment, sctp_packet_of, segment_of};
use dm_trace::Transport;
use dm_view_lines::{Tally, Task};
use dm_wire::codes::limits::MAX_MESSAGE_LEN;
use std::alloc::{AllocError, Global};
use std::hash::RandomState;

/// Says of each packet what its connection says: those that are held, what is looked at, the first time, and what was
/// counted.
#[derive(Drop)]
pub(crate) struct TraceSpeaker<'a> {
    pub(crate) connections: Connections,
    pub(crate) associations: Associations,
    pub(crate) looks: Looks<'a>,
    pub(crate) first: Option<Time>,
    pub(crate) reckoned: Reckoned,
}

/// A speaker that saw nothing yet.
pub(crate) fn new_trace_speaker<'a>(
    alloc: Global,
    keys: RandomState,
    looks: Looks<'a>,
) -> Result<TraceSpeaker<'a>, AllocError>
    ensures { IfOk result (λ speaker. speaker ≡ trace_begun looks.entry) }
{
    Ok(TraceSpeaker {
        connections: Connections::new(alloc, keys, MAX_MESSAGE_LEN)?,
        associations: Associations::new(alloc, keys, MAX_MESSAGE_LEN)?,
        looks,
        first: None,
        reckoned: Reckoned {
            numbered: Numbered {
                messages: 0,
                tally: Tally { good: 0, bad: 0 },
            },
            counts: Counts {
                connections: 0,
                passed: 0,
                secured: 0,
                fragments: 0,
                cut: 0,
            },
        },
    })
}

/// Lets all connections go, and answers what was counted, with the octets as passed over that came and weren't handed
/// out.
pub(crate) fn counts_after_letting_all_go(speaker: &mut TraceSpeaker<'_>) -> Counts
    ensures { result ≡ counts_behind speaker.old }
{
    let counts = speaker.reckoned.counts;
    let passed = let_all_go_and_count_pending(&mut speaker.connections, counts.passed);
    Counts {
        passed: let_all_go_and_count_pending(&mut speaker.associations, passed),
        ..counts
    }
}

/// The counts with one more packet that has neither a segment nor chunks: a fragment, or one that was captured in part.
/// None else is counted.
fn counts_with_fragment_or_cut(counts: Counts, why: Passed) -> Counts
    ensures { result ≡ counted_passed why counts }
{
    match why {
        Passed::Fragment => Counts {
            fragments: counts.fragments.saturating_add(1),
            ..counts
        },
        Passed::Cut => Counts {
            cut: counts.cut.saturating_add(1),
            ..counts
        },
        _ => counts,
    }
}

/// Whether a packet has no segment since it carries another protocol.
fn is_other_protocol(why: Passed) -> bool
    ensures { result ≡ carries_other why }
{
    matches!(why, Passed::OtherProtocol)
}

impl<'a> TraceSpeaker<'a> {
    /// The context in which a packet is told: the task, what is looked at and the clock, and its time, its number and
    /// what carries its messages.
    fn packet_context(&self, task: Task, packet: &Packet, transport: Transport) -> Hearing<'a>
        ensures { result ≡ hearing_of self.now task (captured_of packet.now) transport }
    {
        Hearing {
            task,
            looks: self.looks,
            clock: self.looks.times.clock_since(self.first),
            time: packet.time,
            packet: packet.number,
            transport,
        }
    }

    /// Gives a segment to its connection, where that is looked at, and appends what is said of the messages that it
    /// hands out and of what is lost.
    fn say_segment(
        &mut self,
        alloc: Global,
        dictionary: &Dictionary,
        task: Task,
        packet: &Packet,
        segment: Segment<'_>,
        text: &mut String,
    ) -> Result<(), NoMemory>
        ensures { OnOk result ((more : List ℕ) × (string_bytes text.new ≡ string_bytes text.old ++ more)
            × SaysSegment task dictionary.now self.old (captured_of packet.now) (segment_seen segment.entry)
            self.new more) }
    {
        let hearing = self.packet_context(task, packet, Transport::Tcp);
        let before = self.reckoned;
        self.reckoned = say_sent_if_held_or_wanted(
            alloc,
            text,
            dictionary,
            hearing,
            &mut self.connections,
            segment,
            before,
        )?;
        Ok(())
    }

    /// Gives an SCTP packet to its association, where that is looked at, and appends what is said of the messages that
    /// it hands out and of what is lost.
    fn say_sctp_packet(
        &mut self,
        alloc: Global,
        dictionary: &Dictionary,
        task: Task,
        packet: &Packet,
        carried: SctpPacket<'_>,
        text: &mut String,
    ) -> Result<(), NoMemory>
        ensures { OnOk result ((more : List ℕ) × (string_bytes text.new ≡ string_bytes text.old ++ more)
            × SaysSctp task dictionary.now self.old (captured_of packet.now) (sctp_seen carried.entry)
            self.new more) }
    {
        let hearing = self.packet_context(task, packet, Transport::Sctp);
        let before = self.reckoned;
        self.reckoned = say_sent_if_held_or_wanted(
            alloc,
            text,
            dictionary,
            hearing,
            &mut self.associations,
            carried,
            before,
        )?;
        Ok(())
    }

    /// Counts a packet that has neither a segment nor chunks, if it is a fragment or was captured in part.
    fn count_if_fragment_or_cut(&mut self, why: Passed)
        ensures { self.new ≡ with_passed self.old why }
    {
        self.reckoned.counts = counts_with_fragment_or_cut(self.reckoned.counts, why);
    }

    /// Gives the SCTP packet in a packet to its association, and appends what is said of it; a packet that holds none
    /// is counted, if it is a fragment or was captured in part.
    fn say_sctp_or_count(
        &mut self,
        alloc: Global,
        dictionary: &Dictionary,
        task: Task,
        packet: &Packet,
        text: &mut String,
    ) -> Result<(), NoMemory>
        ensures { OnOk result ((more : List ℕ) × (string_bytes text.new ≡ string_bytes text.old ++ more)
            × SaysOther task dictionary.now self.old (captured_of packet.now) self.new more) }
    {
        match sctp_packet_of(packet.link, packet.octets.as_slice()) {
            Ok(carried) => self.say_sctp_packet(alloc, dictionary, task, packet, carried, text),
            Err(why) => {
                self.count_if_fragment_or_cut(why);
                Ok(())
            }
        }
    }
}

impl PacketSpeaker for TraceSpeaker<'_> {
    ghost use Rattle.dm_trace_view.specs.Traces.{SaysPacket};

    ghost says = { SaysPacket };

    fn say_packet(
        &mut self,
        alloc: Global,
        dictionary: &Dictionary,
        task: Task,
        packet: &Packet,
        text: &mut String,
    ) -> Result<(), NoMemory> {
        self.first = first_known_time(self.first, packet.time);
        match segment_of(packet.link, packet.octets.as_slice()) {
            Ok(segment) => self.say_segment(alloc, dictionary, task, packet, segment, text),
            Err(why) if is_other_protocol(why) => self.say_sctp_or_count(
                alloc, dictionary, task, packet, text,
            ),
            Err(why) => {
                self.count_if_fragment_or_cut(why);
                Ok(())
            }
        }
    }
}
