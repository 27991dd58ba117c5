//! The messages of a stream, and what is said of each (RFC 6733, 3).
ghost use Rattle.std.specs.Prelude.{◌≡◌, ◌++◌, ◌+◌, ℕ, Bool, List, Some, length, IfOk};
ghost use Rattle.std.specs.String.{string_bytes};
ghost use Rattle.dm_wire.specs.Codes.{max_message_len};
ghost use Rattle.dm_view_lines.specs.declared.tally.Tally.{Tally};
ghost use Rattle.dm_view_lines.specs.Counts.{tallied, tally_of};
ghost use Rattle.dm_view_lines.specs.Frames.{SaysFrames};
ghost use Rattle.dm_view_lines.specs.Said.{SaysOctets};

use crate::message_reports::{Task, put_octets_report};
use crate::tally::Tally;
use dm_dict::{Dictionary, NoMemory};
use dm_framer::laws::one_front_frame_or_lasting_fault;
use dm_framer::{FrameFault, Framer};
use std::alloc::Global;

/// How far a stream was read: how many of its messages were good and bad, how many octets are held behind them, and the
/// fault with which these begin, if they do.
#[derive(Clone, Copy)]
pub(crate) struct Reading {
    pub tally: Tally,
    pub held: usize,
    pub fault: Option<FrameFault>,
}

/// Appends what is said of the octets of a message, which is numbered behind those that were counted, and returns the
/// counts with it.
fn put_and_count_frame_report(
    alloc: Global,
    text: &mut String,
    dictionary: &Dictionary,
    task: Task,
    tally: Tally,
    message: &[u8],
) -> Result<Tally, NoMemory>
    ensures { IfOk result (λ counted. (said : List ℕ) × (good : Bool)
        × SaysOctets task dictionary.now (tally.good + tally.bad + 1) message.now said good
        × (string_bytes text.new ≡ string_bytes text.old ++ said)
        × (counted ≡ tallied tally (tally_of (Some good)))) }
{
    let Some(number) = tally.number_of_next() else {
        return Err(NoMemory);
    };
    let good = put_octets_report(alloc, text, dictionary, task, &number, message)?;
    Ok(tally.with_verdict(Some(good)))
}

/// Appends what is said of the whole messages that the framer holds, takes them out of it, and returns how far the
/// stream was read then.
pub(crate) fn take_frames_and_put_reports(
    alloc: Global,
    text: &mut String,
    dictionary: &Dictionary,
    task: Task,
    framer: &mut Framer,
    reading: Reading,
) -> Result<Reading, NoMemory>
    requires held { reading.held ≡ length framer.old.octets }
    requires most { framer.old.max ≡ max_message_len }
    ensures said { IfOk result (λ read. (more : List ℕ) × (told : Tally)
        × (string_bytes text.new ≡ string_bytes text.old ++ more)
        × SaysFrames task dictionary.now (reading.tally.good + reading.tally.bad + 1) framer.old.octets
        framer.new.octets read.fault more told × (read.tally ≡ tallied reading.tally told)) }
    ensures held { IfOk result (λ read. read.held ≡ length framer.new.octets) }
    ensures kept { framer.new ≡ record framer.old { octets = framer.new.octets } }
{
    one_front_frame_or_lasting_fault();
    let mut tally = reading.tally;
    let mut held = reading.held;
    loop {
        match framer.front() {
            Ok(Some(message)) => {
                tally = put_and_count_frame_report(alloc, text, dictionary, task, tally, message)?;
                held -= message.len();
                framer.skip();
            }
            Ok(None) => {
                return Ok(Reading {
                    tally,
                    held,
                    fault: None,
                });
            }
            Err(fault) => {
                return Ok(Reading {
                    tally,
                    held,
                    fault: Some(fault),
                });
            }
        }
    }
}
