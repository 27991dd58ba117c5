//! The packets that a capture holds, each said in turn and gathered behind what waits.
ghost use Rattle.std.specs.Prelude.{◌≡◌, ◌≢◌, [], ◌∷◌, None, Some, Ok, IfOk, IfErr, OnOk};
ghost use Rattle.dm_view_lines.specs.declared.put_fault.PutFault.TheVariants.{Memory};
ghost use Rattle.dm_capture.specs.Packets.{captured_of};
ghost use Rattle.dm_view_lines.specs.Colours.{styled};
ghost use Rattle.dm_trace_view.specs.Packets.{TellsPackets, StopsPackets, TellsHeld, StopsHeld};

use crate::speaker::PacketSpeaker;
use dm_capture::laws::read_items_stay_and_runs_join;
use dm_capture::{CaptureFault, CaptureReader, FaultKind, Packet};
use dm_dict::Dictionary;
use dm_view_lines::laws::texts_gathered_in_turn_gather_as_one;
use dm_view_lines::{PutFault, Style, gather_text_and_write_if_full};
use std::alloc::Global;
use std::io::Write;

/// What is said: of one packet, and what of all waits to be written.
#[derive(Drop)]
pub(crate) struct Output {
    pub text: String,
    pub waits: Vec<u8>,
}

/// Puts what is said of a packet behind the text that waits to be written.
fn say_and_gather_packet<S: PacketSpeaker, W: Write>(
    alloc: Global,
    dictionary: &Dictionary,
    style: Style,
    speaker: &mut S,
    packet: &Packet,
    output: &mut Output,
    writer: &mut W,
) -> Result<(), PutFault>
    ensures told { OnOk result (TellsPackets (styled style.coloured style.task) (S.says dictionary.now style.task)
        speaker.old (captured_of packet.now ∷ []) speaker.new (W.contents writer.old) output.old.waits.items
        (W.contents writer.new) output.new.waits.items) }
    ensures stopped { IfErr result (λ fault. StopsPackets (styled style.coloured style.task)
        (S.says dictionary.now style.task) speaker.old (captured_of packet.now ∷ []) fault (W.contents writer.old)
        output.old.waits.items (W.contents writer.new) output.new.waits.items) }
{
    output.text.clear();
    speaker.say_packet(alloc, dictionary, style.task, packet, &mut output.text)?;
    gather_text_and_write_if_full(
        alloc,
        style,
        output.text.as_bytes(),
        &mut output.waits,
        writer,
    )?;
    Ok(())
}

/// Puts what is said of all whole packets that the capture holds behind the text that waits to be written. It answers
/// the fault that stands behind them, or None.
pub(crate) fn say_and_gather_held_packets<S: PacketSpeaker, W: Write>(
    alloc: Global,
    dictionary: &Dictionary,
    style: Style,
    speaker: &mut S,
    capture: &mut CaptureReader,
    output: &mut Output,
    writer: &mut W,
) -> Result<Option<CaptureFault>, PutFault>
    requires sound { capture.old.fault ≡ None }
    ensures told { IfOk result (λ fault. TellsHeld (styled style.coloured style.task)
        (S.says dictionary.now style.task) capture.old speaker.old fault capture.new speaker.new
        (W.contents writer.old) output.old.waits.items (W.contents writer.new) output.new.waits.items) }
    ensures sound { result ≡ Ok None → capture.new.fault ≡ None }
    ensures stopped { IfErr result (λ fault. StopsHeld (styled style.coloured style.task)
        (S.says dictionary.now style.task) capture.old speaker.old fault (W.contents writer.old)
        output.old.waits.items (W.contents writer.new) output.new.waits.items) }
{
    read_items_stay_and_runs_join();
    texts_gathered_in_turn_gather_as_one();
    for _ in 0..u64::MAX {
        match capture.next() {
            Ok(Some(packet)) => {
                let put = say_and_gather_packet(
                    alloc, dictionary, style, speaker, &packet, output, writer,
                );
                drop(packet);
                put?;
            }
            Ok(None) => return Ok(None),
            Err(fault) => return fault_or_want_of_memory(fault),
        }
    }
    Err(PutFault::Memory)
}

/// The fault of a capture; an Err where it is want of memory.
fn fault_or_want_of_memory(fault: CaptureFault) -> Result<Option<CaptureFault>, PutFault>
    ensures fault { IfOk result (λ told. (told ≡ Some fault) × (fault.kind ≢ FaultKind.OutOfMemory)) }
    ensures memory { IfErr result (λ put. put ≡ Memory) }
{
    match fault.kind {
        FaultKind::OutOfMemory => Err(PutFault::Memory),
        _ => Ok(Some(fault)),
    }
}
