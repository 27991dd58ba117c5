//! A capture file, fed in pieces and handed out as packets.
ghost use Rattle.std.specs.Prelude.{◌≡◌, ◌≢◌, ◌<◌, ◌≤◌, ◌+◌, ◌++◌, [], length};
ghost use Rattle.std.specs.Prelude.{take, drop, None, Some, Err, IfSome, IfNone};
ghost use Rattle.std.specs.Prelude.{IfErr, IfOk, IsSomeAnd, OnOk, OnErr};
ghost use Rattle.dm_capture.specs.declared.front_item.Holds.TheVariants.{PacketRecord};
ghost use Rattle.dm_capture.specs.declared.front_item.Layout.TheVariants.{Start};
ghost use Rattle.dm_capture.specs.Captures.{Progress, new_progress, passed, Hands};
ghost use Rattle.dm_capture.specs.Captures.{EndsWith, capped};
ghost use Rattle.dm_capture.specs.Items.{IsItem, IsPart, HasFrontFault};
ghost use Rattle.dm_capture.specs.Packets.{captured_of, packet_of};

use crate::buffer::compact_if_mostly_taken;
use crate::fault::{CaptureFault, FaultKind};
use crate::front_item::{Found, Holds, Layout, item_at_front};
use crate::interface::Interface;
use crate::packet::{Packet, Record, packet_of_record};
use std::alloc::{AllocError, Global};
use std::marker::Model;

/// A capture file, pcap or pcapng, whose octets are fed in pieces, however they were cut.
///
/// A contract sees it as the octets that were fed and not yet passed, how many were passed, and what is known of the
/// file. At most one record or block is held, and what was fed behind it.
#[derive(Debug, Drop)]
pub struct CaptureReader {
    buffer: Vec<u8>,
    taken: usize,
    offset: u64,
    layout: Layout,
    interfaces: Vec<Interface>,
    packets: u64,
    fault: Option<CaptureFault>,
}

impl Model for CaptureReader {
    ghost use Rattle.std.specs.Prelude.{◌≤◌, drop, length};
    ghost use Rattle.dm_capture.specs.Captures.{Progress};

    ghost Value = { Progress };

    ghost view = { λ r. record {
      octets = drop r.taken r.buffer.items;
      offset = r.offset;
      layout = r.layout;
      interfaces = r.interfaces.items;
      packets = r.packets;
      fault = r.fault;
    } };

    ghost invariant = { λ r. r.taken ≤ length r.buffer.items };
}

impl CaptureReader {
    /// A reader that was fed nothing. It never answers want of memory.
    pub fn new(alloc: Global) -> CaptureReader
        ensures { result ≡ new_progress }
    {
        CaptureReader {
            buffer: Vec::new(alloc),
            taken: 0,
            offset: 0,
            layout: Layout::Start,
            interfaces: Vec::new(alloc),
            packets: 0,
            fault: None,
        }
    }

    /// Adds the next piece of the file, however it was cut, or answers want of memory and changes nothing.
    pub fn feed(&mut self, piece: &[u8]) -> Result<(), AllocError>
        ensures fed { OnOk result (self.new ≡ record self.old { octets = self.old.octets ++ piece.now }) }
        ensures err { OnErr result (self.new ≡ self.old) }
    {
        self.taken = compact_if_mostly_taken(&mut self.buffer, self.taken);
        self.buffer.extend_from_slice(piece)
    }

    /// Hands out the next packet; `None` where its record isn't whole yet.
    ///
    /// A fault has the place of the record that it stands in, comes once the packets before it are handed out, and is
    /// kept: `next` answers the same from then on. `OutOfMemory` isn't kept, and leaves the packet to the next call.
    pub fn next(&mut self) -> Result<Option<Packet>, CaptureFault>
        // What is handed out, or why nothing is.
        ensures hands { self.old.fault ≡ None → Hands self.old self.new result }
        // A kept fault is answered again, and nothing changes.
        ensures kept { IfSome self.old.fault (λ fault. (result ≡ Err fault) × (self.new ≡ self.old)) }
    {
        if let Some(fault) = self.fault {
            return Err(fault);
        }
        'items: loop {
            match self.front_item() {
                Ok(Some(found)) => match found.holds {
                    Holds::PacketRecord(stands) => return self.take_packet(found.size, stands),
                    holds => self.note_and_pass_front_item(found.size, holds)?,
                },
                Ok(None) => return Ok(None),
                Err(kind) => return Err(self.keep_fault(kind)),
            }
        }
    }

    /// The whole header, record or block at the front of the octets that are left; `None` where it isn't whole yet.
    fn front_item(&self) -> Result<Option<Found>, FaultKind>
        ensures within { IfOk result (λ found. IfSome found (λ f. (0 < f.size) × (f.size ≤ length self.now.octets))) }
        ensures item { IfOk result (λ found. IfSome found (λ f.
            IsItem self.now.layout self.now.interfaces (take f.size self.now.octets) f.holds)) }
        ensures part { IfOk result (λ found. IfNone found (IsPart self.now.layout self.now.octets)) }
        ensures fault { IfErr result (HasFrontFault self.now.layout self.now.interfaces self.now.octets) }
    {
        item_at_front(self.layout, &self.interfaces, &self.buffer[self.taken..])
    }

    /// Keeps a fault that stands at the front, and answers it with its place.
    fn keep_fault(&mut self, kind: FaultKind) -> CaptureFault
        ensures said { result ≡ record { offset = self.old.offset; kind = kind } }
        ensures kept { self.new ≡ record self.old { fault = Some result } }
    {
        let fault = self.fault_with_front_place(kind);
        self.fault = Some(fault);
        fault
    }

    /// The fault that is kept; None where none is.
    pub(crate) fn kept_fault(&self) -> Option<CaptureFault>
        ensures { result ≡ self.now.fault }
    {
        self.fault
    }

    /// A fault of this kind, with the place of what stands at the front.
    pub(crate) fn fault_with_front_place(&self, kind: FaultKind) -> CaptureFault
        ensures { result ≡ record { offset = self.now.offset; kind = kind } }
    {
        CaptureFault {
            offset: self.offset,
            kind,
        }
    }

    /// Passes what stands at the front, and notes what it says of the file. Where memory is wanted nothing changes.
    fn note_and_pass_front_item(&mut self, size: usize, holds: Holds) -> Result<(), CaptureFault>
        requires { size ≤ length self.old.octets }
        ensures passed { OnOk result (self.new ≡ passed self.old size holds (drop size self.old.octets)) }
        ensures err { OnErr result (self.new ≡ self.old) }
        ensures memory { IfErr result (λ fault.
            fault ≡ record { offset = self.old.offset; kind = FaultKind.OutOfMemory }) }
    {
        match holds {
            Holds::Form(form) => self.layout = Layout::Pcap(form),
            Holds::Section(order) => {
                self.layout = Layout::Pcapng(order);
                self.interfaces.clear();
            }
            Holds::Description(interface) => {
                if self.interfaces.push(interface).is_err() {
                    return Err(self.fault_with_front_place(FaultKind::OutOfMemory));
                }
            }
            Holds::PacketRecord(_) => self.packets = self.packets.saturating_add(1),
            Holds::Other => (),
        }
        self.taken += size;
        self.offset = self.offset.saturating_add(size as u64);
        Ok(())
    }

    /// Hands out the packet of the record at the front, and never None. Where memory is wanted nothing changes.
    fn take_packet(&mut self, size: usize, stands: Record) -> Result<Option<Packet>, CaptureFault>
        requires size { size ≤ length self.old.octets }
        requires within { stands.start + stands.captured ≤ size }
        ensures packet { IfOk result (λ found. IsSomeAnd found (λ packet. captured_of packet
            ≡ packet_of (capped (self.old.packets + 1)) stands (take size self.old.octets))) }
        ensures passed { OnOk result
            (self.new ≡ passed self.old size (PacketRecord stands) (drop size self.old.octets)) }
        ensures err { OnErr result (self.new ≡ self.old) }
        ensures memory { IfErr result (λ fault.
            fault ≡ record { offset = self.old.offset; kind = FaultKind.OutOfMemory }) }
    {
        let number = self.packets.saturating_add(1);
        let end = self.taken + size;
        let alloc = *self.buffer.allocator();
        match packet_of_record(alloc, number, stands, &self.buffer[self.taken..end]) {
            Ok(packet) => {
                self.packets = number;
                self.taken = end;
                self.offset = self.offset.saturating_add(size as u64);
                Ok(Some(packet))
            }
            Err(_) => Err(self.fault_with_front_place(FaultKind::OutOfMemory)),
        }
    }

    /// What is wrong where the file ends here, once `next` answered `None`: nothing, a record that isn't whole, or no
    /// file at all. Before that a record that wasn't handed out counts as one that isn't whole.
    pub fn check_whole_file_was_read(&self) -> Result<(), CaptureFault>
        ensures whole { OnOk result ((self.now.octets ≡ []) × (self.now.layout ≢ Start)) }
        ensures fault { IfErr result (λ fault. (fault.offset ≡ self.now.offset) × EndsWith self.now fault.kind) }
    {
        if self.taken < self.buffer.len() {
            return Err(self.fault_with_front_place(FaultKind::CutRecord));
        }
        match self.layout {
            Layout::Start => Err(self.fault_with_front_place(FaultKind::NoCapture)),
            _ => Ok(()),
        }
    }
}
