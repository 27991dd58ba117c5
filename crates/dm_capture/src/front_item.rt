//! The item at the front of the octets that are left: a file's header, a record or a block.
ghost use Rattle.std.specs.Prelude.{◌<◌, ◌≤◌, length, take, IfOk, IfErr, IfSome, IfNone};
ghost use Rattle.dm_capture.specs.Items.{IsItem, IsPart, HasFrontFault};

use crate::fault::FaultKind;
use crate::interface::Interface;
use crate::order::Order;
use crate::packet::Record;
use crate::pcap::{PcapForm, file_header_at_front, record_at_front};
use crate::section::section_item_at_front;

/// What is known of the file so far, but for a section's interfaces.
#[derive(Clone, Copy, Debug)]
pub(crate) enum Layout {
    /// Nothing was read.
    Start,
    /// A pcap file.
    Pcap(PcapForm),
    /// A section of a pcapng file.
    Pcapng(Order),
}

/// What a file's header, a record or a block says.
#[derive(Clone, Copy, Debug)]
pub(crate) enum Holds {
    /// The header of a pcap file.
    Form(PcapForm),
    /// A section's header.
    Section(Order),
    /// An interface's description.
    Description(Interface),
    /// A packet.
    PacketRecord(Record),
    /// A block that is passed by.
    Other,
}

/// A whole header, record or block, and how many octets it takes.
#[derive(Clone, Copy, Debug)]
pub(crate) struct Found {
    pub(crate) size: usize,
    pub(crate) holds: Holds,
}

/// The whole header, record or block at the front; `None` where it isn't whole yet.
pub(crate) fn item_at_front(
    layout: Layout,
    interfaces: &[Interface],
    octets: &[u8],
) -> Result<Option<Found>, FaultKind>
    ensures within { IfOk result (λ found. IfSome found (λ f. (0 < f.size) × (f.size ≤ length octets.now))) }
    ensures item { IfOk result (λ found. IfSome found (λ f.
        IsItem layout interfaces.now (take f.size octets.now) f.holds)) }
    ensures part { IfOk result (λ found. IfNone found (IsPart layout octets.now)) }
    ensures fault { IfErr result (HasFrontFault layout interfaces.now octets.now) }
{
    match layout {
        Layout::Start => file_header_at_front(octets),
        Layout::Pcap(form) => record_at_front(form, octets),
        Layout::Pcapng(order) => section_item_at_front(order, interfaces, octets),
    }
}
