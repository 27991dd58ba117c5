//! Pcap: the header at a file's front, which may also be that of a pcapng file's first section, and records.
ghost use Rattle.std.specs.Prelude.{◌≡◌, ◌≢◌, ◌<◌, ◌≤◌, [], length, take, Some, IfOk, IfErr, IfSome, IfNone};
ghost use Rattle.dm_capture.specs.Numbers.{ordered_number};
ghost use Rattle.dm_capture.specs.Blocks.{section_type};
ghost use Rattle.dm_capture.specs.Pcap.{magic_of, IsPcapRecord, HasRecordFault, IsRecordPart};
ghost use Rattle.dm_capture.specs.Pcap.{HasHeaderFault, IsHeaderPart, IsPcapHeader, pcap_record};
ghost use Rattle.dm_capture.specs.Items.{IsItem, IsPart, HasFrontFault};
ghost use Rattle.dm_capture.specs.declared.front_item.Layout.TheVariants.{Start};

use crate::fault::FaultKind;
use crate::front_item::{Found, Holds};
use crate::order::{Order, u16_at, u32_at};
use crate::packet::{MOST_CAPTURED, Record};
use crate::section::{begins_with_section_header, section_header_at_front};
use crate::time::{Resolution, Time};

/// The octets of a file's header.
const HEADER_LEN: usize = 24;

/// The octets of a record's header.
const RECORD_HEADER_LEN: usize = 16;

/// The first four octets of a file with microseconds.
const MICROSECONDS: u32 = 0xa1b2_c3d4;

/// The first four octets of a file with nanoseconds.
const NANOSECONDS: u32 = 0xa1b2_3c4d;

/// What the header of a pcap file says.
#[derive(Clone, Copy, Debug)]
pub(crate) struct PcapForm {
    pub(crate) order: Order,
    pub(crate) resolution: Resolution,
    pub(crate) link: u16,
}

/// The header of a pcap file, or of the first section of a pcapng file, at its front; `None` where it isn't whole yet.
pub(crate) fn file_header_at_front(octets: &[u8]) -> Result<Option<Found>, FaultKind>
    ensures within { IfOk result (λ found. IfSome found (λ f. (0 < f.size) × (f.size ≤ length octets.now))) }
    ensures item { IfOk result (λ found. IfSome found (λ f. IsItem Start [] (take f.size octets.now) f.holds)) }
    ensures part { IfOk result (λ found. IfNone found (IsPart Start octets.now)) }
    ensures fault { IfErr result (HasFrontFault Start [] octets.now) }
{
    if octets.len() < 4 {
        return Ok(None);
    }
    if begins_with_section_header(octets) {
        return section_header_at_front(octets);
    }
    match order_and_resolution_of_magic(octets) {
        Some((order, resolution)) => pcap_header_at_front(order, resolution, octets),
        None => Err(FaultKind::NoCapture),
    }
}

/// The order of octets and the resolution that the first four octets of a pcap file tell; None where they are no pcap
/// file's.
fn order_and_resolution_of_magic(octets: &[u8]) -> Option<(Order, Resolution)>
    requires { 4 ≤ length octets.now }
    ensures { result ≡ magic_of octets.now }
{
    let big = u32_at(Order::Big, octets, 0);
    let little = u32_at(Order::Little, octets, 0);
    if big == MICROSECONDS {
        Some((Order::Big, Resolution::Decimal(6)))
    } else if big == NANOSECONDS {
        Some((Order::Big, Resolution::Decimal(9)))
    } else if little == MICROSECONDS {
        Some((Order::Little, Resolution::Decimal(6)))
    } else if little == NANOSECONDS {
        Some((Order::Little, Resolution::Decimal(9)))
    } else {
        None
    }
}

/// The header of a pcap file whose first octets gave its order and resolution; `None` where it isn't whole yet, a fault
/// where its major version isn't 2.
fn pcap_header_at_front(
    order: Order,
    resolution: Resolution,
    octets: &[u8],
) -> Result<Option<Found>, FaultKind>
    requires least { 4 ≤ length octets.now }
    requires other { ordered_number Order.Big 4 octets.now ≢ section_type }
    requires magic { magic_of octets.now ≡ Some (order, resolution) }
    ensures within { IfOk result (λ found. IfSome found (λ f. (0 < f.size) × (f.size ≤ length octets.now))) }
    ensures item { IfOk result (λ found. IfSome found (λ f. IsPcapHeader (take f.size octets.now) f.holds)) }
    ensures part { IfOk result (λ found. IfNone found (IsHeaderPart octets.now)) }
    ensures fault { IfErr result (HasHeaderFault octets.now) }
{
    if octets.len() < HEADER_LEN {
        return Ok(None);
    }
    if u16_at(order, octets, 4) != 2 {
        return Err(FaultKind::OtherVersion);
    }
    let link = (u32_at(order, octets, 20) % 65536) as u16;
    let form = PcapForm {
        order,
        resolution,
        link,
    };
    Ok(Some(Found {
        size: HEADER_LEN,
        holds: Holds::Form(form),
    }))
}

/// The record of a pcap file at the front; `None` where it isn't whole yet.
pub(crate) fn record_at_front(form: PcapForm, octets: &[u8]) -> Result<Option<Found>, FaultKind>
    ensures within { IfOk result (λ found. IfSome found (λ f. (0 < f.size) × (f.size ≤ length octets.now))) }
    ensures item { IfOk result (λ found. IfSome found (λ f. IsPcapRecord form (take f.size octets.now) f.holds)) }
    ensures part { IfOk result (λ found. IfNone found (IsRecordPart form octets.now)) }
    ensures fault { IfErr result (HasRecordFault form octets.now) }
{
    if octets.len() < RECORD_HEADER_LEN {
        return Ok(None);
    }
    let captured = u32_at(form.order, octets, 8) as usize;
    if MOST_CAPTURED < captured {
        return Err(FaultKind::RecordTooLong);
    }
    let size = RECORD_HEADER_LEN + captured;
    if octets.len() < size {
        return Ok(None);
    }
    let record = read_pcap_record(form, captured, &octets[..size]);
    Ok(Some(Found {
        size,
        holds: Holds::PacketRecord(record),
    }))
}

/// What a record of a pcap file says in which so many octets of a packet stand.
fn read_pcap_record(form: PcapForm, captured: usize, octets: &[u8]) -> Record
    requires { 16 ≤ length octets.now }
    ensures { result ≡ pcap_record form captured octets.now }
{
    let time = Time {
        seconds: u32_at(form.order, octets, 0) as i64,
        fraction: u32_at(form.order, octets, 4) as u64,
        resolution: form.resolution,
    };
    Record {
        link: form.link,
        time: Some(time),
        original: u32_at(form.order, octets, 12),
        start: RECORD_HEADER_LEN,
        captured,
    }
}
