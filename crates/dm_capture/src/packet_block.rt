//! Blocks that hold a packet.
ghost use Rattle.std.specs.Prelude.{◌≡◌, ◌≤◌, length, IfOk, IfErr};
ghost use Rattle.dm_capture.specs.Packets.{interface_number, IsTimedBlock, HasTimedFault, IsTimedPacket};
ghost use Rattle.dm_capture.specs.Packets.{HasCapturedFault, IsSimpleBlock, HasSimpleFault, simple_captured};
ghost use Rattle.dm_capture.specs.Packets.{IsSimplePacket, HasSimpleLengthFault};

use crate::fault::FaultKind;
use crate::interface::{Interface, interface_at};
use crate::order::{Order, u16_at, u32_at};
use crate::packet::{MOST_CAPTURED, Record};
use crate::time::wrapping_time_after_offset;

/// The type of an enhanced packet block.
const ENHANCED: u32 = 6;

/// The octets of an enhanced packet block, and of the obsolete one, but for the packet and options.
const TIMED_LEN: usize = 32;

/// The octets of a simple packet block, but for the packet.
const SIMPLE_LEN: usize = 16;

/// The number of the interface that an enhanced packet block names in four octets, and the obsolete one in two.
fn interface_number_of_block(order: Order, block: &[u8]) -> usize
    requires { 12 ≤ length block.now }
    ensures { result ≡ interface_number order block.now }
{
    if u32_at(order, block, 0) == ENHANCED {
        u32_at(order, block, 8) as usize
    } else {
        u16_at(order, block, 8) as usize
    }
}

/// The packet of an enhanced packet block, or of the obsolete one.
pub(crate) fn enhanced_or_obsolete_packet(
    order: Order,
    interfaces: &[Interface],
    block: &[u8],
) -> Result<Record, FaultKind>
    requires { 12 ≤ length block.now }
    ensures packet { IfOk result (IsTimedBlock order interfaces.now block.now) }
    ensures fault { IfErr result (HasTimedFault order interfaces.now block.now) }
{
    if block.len() < TIMED_LEN {
        return Err(FaultKind::WrongLength);
    }
    match interface_at(interfaces, interface_number_of_block(order, block)) {
        Some(interface) => enhanced_or_obsolete_packet_of_interface(order, interface, block),
        None => Err(FaultKind::UnknownInterface),
    }
}

/// The packet of an enhanced packet block, or of the obsolete one, which was captured on this interface.
fn enhanced_or_obsolete_packet_of_interface(
    order: Order,
    interface: Interface,
    block: &[u8],
) -> Result<Record, FaultKind>
    requires { 32 ≤ length block.now }
    ensures packet { IfOk result (IsTimedPacket order interface block.now) }
    ensures fault { IfErr result (HasCapturedFault order block.now) }
{
    let captured = u32_at(order, block, 20) as usize;
    if block.len() < TIMED_LEN + captured {
        return Err(FaultKind::WrongLength);
    }
    if MOST_CAPTURED < captured {
        return Err(FaultKind::RecordTooLong);
    }
    let units = u32_at(order, block, 12) as u64 * 4_294_967_296 + u32_at(order, block, 16) as u64;
    Ok(Record {
        link: interface.link,
        time: Some(wrapping_time_after_offset(interface.resolution, interface.offset, units)),
        original: u32_at(order, block, 24),
        start: 28,
        captured,
    })
}

/// How many octets a simple packet block has of its packet: all, or as many as its interface's limit.
fn captured_len_in_simple_block(interface: Interface, original: u32) -> usize
    ensures { result ≡ simple_captured interface original }
{
    if interface.limit == 0 {
        original as usize
    } else {
        original.min(interface.limit) as usize
    }
}

/// The packet of a simple packet block, which is one of the section's first interface.
pub(crate) fn simple_packet(
    order: Order,
    interfaces: &[Interface],
    block: &[u8],
) -> Result<Record, FaultKind>
    requires { 12 ≤ length block.now }
    ensures packet { IfOk result (IsSimpleBlock order interfaces.now block.now) }
    ensures fault { IfErr result (HasSimpleFault order interfaces.now block.now) }
{
    if block.len() < SIMPLE_LEN {
        return Err(FaultKind::WrongLength);
    }
    match interface_at(interfaces, 0) {
        Some(interface) => simple_packet_of_interface(order, interface, block),
        None => Err(FaultKind::UnknownInterface),
    }
}

/// The packet of a simple packet block, which was captured on this interface.
fn simple_packet_of_interface(
    order: Order,
    interface: Interface,
    block: &[u8],
) -> Result<Record, FaultKind>
    requires { 16 ≤ length block.now }
    ensures packet { IfOk result (IsSimplePacket order interface block.now) }
    ensures fault { IfErr result (HasSimpleLengthFault order interface block.now) }
{
    let original = u32_at(order, block, 8);
    let captured = captured_len_in_simple_block(interface, original);
    if block.len() < SIMPLE_LEN + captured {
        return Err(FaultKind::WrongLength);
    }
    if MOST_CAPTURED < captured {
        return Err(FaultKind::RecordTooLong);
    }
    Ok(Record {
        link: interface.link,
        time: None,
        original,
        start: 12,
        captured,
    })
}
