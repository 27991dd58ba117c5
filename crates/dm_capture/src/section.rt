//! Sections of a pcapng file: their headers, and the blocks in them.
ghost use Rattle.std.specs.Prelude.{◌≡◌, ◌≢◌, ◌<◌, ◌≤◌, length, take, Some, IfOk, IfErr, IfSome, IfNone, nat_eq};
ghost use Rattle.dm_capture.specs.Numbers.{ordered_number};
ghost use Rattle.dm_capture.specs.Blocks.{section_type, IsBlockPart};
ghost use Rattle.dm_capture.specs.Sections.{section_order, IsSectionHeader, HasSectionFault, IsSectionPart};
ghost use Rattle.dm_capture.specs.Contents.{BlockHolds, HasContentFault, IsBlockItem, HasBlockFault};
ghost use Rattle.dm_capture.specs.Contents.{IsSectionItem, IsSectionItemPart, HasSectionItemFault};

use crate::block::whole_block_size;
use crate::fault::FaultKind;
use crate::front_item::{Found, Holds};
use crate::interface::{Interface, read_interface};
use crate::order::{Order, u16_at, u32_at};
use crate::packet_block::{enhanced_or_obsolete_packet, simple_packet};

/// The type of a section's header: the same in either order.
const SECTION: u32 = 0x0a0d_0d0a;

/// The number that tells the order of a section's octets.
const ORDER: u32 = 0x1a2b_3c4d;

/// The least octets of a section's header.
const SECTION_LEN: usize = 28;

const INTERFACE: u32 = 1;

const PACKET: u32 = 2;

const SIMPLE_PACKET: u32 = 3;

const ENHANCED_PACKET: u32 = 6;

/// Whether a section's header stands at the front.
pub(crate) fn begins_with_section_header(octets: &[u8]) -> bool
    requires { 4 ≤ length octets.now }
    ensures { result ≡ nat_eq (ordered_number Order.Big 4 octets.now) section_type }
{
    u32_at(Order::Big, octets, 0) == SECTION
}

/// The order of octets that a section's header names; None where it names none.
fn order_of_section(octets: &[u8]) -> Option<Order>
    requires { 12 ≤ length octets.now }
    ensures { result ≡ section_order octets.now }
{
    if u32_at(Order::Big, octets, 8) == ORDER {
        Some(Order::Big)
    } else if u32_at(Order::Little, octets, 8) == ORDER {
        Some(Order::Little)
    } else {
        None
    }
}

/// The section's header at the front, which begins with a section's type; `None` where it isn't whole yet.
pub(crate) fn section_header_at_front(octets: &[u8]) -> Result<Option<Found>, FaultKind>
    requires least { 4 ≤ length octets.now }
    requires section { ordered_number Order.Big 4 octets.now ≡ section_type }
    ensures within { IfOk result (λ found. IfSome found (λ f. (0 < f.size) × (f.size ≤ length octets.now))) }
    ensures item { IfOk result (λ found. IfSome found (λ f. IsSectionHeader (take f.size octets.now) f.holds)) }
    ensures part { IfOk result (λ found. IfNone found (IsSectionPart octets.now)) }
    ensures fault { IfErr result (HasSectionFault octets.now) }
{
    if octets.len() < 12 {
        return Ok(None);
    }
    match order_of_section(octets) {
        Some(order) => section_header_in_order(order, octets),
        None => Err(FaultKind::NoCapture),
    }
}

/// The section's header at the front, whose order is known; `None` where it isn't whole yet.
fn section_header_in_order(order: Order, octets: &[u8]) -> Result<Option<Found>, FaultKind>
    requires least { 12 ≤ length octets.now }
    requires section { ordered_number Order.Big 4 octets.now ≡ section_type }
    requires ordered { section_order octets.now ≡ Some order }
    ensures within { IfOk result (λ found. IfSome found (λ f. (0 < f.size) × (f.size ≤ length octets.now))) }
    ensures item { IfOk result (λ found. IfSome found (λ f. IsSectionHeader (take f.size octets.now) f.holds)) }
    ensures part { IfOk result (λ found. IfNone found (IsSectionPart octets.now)) }
    ensures fault { IfErr result (HasSectionFault octets.now) }
{
    match whole_block_size(order, octets) {
        Ok(Some(size)) => {
            if size < SECTION_LEN {
                return Err(FaultKind::WrongLength);
            }
            if u16_at(order, octets, 12) != 1 {
                return Err(FaultKind::OtherVersion);
            }
            Ok(Some(Found {
                size,
                holds: Holds::Section(order),
            }))
        }
        Ok(None) => Ok(None),
        Err(fault) => Err(fault),
    }
}

/// The block at the front of what is left in a section, or the header of the next one; `None` where it isn't whole yet.
pub(crate) fn section_item_at_front(
    order: Order,
    interfaces: &[Interface],
    octets: &[u8],
) -> Result<Option<Found>, FaultKind>
    ensures within { IfOk result (λ found. IfSome found (λ f. (0 < f.size) × (f.size ≤ length octets.now))) }
    ensures item { IfOk result (λ found. IfSome found (λ f.
        IsSectionItem order interfaces.now (take f.size octets.now) f.holds)) }
    ensures part { IfOk result (λ found. IfNone found (IsSectionItemPart order octets.now)) }
    ensures fault { IfErr result (HasSectionItemFault order interfaces.now octets.now) }
{
    if octets.len() < 8 {
        return Ok(None);
    }
    if begins_with_section_header(octets) {
        return section_header_at_front(octets);
    }
    section_block_at_front(order, interfaces, octets)
}

/// The block at the front of what is left in a section, which is no section's header; `None` where it isn't whole yet.
fn section_block_at_front(
    order: Order,
    interfaces: &[Interface],
    octets: &[u8],
) -> Result<Option<Found>, FaultKind>
    requires least { 8 ≤ length octets.now }
    requires other { ordered_number Order.Big 4 octets.now ≢ section_type }
    ensures within { IfOk result (λ found. IfSome found (λ f. (0 < f.size) × (f.size ≤ length octets.now))) }
    ensures item { IfOk result (λ found. IfSome found (λ f.
        IsBlockItem order interfaces.now (take f.size octets.now) f.holds)) }
    ensures part { IfOk result (λ found. IfNone found (IsBlockPart order octets.now)) }
    ensures fault { IfErr result (HasBlockFault order interfaces.now octets.now) }
{
    match whole_block_size(order, octets) {
        Ok(Some(size)) => match read_section_block(order, interfaces, &octets[..size]) {
            Ok(holds) => Ok(Some(Found { size, holds })),
            Err(fault) => Err(fault),
        },
        Ok(None) => Ok(None),
        Err(fault) => Err(fault),
    }
}

/// What a whole block within a section says, or what is wrong with it.
fn read_section_block(
    order: Order,
    interfaces: &[Interface],
    block: &[u8],
) -> Result<Holds, FaultKind>
    requires { 12 ≤ length block.now }
    ensures holds { IfOk result (BlockHolds order interfaces.now block.now) }
    ensures fault { IfErr result (HasContentFault order interfaces.now block.now) }
{
    match u32_at(order, block, 0) {
        INTERFACE => match read_interface(order, interfaces, block) {
            Ok(interface) => Ok(Holds::Description(interface)),
            Err(fault) => Err(fault),
        },
        PACKET | ENHANCED_PACKET => match enhanced_or_obsolete_packet(order, interfaces, block) {
            Ok(record) => Ok(Holds::PacketRecord(record)),
            Err(fault) => Err(fault),
        },
        SIMPLE_PACKET => match simple_packet(order, interfaces, block) {
            Ok(record) => Ok(Holds::PacketRecord(record)),
            Err(fault) => Err(fault),
        },
        _ => Ok(Holds::Other),
    }
}
