//! Descriptions of interfaces.
ghost use Rattle.std.specs.Prelude.{◌≡◌, ◌<◌, ◌≤◌, length, IfOk, IfErr, OnOk, slice_get};
ghost use Rattle.dm_capture.specs.Interfaces.{IsInterface, HasInterfaceFault, IsResolution, IsOffset};

use crate::fault::FaultKind;
use crate::options::option_value;
use crate::order::{Order, u16_at, u32_at, u64_at_front};
use crate::time::{Resolution, resolution_from_octet};

/// The octets of a description without options.
const LEAST_LEN: usize = 20;

/// The most interfaces that a section describes.
const MOST_INTERFACES: usize = 65_536;

/// The option that says into how many units a second is cut.
const TIME_RESOLUTION: u16 = 9;

/// The option that says how many seconds are added to a time.
const TIME_OFFSET: u16 = 14;

/// What the description of an interface says.
#[derive(Clone, Copy, Debug)]
pub(crate) struct Interface {
    pub(crate) link: u16,
    /// The most octets that are captured of a packet; 0 is no limit.
    pub(crate) limit: u32,
    pub(crate) resolution: Resolution,
    /// Seconds that are added to a time, as two's complement.
    pub(crate) offset: u64,
}

/// What a block says that is an interface's description, in a section that describes these before it, or what is wrong
/// with it.
pub(crate) fn read_interface(
    order: Order,
    interfaces: &[Interface],
    block: &[u8],
) -> Result<Interface, FaultKind>
    requires { 12 ≤ length block.now }
    ensures interface { IfOk result (IsInterface order block.now) }
    ensures few { OnOk result (length interfaces.now < 65536) }
    ensures fault { IfErr result (HasInterfaceFault interfaces.now block.now) }
{
    if block.len() < LEAST_LEN {
        return Err(FaultKind::WrongLength);
    }
    if MOST_INTERFACES <= interfaces.len() {
        return Err(FaultKind::TooManyInterfaces);
    }
    let options = &block[16..block.len() - 4];
    Ok(Interface {
        link: u16_at(order, block, 8),
        limit: u32_at(order, block, 12),
        resolution: resolution_from_options(order, options),
        offset: time_offset_from_options(order, options),
    })
}

/// The resolution that the options say: microseconds where they don't.
fn resolution_from_options(order: Order, options: &[u8]) -> Resolution
    ensures { IsResolution order options.now result }
{
    match option_value(order, options, TIME_RESOLUTION, 1) {
        Some(value) => resolution_from_octet(value[0]),
        None => Resolution::Decimal(6),
    }
}

/// The offset in seconds that the options say: 0 where they don't.
fn time_offset_from_options(order: Order, options: &[u8]) -> u64
    ensures { IsOffset order options.now result }
{
    match option_value(order, options, TIME_OFFSET, 8) {
        Some(value) => u64_at_front(order, value),
        None => 0,
    }
}

/// The interface with a number, from 0; None where it wasn't described.
pub(crate) fn interface_at(interfaces: &[Interface], number: usize) -> Option<Interface>
    ensures { result ≡ slice_get interfaces.now number }
{
    if number < interfaces.len() {
        Some(interfaces[number])
    } else {
        None
    }
}
