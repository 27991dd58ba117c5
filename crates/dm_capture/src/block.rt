//! Blocks of a pcapng file: a type, a length, what the block says, and the length again.
ghost use Rattle.std.specs.Prelude.{◌≡◌, ◌≤◌, length, take, IfOk, IfErr, IfSome, IfNone};
ghost use Rattle.dm_capture.specs.Blocks.{block_size, IsBlock, IsBlockPart, HasLengthFault};

use crate::fault::FaultKind;
use crate::order::{Order, u32_at};

/// The octets of a block that says nothing.
const LEAST_BLOCK: usize = 12;

/// The greatest number of octets that a block takes.
const MOST_BLOCK: usize = 16_777_216;

/// How many octets the block at the front takes; `None` where it isn't whole yet.
pub(crate) fn whole_block_size(order: Order, octets: &[u8]) -> Result<Option<usize>, FaultKind>
    requires { 8 ≤ length octets.now }
    ensures within { IfOk result (λ found. IfSome found (λ size. size ≤ length octets.now)) }
    ensures least { IfOk result (λ found. IfSome found (λ size. 12 ≤ size)) }
    ensures block { IfOk result (λ found. IfSome found (λ size. IsBlock order (take size octets.now))) }
    ensures size { IfOk result (λ found. IfSome found (λ size. size ≡ block_size order octets.now)) }
    ensures part { IfOk result (λ found. IfNone found (IsBlockPart order octets.now)) }
    ensures fault { IfErr result (HasLengthFault order octets.now) }
{
    let size = u32_at(order, octets, 4) as usize;
    if size < LEAST_BLOCK || size % 4 != 0 {
        return Err(FaultKind::WrongLength);
    }
    if MOST_BLOCK < size {
        return Err(FaultKind::RecordTooLong);
    }
    if octets.len() < size {
        return Ok(None);
    }
    if u32_at(order, octets, size - 4) as usize != size {
        return Err(FaultKind::LengthsDiffer);
    }
    Ok(Some(size))
}
