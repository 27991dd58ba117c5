//! Numbers as octets in network byte order, for the values of AVPs (RFC 6733, 4.2).
ghost use Rattle.std.specs.Prelude.{◌≡◌, ◌^◌, ◌<◌, FitsSigned, IfOk};
ghost use Rattle.std.specs.Int.{cast_signed, cast_unsigned, w32, w64};
ghost use Rattle.byteorder.specs.Endian.{big_number};
ghost use Rattle.dm_wire.specs.Spelling.{be};

use byteorder::{BigEndian, ByteOrder};
use std::alloc::{AllocError, Global};

/// The number as four octets; or want of memory.
pub(crate) fn encode_unsigned_32(alloc: Global, number: u32) -> Result<Vec<u8>, AllocError>
    ensures octets { IfOk result (λ octets. octets.items ≡ be number 4) }
    ensures read_back { number ≡ big_number 4 (be number 4) }
    ensures fits { number < 256 ^ 4 }
{
    let mut octets = [0; 4];
    BigEndian::write_u32(&mut octets, number);
    Vec::from_slice(alloc, &octets)
}

/// The number as eight octets; or want of memory.
pub(crate) fn encode_unsigned_64(alloc: Global, number: u64) -> Result<Vec<u8>, AllocError>
    ensures octets { IfOk result (λ octets. octets.items ≡ be number 8) }
    ensures read_back { number ≡ big_number 8 (be number 8) }
    ensures fits { number < 256 ^ 8 }
{
    let mut octets = [0; 8];
    BigEndian::write_u64(&mut octets, number);
    Vec::from_slice(alloc, &octets)
}

/// The number as four octets, in two's complement; or want of memory.
pub(crate) fn encode_signed_32(alloc: Global, number: i32) -> Result<Vec<u8>, AllocError>
    ensures octets { IfOk result (λ octets. octets.items ≡ be (cast_unsigned w32 number) 4) }
    ensures read_back { number ≡ cast_signed w32 (big_number 4 (be (cast_unsigned w32 number) 4)) }
    ensures fits { FitsSigned w32 number }
{
    let mut octets = [0; 4];
    BigEndian::write_i32(&mut octets, number);
    Vec::from_slice(alloc, &octets)
}

/// The number as eight octets, in two's complement; or want of memory.
pub(crate) fn encode_signed_64(alloc: Global, number: i64) -> Result<Vec<u8>, AllocError>
    ensures octets { IfOk result (λ octets. octets.items ≡ be (cast_unsigned w64 number) 8) }
    ensures read_back { number ≡ cast_signed w64 (big_number 8 (be (cast_unsigned w64 number) 8)) }
    ensures fits { FitsSigned w64 number }
{
    let mut octets = [0; 8];
    BigEndian::write_i64(&mut octets, number);
    Vec::from_slice(alloc, &octets)
}
