//! What a capture can have wrong.

use thiserror::Error;

/// Why a capture gives no further packet.
#[derive(Clone, Copy, Debug, PartialEq, Eq, Error)]
pub enum FaultKind {
    /// The first four octets are neither those of pcap nor of pcapng, or a section names no order of octets.
    #[error("no capture")]
    NoCapture,
    /// The major version isn't 2 (pcap) or 1 (pcapng).
    #[error("unsupported version")]
    OtherVersion,
    /// A length is below what stands before it takes, or no multiple of four octets in a block, or more octets are
    /// said to be captured than the block has.
    #[error("wrong length")]
    WrongLength,
    /// More than 262,144 octets are captured, or a block takes more than 16,777,216 octets.
    #[error("record too long")]
    RecordTooLong,
    /// The two lengths of a block differ.
    #[error("lengths of a block differ")]
    LengthsDiffer,
    /// A packet names an interface that its section doesn't describe before it.
    #[error("interface not described")]
    UnknownInterface,
    /// A section describes more than 65,536 interfaces.
    #[error("too many interfaces")]
    TooManyInterfaces,
    /// The file ends inside a record.
    #[error("file ends inside a record")]
    CutRecord,
    /// A growth was refused.
    #[error("out of memory")]
    OutOfMemory,
}

/// A fault, and how many octets of the file stand before the record that has it.
#[derive(Clone, Copy, Debug, PartialEq, Eq)]
pub struct CaptureFault {
    /// In octets from the file's beginning, 2^64 - 1 at most.
    pub offset: u64,
    pub kind: FaultKind,
}
