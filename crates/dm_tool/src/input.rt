//! The whole input of a run, read before anything is printed.
ghost use Rattle.std.specs.Prelude.{◌≡◌, ◌<◌, ◌≤◌, ◌+◌, ◌⊎◌, [], ℕ, List, length, true, false, IfSome, IfOk, IfErr};
ghost use Rattle.std.specs.Prelude.{IsErrOf, OnOk, vec_len};
ghost use Rattle.std.specs.Io.KnownBytes.{Consumes, IsAtEnd};
ghost use Rattle.dm_tool.specs.Limits.{input_limit, read_limit, HasMost};

use crate::fault::ToolFault;
use crate::source::Source;
use std::alloc::{AllocError, Global};
use std::io::ErrorKind;

/// The most octets that a run takes.
pub const INPUT_LIMIT: usize = 67_108_864;

/// The most reads.
const READ_LIMIT: usize = INPUT_LIMIT;

/// The most octets of one read.
const CHUNK: usize = 65_536;

/// The most turns of the loop that reads, each of which makes one read.
fn most_reads() -> usize
    ensures { result ≡ read_limit }
{
    READ_LIMIT
}

/// How reading stops.
#[derive(Clone, Copy, Drop)]
enum Stop {
    /// At the end of the input.
    End,
    /// At a read that failed.
    Failed,
    /// Behind more octets than a run may take.
    TooLong,
    /// Behind as many reads as a run may make.
    TooMany,
}

/// All octets that the reader gives, up to its end.
///
/// Read is answered where the reader fails, gives more than [`INPUT_LIMIT`] octets, or hasn't
/// come to its end after as many reads. An interrupted read is made again, and counts.
pub fn read_input<S: Source>(alloc: Global, reader: &mut S) -> Result<Vec<u8>, ToolFault>
    ensures whole { IfOk result (λ input. IfSome (S.left reader.old) (λ octets. input.items ≡ octets)) }
    ensures end { OnOk result (IsAtEnd (S.left reader.new)) }
    ensures within { IfOk result (λ input. vec_len input ≤ input_limit) }
    ensures taken { (octets : List ℕ) × (length octets ≤ input_limit + 1)
        × Consumes (S.left reader.old) (S.left reader.new) octets }
    ensures fault { IfErr result (λ e. (e ≡ ToolFault.Read) ⊎ (e ≡ ToolFault.Memory)) }
    ensures read { S.never_fails ≡ true → IsErrOf result ToolFault.Read → HasMost (S.left reader.old) }
{
    let mut input = Vec::new(alloc);
    match read_to_stop(reader, &mut input)? {
        Stop::End => Ok(input),
        Stop::Failed | Stop::TooLong | Stop::TooMany => Err(ToolFault::Read),
    }
}

/// Reads up to the end, or to where reading stops before it.
fn read_to_stop<S: Source>(reader: &mut S, input: &mut Vec<u8>) -> Result<Stop, AllocError>
    requires { input.old.items ≡ [] }
    ensures held { OnOk result (Consumes (S.left reader.old) (S.left reader.new) input.new.items) }
    ensures end { IfOk result (λ stop. stop ≡ Stop.End → IsAtEnd (S.left reader.new)) }
    ensures within { IfOk result (λ stop. stop ≡ Stop.End → vec_len input.new ≤ input_limit) }
    ensures failed { IfOk result (λ stop. stop ≡ Stop.Failed → S.never_fails ≡ false) }
    ensures long { IfOk result (λ stop. stop ≡ Stop.TooLong → input_limit < vec_len input.new) }
    ensures many { IfOk result (λ stop. stop ≡ Stop.TooMany → S.never_fails ≡ true → read_limit ≤ vec_len input.new) }
    ensures taken { (octets : List ℕ) × (length octets ≤ input_limit + 1)
        × Consumes (S.left reader.old) (S.left reader.new) octets }
{
    let mut chunk = [0; CHUNK];
    for _turn in 0..most_reads() {
        let room = CHUNK.min(INPUT_LIMIT + 1 - input.len());
        match reader.read_some(&mut chunk[..room]) {
            Ok(0) => return Ok(Stop::End),
            Ok(count) => {
                input.extend_from_slice(&chunk[..count])?;
                if input.len() > INPUT_LIMIT {
                    return Ok(Stop::TooLong);
                }
            }
            Err(error) => {
                if error.kind() != ErrorKind::Interrupted {
                    return Ok(Stop::Failed);
                }
            }
        }
    }
    Ok(Stop::TooMany)
}
