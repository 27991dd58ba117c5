//! The headers of the messages that a node builds (RFC 6733, 3 and 6.2).
ghost use Rattle.std.specs.Prelude.{◌≡◌, false, ◌<◌, ◌^◌};
ghost use Rattle.dm_wire.specs.Limits.{HeaderFits};
ghost use Rattle.dm_base.specs.Built.{request_header, answer_header};

use dm_wire::Header;

/// A header of these fields, with the T bit clear.
fn header_with_t_bit_clear(
    request: bool,
    proxiable: bool,
    error: bool,
    command: u32,
    application: u32,
    hop_id: u32,
    end_id: u32,
) -> Header
    ensures header { result ≡ record {
      request = request;
      proxiable = proxiable;
      error = error;
      retransmit = false;
      command = command;
      application = application;
      hop_id = hop_id;
      end_id = end_id;
    } }
    ensures fits { command < 256 ^ 3 → HeaderFits result }
{
    Header {
        request,
        proxiable,
        error,
        retransmit: false,
        command,
        application,
        hop_id,
        end_id,
    }
}

/// The header of a request of Application-ID 0, with one number as both identifiers.
pub(crate) fn header_of_request(command: u32, id: u32) -> Header
    ensures header { result ≡ request_header command id }
    ensures fits { command < 256 ^ 3 → HeaderFits (request_header command id) }
{
    header_with_t_bit_clear(true, false, false, command, 0, id, id)
}

/// The header of the answer to a request: its command, application and identifiers, and its P bit.
pub(crate) fn header_of_answer(error: bool, to: &Header) -> Header
    ensures header { result ≡ answer_header error to.now }
    ensures fits { to.now.command < 256 ^ 3 → HeaderFits to.now }
{
    header_with_t_bit_clear(
        false,
        to.proxiable,
        error,
        to.command,
        to.application,
        to.hop_id,
        to.end_id,
    )
}
