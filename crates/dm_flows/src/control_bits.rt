//! What the control bits of a segment do to both directions of its connection (RFC 9293, 3.5 and 3.6).
ghost use Rattle.std.specs.Prelude.{◌≡◌};
ghost use Rattle.dm_flows.specs.Connections.{is_same_syn, is_answering_syn, after_syn, controlled};
ghost use Rattle.dm_flows.specs.Tcps.{segment_seen};

use crate::closing::is_open;
use crate::flow::Flow;
use crate::segment::{Segment, first_octet_number};
use crate::window::sequence_number_behind;

/// Whether a SYN with this number is that of the connection, sent again.
fn is_repeated_syn(own: &Flow, number: u32) -> bool
    ensures { result ≡ is_same_syn own.now number }
{
    match own.syn_number() {
        Some(syn) => is_open(own.why_closed()) && syn == number,
        None => false,
    }
}

/// Whether a SYN of this direction answers that of the other one, which was seen: nothing ended this direction, and it
/// is its first SYN.
fn is_answer_to_syn(own: &Flow, other: &Flow) -> bool
    ensures { result ≡ is_answering_syn (record { own = own.now; other = other.now }) }
{
    is_open(own.why_closed()) && own.syn_number().is_none() && other.syn_number().is_some()
}

/// Takes a SYN with this number. The same one again changes nothing; else its direction begins, and the other one too,
/// unless it answers that one's SYN.
fn take_syn(own: &mut Flow, other: &mut Flow, number: u32)
    ensures { record { own = own.new; other = other.new }
        ≡ after_syn number (record { own = own.old; other = other.old }) }
{
    if is_repeated_syn(own, number) {
        return;
    }
    if !is_answer_to_syn(own, other) {
        other.begin_with_nothing_seen();
    }
    own.begin_at_syn(number);
}

/// Does what a segment's control bits say, before its octets are taken: a RST ends both directions; else a SYN may
/// begin them, and a FIN ends the sender's.
pub(crate) fn apply_control_bits(own: &mut Flow, other: &mut Flow, segment: Segment<'_>)
    ensures { record { own = own.new; other = other.new }
        ≡ controlled (segment_seen segment.entry) (record { own = own.old; other = other.old }) }
{
    if segment.rst {
        own.end_at_rst();
        other.end_at_rst();
        return;
    }
    if segment.syn {
        take_syn(own, other, segment.sequence);
    }
    if segment.fin {
        let last = sequence_number_behind(first_octet_number(segment), segment.payload.len());
        own.end_at_fin_unless_ended(last);
    }
}
