//! What packets do to both directions of their association (RFC 9260, 5, 8.5 and 9).
ghost use Rattle.std.specs.Prelude.{◌≡◌, Some, OnOk, OnErr};
ghost use Rattle.dm_association.specs.SctpFlows.{begun_at_tsn};
ghost use Rattle.dm_associations.specs.Associations.{is_own_packet, ending_tag, is_init_again};
ghost use Rattle.dm_associations.specs.Associations.{after_init, after_answer, after_ending};
ghost use Rattle.dm_associations.specs.Associations.{TakesCarried, LeavesCarried, HearsPacket, LeavesPacket};
ghost use Rattle.dm_flows.specs.Sctps.{sctp_seen};

use crate::front_chunk::{Front, read_front_chunk};
use crate::way::SctpWay;
use dm_association::Init;
use dm_flows::SctpPacket;
use std::alloc::AllocError;

/// Whether a packet with this Verification Tag may be of the association: that hasn't ended, and `known`, the tag of
/// the direction, is this one or None (RFC 9260, 8.4 and 8.5).
fn may_be_tag_of_association(known: Option<u32>, ended: bool, tag: u32) -> bool
    ensures { result ≡ is_own_packet tag known ended }
{
    match known {
        Some(known) => !ended && known == tag,
        None => !ended,
    }
}

/// Whether an INIT is that of the association, sent again: that hasn't ended, and the tag of the other direction is the
/// Initiate Tag (RFC 9260, 5.2.1 and 5.2.2).
fn is_repeated_init(other: &SctpWay, ended: bool, init: Init) -> bool
    ensures { result ≡ is_init_again init (record { own = other.now; other = other.now; ended = ended }) }
{
    match other.verification_tag() {
        Some(tag) => !ended && tag == init.initiate_tag,
        None => false,
    }
}

/// Begins the sender's direction at the Initial TSN of an INIT or an INIT ACK; the Initiate Tag is the tag of the other
/// direction from now on.
fn begin_own_and_tag_other(own: &mut SctpWay, other: &mut SctpWay, init: Init)
    ensures own { own.new ≡ record own.old { flow = begun_at_tsn own.old.flow init.initial_tsn } }
    ensures other { other.new ≡ record other.old { tag = Some init.initiate_tag } }
{
    own.begin_association(init.initial_tsn);
    other.set_verification_tag(Some(init.initiate_tag));
}

/// Takes an INIT, in a packet with this tag: a new association begins, but for a tag other than 0, or where the INIT is
/// that of the association, sent again.
fn take_init(own: &mut SctpWay, other: &mut SctpWay, ended: &mut bool, init: Init, tag: u32)
    ensures { record { own = own.new; other = other.new; ended = ended.new }
        ≡ after_init init tag (record { own = own.old; other = other.old; ended = ended.old }) }
{
    if tag != 0 || is_repeated_init(other, *ended, init) {
        return;
    }
    own.set_verification_tag(None);
    other.leave_association();
    begin_own_and_tag_other(own, other, init);
    *ended = false;
}

/// Takes an INIT ACK, in a packet with this tag: the first that comes counts, and a later one begins nothing. One that
/// isn't of the association changes nothing (RFC 9260, 5.1 and 5.2.3).
fn take_init_ack_if_first(own: &mut SctpWay, other: &mut SctpWay, ended: bool, init: Init, tag: u32)
    ensures { record { own = own.new; other = other.new; ended = ended }
        ≡ after_answer init tag (record { own = own.old; other = other.old; ended = ended }) }
{
    if !may_be_tag_of_association(own.verification_tag(), ended, tag) {
        return;
    }
    own.set_verification_tag(Some(tag));
    if other.verification_tag().is_none() {
        begin_own_and_tag_other(own, other, init);
    }
}

/// The Verification Tag of a packet with an ABORT or a SHUTDOWN COMPLETE, where it is of the association: with the T
/// bit, `reflected`, that of the other direction; None where it isn't known (RFC 9260, 8.5.1).
fn expected_tag_of_ending_packet(own: &SctpWay, other: &SctpWay, reflected: bool) -> Option<u32>
    ensures { result ≡ ending_tag reflected own.now other.now }
{
    if reflected {
        other.verification_tag()
    } else {
        own.verification_tag()
    }
}

/// Takes an ABORT or a SHUTDOWN COMPLETE, in a packet with this tag: both directions end, if it is of the association.
fn take_abort_or_shutdown_complete(
    own: &mut SctpWay,
    other: &mut SctpWay,
    ended: &mut bool,
    reflected: bool,
    tag: u32,
)
    ensures { record { own = own.new; other = other.new; ended = ended.new }
        ≡ after_ending reflected tag (record { own = own.old; other = other.old; ended = ended.old }) }
{
    if !may_be_tag_of_association(
        expected_tag_of_ending_packet(own, other, reflected),
        *ended,
        tag,
    ) {
        return;
    }
    own.leave_association();
    other.leave_association();
    *ended = true;
}

/// Takes the DATA chunks of a packet, and its tag; one that isn't of the association changes nothing.
fn take_data_and_tag(
    own: &mut SctpWay,
    ended: bool,
    packet: SctpPacket<'_>,
) -> Result<(), AllocError>
    ensures taken { OnOk result (TakesCarried own.old ended (sctp_seen packet.entry) own.new) }
    ensures left { OnErr result (LeavesCarried own.old ended (sctp_seen packet.entry) own.new) }
{
    if !may_be_tag_of_association(own.verification_tag(), ended, packet.verification_tag) {
        return Ok(());
    }
    own.set_verification_tag(Some(packet.verification_tag));
    own.take_data_chunks(packet.chunks)
}

/// Takes a packet of the direction `own`, which may begin or end the association, or carry DATA chunks.
pub(crate) fn take_packet_in_direction(
    own: &mut SctpWay,
    other: &mut SctpWay,
    ended: &mut bool,
    packet: SctpPacket<'_>,
) -> Result<(), AllocError>
    ensures heard { OnOk result (HearsPacket (record { own = own.old; other = other.old; ended = ended.old })
        (sctp_seen packet.entry) (record { own = own.new; other = other.new; ended = ended.new })) }
    ensures left { OnErr result (LeavesPacket (record { own = own.old; other = other.old; ended = ended.old })
        (sctp_seen packet.entry) (record { own = own.new; other = other.new; ended = ended.new })) }
{
    let tag = packet.verification_tag;
    match read_front_chunk(packet.chunks) {
        Front::Begins(init) => take_init(own, other, ended, init, tag),
        Front::Answers(init) => take_init_ack_if_first(own, other, *ended, init, tag),
        Front::Ends(reflected) => take_abort_or_shutdown_complete(
            own, other, ended, reflected, tag,
        ),
        Front::Carries => return take_data_and_tag(own, *ended, packet),
    }
    Ok(())
}
