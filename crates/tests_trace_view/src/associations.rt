//! Messages of an association of SCTP.
use crate::told::{AMPLE, assert_said, looks};
use dm_view_lines::Task;

/// A watchdog request in a DATA chunk from 10.0.0.1:41000 to 10.0.0.2:3868 (RFC 9260, 3.3.1), its answer in two
/// fragments, and another request with a Verification Tag of no association.
const PACKETS: &str = "\
    6b03a1a40000000100000044000000444500004400000000408400000a0000010a000002a0280f1c000000aa000000000003\
    002400000001000000000000002e0100001480000118000000000000001200000023\
    6b03a1a4000000020000003c0000003c4500003c00000000408400000a0000020a0000010f1ca028000000bb000000000002\
    001c00000007000000000000002e010000140000011800000000\
    6b03a1a40000000300000038000000384500003800000000408400000a0000020a0000010f1ca028000000bb000000000001\
    001800000008000000000000002e0000001200000023\
    6b03a1a40000000400000044000000444500004400000000408400000a0000010a000002a0280f1c000000cc000000000003\
    002400000002000000000000002e0100001480000118000000000000001200000023";

#[test]
fn both_ends(rt: HostRuntime) {
    let want = (
        "1: 2026-11-23T02:15:00.000001Z 10.0.0.1:41000 > 10.0.0.2:3868 sctp packet 1\nDWR 280 request, application 0, hop-by-hop 18 (0x00000012), end-to-end 35 (0x00000023)\n2: 2026-11-23T02:15:00.000003Z 10.0.0.2:3868 > 10.0.0.1:41000 sctp packet 3\nDWA 280 answer, application 0, hop-by-hop 18 (0x00000012), end-to-end 35 (0x00000023)\n",
        true,
    );
    assert_said(&rt, Task::Show, looks(AMPLE), &[], PACKETS, want);
}

/// Two packets of Diameter over DTLS (RFC 6733, 11.5) from 10.0.0.1:41000, of 4 octets each, and one back, of 8.
const SECURED: &str = "\
    6b03a1a400000001000000340000003445000034000000004084\
    00000a0000010a000002a0280f1c000000aa00000000000300140000000100000000\
    0000002f16feff006b03a1a400000002000000340000003445000034000000004084\
    00000a0000010a000002a0280f1c000000aa00000000000300140000000200000000\
    0000002f17feff006b03a1a400000003000000380000003845000038000000004084\
    00000a0000020a0000010f1ca028000000bb00000000000300180000000700000000\
    0000002f16feff0017feff00";

#[test]
fn secured_octets(rt: HostRuntime) {
    let want = (
        "packet 1 10.0.0.1:41000 > 10.0.0.2:3868: DTLS begins, 4 octets unread\n1 connections, 0 messages, 0 good, 0 bad, 0 octets passed over, 16 octets of DTLS, 0 fragments, 0 cut packets\n",
        true,
    );
    assert_said(&rt, Task::Check, looks(AMPLE), &[], SECURED, want);
}

#[test]
fn secured_octets_in_json(rt: HostRuntime) {
    let want = (
        "{\"packet\":1,\"from\":\"10.0.0.1:41000\",\"to\":\"10.0.0.2:3868\",\"secured\":4}\n{\"connections\":1,\"messages\":0,\"good\":0,\"bad\":0,\"passed\":0,\"secured\":16,\"fragments\":0,\"cut\":0}\n",
        true,
    );
    assert_said(&rt, Task::CheckJson, looks(AMPLE), &[], SECURED, want);
}
