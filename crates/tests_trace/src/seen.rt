//! What stands before what is said of a message, as text and in JSON.
use crate::told::{assert_fronts, assert_objects, decimal, end_of_4, end_of_6};
use dm_capture::{Resolution, Time};
use dm_trace::{Clock, Seen, Transport};

/// A message over TCP, in a packet with a time.
fn request() -> Seen {
    Seen {
        time: decimal(1795400100, 6, 123456),
        from: end_of_4(0x0a000001, 41234),
        to: end_of_6(0x20010db8_00000000_00000000_00000001, 3868),
        transport: Transport::Tcp,
        packet: 17,
    }
}

/// A message over SCTP, in a packet without a time.
fn untimed() -> Seen {
    Seen {
        time: None,
        from: end_of_6(1, 3868),
        to: end_of_4(0x7f000001, 1),
        transport: Transport::Sctp,
        packet: u64::MAX,
    }
}

/// Since a second before the request's.
fn since() -> Clock {
    Clock::Since(Time {
        seconds: 1795400099,
        fraction: 0,
        resolution: Resolution::Decimal(0),
    })
}

#[test]
fn fronts_of_messages(rt: HostRuntime) {
    assert_fronts(
        &rt,
        &[
            (
                Clock::Utc,
                request(),
                "2026-11-23T02:15:00.123456Z 10.0.0.1:41234 > [2001:db8::1]:3868 tcp packet 17",
            ),
            (
                since(),
                request(),
                "1.123456000 10.0.0.1:41234 > [2001:db8::1]:3868 tcp packet 17",
            ),
            (
                Clock::Utc,
                untimed(),
                "- [::1]:3868 > 127.0.0.1:1 sctp packet 18446744073709551615",
            ),
        ],
    );
}

#[test]
fn fronts_in_json(rt: HostRuntime) {
    assert_objects(
        &rt,
        &[
            (
                Clock::Utc,
                request(),
                "{\"time\":\"2026-11-23T02:15:00.123456Z\",\"from\":\"10.0.0.1:41234\",\"to\":\"[2001:db8::1]:3868\",\"transport\":\"tcp\",\"packet\":17}\n",
            ),
            (
                since(),
                request(),
                "{\"time\":\"1.123456000\",\"from\":\"10.0.0.1:41234\",\"to\":\"[2001:db8::1]:3868\",\"transport\":\"tcp\",\"packet\":17}\n",
            ),
            (
                since(),
                untimed(),
                "{\"from\":\"[::1]:3868\",\"to\":\"127.0.0.1:1\",\"transport\":\"sctp\",\"packet\":18446744073709551615}\n",
            ),
        ],
    );
}
