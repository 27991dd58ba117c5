//! Which connections are looked at, and how their times are said.
use crate::packets::Row;
use crate::told::{AMPLE, assert_said, looks};
use dm_connections::Choice;
use dm_trace_view::{Looks, Times};
use dm_view_lines::Task;

/// A watchdog request without AVPs.
const REQUEST: &str = "0100001480000118000000000000001200000023";

/// A Capabilities-Exchange-Request without AVPs.
const EXCHANGE: &str = "0100001480000101000000000000001100000022";

/// A connection of other ports, one of Diameter's port, and one of other ports that begins with no exchange.
const ROWS: [Row; 5] = [
    (1, 1_000, 2_000, "S", 99, ""),
    (2, 1_000, 2_000, "", 100, EXCHANGE),
    (3, 2_000, 1_000, "", 500, REQUEST),
    (4, 41_000, 3868, "", 100, REQUEST),
    (5, 1_001, 2_000, "", 100, REQUEST),
];

#[test]
fn any_that_begins_with_an_exchange(rt: HostRuntime) {
    let any = Looks {
        choice: Choice::Any,
        ..looks(AMPLE)
    };
    let want = (
        "1: 2026-11-23T02:15:00.000002Z 10.0.0.1:1000 > 10.0.0.1:2000 tcp packet 2\nCER 257 request, application 0, hop-by-hop 17 (0x00000011), end-to-end 34 (0x00000022)\n2: 2026-11-23T02:15:00.000003Z 10.0.0.1:2000 > 10.0.0.1:1000 tcp packet 3\nDWR 280 request, application 0, hop-by-hop 18 (0x00000012), end-to-end 35 (0x00000023)\n",
        true,
    );
    assert_said(&rt, Task::Show, any, &ROWS, "", want);
}

#[test]
fn diameters_port(rt: HostRuntime) {
    let want = (
        "1: 2026-11-23T02:15:00.000004Z 10.0.0.1:41000 > 10.0.0.2:3868 tcp packet 4\nDWR 280 request, application 0, hop-by-hop 18 (0x00000012), end-to-end 35 (0x00000023)\n",
        true,
    );
    assert_said(&rt, Task::Show, looks(AMPLE), &ROWS, "", want);
}

/// They are counted from the first packet on, though its connection isn't looked at.
#[test]
fn relative_times(rt: HostRuntime) {
    let relative = Looks {
        times: Times::Relative,
        ..looks(AMPLE)
    };
    let want = (
        "1: 0.000003000 10.0.0.1:41000 > 10.0.0.2:3868 tcp packet 4\nDWR 280 request, application 0, hop-by-hop 18 (0x00000012), end-to-end 35 (0x00000023)\n",
        true,
    );
    assert_said(&rt, Task::Show, relative, &ROWS, "", want);
}
