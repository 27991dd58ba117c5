//! Calls one by one: connections that are added, asked for, and held up to limits.
use crate::messages::stream_of;
use crate::told::{end, none_held, segment_of};
use dm_connections::{Connections, Ends, Limits, MAX_CONNECTIONS, MAX_HELD};
use std::alloc::{AllocError, Global};

fn ends_of(first: u16, second: u16) -> Ends {
    Ends {
        first: end(first),
        second: end(second),
    }
}

/// Two connections, of which the second one holds 60 octets.
fn two_added(alloc: Global, connections: &mut Connections) -> Result<(), AllocError> {
    let stream = stream_of(alloc, 10)?;
    let syn = segment_of(&(2, 3868, "S", 99, 0, 0, ""), &stream);
    let behind = segment_of(&(2, 3868, "", 140, 40, 60, ""), &stream);
    connections.add_unless_held(ends_of(1, 3868))?;
    connections.add_unless_held(ends_of(2, 3868))?;
    connections.take_if_held_in_this_order(ends_of(2, 3868), syn)?;
    connections.take_if_held_in_this_order(ends_of(2, 3868), behind)
}

fn past(connections: &Connections, most: usize, octets: u64) -> bool {
    connections.exceeds(Limits {
        connections: most,
        octets,
    })
}

#[test]
fn limits_on_both_sides(rt: HostRuntime) {
    let mut connections = none_held(&rt);
    two_added(rt.alloc(), &mut connections).expect(&rt, "memory");
    let within = !past(&connections, 2, 60) && !past(&connections, MAX_CONNECTIONS, MAX_HELD);
    let beyond = past(&connections, 1, 60) && past(&connections, 2, 59);
    drop(connections);
    assert!(rt; within && beyond);
}

#[test]
fn limits_of_captures(rt: HostRuntime) {
    assert!(rt; MAX_CONNECTIONS == 65_536 && MAX_HELD == 64 * 1024 * 1024);
}

#[test]
fn added_once_in_either_order(rt: HostRuntime) {
    let mut connections = none_held(&rt);
    two_added(rt.alloc(), &mut connections).expect(&rt, "memory");
    connections
        .add_unless_held(ends_of(3868, 2))
        .expect(&rt, "memory");
    connections
        .add_unless_held(ends_of(2, 3868))
        .expect(&rt, "memory");
    let (len, held) = (connections.len(), connections.total_octets_held());
    let found = connections.find_held_ends(end(3868), end(2)) == Some(ends_of(2, 3868))
        && connections.find_held_ends(end(1), end(2)).is_none();
    drop(connections);
    assert!(rt; len == 2 && held == 60 && found);
}

#[test]
fn asked_for_where_none_is_held(rt: HostRuntime) {
    let mut connections = none_held(&rt);
    two_added(rt.alloc(), &mut connections).expect(&rt, "memory");
    let none = connections
        .octets_passed_over_of(ends_of(3868, 2))
        .is_none();
    let passed = connections.octets_passed_over_of(ends_of(2, 3868)) == Some(0);
    let message = connections
        .next_message_of(ends_of(3, 3868), true)
        .expect(&rt, "memory");
    let is_none = message.is_none();
    drop(message);
    drop(connections);
    assert!(rt; none && passed && is_none);
}
