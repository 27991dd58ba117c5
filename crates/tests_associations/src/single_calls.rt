//! Calls one by one: associations that are added, asked for, and held up to limits.
use crate::packets::{Chunks, end, octets_of, packet_of};
use crate::told::none_held;
use dm_associations::Associations;
use dm_connections::{Ends, Limits};
use std::alloc::{AllocError, Global};

fn ends_of(first: u16, second: u16) -> Ends {
    Ends {
        first: end(first),
        second: end(second),
    }
}

/// Two associations, of which the second one holds a message of 3 octets and 2 octets of another one.
fn two_added(alloc: Global, associations: &mut Associations) -> Result<(), AllocError> {
    associations.add_unless_held(ends_of(1, 3868))?;
    associations.add_unless_held(ends_of(2, 3868))?;
    let whole = octets_of(alloc, Chunks::Data(10, "BE", 46, "abc"))?;
    let heard = associations.take_if_held_in_this_order(
        ends_of(2, 3868),
        packet_of(2, 3868, 9, &whole),
    );
    drop(whole);
    heard?;
    let part = octets_of(alloc, Chunks::Data(11, "B", 46, "de"))?;
    let heard = associations.take_if_held_in_this_order(
        ends_of(2, 3868),
        packet_of(2, 3868, 9, &part),
    );
    drop(part);
    heard
}

fn past(associations: &Associations, most: usize, octets: u64) -> bool {
    associations.exceeds(Limits {
        connections: most,
        octets,
    })
}

fn held_of(associations: &Associations, ends: Ends) -> u64 {
    match associations.get(ends) {
        Some(association) => association.octets_held_both_ways(),
        None => 0,
    }
}

#[test]
fn limits_on_both_sides(rt: HostRuntime) {
    let mut associations = none_held(&rt);
    two_added(rt.alloc(), &mut associations).expect(&rt, "memory");
    let within = !past(&associations, 2, 5);
    let beyond = past(&associations, 1, 5) && past(&associations, 2, 4);
    drop(associations);
    assert!(rt; within && beyond);
}

#[test]
fn asked_for_where_none_is_held(rt: HostRuntime) {
    let mut associations = none_held(&rt);
    two_added(rt.alloc(), &mut associations).expect(&rt, "memory");
    let none = associations
        .octets_passed_over_of(ends_of(3868, 2))
        .is_none();
    let passed = associations.octets_passed_over_of(ends_of(2, 3868)) == Some(0);
    let found = associations.find_held_ends(end(3868), end(2)) == Some(ends_of(2, 3868))
        && associations.get(ends_of(3868, 2)).is_none()
        && held_of(&associations, ends_of(2, 3868)) == 5;
    let message = associations
        .next_message_of(ends_of(3, 3868), true)
        .expect(&rt, "memory");
    let is_none = message.is_none();
    drop(message);
    drop(associations);
    assert!(rt; none && passed && found && is_none);
}
