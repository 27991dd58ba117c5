//! Octets in front of which a header may stand, and those beside them.
use dm_flows::{begins_with_exchange_request, begins_with_whole_header};

/// A Capabilities-Exchange-Request's header.
const EXCHANGE: [u8; 20] = [
    1, 0, 0, 20, 128, 0, 1, 1, 0, 0, 0, 0, 0, 0, 0, 7, 0, 0, 0, 9,
];

/// What may stand in front.
#[derive(Clone, Copy, PartialEq, Eq)]
enum Front {
    Nothing,
    Header,
    Exchange,
}

use Front::{Exchange, Header, Nothing};

fn front_of(octets: &[u8]) -> Front {
    if begins_with_exchange_request(octets) {
        Exchange
    } else if begins_with_whole_header(octets) {
        Header
    } else {
        Nothing
    }
}

/// What may stand in front where that header has another octet in one place.
fn told(place: usize, octet: u8) -> Front {
    let mut octets = EXCHANGE;
    if place < octets.len() {
        octets[place] = octet;
    }
    front_of(&octets)
}

#[test]
fn headers(rt: HostRuntime) {
    assert!(rt; front_of(&EXCHANGE) == Exchange);
    // An octet is missing.
    assert!(rt; front_of(&EXCHANGE[..19]) == Nothing);
    // The version.
    assert!(rt; told(0, 0) == Nothing);
    assert!(rt; told(0, 2) == Nothing);
    // The Message Length: below 20, no multiple of 4, and others.
    assert!(rt; told(3, 16) == Nothing);
    assert!(rt; told(3, 22) == Nothing);
    assert!(rt; told(3, 24) == Exchange);
    assert!(rt; told(1, 255) == Exchange);
    // Flags: a reserved one, all others, and no R.
    assert!(rt; told(4, 136) == Nothing);
    assert!(rt; told(4, 129) == Nothing);
    assert!(rt; told(4, 240) == Exchange);
    assert!(rt; told(4, 112) == Header);
    // Another command, another application.
    assert!(rt; told(7, 24) == Header);
    assert!(rt; told(5, 1) == Header);
    assert!(rt; told(11, 4) == Header);
}
