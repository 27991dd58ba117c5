//! Octets by number: in order, out of order, sent again, and numbers that begin anew.
use dm_flows::{WINDOW, Window, WindowFault};
use std::alloc::Global;
use std::process::Abort;

/// What is handed out of these octets, each with its sequence number, behind each of them; `!` where they are too far.
fn handed(alloc: Global, next: u32, arrivals: &[(u32, &str)]) -> Option<Vec<u8>> {
    let mut window = Window::new(alloc, next);
    let mut output = Vec::new(alloc);
    let mut done = true;
    for (sequence, octets) in arrivals {
        done = done && push_handed(&mut window, &mut output, *sequence, octets);
    }
    drop(window);
    if done { Some(output) } else { None }
}

/// Appends what is handed out behind these octets. False where memory is wanted.
fn push_handed(window: &mut Window, output: &mut Vec<u8>, sequence: u32, octets: &str) -> bool {
    let took = match window.take_octets(sequence, octets.as_bytes()) {
        Ok(()) => window.hand_out_octets(output).is_ok(),
        Err(WindowFault::TooFar) => output.push(b'!').is_ok(),
        Err(WindowFault::NoMemory) => false,
    };
    took && output.push(b'|').is_ok()
}

fn assert_handed(rt: &(impl Abort + AllocGlobal), next: u32, arrivals: &[(u32, &str)], want: &str) {
    let output = handed(rt.alloc(), next, arrivals).expect(rt, "memory");
    assert!(rt;
        output.as_slice() == want.as_bytes(),
        "from {next}: {output:?}"
    );
    drop(output);
}

#[test]
fn octets_in_order(rt: HostRuntime) {
    assert_handed(
        &rt,
        100,
        &[(100, "abc"), (103, "d"), (104, ""), (104, "ef")],
        "abc|d||ef|",
    );
}

#[test]
fn octets_out_of_order(rt: HostRuntime) {
    assert_handed(
        &rt,
        100,
        &[
            (106, "gh"),
            (103, "def"),
            (109, "j"),
            (100, "abc"),
            (108, "i"),
        ],
        "|||abcdefgh|ij|",
    );
}

#[test]
fn octets_sent_again(rt: HostRuntime) {
    assert_handed(
        &rt,
        100,
        &[
            (100, "abc"),
            (100, "abc"),
            (98, "xyabcd"),
            (101, "XXXef"),
            (106, "g"),
        ],
        "abc||d|ef|g|",
    );
}

#[test]
fn first_octets_count(rt: HostRuntime) {
    assert_handed(
        &rt,
        100,
        &[(102, "cd"), (101, "BCDE"), (103, "___F"), (100, "a__")],
        "|||aBcdE_F|",
    );
}

#[test]
fn numbers_begin_anew(rt: HostRuntime) {
    assert_handed(
        &rt,
        4_294_967_294,
        &[
            (1, "de"),
            (4_294_967_290, "wxyzab"),
            (4_294_967_295, "bc"),
            (0, "_cdef"),
        ],
        "|ab|cde|ef|",
    );
}

#[test]
fn far_ahead(rt: HostRuntime) {
    let last = WINDOW as u32 - 1;
    assert_handed(
        &rt,
        7,
        &[
            (7 + last, "y"),
            (8 + last, "z"),
            (6 + last, "xyz"),
            (9 + last, ""),
            (7, "a"),
        ],
        "|!|!||a|",
    );
}

#[test]
fn half_ahead_and_behind(rt: HostRuntime) {
    assert_handed(
        &rt,
        5,
        &[(2_147_483_652, "x"), (2_147_483_653, "x"), (5, "a")],
        "!||a|",
    );
}
