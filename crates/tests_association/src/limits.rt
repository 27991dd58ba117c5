//! How far a chunk may be, and how much may wait.
use crate::flows::{chunk_of, push_message};
use dm_association::SctpFlow;
use std::alloc::{AllocError, Global};
use std::process::Abort;

/// The messages of chunks of one octet each, which are whole messages with these TSNs, where an association begins with
/// the first of them.
fn told(alloc: Global, tsns: &[u32]) -> Result<Vec<u8>, AllocError> {
    let mut flow = SctpFlow::new(alloc);
    let mut text = Vec::new(alloc);
    for index in 0..tsns.len() {
        push_message(
            &mut flow,
            &mut text,
            chunk_of(tsns[index], "BE", 0, 46, b"m"),
        )?;
        text.push(b'|')?;
    }
    drop(flow);
    Ok(text)
}

fn assert_told(rt: &(impl Abort + AllocGlobal), tsns: &[u32], want: &str) {
    let text = told(rt.alloc(), tsns).expect(rt, "memory");
    assert!(rt;
        text.as_slice() == want.as_bytes(),
        "{text:?} in place of {want}"
    );
    drop(text);
}

#[test]
fn ahead(rt: HostRuntime) {
    // Behind the first one 101 is wanted. One that is 1,023 ahead leaves it wanted, and then one that is 1,023 behind
    // that.
    assert_told(&rt, &[100, 1_124, 2_148, 101], "m|m|m|m|");
    // One that is 1,024 ahead leaves the association.
    assert_told(&rt, &[100, 1_125, 101], "m|m||");
}

#[test]
fn before(rt: HostRuntime) {
    // 65,536 before the one that is wanted is a repetition, and further before another association.
    assert_told(&rt, &[99_999, 34_464], "m||");
    assert_told(&rt, &[99_999, 34_463], "m|m|");
}

/// Fragments of 65,536 octets, as many as are told, and then one of so many octets; and how many octets wait and were
/// passed over then.
fn told_of_large(alloc: Global, count: u32, last: usize) -> Result<(usize, u64), AllocError> {
    let mut flow = SctpFlow::new(alloc);
    let mut text = Vec::new(alloc);
    let mut octets = Vec::new(alloc);
    octets.resize(65_536, 7)?;
    flow.begin_association(0);
    for tsn in 0..count {
        push_message(&mut flow, &mut text, chunk_of(tsn, "B", 0, 46, &octets))?;
    }
    if last <= octets.len() {
        push_message(
            &mut flow,
            &mut text,
            chunk_of(count, "B", 0, 46, &octets[..last]),
        )?;
    }
    let told = (flow.octets_waiting(), flow.octets_passed_over());
    drop(octets);
    drop(text);
    drop(flow);
    Ok(told)
}

#[test]
fn waiting(rt: HostRuntime) {
    let all = told_of_large(rt.alloc(), 15, 65_536).expect(&rt, "memory");
    assert!(rt; all.0 == 1_048_576 && all.1 == 0);
    let more = told_of_large(rt.alloc(), 16, 1).expect(&rt, "memory");
    assert!(rt; more.0 == 1 && more.1 == 1_048_576);
}
