//! The rows again, with each message delivered octet by octet.
use super::rows::{
    BOTH_START, CROSSED_OPEN, CUT_ANSWER, ELECT_BEFORE_ACK, ONE_SIDE_STARTS, RESTART_FRESH_END,
    STOPS, SUBMIT_BETWEEN, TICKS, WINNER_FIRST,
};
use dm_replay::{read_script, trace};
use dm_world::{Conn, Effect, Happening, Side, World};
use std::alloc::Global;

/// Octets of the messages of these rows.
const CER: u32 = 112;

const CEA: u32 = 124;

const DPR: u32 = 68;

const DPA: u32 = 68;

const SUBMITTED: u32 = 20;

/// In the place of a size, where the disconnect is delivered, or nothing.
const NONE: u32 = 0;

/// So many octets towards the side, one by one. The last one's effect.
fn one_by_one(
    alloc: Global,
    world: &mut World,
    conn: Conn,
    side: Side,
    size: u32,
) -> Option<Effect> {
    let mut effect = None;
    for _ in 0..size {
        effect = world.apply(alloc, &Happening::Piece(conn, side, 1)).ok();
        if effect != Some(Effect::Done) {
            return None;
        }
    }
    effect
}

/// What the happenings of a script tell, line by line, each delivery of a message octet by octet: the sizes are those
/// of the deliveries, in order.
fn told_in_pieces(alloc: Global, input: &str, sizes: &[u32]) -> Option<Vec<u8>> {
    let script = read_script(alloc, input.as_bytes()).ok()??;
    let mut world = World::new(alloc, script.left, script.right).ok()?;
    let mut text = Vec::new(alloc);
    let mut good = true;
    let mut left = sizes;
    for (index, happening) in script.list.as_slice().iter().enumerate() {
        let effect = match (happening, left) {
            (Happening::Deliver(conn, side), [size, more @ ..]) => {
                left = more;
                if *size == NONE {
                    world.apply(alloc, happening).ok()
                } else {
                    one_by_one(alloc, &mut world, *conn, *side, *size)
                }
            }
            _ => world.apply(alloc, happening).ok(),
        };
        let told = match effect {
            Some(effect) => trace(alloc, index + 1, effect, &world).ok(),
            None => None,
        };
        good = good
            && match told {
                Some(line) => text.extend_from_slice(line.as_slice()).is_ok(),
                None => false,
            };
    }
    drop(world);
    if good { Some(text) } else { None }
}

/// Whether the lines are those of the row, before its last.
fn is_told_in_pieces(alloc: Global, row: &(&str, &str, bool), sizes: &[u32]) -> bool {
    match told_in_pieces(alloc, row.0, sizes) {
        Some(text) => row.1.as_bytes().starts_with(text.as_slice()) && !text.is_empty(),
        None => false,
    }
}

#[test]
fn rows_in_pieces(rt: HostRuntime) {
    let rows: &[((&str, &str, bool), &[u32])] = &[
        (ONE_SIDE_STARTS, &[CER, CEA]),
        (BOTH_START, &[CER, CER, CEA, NONE, NONE]),
        (CROSSED_OPEN, &[CER, CER, NONE, NONE]),
        (CUT_ANSWER, &[CER, NONE, NONE]),
        (STOPS, &[CER, CEA, DPR, DPR, DPA, DPA, NONE, NONE]),
        (TICKS, &[CER, CEA]),
        (RESTART_FRESH_END, &[NONE, CER, NONE]),
        (SUBMIT_BETWEEN, &[CER, CEA, SUBMITTED]),
        (WINNER_FIRST, &[CER, CEA, CER, NONE, NONE]),
        (ELECT_BEFORE_ACK, &[CER, CER, CEA, NONE, NONE]),
    ];
    for (row, sizes) in rows {
        assert!(&rt; is_told_in_pieces(rt.alloc(), row, sizes), "of {}", row.0);
    }
}
