//! Worlds by their own calls: how many happenings are done, of which kind, and what stands at the end.
use super::rows::{
    BOTH_START_SCRIPT, ELECT_BEFORE_ACK_SCRIPT, ONE_SIDE_STARTS_SCRIPT, WINNER_FIRST_SCRIPT,
};
use dm_replay::{Script, read_script};
use dm_world::{Config, Effect, Happening, NewFault, Side, World, WorldFault};
use std::alloc::Global;
use std::process::Abort;

/// How many happenings of each kind were done.
#[derive(Clone, Copy, PartialEq)]
struct Tally {
    starts: u64,
    acks: u64,
    first_to_a: u64,
    first_to_b: u64,
    second_to_a: u64,
    second_to_b: u64,
}

const NONE: Tally = Tally {
    starts: 0,
    acks: 0,
    first_to_a: 0,
    first_to_b: 0,
    second_to_a: 0,
    second_to_b: 0,
};

/// One side's CER comes on the link, and the other side's CEA: four happenings.
const ONE_STARTED: Tally = Tally {
    starts: 1,
    acks: 1,
    first_to_a: 1,
    first_to_b: 1,
    second_to_a: 0,
    second_to_b: 0,
};

/// The link that A opened falls: its CER and A's disconnect come to B, and B's disconnect to A. On the link that stays
/// a CER comes to A, and the CEA to B: nine happenings, with two CERs, one CEA and two disconnects.
const BOTH_STARTED: Tally = Tally {
    starts: 2,
    acks: 2,
    first_to_a: 1,
    first_to_b: 2,
    second_to_a: 1,
    second_to_b: 1,
};

/// The same where B opened the link that falls.
const BOTH_STARTED_B_FIRST: Tally = Tally {
    starts: 2,
    acks: 2,
    first_to_a: 2,
    first_to_b: 1,
    second_to_a: 1,
    second_to_b: 1,
};

/// One more of the happening's kind.
fn count(tally: &mut Tally, happening: &Happening) {
    match happening {
        Happening::Start(_) => tally.starts = tally.starts.wrapping_add(1),
        Happening::Ack(_) => tally.acks = tally.acks.wrapping_add(1),
        Happening::Deliver(link, side) => match (link.0, side) {
            (0, Side::A) => tally.first_to_a = tally.first_to_a.wrapping_add(1),
            (0, Side::B) => tally.first_to_b = tally.first_to_b.wrapping_add(1),
            (_, Side::A) => tally.second_to_a = tally.second_to_a.wrapping_add(1),
            (_, Side::B) => tally.second_to_b = tally.second_to_b.wrapping_add(1),
        },
        _ => {}
    }
}

/// The happenings, one after the other. One that names a link that isn't there yet is passed over. Whether memory was
/// at hand.
fn go_through(alloc: Global, world: &mut World, list: &[Happening], tally: &mut Tally) -> bool {
    for happening in list {
        match world.apply(alloc, happening) {
            Ok(Effect::Done) => count(tally, happening),
            Ok(Effect::Ignored) | Err(WorldFault::NoLink) => {}
            Err(WorldFault::NoMemory) => return false,
        }
    }
    true
}

/// How the happenings of a script are applied.
#[derive(Clone, Copy)]
enum Way {
    /// By one call of `run`.
    Run,
    /// One by one, gone through so often.
    Apply(u32),
}

/// What came of that.
#[derive(Clone, Copy, PartialEq)]
enum Came {
    /// What `run` answered.
    Ran(usize, Option<WorldFault>),
    /// What was done.
    Done(Tally),
    /// Memory was wanted.
    Nothing,
}

/// What came of the happenings, whether both sides agree and nothing is under way, and the link on which both are open.
type End = (Came, bool, Option<u64>);

fn done(alloc: Global, world: &mut World, list: &[Happening], times: u32) -> Came {
    let mut tally = NONE;
    for _ in 0..times {
        if !go_through(alloc, world, list, &mut tally) {
            return Came::Nothing;
        }
    }
    Came::Done(tally)
}

fn come(alloc: Global, world: &mut World, list: &[Happening], way: Way) -> Came {
    match way {
        Way::Run => {
            let (count, fault) = world.run(alloc, list);
            Came::Ran(count, fault)
        }
        Way::Apply(times) => done(alloc, world, list, times),
    }
}

fn open_link(world: &World) -> Option<u64> {
    match world.open_link() {
        Some(conn) => Some(conn.0),
        None => None,
    }
}

/// What the world comes to.
fn end_of(alloc: Global, world: &mut World, list: &[Happening], way: Way) -> End {
    let came = come(alloc, world, list, way);
    let rests = world.agreed() && world.quiet();
    (came, rests, open_link(world))
}

fn script(rt: &(impl Abort + AllocGlobal), text: &str) -> Script {
    let read = read_script(rt.alloc(), text.as_bytes()).expect(rt, "memory");
    read.expect(rt, "a script")
}

fn world(rt: &(impl Abort + AllocGlobal), left: Config, right: Config) -> World {
    World::new(rt.alloc(), left, right).expect(rt, "a world")
}

/// What a world of these configurations comes to.
fn end_with(
    rt: &(impl Abort + AllocGlobal),
    left: Config,
    right: Config,
    list: &[Happening],
    way: Way,
) -> End {
    let mut world = world(rt, left, right);
    let end = end_of(rt.alloc(), &mut world, list, way);
    drop(world);
    end
}

/// What the script comes to.
fn end(rt: &(impl Abort + AllocGlobal), text: &str, way: Way) -> End {
    let Script { left, right, list } = script(rt, text);
    let end = end_with(rt, left, right, list.as_slice(), way);
    drop(list);
    end
}

/// Each script comes to this.
fn assert_ends(rt: &(impl Abort + AllocGlobal), rows: &[(&str, Way, End)]) {
    for (text, way, want) in rows {
        assert!(rt; end(rt, text, *way) == *want, "of {text}");
    }
}

/// Once through, each is quiet; and so often that nothing more can be delivered, nothing more is done.
const CLEAN_RUNS: [(&str, Way, End); 8] = [
    (
        ONE_SIDE_STARTS_SCRIPT,
        Way::Apply(1),
        (Came::Done(ONE_STARTED), true, Some(0)),
    ),
    (
        ONE_SIDE_STARTS_SCRIPT,
        Way::Apply(3),
        (Came::Done(ONE_STARTED), true, Some(0)),
    ),
    (
        BOTH_START_SCRIPT,
        Way::Apply(1),
        (Came::Done(BOTH_STARTED), true, Some(1)),
    ),
    (
        BOTH_START_SCRIPT,
        Way::Apply(3),
        (Came::Done(BOTH_STARTED), true, Some(1)),
    ),
    (
        WINNER_FIRST_SCRIPT,
        Way::Apply(1),
        (Came::Done(BOTH_STARTED), true, Some(1)),
    ),
    (
        WINNER_FIRST_SCRIPT,
        Way::Apply(3),
        (Came::Done(BOTH_STARTED), true, Some(1)),
    ),
    (
        ELECT_BEFORE_ACK_SCRIPT,
        Way::Apply(1),
        (Came::Done(BOTH_STARTED), true, Some(1)),
    ),
    (
        ELECT_BEFORE_ACK_SCRIPT,
        Way::Apply(3),
        (Came::Done(BOTH_STARTED), true, Some(1)),
    ),
];

#[test]
fn clean_runs(rt: HostRuntime) {
    assert_ends(&rt, &CLEAN_RUNS);
}

const TURNED: &str = "\
peer A B.example 4
peer B a.example 4
deliver 1 B
deliver 1 A
deliver 0 A
deliver 0 B
ack 1
ack 0
start A
start B
";

const B_FIRST: &str = "\
peer A a.example 4
peer B B.example 4
start B
start A
deliver 0 B
deliver 1 B
ack 0
deliver 1 A
ack 1
deliver 0 A
";

/// What happens in clean runs of any order: gone through often enough, all of it is done that ever can be.
const ORDERS: [(&str, Way, End); 4] = [
    (
        "peer A b.example 4\npeer B a.example 4\ndeliver 0 A\ndeliver 0 B\nack 0\nstart B\n",
        Way::Apply(5),
        (Came::Done(ONE_STARTED), true, Some(0)),
    ),
    (
        "peer A B.example 4\npeer B a.example 4\nstart A\nack 0\ndeliver 0 B\nstart B\ndeliver 0 A\nack 1\n",
        Way::Apply(5),
        (Came::Done(ONE_STARTED), true, Some(0)),
    ),
    (
        TURNED,
        Way::Apply(9),
        (Came::Done(BOTH_STARTED), true, Some(1)),
    ),
    (
        B_FIRST,
        Way::Apply(9),
        (Came::Done(BOTH_STARTED_B_FIRST), true, Some(1)),
    ),
];

#[test]
fn clean_runs_of_other_orders(rt: HostRuntime) {
    assert_ends(&rt, &ORDERS);
}

const RUNS: [(&str, Way, End); 2] = [
    (
        ONE_SIDE_STARTS_SCRIPT,
        Way::Run,
        (Came::Ran(4, None), true, Some(0)),
    ),
    (
        "peer A b.example 4\npeer B a.example 4\nstart A\nack 5\nack 0\n",
        Way::Run,
        (Came::Ran(1, Some(WorldFault::NoLink)), false, None),
    ),
];

#[test]
fn runs(rt: HostRuntime) {
    assert_ends(&rt, &RUNS);
}

fn left_of(script: Script) -> Config {
    script.left
}

fn right_of(script: Script) -> Config {
    script.right
}

/// Why there is no world of the first script's A and the second one's B.
fn refusal(rt: &(impl Abort + AllocGlobal), left: &str, right: &str) -> Option<NewFault> {
    let left = left_of(script(rt, left));
    let right = right_of(script(rt, right));
    World::new(rt.alloc(), left, right).err()
}

const WITH_B: &str = "peer A a.example 4\npeer B b.example 4\n";

const WITH_C: &str = "peer A a.example 4\npeer B c.example 4\n";

const WITH_5: &str = "peer A a.example 4\npeer B B.EXAMPLE 5\n";

const REFUSALS: [(&str, &str, Option<NewFault>); 5] = [
    (WITH_C, WITH_B, Some(NewFault::NotPeers)),
    (WITH_B, WITH_C, Some(NewFault::NotPeers)),
    (WITH_C, WITH_5, Some(NewFault::NotPeers)),
    (WITH_B, WITH_5, Some(NewFault::NothingCommon)),
    (WITH_B, WITH_B, None),
];

#[test]
fn world_refusals(rt: HostRuntime) {
    for (left, right, want) in REFUSALS {
        assert!(&rt; refusal(&rt, left, right) == want, "of {left} and {right}");
    }
}
