//! Scripts read, and their happenings told.
use crate::each::each_made;
use dm_dict::NoMemory;
use dm_refusal::Making;
use dm_replay::{HappeningList, Script, ScriptFault, read_script, replay_text, trace};
use dm_world::{Effect, World};
use std::alloc::Global;
use std::process::Abort;

/// One side starts; both start; both start and a disconnect comes to each; the answer is cut; both stop; ticks; a side
/// starts anew; pieces; a message is submitted; a message stays behind a piece of it.
pub const SCRIPTS: [&str; 10] = [
    ONE_SIDE_STARTS,
    "peer A B.example 4\npeer B a.example 4\nstart A\nstart B\nack 0\nack 1\ndeliver 0 B\ndeliver 1 A\ndeliver 1 B\ndeliver 0 B\ndeliver 0 A\n",
    "peer A B.example 4\npeer B a.example 4\nstart A\nstart B\nack 0\nack 1\ndeliver 1 A\ntimeout B\ndeliver 0 B\ndeliver 0 B\ndeliver 1 A\n",
    "peer A b.example 4\npeer B a.example 4\nstart A\nack 0\ndeliver 0 B\nlose 0 50 0\ndeliver 0 A\ndeliver 0 B\n",
    "peer A b.example 4\npeer B a.example 4\nstart A\nack 0\ndeliver 0 B\ndeliver 0 A\nstop A 0\nstop B 0\ndeliver 0 A\ndeliver 0 B\ndeliver 0 B\ndeliver 0 A\ndeliver 0 A\ndeliver 0 B\n",
    "peer A b.example 4\npeer B a.example 4\nstart A\nack 0\ndeliver 0 B\ndeliver 0 A\ntick A\ntick A\ntick A\n",
    "peer A b.example 4\npeer B a.example 4\nstart A\nack 0\nrestart B\ndeliver 0 A\ndeliver 0 B\ndeliver 0 B\n",
    "peer A b.example 4\npeer B a.example 4\nstart A\nack 0\npiece 0 B 1\npiece 0 B 200\ndeliver 0 A\n",
    "peer A b.example 4\npeer B a.example 4\nstart A\nack 0\ndeliver 0 B\ndeliver 0 A\nsubmit A 010000148000012c000000000000000100000001\ndeliver 0 B\n",
    "peer A b.example 4\npeer B a.example 4\nstart A\nack 0\npiece 0 B 40\nlose 0 0 72\ndeliver 0 B\ndeliver 0 A\ndeliver 0 B\n",
];

const ONE_SIDE_STARTS: &str =
    "peer A b.example 4\npeer B a.example 4\nstart A\nack 0\ndeliver 0 B\ndeliver 0 A\n";

pub fn script(rt: &(impl Abort + AllocGlobal), text: &[u8]) -> Script {
    let read = read_script(rt.alloc(), text).expect(rt, "memory");
    read.expect(rt, "a script")
}

/// The world of the script, before anything happens.
pub fn world(rt: &(impl Abort + AllocGlobal), text: &str) -> World {
    let Script { left, right, list } = script(rt, text.as_bytes());
    drop(list);
    World::new(rt.alloc(), left, right).expect(rt, "a world")
}

/// The happenings of the script.
pub fn list_of(rt: &(impl Abort + AllocGlobal), text: &str) -> HappeningList {
    let Script { left, right, list } = script(rt, text.as_bytes());
    drop(left);
    drop(right);
    list
}

/// A script of a.example and b.example, and the number of its happenings.
#[derive(Clone, Copy)]
struct Read<'a>(&'a [u8], usize);

impl Making for Read<'_> {
    type Made = Option<Script>;

    type Fault = ScriptFault;

    fn call(&self, alloc: Global) -> Result<Option<Script>, ScriptFault> {
        read_script(alloc, self.0)
    }

    fn is_want_of_memory(&self, fault: &ScriptFault) -> bool {
        *fault == ScriptFault::NoMemory
    }

    fn is_as_expected(&self, _alloc: Global, made: &Option<Script>) -> bool {
        match made {
            Some(script) => {
                script.list.as_slice().len() == self.1
                    && script.left.peer_host() == b"a.example".as_slice()
                    && script.right.peer_host() == b"b.example".as_slice()
            }
            None => false,
        }
    }
}

/// The fourth happening of a world, and its line.
#[derive(Clone, Copy)]
struct Line<'a>(&'a World, &'a [u8]);

impl Making for Line<'_> {
    type Made = Vec<u8>;

    type Fault = NoMemory;

    fn call(&self, alloc: Global) -> Result<Vec<u8>, NoMemory> {
        trace(alloc, 4, Effect::Done, self.0)
    }

    fn is_want_of_memory(&self, _fault: &NoMemory) -> bool {
        true
    }

    fn is_as_expected(&self, _alloc: Global, made: &Vec<u8>) -> bool {
        made.as_slice() == self.1
    }
}

fn check_line(rt: &(impl Abort + AllocGlobal)) {
    let list = list_of(rt, ONE_SIDE_STARTS);
    let mut world = world(rt, ONE_SIDE_STARTS);
    let done = world.run(rt.alloc(), list.as_slice()) == (4, None);
    drop(list);
    assert!(rt; done);
    each_made(
        rt,
        &Line(&world, b"4 done A I-Open i0 B R-Open r0\n"),
        "trace",
    );
    drop(world);
}

#[test]
fn scripts_and_lines(rt: HostRuntime) {
    each_made(&rt, &Read(ONE_SIDE_STARTS.as_bytes(), 4), "read_script");
    check_line(&rt);
}

/// Behind 1,200 happenings one side starts.
fn long_script(rt: &(impl Abort + AllocGlobal)) -> Vec<u8> {
    let mut text = Vec::new(rt.alloc());
    let (front, back) = ONE_SIDE_STARTS.as_bytes().split_at(38);
    text.extend_from_slice(front).expect(rt, "memory");
    for _ in 0..1200u32 {
        text.extend_from_slice(b"timeout A\n").expect(rt, "memory");
    }
    text.extend_from_slice(back).expect(rt, "memory");
    text
}

/// The number of the happening that the run of the script stops at, and the link on which both are open then.
fn end_of(rt: &(impl Abort + AllocGlobal), text: &[u8]) -> (usize, bool) {
    let Script { left, right, list } = script(rt, text);
    let mut world = World::new(rt.alloc(), left, right).expect(rt, "a world");
    let (count, _) = world.run(rt.alloc(), list.as_slice());
    let is_open = world.open_link().is_some();
    drop(world);
    drop(list);
    (count, is_open)
}

fn is_replayed(alloc: Global, text: &[u8], end: &[u8]) -> bool {
    match replay_text(alloc, text) {
        Ok((told, is_good)) => is_good && told.as_slice().ends_with(end),
        Err(NoMemory) => false,
    }
}

/// A run doesn't give up behind a thousand happenings.
#[test]
fn a_long_script(rt: HostRuntime) {
    let text = long_script(&rt);
    let last = b"\n1204 done A I-Open i0 B R-Open r0\nend agreed=yes quiet=yes open=0\n";
    assert!(&rt; end_of(&rt, text.as_slice()) == (1204, true));
    assert!(&rt; is_replayed(rt.alloc(), text.as_slice(), last));
    drop(text);
}
