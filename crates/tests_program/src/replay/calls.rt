//! The calls that read a script and tell of a happening, each once.
use dm_replay::{read_script, trace};
use dm_world::World;
use std::alloc::Global;

const SCRIPT: &[u8] = b"peer A b.example 4\npeer B a.example 4\nstart A\n";

/// The line of the script's first happening, told as number 7.
fn first_line(alloc: Global) -> Option<Vec<u8>> {
    let script = read_script(alloc, SCRIPT).ok()??;
    let mut world = World::new(alloc, script.left, script.right).ok()?;
    let effect = match script.list.as_slice() {
        [happening] => world.apply(alloc, happening).ok(),
        _ => None,
    };
    let line = match effect {
        Some(effect) => trace(alloc, 7, effect, &world).ok(),
        None => None,
    };
    drop(world);
    line
}

#[test]
fn a_happening_is_told(rt: HostRuntime) {
    let line = first_line(rt.alloc()).expect(&rt, "a line");
    let same = line.as_slice() == b"7 done A Wait-Conn-Ack i0 B Closed\n".as_slice();
    drop(line);
    assert!(&rt; same);
}
