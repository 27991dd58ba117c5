//! A script, replayed, or the text of its fault.
ghost use Rattle.std.specs.Prelude.{◌≡◌, ◌++◌, true, IfOk, OnOk, Err};
ghost use Rattle.dm_peer.specs.Hosts.{is_same_host};
ghost use Rattle.dm_replay.specs.declared.fault.ScriptFault.{ScriptFault};
ghost use Rattle.dm_replay.specs.Replay.{replay_from, script_text, text_of, ReplaysText};

use crate::fault::ScriptFault;
use crate::replay_lines::{push_end_line, push_nolink_line, push_trace_line};
use crate::script::{Script, read_script};
use dm_dict::NoMemory;
use dm_text::push_syntax_fault_line;
use dm_world::{Happening, NewFault, World, WorldFault};
use std::alloc::Global;

/// The text of a replay: of each happening of the script that the text is, what became of it, and what stands at the
/// end. And whether all of it was good, though the peers may disagree.
///
/// The script is read whole before its first happening. A text that is no script, or whose peers have no application in
/// common, has its fault as text alone. A happening that names a link that isn't there ends the run.
pub fn replay_text(alloc: Global, text: &[u8]) -> Result<(Vec<u8>, bool), NoMemory>
    ensures { IfOk result (λ r. ReplaysText text.now r.0.items r.1) }
{
    match read_script(alloc, text) {
        Ok(read) => match read {
            Some(script) => replay_script(alloc, script),
            None => Ok((Vec::new(alloc), true)),
        },
        Err(fault) => fault_text(alloc, fault),
    }
}

/// The text of a script's replay, and whether all of it was good.
fn replay_script(alloc: Global, script: Script) -> Result<(Vec<u8>, bool), NoMemory>
    requires left { is_same_host script.left.peer script.right.node.host ≡ true }
    requires right { is_same_host script.right.peer script.left.node.host ≡ true }
    ensures { IfOk result (λ r. (r.0.items, r.1) ≡ script_text script) }
{
    let Script { left, right, list } = script;
    match World::new(alloc, left, right) {
        Ok(mut world) => {
            let mut text = Vec::new(alloc);
            let good = push_whole_replay(alloc, &mut world, list.as_slice(), &mut text);
            drop(world);
            Ok((text, good?))
        }
        Err(NewFault::NothingCommon) => {
            let text = Vec::from_slice(alloc, b"fault NothingCommon\n")?;
            Ok((text, false))
        }
        Err(NewFault::NotPeers) => unreachable!(),
    }
}

/// Appends the lines for these happenings and the last line. False where one names a link that isn't there.
fn push_whole_replay(
    alloc: Global,
    world: &mut World,
    list: &[Happening],
    text: &mut Vec<u8>,
) -> Result<bool, NoMemory>
    ensures text { OnOk result (text.new.items ≡ text.old.items ++ (replay_from 1 world.old list.now).0) }
    ensures good { IfOk result (λ good. good ≡ (replay_from 1 world.old list.now).1) }
{
    let mut count = 0;
    let mut rest = list;
    'script: while let [happening, more @ ..] = rest {
        count += 1;
        match world.apply(alloc, happening) {
            Ok(effect) => push_trace_line(text, count, effect, world)?,
            Err(WorldFault::NoLink) => {
                push_nolink_line(text, count)?;
                return Ok(false);
            }
            Err(WorldFault::NoMemory) => return Err(NoMemory),
        }
        rest = more;
    }
    push_end_line(text, world)?;
    Ok(true)
}

/// The text of a fault. Want of memory has none, and is answered as such.
fn fault_text(alloc: Global, fault: ScriptFault) -> Result<(Vec<u8>, bool), NoMemory>
    ensures text { IfOk result (λ r. (r.0.items, r.1) ≡ text_of (Err fault)) }
    ensures known { IfOk result (λ r. fault ≡ ScriptFault.NoMemory → ⊥) }
{
    let mut text = Vec::new(alloc);
    match fault {
        ScriptFault::Syntax(line) => push_syntax_fault_line(&mut text, line as u64)?,
        ScriptFault::SameHost => text.extend_from_slice(b"fault SameHost\n")?,
        ScriptFault::NoMemory => return Err(NoMemory),
    }
    Ok((text, false))
}
