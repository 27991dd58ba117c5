//! The lines of a replay.
ghost use Rattle.std.specs.Prelude.{◌≡◌, ◌++◌, IfOk, OnOk};
ghost use Rattle.dm_machine.specs.Printed.{state_text};
ghost use Rattle.dm_replay.specs.ReplayLines.{held_text, node_text, effect_text, trace_line, nolink_line};
ghost use Rattle.dm_replay.specs.ReplayLines.{answer_text, link_text, end_line};

use dm_dict::NoMemory;
use dm_machine::{Conn, State};
use dm_text::push_decimal;
use dm_world::{Effect, Peer, Side, World};
use std::alloc::{AllocError, Global};

/// The line of happening `number`, with its LF: the number, what became of the happening, and how the two peers of
/// the world stand behind it.
pub fn trace(
    alloc: Global,
    number: usize,
    effect: Effect,
    world: &World,
) -> Result<Vec<u8>, NoMemory>
    ensures { IfOk result (λ line. line.items ≡ trace_line number effect world.now) }
{
    let mut line = Vec::new(alloc);
    push_trace_line(&mut line, number, effect, world)?;
    Ok(line)
}

/// Appends the line of happening `number`.
pub fn push_trace_line(
    text: &mut Vec<u8>,
    number: usize,
    effect: Effect,
    world: &World,
) -> Result<(), AllocError>
    ensures { OnOk result (text.new.items ≡ text.old.items ++ trace_line number effect world.now) }
{
    push_decimal(text, number as u64)?;
    push_spaced_effect_and_side_a(text, effect)?;
    push_state_and_connections(text, world.peer(Side::A))?;
    text.extend_from_slice(b" B ")?;
    push_state_and_connections(text, world.peer(Side::B))?;
    text.push(b'\n')?;
    Ok(())
}

/// Appends the line of happening `number`, which names a link that isn't there.
pub fn push_nolink_line(text: &mut Vec<u8>, number: usize) -> Result<(), AllocError>
    ensures { OnOk result (text.new.items ≡ text.old.items ++ nolink_line number) }
{
    push_decimal(text, number as u64)?;
    text.extend_from_slice(b" nolink\n")?;
    Ok(())
}

/// Appends the last line: whether the peers agree, whether nothing is under way, and the link that both are open on.
pub fn push_end_line(text: &mut Vec<u8>, world: &World) -> Result<(), AllocError>
    ensures { OnOk result (text.new.items ≡ text.old.items ++ end_line world.now) }
{
    text.extend_from_slice(b"end agreed=")?;
    push_yes_or_no(text, world.agreed())?;
    text.extend_from_slice(b" quiet=")?;
    push_yes_or_no(text, world.quiet())?;
    text.extend_from_slice(b" open=")?;
    push_link_or_dash(text, world.open_link())?;
    text.push(b'\n')?;
    Ok(())
}

/// Appends what became of a happening, and the name of side A.
fn push_spaced_effect_and_side_a(text: &mut Vec<u8>, effect: Effect) -> Result<(), AllocError>
    ensures { OnOk result (text.new.items ≡ text.old.items ++ effect_text effect) }
{
    match effect {
        Effect::Done => text.extend_from_slice(b" done A ")?,
        Effect::Ignored => text.extend_from_slice(b" ignored A ")?,
    }
    Ok(())
}

/// Appends the peer's state, and the connections that it holds.
fn push_state_and_connections(text: &mut Vec<u8>, peer: &Peer) -> Result<(), AllocError>
    ensures { OnOk result (text.new.items ≡ text.old.items ++ node_text peer.now.standing.core) }
{
    text.extend_from_slice(state_name(peer.state()))?;
    push_connection_if_held(text, b" i", peer.initiated())?;
    push_connection_if_held(text, b" r", peer.accepted())?;
    Ok(())
}

/// The name of a state, as octets.
fn state_name(state: State) -> &'static [u8]
    ensures { result.now ≡ state_text state }
{
    state.name().as_bytes()
}

/// Appends the connection behind its letter; nothing where none is held.
fn push_connection_if_held(
    text: &mut Vec<u8>,
    letter: &[u8],
    held: Option<Conn>,
) -> Result<(), AllocError>
    ensures { OnOk result (text.new.items ≡ text.old.items ++ held_text letter.now held) }
{
    if let Some(conn) = held {
        text.extend_from_slice(letter)?;
        push_decimal(text, conn.0)?;
    }
    Ok(())
}

/// Appends `yes` or `no`.
fn push_yes_or_no(text: &mut Vec<u8>, answer: bool) -> Result<(), AllocError>
    ensures { OnOk result (text.new.items ≡ text.old.items ++ answer_text answer) }
{
    if answer {
        text.extend_from_slice(b"yes")?;
    } else {
        text.extend_from_slice(b"no")?;
    }
    Ok(())
}

/// Appends the number of the link, or `-` where there is none.
fn push_link_or_dash(text: &mut Vec<u8>, link: Option<Conn>) -> Result<(), AllocError>
    ensures { OnOk result (text.new.items ≡ text.old.items ++ link_text link) }
{
    match link {
        Some(conn) => push_decimal(text, conn.0)?,
        None => text.push(b'-')?,
    }
    Ok(())
}
