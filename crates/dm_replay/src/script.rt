//! Scripts, and how a text is read as one.
ghost use Rattle.std.specs.Prelude.{◌≡◌, ◌⊎◌, true, Err, Option, Result, IfOk};
ghost use Rattle.dm_base.specs.Before.{lower};
ghost use Rattle.dm_base.specs.Fit.{is_name};
ghost use Rattle.dm_replay.specs.LinesSoFar.{line_host};
ghost use Rattle.dm_replay.specs.declared.fault.ScriptFault.{ScriptFault};
ghost use Rattle.dm_replay.specs.declared.script.Script.{Script};
ghost use Rattle.dm_replay.specs.ReadScript.{IsConfigOf, IsReading};

use crate::configs::{config_of_hosts, config_with_dictionary_of};
use crate::fault::ScriptFault;
use crate::happening_list::HappeningList;
use crate::laws::one_reading_and_replay_at_most;
use crate::script_lines::{ScriptLines, read_script_lines_if_any};
use dm_peer::{Config, is_same_host};
use std::alloc::{AllocError, Global};

/// A script: the configurations of two peers, and what happens to them.
#[derive(Debug, Drop)]
pub struct Script {
    /// That of side A.
    pub left: Config,
    /// That of side B.
    pub right: Config,
    /// What happens, in order.
    pub list: HappeningList,
}

/// The script that a text is, or None where every line is empty or a comment.
///
/// Its first two lines name the peers A and B by a host and an application; each other line is one happening. The first
/// line that may not stand where it does is refused as `Syntax` with its number, from 1; a text that ends behind the
/// line of its first peer has that fault at its last line. Two peers of one name are refused as `SameHost`.
pub fn read_script(alloc: Global, text: &[u8]) -> Result<Option<Script>, ScriptFault>
    ensures read { (result ≡ Err ScriptFault.NoMemory) ⊎ IsReading text.now result }
    // Whatever the text is read as is the answer, unless memory runs out.
    ensures only { (read : Result (Option Script) ScriptFault) → IsReading text.now read
        → (result ≡ read) ⊎ (result ≡ Err ScriptFault.NoMemory) }
{
    one_reading_and_replay_at_most();
    read_script_by_lines(alloc, text)
}

/// What the text is read as: its lines are read, and then the script is made of them. None where every line is empty or
/// a comment.
fn read_script_by_lines(alloc: Global, text: &[u8]) -> Result<Option<Script>, ScriptFault>
    ensures { (result ≡ Err ScriptFault.NoMemory) ⊎ IsReading text.now result }
{
    match read_script_lines_if_any(alloc, text)? {
        Some(lines) => {
            if is_same_host(lines.left.host, lines.right.host) {
                return Err(ScriptFault::SameHost);
            }
            Ok(Some(script_of_lines(alloc, lines)?))
        }
        None => Ok(None),
    }
}

/// The script of these lines.
fn script_of_lines(alloc: Global, lines: ScriptLines<'_>) -> Result<Script, AllocError>
    requires left { is_name lines.left.host.now ≡ true }
    requires right { is_name lines.right.host.now ≡ true }
    requires differ { lower lines.left.host.now ≡ lower lines.right.host.now → ⊥ }
    ensures left { IfOk result (λ s. IsConfigOf (line_host lines.entry.left) (line_host lines.entry.right) s.left) }
    ensures right { IfOk result (λ s. IsConfigOf (line_host lines.entry.right) (line_host lines.entry.left) s.right) }
    ensures list { IfOk result (λ s. s.list ≡ lines.entry.list.items) }
{
    let left = config_of_hosts(alloc, lines.left, lines.right)?;
    let right = config_with_dictionary_of(alloc, &left, lines.right, lines.left)?;
    Ok(Script {
        left,
        right,
        list: HappeningList::from_vec(lines.list),
    })
}
