//! The node that a configuration begins.
ghost use Rattle.std.specs.Prelude.{◌≡◌, ◌++◌, ℕ, List, IfOk};
ghost use Rattle.std.specs.String.{string_bytes};
ghost use Rattle.dm_live.specs.Drafts.{settings_of};
ghost use Rattle.dm_live.specs.Stages.{IsBegun};

use crate::answer_lines::put_fault_line_and_dot;
use crate::configuration::Draft;
use crate::form::Form;
use crate::peers::node_with_peers;
use dm_node::Node;
use std::alloc::{AllocError, Global};

/// The node that runs, if one does.
#[derive(Drop)]
pub(crate) enum Begun {
    Nothing,
    /// Of so many peers.
    Running(Form, Node),
}

/// What the configuration begins; and appends the answer to `go`: that it does, or why it begins nothing.
pub(crate) fn answer_go(
    alloc: Global,
    draft: &Draft,
    number: u64,
    text: &mut String,
) -> Result<Begun, AllocError>
    ensures { IfOk result (λ begun. (answer : List ℕ) × IsBegun number (settings_of draft.now) begun answer
        × (string_bytes text.new ≡ string_bytes text.old ++ answer)) }
{
    match node_with_peers(alloc, draft)? {
        Ok(node) => text
            .push_str("ready\n.\n")
            .and(Ok(Begun::Running(draft.form(), node))),
        Err(name) => {
            put_fault_line_and_dot(text, number, name)?;
            Ok(Begun::Nothing)
        }
    }
}
