//! Connections that are let go: since too many are held, or too much, or at the end of the capture.
ghost use Rattle.std.specs.Prelude.{◌≡◌, ◌++◌, ℕ, List, IfOk, OnOk};
ghost use Rattle.std.specs.String.{string_bytes};
ghost use Rattle.dm_connections.specs.declared.ends.Ends.{Ends};
ghost use Rattle.dm_connections.specs.Held.{all_octets};
ghost use Rattle.dm_trace_view.specs.Traces.{LetsGo, gone_text, more_of};

use crate::lost::{Lost, LostIn, put_lost};
use crate::packet_context::Hearing;
use dm_connections::{Connections, LetGo, TwoWay};
use dm_dict::NoMemory;
use dm_view_lines::Task;
use std::alloc::{AllocError, Global};

/// Appends that a connection was let go, and how many octets with it.
fn put_connection_was_let_go<C: TwoWay>(
    alloc: Global,
    text: &mut String,
    task: Task,
    packet: u64,
    gone: &LetGo<C>,
) -> Result<(), AllocError>
    ensures { OnOk result (string_bytes text.new
        ≡ string_bytes text.old ++ gone_text C.pending_in task packet (gone.now.ends, gone.now.connection)) }
{
    let told = LostIn {
        packet,
        from: gone.ends.first,
        to: gone.ends.second,
        lost: Lost::LetGo(gone.connection.octets_held_that_came()),
    };
    put_lost(alloc, text, task, told)
}

/// Lets connections go as long as more is held than may be, appends that of each, and counts their octets as passed
/// over.
pub(crate) fn let_go_and_put_excess_connections<C: TwoWay>(
    alloc: Global,
    text: &mut String,
    hearing: Hearing<'_>,
    connections: &mut Connections<C>,
    passed: u64,
) -> Result<u64, NoMemory>
    ensures { IfOk result (λ counted. (gone : List (Ends × C)) × (more : List ℕ)
        × (string_bytes text.new ≡ string_bytes text.old ++ more)
        × LetsGo C.held_in C.pending_in hearing.entry.task hearing.entry.packet hearing.entry.looks.limits
        connections.old passed gone connections.new counted more) }
{
    let mut so_far = passed;
    while connections.exceeds(hearing.looks.limits) {
        let Some(gone) = connections.let_idlest_go() else {
            return Ok(so_far);
        };
        let told = put_connection_was_let_go(alloc, text, hearing.task, hearing.packet, &gone);
        so_far = so_far.saturating_add(gone.connection.octets_held_that_came());
        drop(gone);
        told?;
    }
    Ok(so_far)
}

/// Lets all connections go, and counts the octets of them that came and weren't handed out, on top of so many.
pub(crate) fn let_all_go_and_count_pending<C: TwoWay>(
    connections: &mut Connections<C>,
    counted: u64,
) -> u64
    ensures { result ≡ more_of counted (all_octets C.pending_in connections.old.held) }
{
    let mut so_far = counted;
    while let Some(gone) = connections.let_idlest_go() {
        so_far = so_far.saturating_add(gone.connection.octets_held_that_came());
        drop(gone);
    }
    so_far
}
