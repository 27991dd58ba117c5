//! Whether a world can be opened behind restarts of both sides.
use super::seen::{Role, are_opposite, open_on};
use super::{Choice, Stage};
use dm_world::Side;
use std::alloc::Global;

/// Both restart, all is delivered, and these happenings open both on the link that A starts. Nothing is under way then.
fn opens(alloc: Global, stage: &mut Stage, first: Side, second: Side) -> bool {
    stage.clear(alloc);
    let link = stage.made;
    let _start = stage.is_done(alloc, Choice::Start(Side::A));
    let _ack = stage.is_done(alloc, Choice::Ack(link));
    let _one = stage.is_done(alloc, Choice::Deliver(link, first));
    let _other = stage.is_done(alloc, Choice::Deliver(link, second));
    let opener = open_on(stage.world.peer(Side::A));
    let other = open_on(stage.world.peer(Side::B));
    let on_it = opener == Some((Role::Initiated, stage.first.wrapping_add(link)));
    on_it && are_opposite(opener, other) && stage.world.quiet()
}

/// The other side is delivered the CER first, and then A the CEA.
pub(super) fn is_opened(alloc: Global, stage: &mut Stage) -> bool {
    opens(alloc, stage, Side::B, Side::A)
}

/// A is delivered what comes first.
pub(super) fn is_opened_by_the_other(alloc: Global, stage: &mut Stage) -> bool {
    opens(alloc, stage, Side::A, Side::B)
}
