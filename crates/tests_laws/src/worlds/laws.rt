//! The laws, as they stand and as an edit turns them. What an edit makes of the definition is said at each law.
use super::clean::{are_four, are_nine_and_kept};
use super::opening::{is_opened, is_opened_by_the_other};
use super::seen::{are_alike, are_opposite, both_closed, is_double, is_shared, only_held, open_on};
use super::{Choice, Stage};
use dm_peer::{Peer, State};
use dm_world::{Side, World};
use std::alloc::Global;

/// A law with its turned form.
#[derive(Clone, Copy, Debug)]
pub(super) enum Law {
    /// No side is open on two connections, and if both are open, it is on one in opposite roles, or a disconnect is
    /// coming to each. Turned: .. on one in one role ..
    NeverTwo,
    /// In a clean run that falls quiet behind a Start both are open on the connection that the election keeps, and it
    /// has nine steps at most. Turned: .. on the one that the winner opened.
    ComesUp,
    /// A clean run in which one side alone starts has four steps at most, a piece that ends no message being none.
    /// Turned: .. being one.
    FourSteps,
    /// Where nothing is under way each side holds just what the other holds, and one is Closed where the other is.
    /// Turned: where no connect and no message is under way, if a disconnect or not.
    QuietIsShared,
    /// Where nothing is under way both are Closed, or each stands on one connection alone, the same one, in opposite
    /// roles. Turned: .. but none in R-Open.
    QuietIsJoined,
    /// Where nothing is under way both are Closed, or both are open on one connection in opposite roles. Turned: .. in
    /// one role.
    QuietIsSettled,
    /// Restarts of both, deliveries, a Start of A, its Ack, a delivery to B and one to A open both.
    NoTrap,
    /// The same with a delivery to A and then one to B, as it is turned.
    NoTrapTurned,
}

impl Law {
    /// Whether the law holds of what the list left, and whether the turned one does.
    pub(super) fn judge(
        self,
        alloc: Global,
        stage: &mut Stage,
        letters: &[Choice],
        list: &[usize],
    ) -> (bool, bool) {
        match self {
            Law::NeverTwo => are_agreed(&stage.world),
            Law::ComesUp => are_nine_and_kept(stage, letters, list),
            Law::FourSteps => are_four(letters, list),
            Law::QuietIsShared => is_quiet_shared(alloc, stage),
            Law::QuietIsJoined => is_joined(&stage.world),
            Law::QuietIsSettled => is_settled(&stage.world),
            Law::NoTrap => (is_opened(alloc, stage), true),
            Law::NoTrapTurned => (true, is_opened_by_the_other(alloc, stage)),
        }
    }
}

fn are_agreed(world: &World) -> (bool, bool) {
    let (a, b) = (world.peer(Side::A), world.peer(Side::B));
    let (left, right) = (open_on(a), open_on(b));
    let one_each = !is_double(a) && !is_double(b);
    let fine = left.is_none() || right.is_none() || are_parting(world);
    let law = one_each && (fine || are_opposite(left, right));
    let turned = one_each && (fine || are_alike(left, right));
    (law, turned)
}

/// Both are open, on two connections, with a disconnect coming to each.
fn are_parting(world: &World) -> bool {
    let (a, b) = (world.peer(Side::A), world.peer(Side::B));
    a.is_open() && b.is_open() && world.open_link().is_none() && world.agreed()
}

fn is_quiet_shared(alloc: Global, stage: &mut Stage) -> (bool, bool) {
    let shared = is_shared(stage.world.peer(Side::A), stage.world.peer(Side::B));
    let law = shared || !stage.world.quiet();
    let turned = shared || stage.has_more(alloc);
    (law, turned)
}

fn is_settled(world: &World) -> (bool, bool) {
    let (a, b) = (world.peer(Side::A), world.peer(Side::B));
    let fine = !world.quiet() || both_closed(a, b);
    let law = fine || are_opposite(open_on(a), open_on(b));
    let turned = fine || are_alike(open_on(a), open_on(b));
    (law, turned)
}

/// Whether a side may be left in the state with one connection.
fn can_rest(state: State) -> bool {
    match state {
        State::WaitICea | State::IOpen | State::ROpen | State::Closing => true,
        _ => false,
    }
}

fn is_joined(world: &World) -> (bool, bool) {
    let (a, b) = (world.peer(Side::A), world.peer(Side::B));
    let fine = !world.quiet() || both_closed(a, b);
    let one = are_opposite(only_held(a), only_held(b));
    let law = fine || (one && can_rest(a.state()) && can_rest(b.state()));
    let turned = fine || (law && !is_responder(a) && !is_responder(b));
    (law, turned)
}

fn is_responder(peer: &Peer) -> bool {
    peer.state() == State::ROpen
}
