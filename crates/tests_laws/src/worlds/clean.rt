//! Clean runs: Starts, Acks, deliveries and pieces alone, from where both are Closed with nothing under way.
use super::seen::{Held, Role, are_opposite, open_on};
use super::{Choice, Stage};
use dm_world::Side;

/// The links that the first taken Starts of A and of B make, in a list all of which is done.
fn links_made(letters: &[Choice], list: &[usize]) -> (Option<u64>, Option<u64>) {
    let mut made = (None, None);
    let mut count = 0u64;
    for place in list {
        if let Some(Choice::Start(side)) = letters.get(*place) {
            made = match side {
                Side::A => (made.0.or(Some(count)), made.1),
                Side::B => (made.0, made.1.or(Some(count))),
            };
            count = count.wrapping_add(1);
        }
    }
    made
}

/// How a side stands that is open on the link, where it opened it or not.
fn standing(opened: bool, link: u64) -> Option<Held> {
    match opened {
        true => Some((Role::Initiated, link)),
        false => Some((Role::Accepted, link)),
    }
}

/// Both are open on the link, with this side as its initiator.
fn are_open_on(stage: &Stage, opener: Side, link: u64) -> bool {
    let link = stage.first.wrapping_add(link);
    let left = open_on(stage.world.peer(Side::A));
    left == standing(opener == Side::A, link)
        && are_opposite(left, open_on(stage.world.peer(Side::B)))
}

/// Of the links that were made, both are open on the only one, or, where each side made one, on that of this side.
fn are_open_on_that_of(stage: &Stage, made: (Option<u64>, Option<u64>), side: Side) -> bool {
    match (made, side) {
        ((None, None), _) => true,
        ((Some(link), None), _) | ((Some(link), Some(_)), Side::A) => are_open_on(
            stage,
            Side::A,
            link,
        ),
        ((None, Some(link)), _) | ((Some(_), Some(link)), Side::B) => are_open_on(
            stage,
            Side::B,
            link,
        ),
    }
}

fn across(side: Side) -> Side {
    match side {
        Side::A => Side::B,
        Side::B => Side::A,
    }
}

/// The run has nine steps at most, and where it is quiet both are open on the link of the side that doesn't win.
/// Turned: on the winner's.
pub(super) fn are_nine_and_kept(stage: &Stage, letters: &[Choice], list: &[usize]) -> (bool, bool) {
    let made = links_made(letters, list);
    let few = list.len() <= 9;
    let busy = !stage.world.quiet();
    let law = few && (busy || are_open_on_that_of(stage, made, across(stage.winner)));
    let turned = few && (busy || are_open_on_that_of(stage, made, stage.winner));
    (law, turned)
}

/// Of the list, how many are pieces of one octet. No message has so few that such pieces of a list end it.
fn parts(letters: &[Choice], list: &[usize]) -> usize {
    let mut count = 0usize;
    for place in list {
        if let Some(Choice::Piece(_, _, 1)) = letters.get(*place) {
            count = count.wrapping_add(1);
        }
    }
    count
}

/// The run has four steps at most, without its pieces of one octet. Turned: with them.
pub(super) fn are_four(letters: &[Choice], list: &[usize]) -> (bool, bool) {
    let law = list.len().wrapping_sub(parts(letters, list)) <= 4;
    (law, list.len() <= 4)
}
