//! The laws, as they stand and as an edit turns them.
use super::account::{Account, open_on};
use super::letters::{Letter, Said};
use dm_peer::{Event, Peer};
use std::process::Abort;

/// A law with its turned form.
#[derive(Clone, Copy, Debug)]
pub(super) enum Law {
    /// What is handed up is just the messages of other commands that came on the connection on which the peer was open,
    /// in order. Turned: in the contrary order.
    InOrder,
    /// The same. Turned: .. on a connection on which it wasn't open.
    UpWasOpen,
    /// A Submit that is done is one Send of its octets on the open connection, and nothing else. Turned: is two.
    SubmitIsSent,
    /// An open connection stays open at just the events that don't end it: a Stop, its disconnect, the third Tick,
    /// octets on it that are no message, a CER and a DPR. Turned: the second Tick.
    OpenStays,
    /// The same. Turned: without a CER.
    OpenStaysAtCer,
    /// The watchdog's count is that of the Ticks since something came on the open connection, what is dropped being
    /// nothing. Turned: since something was dropped.
    TicksAreCounted,
    /// A CER that comes first, and isn't closed, waits for its CEA, or this goes out: an answer of command 257 and of
    /// its number. Turned: of command 282.
    AnswersMatch,
}

impl Law {
    /// Whether the law holds of what the list left, and whether the turned one does.
    pub(super) fn judge(
        self,
        rt: &(impl Abort + AllocGlobal),
        peer: &mut Peer,
        account: &Account,
    ) -> (bool, bool) {
        match self {
            Law::InOrder => (is_just(account), is_contrary(account)),
            Law::UpWasOpen => (is_just(account), account.ups == account.came_elsewhere),
            Law::SubmitIsSent => (is_sent(account, 1), is_sent(account, 2)),
            Law::OpenStays => (stays(account, 2, true), stays(account, 1, true)),
            Law::OpenStaysAtCer => (stays(account, 2, true), stays(account, 2, false)),
            Law::TicksAreCounted => are_counted(rt, peer, account),
            Law::AnswersMatch => (
                is_owed(account, account.ceas),
                is_owed(account, account.dpas),
            ),
        }
    }
}

fn is_just(account: &Account) -> bool {
    account.ups == account.came_open
}

fn is_contrary(account: &Account) -> bool {
    account.ups.iter().rev().eq(account.came_open.iter())
}

fn is_sent(account: &Account, times: usize) -> bool {
    match account.last {
        Some(Letter::Submit) => account.actions == times && account.passed_on == times,
        _ => true,
    }
}

/// The event ends the connection: a Tick at this count, and a CER or not.
fn ends(account: &Account, open: u64, letter: Letter, count: u32, at_cer: bool) -> bool {
    match letter {
        Letter::Stop => true,
        Letter::Tick => account.ticks_before == count,
        Letter::Gone(conn) => conn == open,
        Letter::Hears(conn, Said::Cer) => conn == open && at_cer,
        Letter::Hears(conn, Said::Dpr | Said::Broken) => conn == open,
        _ => false,
    }
}

fn stays(account: &Account, count: u32, at_cer: bool) -> bool {
    match (account.open_before, account.last) {
        (Some(open), Some(letter)) => {
            (account.open_after == Some(open)) != ends(account, open, letter, count, at_cer)
        }
        _ => true,
    }
}

/// The watchdog's count of an open peer: of three Ticks those that don't end it are left. It is tried out.
fn count(rt: &(impl Abort + AllocGlobal), peer: &mut Peer) -> u32 {
    let mut left = 0u32;
    for _ in 0..3 {
        let _actions = peer.on(rt.alloc(), Event::Tick).is_ok();
        if open_on(peer).is_some() {
            left = left.wrapping_add(1);
        }
    }
    2u32.wrapping_sub(left)
}

fn are_counted(
    rt: &(impl Abort + AllocGlobal),
    peer: &mut Peer,
    account: &Account,
) -> (bool, bool) {
    if account.open_after.is_none() {
        return (true, true);
    }
    let count = count(rt, peer);
    (account.ticks == count, account.ticks_turned == count)
}

/// Where a CEA is owed on a connection that isn't closed, nothing is sent there, or one such answer.
fn is_owed(account: &Account, answers: usize) -> bool {
    let none = account.owed.is_none() || account.closed_there || account.sent_there == 0;
    none || (account.sent_there == 1 && answers == 1)
}
