//! Where a step leaves a peer: its numbers, and what it waits for.
ghost use Rattle.std.specs.Prelude.{◌≡◌, Option};
ghost use Rattle.dm_machine.specs.Awaiting.{awaits_cea, awaits_dwa, awaits_dpa, number_after, waiting_after};
ghost use Rattle.dm_peer.specs.Acts.{Moved, acts, standing_at};
ghost use Rattle.dm_peer.specs.After.{next_after, is_cer, is_dwr, is_dpr, dwa_left, standing_after};
ghost use Rattle.dm_peer.specs.Events.{event_told};
ghost use Rattle.dm_peer.specs.Lent.{heard_by};
ghost use Rattle.dm_peer.specs.Said.{Heard, word_heard};

use crate::heard_message::{HeardRef, header_heard, word_heard_or_unreadable};
use crate::kept_peer::kept_standing;
use crate::requests::{Request, is_dwr};
use crate::standing::{Awaited, Standing};
use crate::{Actions, Event, Peer};
use dm_machine::{Core, State, Word};
use dm_wire::Header;

/// The number of the next request, where this one or none was sent: one more behind a request, and 0 behind the last.
fn next_number_after(sent: Option<Request>, next: u32) -> u32
    ensures { result ≡ next_after sent next }
{
    match sent {
        Some(_) => next.wrapping_add(1),
        None => next,
    }
}

/// The number that awaits an answer: a new one where the request is sent, none where no answer is awaited.
fn awaited_number_after(awaits: bool, sends: bool, next: u32, old: Option<u32>) -> Option<u32>
    ensures { result ≡ number_after awaits sends next old }
{
    if !awaits {
        return None;
    }
    if sends { Some(next) } else { old }
}

/// The number of the CER that awaits its answer after a step that sends this request or none, and leads to this state.
fn awaited_cea_after(sent: Option<Request>, state: State, standing: &Standing) -> Option<u32>
    ensures { result ≡ number_after (awaits_cea state) (is_cer sent) standing.now.next standing.now.awaited.cea }
{
    let awaits = match state {
        State::WaitICea | State::WaitReturns => true,
        _ => false,
    };
    let sends = match sent {
        Some(Request::Cer) => true,
        _ => false,
    };
    awaited_number_after(awaits, sends, standing.next, standing.awaited.cea)
}

/// The number of the DWR that awaits its answer, once this was heard: a good DWA in an open state takes it away.
fn awaited_dwa_after_word(before: State, word: Word, old: Option<u32>) -> Option<u32>
    ensures { (h : Option Heard) → word_heard h ≡ word → result ≡ dwa_left before h old }
{
    match word {
        Word::Dwa => if before.is_open() { None } else { old },
        _ => old,
    }
}

/// The number of the DWR that awaits its answer after a step that sends this request or none, and leads to this state;
/// `left` is what heard answers left of it.
fn awaited_dwa_after(
    sent: Option<Request>,
    state: State,
    next: u32,
    left: Option<u32>,
) -> Option<u32>
    ensures { result ≡ number_after (awaits_dwa state) (is_dwr sent) next left }
{
    let awaits = match state {
        State::ROpen | State::IOpen | State::Closing => true,
        _ => false,
    };
    awaited_number_after(awaits, is_dwr(sent), next, left)
}

/// The number of the DPR that awaits its answer after a step that sends this request or none, and leads to this state.
fn awaited_dpa_after(sent: Option<Request>, state: State, standing: &Standing) -> Option<u32>
    ensures { result ≡ number_after (awaits_dpa state) (is_dpr sent) standing.now.next standing.now.awaited.dpa }
{
    let awaits = match state {
        State::Closing => true,
        _ => false,
    };
    let sends = match sent {
        Some(Request::Dpr) => true,
        _ => false,
    };
    awaited_number_after(awaits, sends, standing.next, standing.awaited.dpa)
}

/// The header of the CER that waits for its CEA: taken on entering the states that hold one, and kept while they last;
/// else None.
fn waiting_cer_after(
    before: State,
    heard: Option<Header>,
    after: State,
    old: Option<Header>,
) -> Option<Header>
    ensures { result ≡ waiting_after before heard after old }
{
    if !after.holds_cer() {
        return None;
    }
    if before.holds_cer() { old } else { heard }
}

/// Where the peer stands after a step that sends this request or none, and leads to this core.
#[inline(never)]
fn standing_after_step(
    standing: &Standing,
    heard: Option<&HeardRef<'_>>,
    sent: Option<Request>,
    core: Core,
) -> Standing
    ensures { result ≡ standing_after standing.now (heard_by heard.entry) sent core }
{
    let (before, after) = (standing.core.state(), core.state());
    let left = awaited_dwa_after_word(
        before,
        word_heard_or_unreadable(heard),
        standing.awaited.dwa,
    );
    Standing {
        core,
        next: next_number_after(sent, standing.next),
        waiting: waiting_cer_after(before, header_heard(heard), after, standing.waiting),
        awaited: Awaited {
            cea: awaited_cea_after(sent, after, standing),
            dwa: awaited_dwa_after(sent, after, standing.next, left),
            dpa: awaited_dpa_after(sent, after, standing),
        },
    }
}

/// Leaves the peer, which was told the event and asks for these actions, where it stands after the step. It most often
/// leads to an open state, where little is awaited.
#[inline(always)]
pub(crate) fn set_standing_after_step(
    peer: &mut Peer,
    event: Event<'_>,
    heard: Option<&HeardRef<'_>>,
    sent: Option<Request>,
    core: Core,
    actions: &Actions,
)
    requires { acts peer.old (event_told event) ≡ Moved actions.now.items
        (standing_at peer.old (standing_after peer.old.standing (heard_by heard) sent core)) }
    ensures { peer.new ≡ standing_at peer.old (standing_after peer.old.standing (heard_by heard.entry) sent core) }
{
    let standing = peer.standing.get();
    let after = match core.state() {
        State::ROpen | State::IOpen => {
            let left = awaited_dwa_after_word(
                standing.core.state(),
                word_heard_or_unreadable(heard),
                standing.awaited.dwa,
            );
            Standing {
                core,
                next: next_number_after(sent, standing.next),
                waiting: None,
                awaited: Awaited {
                    cea: None,
                    dwa: awaited_number_after(true, is_dwr(sent), standing.next, left),
                    dpa: None,
                },
            }
        }
        _ => {
            let after = standing_after_step(standing, heard, sent, core);
            let kept = kept_standing(peer, event, actions, after);
            peer.standing = kept;
            return;
        }
    };
    let kept = kept_standing(peer, event, actions, after);
    peer.standing = kept;
}
