//! The watchdog's count.

use super::*;

/// The core after one step that is taken.
fn next(rt: &impl Abort, core: &Core, input: Input) -> Core {
    let (next, _) = step(core, input, false).expect(rt, "an input that is taken");
    next
}

/// What the open core shows with this count.
fn counted(core: &Core, count: u8) -> Shown {
    (core.state(), core.initiated(), core.accepted(), count)
}

fn check_ticks(rt: &impl Abort, state: State, x: Conn) {
    let fresh = in_state(rt, state);
    let asks = [Command::SendDwr(x)];
    let asked: Case<'_> = (Input::Tick, false, &asks, counted(&fresh, 1));
    check(rt, &fresh, &[asked]);
    let once = next(rt, &fresh, Input::Tick);
    check(rt, &once, &[(Input::Tick, false, &[], counted(&fresh, 2))]);
    let twice = next(rt, &once, Input::Tick);
    check(
        rt,
        &twice,
        &[(Input::Tick, false, &[Command::Close(x)], CLOSED)],
    );
}

#[test]
fn ticks(rt: HostRuntime) {
    check_ticks(&rt, State::ROpen, R);
    check_ticks(&rt, State::IOpen, I);
    for state in &[State::WaitConnAckElect, State::WaitReturns, State::Closing] {
        check_same(&rt, &in_state(&rt, *state), Input::Tick, &[]);
    }
}

fn check_resets(rt: &impl Abort, core: &Core, x: Conn, same: Shown) {
    check_words(rt, core, x, &[Word::Other], &[Command::Up], same);
    check_words(rt, core, x, &[Word::Dwr], &[Command::SendDwa(x)], same);
    let bad = [Word::DwrBad, Word::DprBad];
    check_words(rt, core, x, &bad, &[Command::SendRefusal(x)], same);
    check_words(rt, core, x, &[Word::Dwa, Word::DwaBad], &[], same);
}

fn check_keeps(rt: &impl Abort, core: &Core, x: Conn) {
    check_same(rt, core, Input::Submit, &[Command::SendSubmit(x)]);
    check_words_same(rt, core, NEW, &[Word::Dwr], &[Command::Close(NEW)]);
    check_idle(rt, core, &[Input::Gone(NEW), Input::Timeout]);
}

fn check_leaves(rt: &impl Abort, core: &Core, x: Conn) {
    let closing = (State::Closing, core.initiated(), core.accepted(), 0);
    check(
        rt,
        core,
        &[(Input::Stop, false, &[Command::SendDpr(x)], closing)],
    );
    check_words(rt, core, x, &[Word::Dpr], &[Command::SendDpa(x)], closing);
}

fn check_count(rt: &impl Abort, state: State, x: Conn) {
    let fresh = in_state(rt, state);
    let once = next(rt, &fresh, Input::Tick);
    let core = next(rt, &once, Input::Tick);
    check_resets(rt, &core, x, shown(&fresh));
    check_keeps(rt, &core, x);
    check_leaves(rt, &core, x);
}

/// A decoded message on the open connection sets the count to 0; nothing else that stays does.
#[test]
fn messages_reset_the_count(rt: HostRuntime) {
    check_count(&rt, State::ROpen, R);
    check_count(&rt, State::IOpen, I);
}
