//! Two worked steps.

use super::*;

#[test]
fn election_step(rt: HostRuntime) {
    let i = Conn(0);
    let r = Conn(7);
    let core = after(&rt, &[Input::Start(i), Input::Ack(i)]);
    let won: Shown = (State::ROpen, None, Some(r), 0);
    let rests: Shown = (State::WaitReturns, Some(i), Some(r), 0);
    check(
        &rt,
        &core,
        &[
            (
                Input::Heard(r, Word::Cer),
                true,
                &[Command::Close(i), Command::SendCea(r)],
                won,
            ),
            (Input::Heard(r, Word::Cer), false, &[], rests),
        ],
    );
    let refused = [Command::SendRefusal(r), Command::Close(r)];
    check_same(&rt, &core, Input::Heard(r, Word::CerRefused), &refused);
}

#[test]
fn open_step(rt: HostRuntime) {
    let r = Conn(7);
    let core = after(&rt, &[Input::Heard(r, Word::Cer)]);
    check_same(
        &rt,
        &core,
        Input::Heard(Conn(8), Word::Cer),
        &[Command::Close(Conn(8))],
    );
    check(
        &rt,
        &core,
        &[
            (
                Input::Heard(r, Word::Cer),
                false,
                &[Command::Close(r)],
                CLOSED,
            ),
            (
                Input::Tick,
                false,
                &[Command::SendDwr(r)],
                (State::ROpen, None, Some(r), 1),
            ),
        ],
    );
    let core = after(&rt, &[Input::Heard(r, Word::Cer), Input::Tick]);
    check(
        &rt,
        &core,
        &[(Input::Tick, false, &[], (State::ROpen, None, Some(r), 2))],
    );
    let core = after(&rt, &[Input::Heard(r, Word::Cer), Input::Tick, Input::Tick]);
    check(
        &rt,
        &core,
        &[(Input::Tick, false, &[Command::Close(r)], CLOSED)],
    );
}

#[test]
fn defaults(rt: HostRuntime) {
    assert!(rt; Command::default() == Command::Close(Conn(0)));
    assert!(rt; Core::default() == Core::new());
    assert!(rt; shown(&Core::new()) == CLOSED);
}
