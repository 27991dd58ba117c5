//! Each row of the state table.

use super::*;

#[test]
fn closed(rt: HostRuntime) {
    let core = in_state(&rt, State::Closed);
    check(
        &rt,
        &core,
        &[
            (
                Input::Start(I),
                false,
                &[Command::Connect(I)],
                (State::WaitConnAck, Some(I), None, 0),
            ),
            (
                Input::Heard(R, Word::Cer),
                false,
                &[Command::SendCea(R)],
                (State::ROpen, None, Some(R), 0),
            ),
        ],
    );
}

#[test]
fn wait_conn_ack(rt: HostRuntime) {
    let core = in_state(&rt, State::WaitConnAck);
    let elect: Shown = (State::WaitConnAckElect, Some(I), Some(R), 0);
    check(
        &rt,
        &core,
        &[
            (
                Input::Ack(I),
                false,
                &[Command::SendCer(I)],
                (State::WaitICea, Some(I), None, 0),
            ),
            (Input::Nack(I), false, &[], CLOSED),
            (Input::Heard(R, Word::Cer), false, &[], elect),
            (Input::Heard(R, Word::Cer), true, &[], elect),
            (Input::Timeout, false, &[Command::Close(I)], CLOSED),
        ],
    );
}

#[test]
fn wait_i_cea(rt: HostRuntime) {
    let core = in_state(&rt, State::WaitICea);
    check(
        &rt,
        &core,
        &[
            (
                Input::Heard(I, Word::Cea),
                false,
                &[],
                (State::IOpen, Some(I), None, 0),
            ),
            (
                Input::Heard(R, Word::Cer),
                false,
                &[],
                (State::WaitReturns, Some(I), Some(R), 0),
            ),
            (Input::Gone(I), false, &[Command::Close(I)], CLOSED),
            (
                Input::Heard(I, Word::Dwa),
                false,
                &[Command::Close(I)],
                CLOSED,
            ),
            (Input::Timeout, false, &[Command::Close(I)], CLOSED),
        ],
    );
}

#[test]
fn wait_conn_ack_elect(rt: HostRuntime) {
    let core = in_state(&rt, State::WaitConnAckElect);
    let both = [Command::Close(I), Command::Close(R)];
    check(
        &rt,
        &core,
        &[
            (
                Input::Ack(I),
                false,
                &[Command::SendCer(I)],
                (State::WaitReturns, Some(I), Some(R), 0),
            ),
            (
                Input::Nack(I),
                false,
                &[Command::SendCea(R)],
                (State::ROpen, None, Some(R), 0),
            ),
            (
                Input::Gone(R),
                false,
                &[Command::Close(R)],
                (State::WaitConnAck, Some(I), None, 0),
            ),
            (Input::Timeout, false, &both, CLOSED),
        ],
    );
    check_same(
        &rt,
        &core,
        Input::Heard(NEW, Word::Cer),
        &[Command::Close(NEW)],
    );
}

#[test]
fn wait_returns(rt: HostRuntime) {
    let core = in_state(&rt, State::WaitReturns);
    let both = [Command::Close(I), Command::Close(R)];
    let yields = [Command::Close(I), Command::SendCea(R)];
    check(
        &rt,
        &core,
        &[
            (
                Input::Gone(I),
                false,
                &yields,
                (State::ROpen, None, Some(R), 0),
            ),
            (
                Input::Heard(I, Word::Cea),
                false,
                &[Command::Close(R)],
                (State::IOpen, Some(I), None, 0),
            ),
            (
                Input::Gone(R),
                false,
                &[Command::Close(R)],
                (State::WaitICea, Some(I), None, 0),
            ),
            (Input::Timeout, false, &both, CLOSED),
        ],
    );
    check_same(
        &rt,
        &core,
        Input::Heard(NEW, Word::Cer),
        &[Command::Close(NEW)],
    );
}

/// The rows that R-Open and I-Open share.
fn check_open(rt: &impl Abort, core: &Core, x: Conn, closing: Shown) {
    let same = shown(core);
    check(
        rt,
        core,
        &[
            (Input::Submit, false, &[Command::SendSubmit(x)], same),
            (Input::Heard(x, Word::Other), false, &[Command::Up], same),
            (
                Input::Heard(x, Word::Dwr),
                false,
                &[Command::SendDwa(x)],
                same,
            ),
            (Input::Heard(x, Word::Dwa), false, &[], same),
            (
                Input::Heard(NEW, Word::Cer),
                false,
                &[Command::Close(NEW)],
                same,
            ),
            (Input::Stop, false, &[Command::SendDpr(x)], closing),
            (
                Input::Heard(x, Word::Dpr),
                false,
                &[Command::SendDpa(x)],
                closing,
            ),
            (Input::Gone(x), false, &[Command::Close(x)], CLOSED),
        ],
    );
}

#[test]
fn r_open(rt: HostRuntime) {
    let core = in_state(&rt, State::ROpen);
    assert_eq!(rt; shown(&core), (State::ROpen, None, Some(R), 0));
    check_open(&rt, &core, R, (State::Closing, None, Some(R), 0));
}

#[test]
fn i_open(rt: HostRuntime) {
    let core = in_state(&rt, State::IOpen);
    assert_eq!(rt; shown(&core), (State::IOpen, Some(I), None, 0));
    check_open(&rt, &core, I, (State::Closing, Some(I), None, 0));
}

#[test]
fn closing(rt: HostRuntime) {
    for (core, x) in [
        (in_state(&rt, State::Closing), I),
        (after(&rt, &[Input::Heard(R, Word::Cer), Input::Stop]), R),
    ] {
        check(
            &rt,
            &core,
            &[
                (
                    Input::Heard(x, Word::Dpa),
                    false,
                    &[Command::Close(x)],
                    CLOSED,
                ),
                (Input::Gone(x), false, &[Command::Close(x)], CLOSED),
                (Input::Timeout, false, &[Command::Close(x)], CLOSED),
            ],
        );
    }
}
