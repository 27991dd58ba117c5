//! The rules beside the state table.

use super::*;

const READING: [State; 3] = [State::Closed, State::WaitConnAck, State::WaitICea];

const REJECTING: [State; 5] = [
    State::WaitConnAckElect,
    State::WaitReturns,
    State::ROpen,
    State::IOpen,
    State::Closing,
];

#[test]
fn an_election_is_won_in_the_same_step(rt: HostRuntime) {
    let open: Shown = (State::ROpen, None, Some(R), 0);
    let won = [Command::Close(I), Command::SendCea(R)];
    let core = in_state(&rt, State::WaitICea);
    check(
        &rt,
        &core,
        &[(Input::Heard(R, Word::Cer), true, &won, open)],
    );
    let won = [Command::SendCer(I), Command::Close(I), Command::SendCea(R)];
    let core = in_state(&rt, State::WaitConnAckElect);
    check(&rt, &core, &[(Input::Ack(I), true, &won, open)]);
}

#[test]
fn a_first_message_is_read_in_three_states(rt: HostRuntime) {
    for state in &READING {
        let core = in_state(&rt, *state);
        let refused = [Command::SendRefusal(NEW), Command::Close(NEW)];
        check_same(&rt, &core, Input::Heard(NEW, Word::CerRefused), &refused);
        let cers = [Word::Cer, Word::CerRefused];
        check_words_same_but(&rt, &core, NEW, &cers, &[Command::Close(NEW)]);
    }
    for state in &REJECTING {
        let core = in_state(&rt, *state);
        check_words_same(&rt, &core, NEW, &WORDS, &[Command::Close(NEW)]);
    }
}

#[test]
fn a_cea_of_another_code_is_i_peer_disc(rt: HostRuntime) {
    let failed = Input::Heard(I, Word::CeaFailed);
    let core = in_state(&rt, State::WaitICea);
    check(&rt, &core, &[(failed, false, &[Command::Close(I)], CLOSED)]);
    let core = in_state(&rt, State::WaitReturns);
    let yields = [Command::Close(I), Command::SendCea(R)];
    check(
        &rt,
        &core,
        &[(failed, false, &yields, (State::ROpen, None, Some(R), 0))],
    );
}

/// Bad octets on the connection and its end come to the same.
fn check_end(rt: &impl Abort, state: State, x: Conn, commands: &[Command], want: Shown) {
    let core = in_state(rt, state);
    check_words(rt, &core, x, &[Word::Unreadable], commands, want);
    check(rt, &core, &[(Input::Gone(x), false, commands, want)]);
}

#[test]
fn bad_octets_and_ends_are_peer_disc(rt: HostRuntime) {
    let close_i = [Command::Close(I)];
    let close_r = [Command::Close(R)];
    let yields = [Command::Close(I), Command::SendCea(R)];
    let open: Shown = (State::ROpen, None, Some(R), 0);
    let elect: Shown = (State::WaitConnAck, Some(I), None, 0);
    let waits: Shown = (State::WaitICea, Some(I), None, 0);
    check_end(&rt, State::WaitICea, I, &close_i, CLOSED);
    check_end(&rt, State::WaitConnAckElect, R, &close_r, elect);
    check_end(&rt, State::WaitReturns, I, &yields, open);
    check_end(&rt, State::WaitReturns, R, &close_r, waits);
    check_end(&rt, State::ROpen, R, &close_r, CLOSED);
    check_end(&rt, State::IOpen, I, &close_i, CLOSED);
    check_end(&rt, State::Closing, I, &close_i, CLOSED);
}

/// The states that are neither Closed nor open.
const BETWEEN: [State; 5] = [
    State::WaitConnAck,
    State::WaitICea,
    State::WaitConnAckElect,
    State::WaitReturns,
    State::Closing,
];

fn check_not_open(rt: &impl Abort, core: &Core) {
    check_refused(rt, core, Input::Stop, Refusal::NotOpen);
    check_refused(rt, core, Input::Submit, Refusal::NotOpen);
}

fn check_not_closed(rt: &impl Abort, state: State) {
    check_refused(
        rt,
        &in_state(rt, state),
        Input::Start(NEW),
        Refusal::NotClosed,
    );
}

#[test]
fn refused_inputs(rt: HostRuntime) {
    check_not_open(&rt, &Core::new());
    for state in &BETWEEN {
        check_not_open(&rt, &in_state(&rt, *state));
        check_not_closed(&rt, *state);
    }
    check_not_closed(&rt, State::ROpen);
    check_not_closed(&rt, State::IOpen);
}

/// Inputs that change nothing in the states in which a first message is read.
const IDLE: [Input; 4] = [
    Input::Ack(NEW),
    Input::Nack(NEW),
    Input::Gone(NEW),
    Input::Tick,
];

/// Those that change nothing in the others.
const OTHER: [Input; 5] = [
    Input::Ack(NEW),
    Input::Ack(R),
    Input::Nack(NEW),
    Input::Nack(R),
    Input::Gone(NEW),
];

/// The states in which the initiated connection is made, or is none of the core's.
const MADE: [State; 4] = [
    State::WaitICea,
    State::WaitReturns,
    State::IOpen,
    State::Closing,
];

#[test]
fn other_inputs_change_nothing(rt: HostRuntime) {
    for state in &READING {
        check_idle(&rt, &in_state(&rt, *state), &IDLE);
    }
    for state in &REJECTING {
        check_idle(&rt, &in_state(&rt, *state), &OTHER);
    }
    for state in &MADE {
        check_idle(
            &rt,
            &in_state(&rt, *state),
            &[Input::Ack(I), Input::Nack(I)],
        );
    }
    for state in &[State::Closed, State::ROpen, State::IOpen] {
        check_idle(&rt, &in_state(&rt, *state), &[Input::Timeout]);
    }
}
