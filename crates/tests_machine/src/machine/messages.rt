//! Messages on the connections that a core holds.

use super::*;

#[test]
fn messages_while_waiting(rt: HostRuntime) {
    let acked = in_state(&rt, State::WaitConnAck);
    check_words_same(&rt, &acked, I, &WORDS, &[]);
    check(&rt, &acked, &[(Input::Gone(I), false, &[], CLOSED)]);
    let elects = in_state(&rt, State::WaitConnAckElect);
    let alone: Shown = (State::WaitConnAck, Some(I), None, 0);
    check_words(&rt, &elects, R, &WORDS, &[Command::Close(R)], alone);
    check_words_same(&rt, &elects, I, &WORDS, &[]);
    let open: Shown = (State::ROpen, None, Some(R), 0);
    check(
        &rt,
        &elects,
        &[(Input::Gone(I), false, &[Command::SendCea(R)], open)],
    );
    let returns = in_state(&rt, State::WaitReturns);
    let yields = [Command::Close(I), Command::SendCea(R)];
    check_words_but(&rt, &returns, I, &[Word::Cea], &yields, open);
    let alone: Shown = (State::WaitICea, Some(I), None, 0);
    check_words(&rt, &returns, R, &WORDS, &[Command::Close(R)], alone);
}

/// Words that end an open connection.
const ENDS: [Word; 6] = [
    Word::Cer,
    Word::CerRefused,
    Word::Cea,
    Word::CeaFailed,
    Word::Dpa,
    Word::DpaBad,
];

fn check_open(rt: &impl Abort, state: State, x: Conn) {
    let core = in_state(rt, state);
    check_words(rt, &core, x, &ENDS, &[Command::Close(x)], CLOSED);
    let same = shown(&core);
    let bad = [Word::DwrBad, Word::DprBad];
    check_words(rt, &core, x, &bad, &[Command::SendRefusal(x)], same);
    check_words(rt, &core, x, &[Word::DwaBad], &[], same);
}

#[test]
fn messages_on_an_open_connection(rt: HostRuntime) {
    check_open(&rt, State::ROpen, R);
    check_open(&rt, State::IOpen, I);
}

#[test]
fn messages_while_closing(rt: HostRuntime) {
    let core = in_state(&rt, State::Closing);
    let answered = [Word::Unreadable, Word::Dpr, Word::Dpa];
    check_words_same_but(&rt, &core, I, &answered, &[]);
    check_words_same(&rt, &core, I, &[Word::Dpr], &[Command::SendDpa(I)]);
    check_words_same(&rt, &core, NEW, &WORDS, &[Command::Close(NEW)]);
}
