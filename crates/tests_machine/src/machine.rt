//! The state table, as tables of cases: what is done to a core, and what must come of it.

mod messages;
mod own_rules;
mod printed;
mod rows;
mod watchdog;
mod worked;

use dm_machine::{Command, Conn, Core, Input, Refusal, State, Word, step};
use std::process::Abort;

/// The initiated connection of the cases.
const I: Conn = Conn(1);
/// The accepted one.
const R: Conn = Conn(2);
/// One that the core doesn't hold.
const NEW: Conn = Conn(3);

const WORDS: [Word; 14] = [
    Word::Unreadable,
    Word::Cer,
    Word::CerRefused,
    Word::Cea,
    Word::CeaFailed,
    Word::Dwr,
    Word::DwrBad,
    Word::Dwa,
    Word::DwaBad,
    Word::Dpr,
    Word::DprBad,
    Word::Dpa,
    Word::DpaBad,
    Word::Other,
];

/// What a core shows: its state, initiated and accepted connection, and count.
type Shown = (State, Option<Conn>, Option<Conn>, u8);

/// An input, whether the core would win an election, the commands, and what the core shows then.
type Case<'a> = (Input, bool, &'a [Command], Shown);

const CLOSED: Shown = (State::Closed, None, None, 0);

fn shown(core: &Core) -> Shown {
    (
        core.state(),
        core.initiated(),
        core.accepted(),
        core.count(),
    )
}

/// The core after these inputs, which loses every election.
fn after(rt: &impl Abort, inputs: &[Input]) -> Core {
    let mut core = Core::new();
    for input in inputs {
        let (next, _) = step(&core, *input, false).expect(rt, "an input of the way there");
        core = next;
    }
    core
}

/// A core in this state, holding `I`, `R` or both; in Closing it holds `I`.
fn in_state(rt: &impl Abort, state: State) -> Core {
    let start = Input::Start(I);
    let ack = Input::Ack(I);
    let cer = Input::Heard(R, Word::Cer);
    let cea = Input::Heard(I, Word::Cea);
    let core = match state {
        State::Closed => Core::new(),
        State::WaitConnAck => after(rt, &[start]),
        State::WaitICea => after(rt, &[start, ack]),
        State::WaitConnAckElect => after(rt, &[start, cer]),
        State::WaitReturns => after(rt, &[start, ack, cer]),
        State::ROpen => after(rt, &[cer]),
        State::IOpen => after(rt, &[start, ack, cea]),
        State::Closing => after(rt, &[start, ack, cea, Input::Stop]),
    };
    assert!(rt; core.state() == state);
    core
}

/// Whether the case comes of the core.
fn is_case(core: &Core, case: &Case<'_>) -> bool {
    let (input, wins, commands, want) = *case;
    match step(core, input, wins) {
        Ok((next, given)) => given.as_slice() == commands && shown(&next) == want,
        Err(_) => false,
    }
}

/// Each case is tried on the same core.
fn check(rt: &impl Abort, core: &Core, cases: &[Case<'_>]) {
    for case in cases {
        assert!(rt; is_case(core, case), "at {case:?}");
    }
}

/// The input gives these commands and leaves the core as it was, whoever would win.
fn check_same(rt: &impl Abort, core: &Core, input: Input, commands: &[Command]) {
    let same = shown(core);
    let wins = is_case(core, &(input, true, commands, same));
    assert!(rt;
        wins && is_case(core, &(input, false, commands, same)),
        "at {input:?}"
    );
}

/// Each of the words heard on the connection gives these commands and comes to this.
fn check_words(
    rt: &impl Abort,
    core: &Core,
    x: Conn,
    words: &[Word],
    commands: &[Command],
    want: Shown,
) {
    for word in words {
        let case = (Input::Heard(x, *word), false, commands, want);
        assert!(rt; is_case(core, &case), "at {case:?}");
    }
}

/// Each of the words heard on the connection gives these commands and leaves the core as it was.
fn check_words_same(rt: &impl Abort, core: &Core, x: Conn, words: &[Word], commands: &[Command]) {
    for word in words {
        check_same(rt, core, Input::Heard(x, *word), commands);
    }
}

/// As `check_words`, with every word but these.
fn check_words_but(
    rt: &impl Abort,
    core: &Core,
    x: Conn,
    others: &[Word],
    commands: &[Command],
    want: Shown,
) {
    for word in &WORDS {
        if !others.contains(word) {
            check_words(rt, core, x, &[*word], commands, want);
        }
    }
}

/// As `check_words_same`, with every word but these.
fn check_words_same_but(
    rt: &impl Abort,
    core: &Core,
    x: Conn,
    others: &[Word],
    commands: &[Command],
) {
    for word in &WORDS {
        if !others.contains(word) {
            check_same(rt, core, Input::Heard(x, *word), commands);
        }
    }
}

/// The inputs give no command and leave the core as it was.
fn check_idle(rt: &impl Abort, core: &Core, inputs: &[Input]) {
    for input in inputs {
        check_same(rt, core, *input, &[]);
    }
}

fn check_refused(rt: &impl Abort, core: &Core, input: Input, want: Refusal) {
    let refusal = step(core, input, false).err();
    assert!(rt; refusal == Some(want), "at {input:?}");
}
