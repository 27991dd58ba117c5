//! What is kept of a list of events, to compute the laws of it.
use super::letters::{Letter, Said};
use dm_peer::{Action, Conn, Peer, State};
use dm_wire::MessageRef;
use std::alloc::Global;
use std::process::Abort;

/// The account of a list, behind its last event.
#[derive(Drop)]
pub(super) struct Account {
    /// The connection on which the peer was open before the last event.
    pub open_before: Option<u64>,
    /// That on which it is open behind it.
    pub open_after: Option<u64>,
    /// The connection on which a CER waits for its CEA at the last event, which may bring that CER.
    pub owed: Option<u64>,
    /// The last event brings an answer that nobody awaits.
    pub stray: bool,
    /// What was done at it.
    pub last: Option<Letter>,
    /// How many actions that was.
    pub actions: usize,
    /// Of these, the Sends of what was submitted, on the connection on which the peer was open.
    pub passed_on: usize,
    /// The Sends on the connection on which a CEA was owed, and the Closes of it.
    pub sent_there: usize,
    pub closed_there: bool,
    /// Of these Sends, those of an answer of number 9, of command 257 and of 282.
    pub ceas: usize,
    pub dpas: usize,
    /// The numbers of all messages that were handed up, in order.
    pub ups: Vec<u32>,
    /// Those of the messages of another command that came on the connection on which the peer was open.
    pub came_open: Vec<u32>,
    /// Those of such messages that came elsewhere.
    pub came_elsewhere: Vec<u32>,
    /// The Ticks since something came on the open connection, or since it was opened, before the last event and behind
    /// it.
    pub ticks_before: u32,
    pub ticks: u32,
    /// The same, where what is dropped counts as what came, and nothing else.
    pub ticks_turned: u32,
}

/// The connection on which the peer is open.
pub(super) fn open_on(peer: &Peer) -> Option<u64> {
    let conn = match peer.state() {
        State::IOpen => peer.initiated(),
        State::ROpen => peer.accepted(),
        _ => None,
    };
    number(conn)
}

fn number(conn: Option<Conn>) -> Option<u64> {
    match conn {
        Some(conn) => Some(conn.0),
        None => None,
    }
}

/// The connection on which a CER waits, or comes first.
fn owed_on(letter: Letter, peer: &Peer) -> Option<u64> {
    match (peer.state(), letter) {
        (State::WaitConnAckElect | State::WaitReturns, _) => number(peer.accepted()),
        (_, Letter::Hears(conn, Said::Cer)) if !peer.holds(Conn(conn)) => Some(conn),
        _ => None,
    }
}

/// The message is an answer with a number that isn't awaited.
fn is_stray(letter: Letter, peer: &Peer) -> bool {
    match letter {
        Letter::Hears(_, Said::StrayDwa) => true,
        Letter::Hears(_, Said::Dwa) => peer.awaited(280).is_none(),
        Letter::Hears(_, Said::Cea) => peer.awaited(257).is_none(),
        _ => false,
    }
}

/// The number of the message of another command that comes, and the connection.
fn said_to_user(letter: Letter) -> Option<(u64, u32)> {
    match letter {
        Letter::Hears(conn, Said::One) => Some((conn, 1)),
        Letter::Hears(conn, Said::Two) => Some((conn, 2)),
        _ => None,
    }
}

/// The number of the message that octets spell.
fn number_of(octets: &[u8]) -> u32 {
    match MessageRef::read(octets) {
        Ok(message) => message.header.hop_id,
        Err(_) => 0,
    }
}

/// The octets are an answer of this command with number 9.
fn is_answer(octets: &[u8], command: u32) -> bool {
    match MessageRef::read(octets) {
        Ok(message) => {
            let header = message.header;
            header.command == command && header.hop_id == 9 && !header.request
        }
        Err(_) => false,
    }
}

fn one_more(count: &mut usize, more: bool) {
    if more {
        *count = count.wrapping_add(1);
    }
}

impl Account {
    pub(super) fn new(alloc: Global) -> Account {
        Account {
            open_before: None,
            open_after: None,
            owed: None,
            stray: false,
            last: None,
            actions: 0,
            passed_on: 0,
            sent_there: 0,
            closed_there: false,
            ceas: 0,
            dpas: 0,
            ups: Vec::new(alloc),
            came_open: Vec::new(alloc),
            came_elsewhere: Vec::new(alloc),
            ticks_before: 0,
            ticks: 0,
            ticks_turned: 0,
        }
    }

    /// Nothing has happened.
    pub(super) fn begin(&mut self) {
        self.ups.clear();
        self.came_open.clear();
        self.came_elsewhere.clear();
        self.ticks = 0;
        self.ticks_turned = 0;
        self.open_after = None;
        self.last = None;
    }

    /// How the peer stands before the event.
    pub(super) fn stands_before(&mut self, letter: Letter, peer: &Peer) {
        self.open_before = open_on(peer);
        self.owed = owed_on(letter, peer);
        self.stray = is_stray(letter, peer);
    }

    /// The event was done, with these actions, and the peer stands so behind it.
    pub(super) fn take(
        &mut self,
        rt: &(impl Abort + AllocGlobal),
        letter: Letter,
        peer: &Peer,
        actions: &[Action],
    ) {
        self.last = Some(letter);
        self.open_after = open_on(peer);
        self.actions = actions.len();
        self.take_coming(rt, letter);
        self.take_ticks(letter);
        self.take_actions(rt, actions);
    }

    fn take_coming(&mut self, rt: &(impl Abort + AllocGlobal), letter: Letter) {
        if let Some((conn, number)) = said_to_user(letter) {
            if self.open_before == Some(conn) {
                self.came_open.push(number).expect(rt, "memory");
            } else {
                self.came_elsewhere.push(number).expect(rt, "memory");
            }
        }
    }

    fn take_ticks(&mut self, letter: Letter) {
        self.ticks_before = self.ticks;
        let Some(open) = self.open_before else {
            self.ticks = 0;
            self.ticks_turned = 0;
            return;
        };
        match letter {
            Letter::Tick => {
                self.ticks = self.ticks.wrapping_add(1);
                self.ticks_turned = self.ticks_turned.wrapping_add(1);
            }
            Letter::Hears(conn, _) if conn == open && self.stray => self.ticks_turned = 0,
            Letter::Hears(conn, _) if conn == open => self.ticks = 0,
            _ => {}
        }
    }

    fn take_actions(&mut self, rt: &(impl Abort + AllocGlobal), actions: &[Action]) {
        self.passed_on = 0;
        self.sent_there = 0;
        self.closed_there = false;
        self.ceas = 0;
        self.dpas = 0;
        for action in actions {
            self.take_action(rt, action);
        }
    }

    fn take_action(&mut self, rt: &(impl Abort + AllocGlobal), action: &Action) {
        match action {
            Action::Up(octets) => self
                .ups
                .push(number_of(octets.as_slice()))
                .expect(rt, "memory"),
            Action::Send(conn, octets) => self.take_send(conn.0, octets.as_slice()),
            Action::Close(conn) => self.closed_there = self.closed_there
                || self.owed == Some(conn.0),
            Action::Connect(_) => {}
        }
    }

    fn take_send(&mut self, conn: u64, octets: &[u8]) {
        one_more(
            &mut self.passed_on,
            self.open_before == Some(conn) && is_other(octets),
        );
        if self.owed == Some(conn) {
            one_more(&mut self.sent_there, true);
            one_more(&mut self.ceas, is_answer(octets, 257));
            one_more(&mut self.dpas, is_answer(octets, 282));
        }
    }
}

/// The octets are those of the message that is submitted.
fn is_other(octets: &[u8]) -> bool {
    match MessageRef::read(octets) {
        Ok(message) => message.header.command == 300 && octets.len() == 20,
        Err(_) => false,
    }
}
