//! A node of many neighbours, as a charging server has them: each read of a stream goes to the node, each request that
//! is handed up is answered, and clocks run, connections are lost, cross and come again.
use crate::chance::Chance;
use crate::digest::Digest;
use crate::draft::put;
use crate::messages::{Samples, capabilities, letters_of};
use anyhow::Result;
use dm_dict::Ip;
use dm_node::{Action, Answer, Config, Conn, Node, Order, OrderFault, PeerFault, Told};
use dm_peer::State;
use std::alloc::Global;

const NEIGHBOURS: usize = 2000;

/// How many octets a read has.
const READ: usize = 1460;

/// How many octets a read has where much has come meanwhile.
const LARGE_READ: usize = 65_536;

/// The longest message before the capabilities exchange, and behind it.
const FIRST_MAX: u32 = 4096;

const MAX: u32 = 1_048_576;

/// The node's own host, which comes behind about half of its neighbours'.
const OWN_HOST: &[u8] = b"gateway-hh.charging.epc.example.net";

/// A neighbour's host. Its letters behind the first eight are its number's.
const HOST: &[u8] = b"gateway-aaaaaaaa.region1.epc.example.net";

/// Where those letters stand in a Capabilities-Exchange-Request, and in an answer.
const REQUEST_LETTERS: usize = 36;

const ANSWER_LETTERS: usize = 48;

/// The first number of a host that is no neighbour's.
const STRANGERS: u32 = 0x0100_0000;

/// The node as it answers `amount` reads and what comes between them.
pub fn run(alloc: Global, chance: &mut Chance, amount: u32, digest: &mut Digest) -> Result<()> {
    match Samples::new(alloc, chance) {
        Ok(samples) => run_node(alloc, samples, chance, amount, digest),
        Err(error) => Err(error),
    }
}

fn run_node(
    alloc: Global,
    samples: Samples,
    chance: &mut Chance,
    amount: u32,
    digest: &mut Digest,
) -> Result<()> {
    match own_node(alloc) {
        Ok(own) => {
            let node = Node::new(alloc, own, FIRST_MAX, MAX);
            let mut driver = Driver::new(alloc, samples, node, *chance);
            let done = driver.run(amount);
            digest.add(driver.notes.digest.value());
            drop(driver);
            done
        }
        Err(error) => Err(error),
    }
}

/// What the node says of itself.
fn own_node(alloc: Global) -> Result<dm_peer::Node> {
    let mut addresses = Vec::new(alloc);
    addresses.push(Ip::V4([10, 0, 0, 2]))?;
    let host = Vec::from_slice(alloc, OWN_HOST)?;
    let realm = Vec::from_slice(alloc, b"epc.example.net")?;
    let product = String::from_str(alloc, "charging")?;
    let auth = Vec::from_slice(alloc, &[4])?;
    let node = dm_peer::Node::new(
        host,
        realm,
        addresses,
        10415,
        product,
        auth,
        Vec::new(alloc),
    )?;
    Ok(node)
}

/// The configuration of which each neighbour's is made.
fn template(alloc: Global) -> Result<Config> {
    let host = Vec::from_slice(alloc, HOST)?;
    let node = own_node(alloc)?;
    let config = Config::new(alloc, node, host, 1)?;
    Ok(config)
}

/// Whether the message is a request.
fn is_request(octets: &[u8]) -> bool {
    match octets.get(4) {
        Some(flags) => *flags & 0x80 != 0,
        None => false,
    }
}

/// The Hop-by-Hop Identifier of a message.
fn number_of(octets: &[u8]) -> u32 {
    match octets.get(12..) {
        Some([first, second, third, fourth, ..]) => {
            u32::from_be_bytes([*first, *second, *third, *fourth])
        }
        _ => 0,
    }
}

fn fault_number(fault: OrderFault) -> u64 {
    match fault {
        OrderFault::NoNeighbour => 11,
        OrderFault::Peer(PeerFault::NotClosed) => 13,
        OrderFault::Peer(PeerFault::NotOpen) => 14,
        OrderFault::Peer(PeerFault::BadSubmit) => 15,
        OrderFault::Peer(PeerFault::NoMemory) => 16,
    }
}

/// What the actions ask for.
#[derive(Drop)]
struct Notes {
    digest: Digest,
    /// The numbers of the requests that were handed up.
    asked: Vec<u32>,
    /// The number of the last request that the node made itself.
    own: Option<u32>,
}

impl Notes {
    /// Notes what was told, if anything was.
    fn note_told(&mut self, answer: &Answer) -> Result<()> {
        match answer.told {
            Told::Nothing => Ok(()),
            _ => self.note(answer),
        }
    }

    /// Notes what an order came to.
    fn note_order(&mut self, done: Result<(), OrderFault>, answer: &Answer) -> Result<()> {
        match done {
            Ok(()) => self.note_told(answer),
            Err(fault) => {
                self.digest.add(fault_number(fault));
                Ok(())
            }
        }
    }

    fn note(&mut self, answer: &Answer) -> Result<()> {
        let neighbour = answer.neighbour.unwrap_or(NEIGHBOURS);
        self.digest.add(neighbour as u64);
        for action in answer.actions.as_slice() {
            self.note_action(action)?;
        }
        Ok(())
    }

    fn note_action(&mut self, action: &Action) -> Result<()> {
        match action {
            Action::Connect(conn) => self.add(1, *conn, b""),
            Action::Send(conn, octets) => {
                self.add(2, *conn, octets.as_slice());
                if is_request(octets.as_slice()) {
                    self.own = Some(number_of(octets.as_slice()));
                }
            }
            Action::Close(conn) => self.add(3, *conn, b""),
            Action::Up(octets) => {
                self.add(4, Conn(0), octets.as_slice());
                if is_request(octets.as_slice()) {
                    self.asked.push(number_of(octets.as_slice()))?;
                }
            }
        }
        Ok(())
    }

    fn add(&mut self, kind: u64, conn: Conn, octets: &[u8]) {
        self.digest.add(kind);
        self.digest.add(conn.0);
        self.digest.add_octets(octets);
    }
}

/// What is kept of a neighbour.
#[derive(Drop)]
struct Link {
    /// The connection that was made last.
    conn: Conn,
    /// What comes next of its stream: the rest of a message of which the front came.
    rest: Vec<u8>,
    /// The number of the node's watchdog that it is to answer.
    awaited: Option<u32>,
}

/// Who drives the node, and each neighbour's other side.
#[derive(Drop)]
struct Driver {
    alloc: Global,
    chance: Chance,
    samples: Samples,
    node: Node,
    /// Lent to each call of the node.
    answer: Answer,
    notes: Notes,
    links: Vec<Link>,
    last_conn: u64,
    last_number: u32,
    /// The capabilities exchange of a neighbour.
    call: Vec<u8>,
    call_answer: Vec<u8>,
    /// A message that is made.
    message: Vec<u8>,
    /// A read.
    piece: Vec<u8>,
}

impl Driver {
    fn new(alloc: Global, samples: Samples, node: Node, chance: Chance) -> Driver {
        let notes = Notes {
            digest: Digest::new(),
            asked: Vec::new(alloc),
            own: None,
        };
        Driver {
            alloc,
            chance,
            samples,
            node,
            answer: Answer::new(),
            notes,
            links: Vec::new(alloc),
            last_conn: 0,
            last_number: 0,
            call: Vec::new(alloc),
            call_answer: Vec::new(alloc),
            message: Vec::new(alloc),
            piece: Vec::new(alloc),
        }
    }

    fn run(&mut self, amount: u32) -> Result<()> {
        self.call
            .extend_from_slice(capabilities(self.alloc, HOST, true)?.as_slice())?;
        self.call_answer
            .extend_from_slice(capabilities(self.alloc, HOST, false)?.as_slice())?;
        self.add_neighbours()?;
        for index in 0..NEIGHBOURS {
            self.be_called(index)?;
        }
        for _ in 0..amount {
            self.go_on()?;
        }
        Ok(())
    }

    fn add_neighbours(&mut self) -> Result<()> {
        match template(self.alloc) {
            Ok(template) => {
                let done = self.add_each(&template);
                drop(template);
                done
            }
            Err(error) => Err(error),
        }
    }

    fn add_each(&mut self, template: &Config) -> Result<()> {
        self.message.extend_from_slice(HOST)?;
        for number in 0..NEIGHBOURS as u32 {
            put(&mut self.message, 8, &letters_of(number));
            let config = template.for_host(self.alloc, self.message.as_slice())?;
            let _index = self.node.add(config)?;
            self.links.push(Link {
                conn: Conn(0),
                rest: Vec::new(self.alloc),
                awaited: None,
            })?;
        }
        Ok(())
    }

    /// One thing happens to a neighbour by chance.
    fn go_on(&mut self) -> Result<()> {
        let index = self.chance.index(NEIGHBOURS);
        match self.node.state_of(index) {
            Some(State::ROpen | State::IOpen) => {}
            _ => self.begin_anew(index)?,
        }
        match self.chance.below(512) {
            0 => self.lose(index),
            1 => self.cross(index),
            2 => self.come_strange(),
            3..6 => self.read_damaged(index),
            6..14 => self.read(index, LARGE_READ),
            14..78 => self.tick(index),
            _ => self.read(index, READ),
        }
    }

    /// A number that no connection had before.
    fn next_conn(&mut self) -> Conn {
        self.last_conn = self.last_conn.wrapping_add(1);
        Conn(self.last_conn)
    }

    /// Gives an order without octets.
    fn order(&mut self, order: Order<'_>) -> Result<()> {
        let done = self.node.order(self.alloc, order, &mut self.answer);
        self.notes.note_order(done, &self.answer)
    }

    /// The connection of a neighbour.
    fn conn_of(&self, index: usize) -> Conn {
        match self.links.get(index) {
            Some(link) => link.conn,
            None => Conn(0),
        }
    }

    /// The neighbour has this connection from now on.
    fn link(&mut self, index: usize, conn: Conn) {
        if let Some(link) = self.links.get_mut(index) {
            link.conn = conn;
            link.rest.clear();
            link.awaited = None;
        }
    }
}

/// How connections are made and lost.
impl Driver {
    /// A neighbour that isn't open gets a new connection.
    fn begin_anew(&mut self, index: usize) -> Result<()> {
        if self.node.state_of(index) != Some(State::Closed) {
            self.order(Order::Reset(index))?;
        }
        if self.chance.is_one_of(8) {
            self.call_neighbour(index)
        } else {
            self.be_called(index)
        }
    }

    /// The neighbour makes a connection.
    fn be_called(&mut self, index: usize) -> Result<()> {
        let conn = self.next_conn();
        self.link(index, conn);
        self.order(Order::Accept(conn))?;
        self.say_host(conn, u32::try_from(index).unwrap_or(0))
    }

    /// The host of this number says who it is.
    fn say_host(&mut self, conn: Conn, number: u32) -> Result<()> {
        self.last_number = self.last_number.wrapping_add(1);
        self.piece.clear();
        self.piece.extend_from_slice(self.call.as_slice())?;
        put(&mut self.piece, 12, &self.last_number.to_be_bytes());
        put(&mut self.piece, 16, &self.last_number.to_be_bytes());
        put(&mut self.piece, REQUEST_LETTERS, &letters_of(number));
        self.tell_piece(conn)
    }

    /// The host of this number answers who it is.
    fn answer_host(&mut self, conn: Conn, number: u32) -> Result<()> {
        let asked = self.notes.own.unwrap_or(0);
        self.piece.clear();
        self.piece.extend_from_slice(self.call_answer.as_slice())?;
        put(&mut self.piece, 12, &asked.to_be_bytes());
        put(&mut self.piece, 16, &asked.to_be_bytes());
        put(&mut self.piece, ANSWER_LETTERS, &letters_of(number));
        self.tell_piece(conn)
    }

    /// The node makes the connection.
    fn call_neighbour(&mut self, index: usize) -> Result<()> {
        let conn = self.next_conn();
        self.link(index, conn);
        self.order(Order::Start(index, conn))?;
        self.order(Order::Ack(conn))?;
        self.answer_host(conn, u32::try_from(index).unwrap_or(0))
    }

    /// The connection is lost, and made again.
    fn lose(&mut self, index: usize) -> Result<()> {
        self.order(Order::Gone(self.conn_of(index)))?;
        self.begin_anew(index)
    }

    /// The connection is lost, and both sides make it again at once (RFC 6733, 5.6.4).
    fn cross(&mut self, index: usize) -> Result<()> {
        self.order(Order::Gone(self.conn_of(index)))?;
        let own = self.next_conn();
        self.order(Order::Start(index, own))?;
        if self.chance.is_one_of(2) {
            self.be_called(index)?;
            self.order(Order::Ack(own))?;
        } else {
            self.order(Order::Ack(own))?;
            self.be_called(index)?;
        }
        if self.node.state_of(index) == Some(State::WaitReturns) {
            self.lose_election(index, own)?;
        }
        Ok(())
    }

    /// The other side won: it answers on the connection that the node made, or that one is lost.
    fn lose_election(&mut self, index: usize, own: Conn) -> Result<()> {
        if self.chance.is_one_of(4) {
            self.order(Order::Gone(own))
        } else {
            self.link(index, own);
            self.answer_host(own, u32::try_from(index).unwrap_or(0))
        }
    }

    /// A host that is no neighbour says who it is.
    fn come_strange(&mut self) -> Result<()> {
        let conn = self.next_conn();
        self.order(Order::Accept(conn))?;
        let number = self.chance.word() | STRANGERS;
        self.say_host(conn, number)
    }
}

/// What comes on a connection.
impl Driver {
    /// A watchdog's time is over.
    fn tick(&mut self, index: usize) -> Result<()> {
        self.notes.own = None;
        self.order(Order::Tick(index))?;
        let own = self.notes.own;
        if let (Some(link), Some(number)) = (self.links.get_mut(index), own) {
            link.awaited = Some(number);
        }
        Ok(())
    }

    /// Messages come, so many octets or, two in five times, whole ones.
    fn read(&mut self, index: usize, length: usize) -> Result<()> {
        self.begin_piece(index)?;
        for _ in 0..length {
            if self.piece.len() >= length {
                break;
            }
            self.make_message()?;
            self.piece.extend_from_slice(self.message.as_slice())?;
        }
        if self.chance.below(5) < 3 {
            self.cut_piece(index, length)?;
        }
        self.tell_read(index)
    }

    /// A damaged message comes.
    fn read_damaged(&mut self, index: usize) -> Result<()> {
        self.begin_piece(index)?;
        self.last_number = self.last_number.wrapping_add(1);
        if let Some(sample) = self.samples.pick(&mut self.chance) {
            sample.copy(self.last_number, &mut self.message)?;
            sample.damage(&mut self.chance, &mut self.message);
        }
        self.piece.extend_from_slice(self.message.as_slice())?;
        self.tell_read(index)
    }

    /// The read begins with the rest of a message, and the answer to a watchdog, where they are due.
    fn begin_piece(&mut self, index: usize) -> Result<()> {
        self.piece.clear();
        if let Some(link) = self.links.get_mut(index) {
            self.piece.extend_from_slice(link.rest.as_slice())?;
            link.rest.clear();
            if let Some(number) = link.awaited
                && let Some(sample) = self.samples.watchdog_answer(&mut self.chance)
            {
                link.awaited = None;
                sample.copy(number, &mut self.message)?;
                put(&mut self.message, 16, &number.to_be_bytes());
                self.piece.extend_from_slice(self.message.as_slice())?;
            }
        }
        Ok(())
    }

    /// A message of the mix.
    fn make_message(&mut self) -> Result<()> {
        self.last_number = self.last_number.wrapping_add(1);
        match self.samples.pick(&mut self.chance) {
            Some(sample) => sample.copy(self.last_number, &mut self.message),
            None => Ok(()),
        }
    }

    /// What is behind so many octets comes later.
    fn cut_piece(&mut self, index: usize, length: usize) -> Result<()> {
        if let (Some(link), Some(rest)) = (self.links.get_mut(index), self.piece.get(length..)) {
            link.rest.extend_from_slice(rest)?;
        }
        self.piece.truncate(length);
        Ok(())
    }

    /// Tells the read, and answers the requests that are handed up.
    fn tell_read(&mut self, index: usize) -> Result<()> {
        self.tell_piece(self.conn_of(index))?;
        for at in 0..self.notes.asked.len() {
            let number = self.notes.asked.get(at).copied().unwrap_or(0);
            self.submit(index, number)?;
        }
        self.notes.asked.clear();
        Ok(())
    }

    /// The user answers the request of this number, now and then by what is no good message.
    fn submit(&mut self, index: usize, number: u32) -> Result<()> {
        if let Some(sample) = self.samples.answer(&mut self.chance) {
            sample.copy(number, &mut self.message)?;
            if self.chance.is_one_of(256) {
                sample.damage(&mut self.chance, &mut self.message);
            }
        }
        let order = Order::Submit(index, self.message.as_slice());
        let done = self.node.order(self.alloc, order, &mut self.answer);
        self.notes.note_order(done, &self.answer)
    }

    /// Tells what came, turn by turn.
    fn tell_piece(&mut self, conn: Conn) -> Result<()> {
        let mut told = 0usize;
        for _ in 0..=self.piece.len() {
            if told >= self.piece.len() {
                break;
            }
            told = told.saturating_add(self.hear(conn, told)?);
        }
        Ok(())
    }

    /// How many octets are taken behind so many of the read, at one turn of it.
    fn hear(&mut self, conn: Conn, told: usize) -> Result<usize> {
        let piece = self.piece.get(told..).unwrap_or(b"");
        match self
            .node
            .hear(self.alloc, &(), conn, piece, &mut self.answer)
        {
            Ok(length) => self.notes.note_told(&self.answer).and(Ok(length)),
            Err(error) => Err(error.into()),
        }
    }
}
