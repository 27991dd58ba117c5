//! What a peer may be told, and the octets of it.
use dm_peer::{Cause, Conn, Event, Peer};
use std::process::Abort;

/// The connection that a.example opens.
pub(super) const I: u64 = 0;
/// One that b.example opened.
pub(super) const R: u64 = 9;

/// What b.example says.
#[derive(Clone, Copy, Debug, PartialEq)]
pub(super) enum Said {
    Cer,
    /// An answer of success, under the number that a.example awaits.
    Cea,
    Dwr,
    /// The same of a watchdog.
    Dwa,
    /// A watchdog's answer under a number that nobody awaits.
    StrayDwa,
    Dpr,
    /// Two messages of another command, told apart by their numbers.
    One,
    Two,
    /// Octets that are no message.
    Broken,
}

/// What a.example is told.
#[derive(Clone, Copy, Debug, PartialEq)]
pub(super) enum Letter {
    Start,
    Stop,
    Timeout,
    Tick,
    Ack,
    Gone(u64),
    Submit,
    Hears(u64, Said),
}

/// The CER of b.example, of application 4, with number 9.
pub(super) const CER_OF_B: &str =
    "01000070800001010000000000000009000000090000010840000011622e6578616d706c65000000000001284000000f6578616d706c6500000001014000000e00017f00000100000000010a4000000c000000000000010d0000000e646d706565720000000001024000000c00000004";

/// Answers of b.example, with a number between the front and the rest.
const CEA_FRONT: &str = "0100007c0000010100000000";

const CEA_REST: &str =
    "000000010000010c4000000c000007d10000010840000011622e6578616d706c65000000000001284000000f6578616d706c6500000001014000000e00017f00000100000000010a4000000c000000000000010d0000000e646d706565720000000001024000000c00000004";

const DWA_FRONT: &str = "010000440000011800000000";

const DWA_REST: &str =
    "000000020000010c4000000c000007d10000010840000011622e6578616d706c65000000000001284000000f6578616d706c6500";

/// The DWR of b.example.
pub(super) const DWR_OF_B: &str =
    "01000038800001180000000000000005000000050000010840000011622e6578616d706c65000000000001284000000f6578616d706c6500";

/// The DPR of b.example.
pub(super) const DPR_OF_B: &str =
    "010000448000011a0000000000000005000000050000010840000011622e6578616d706c65000000000001284000000f6578616d706c6500000001114000000c00000000";

/// A request of command 300 with number 1.
pub(super) const ONE: &str = "010000148000012c000000000000000100000001";

/// The same with number 2.
pub(super) const TWO: &str = "010000148000012c000000000000000200000002";

fn decoded(rt: &(impl Abort + AllocGlobal), digits: &str) -> Vec<u8> {
    hex::decode(rt.alloc(), digits.as_bytes()).expect(rt, "digits")
}

/// The octets of an answer under this number, or under 0.
fn answer(
    rt: &(impl Abort + AllocGlobal),
    front: &str,
    number: Option<u32>,
    rest: &str,
) -> Vec<u8> {
    let mut octets = decoded(rt, front);
    octets
        .extend_from_slice(&number.unwrap_or(0).to_be_bytes())
        .expect(rt, "memory");
    let rest = decoded(rt, rest);
    octets
        .extend_from_slice(rest.as_slice())
        .expect(rt, "memory");
    drop(rest);
    octets
}

fn stray(number: Option<u32>) -> Option<u32> {
    Some(number.unwrap_or(0).wrapping_add(1000))
}

fn octets_said(rt: &(impl Abort + AllocGlobal), said: Said, peer: &Peer) -> Vec<u8> {
    match said {
        Said::Cer => decoded(rt, CER_OF_B),
        Said::Cea => answer(rt, CEA_FRONT, peer.awaited(257), CEA_REST),
        Said::Dwr => decoded(rt, DWR_OF_B),
        Said::Dwa => answer(rt, DWA_FRONT, peer.awaited(280), DWA_REST),
        Said::StrayDwa => answer(rt, DWA_FRONT, stray(peer.awaited(280)), DWA_REST),
        Said::Dpr => decoded(rt, DPR_OF_B),
        Said::One => decoded(rt, ONE),
        Said::Two => decoded(rt, TWO),
        Said::Broken => decoded(rt, "010000"),
    }
}

/// The octets that come, or are submitted.
pub(super) fn octets(rt: &(impl Abort + AllocGlobal), letter: Letter, peer: &Peer) -> Vec<u8> {
    match letter {
        Letter::Hears(_, said) => octets_said(rt, said, peer),
        Letter::Submit => decoded(rt, ONE),
        _ => Vec::new(rt.alloc()),
    }
}

pub(super) fn event(letter: Letter, octets: &[u8]) -> Event<'_> {
    match letter {
        Letter::Start => Event::Start(Conn(I)),
        Letter::Stop => Event::Stop(Cause::Rebooting),
        Letter::Timeout => Event::Timeout,
        Letter::Tick => Event::Tick,
        Letter::Ack => Event::Ack(Conn(I)),
        Letter::Gone(conn) => Event::Gone(Conn(conn)),
        Letter::Submit => Event::Submit(octets),
        Letter::Hears(conn, _) => Event::Arrived(Conn(conn), octets),
    }
}
