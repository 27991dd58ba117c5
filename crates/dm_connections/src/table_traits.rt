//! The traits of what a table of connections can hold.
ghost use Rattle.std.specs.Prelude.{◌≡◌, ◌↔◌, IsTrue, OnOk, OnErr, IfOk, IfSome, IfNone};

use crate::ends::Ends;
use std::alloc::{AllocError, Global};

/// What is held of two ends: of each direction some octets, and messages that are handed out.
pub trait TwoWay: Drop {
    /// One direction.
    type Way;

    ghost use Rattle.std.specs.Prelude.{ℕ, ◌<◌, ◌^◌, Bool, List};
    ghost use Rattle.dm_connections.specs.declared.ends.Ends.{Ends};

    // Nothing came, for messages of at most so many octets.
    ghost new_of: { ℕ → Ends → Self };

    // How many octets were passed over, how many came that can't be read since they are secured, how many are held, and
    // how many came and weren't handed out.
    ghost passed_in: { Self → ℕ };

    ghost secured_in: { Self → ℕ };

    ghost held_in: { Self → ℕ };

    ghost pending_in: { Self → ℕ };

    // One direction, from the first end or else from the second one, and all with another one in its place.
    ghost one_way: { Bool → Self → Self.Way };

    ghost with_way: { Bool → Self.Way → Self → Self };

    // A message is handed out, or none.
    ghost Hands: { Self.Way → List ℕ → Self.Way → Type 0 };

    ghost HandsNone: { Self.Way → Self.Way → Type 0 };

    /// What is held of these ends before anything came, for messages of at most `max_message_len` octets.
    fn new_between(alloc: Global, ends: Ends, max_message_len: u32) -> Self
        ensures { result ≡ new_of max_message_len ends };

    /// How many octets were passed over in both directions.
    fn octets_passed_over(&self) -> u64
        ensures { result ≡ passed_in self.now };

    /// How many octets of Diameter over DTLS came in both directions, which aren't read (RFC 6733, 2.1 and 11.5).
    fn octets_of_dtls(&self) -> u64
        ensures { result ≡ secured_in self.now };

    /// How many octets are held in both directions.
    fn octets_held(&self) -> u64
        ensures { result ≡ held_in self.now };

    /// How many octets came in both directions that were neither handed out nor passed over.
    fn octets_held_that_came(&self) -> u64
        ensures { result ≡ pending_in self.now };

    /// Hands out the next whole message from the first end, or else from the second one; None where it isn't whole yet.
    fn next_message(&mut self, from_first: bool) -> Result<Option<Vec<u8>>, AllocError>
        ensures message { IfOk result (λ found. IfSome found
            (λ message. Hands (one_way from_first self.old) message.items (one_way from_first self.new))) }
        ensures none { IfOk result (λ found. IfNone found
            (HandsNone (one_way from_first self.old) (one_way from_first self.new))) }
        ensures unchanged { OnErr result (self.new ≡ self.old) }
        ensures other { self.new ≡ with_way from_first (one_way from_first self.new) self.old };

    ghost held_fits: { (c : Self) → held_in c < 2 ^ 64 };

    ghost new_holds_none: { (max : ℕ) (ends : Ends) → held_in (new_of max ends) ≡ 0 };
}

/// What takes what its ends send: a TCP segment, say.
pub trait Takes<S: Copy>: TwoWay {
    ghost use Rattle.dm_connections.specs.declared.ends.Ends.{Ends};

    // Who sent it, and whom it is for.
    ghost between: { S → Ends };

    // A Capabilities-Exchange-Request begins in it (RFC 6733, 5.3.1).
    ghost BeginsExchange: { S → Type 0 };

    // It came.
    ghost TakesSent: { Self → S → Self → Type 0 };

    // What is left where memory is wanted.
    ghost LeavesSent: { Self → S → Self → Type 0 };

    /// Who sent it, and then whom it is for.
    fn sender_and_receiver_of(sent: S) -> Ends
        ensures { result ≡ between sent };

    /// Whether a Capabilities-Exchange-Request may begin in it, as its header tells: of a TCP segment, where its octets
    /// begin with that. It takes no memory.
    fn cer_begins_in(sent: S) -> bool
        ensures { IsTrue result ↔ BeginsExchange sent };

    /// Takes what one end sent.
    fn take_sent(&mut self, sent: S) -> Result<(), AllocError>
        ensures taken { OnOk result (TakesSent self.old sent self.new) }
        ensures left { OnErr result (LeavesSent self.old sent self.new) };
}
