//! The connections that are there, by number.
ghost use Rattle.std.specs.Prelude.{◌≡◌, ◌∷◌, [], ℕ, true, false, List, Option, None, Some, IfSome, IfNone, cond, take};
ghost use Rattle.std.specs.Prelude.{IfOk, OnOk, OnErr, nat_eq};
ghost use Rattle.indexmap.specs.IndexMap.{get};
ghost use Rattle.std.specs.Option.{option_copied, option_map};
ghost use Rattle.dm_framer.specs.Frames.{BeginsWithNoFrame};
ghost use Rattle.dm_slots.specs.Intakes.{none_there, is_there, opened, taken_down, changed, raised_at, left_by};
ghost use Rattle.dm_slots.specs.Intakes.{fed_intake, unfed_intake, broken_intake, with_intake, IsFirst};
ghost use Rattle.dm_slots.specs.Intakes.{Intake as OneIntake};
ghost use Rattle.dm_slots.specs.Fronts.{IsFrontAt};
ghost use Rattle.dm_slots.specs.Hearing.{IsWholeAt, IsNotWhole, TakesFrontAt};
ghost use Rattle.dm_slots.specs.Held.{intakes_of, owners_of, owner_in, no_owner, owned_by, disowned_by, closed_by};

use crate::intake::{Front, Intake};
use dm_machine::Conn;
use dm_peer::Action;
use indexmap::IndexMap;
use std::alloc::{AllocError, Global};

/// A connection that is there.
#[derive(Drop)]
pub(crate) struct Slot {
    /// What came on it and wasn't told yet.
    intake: Intake,
    /// Whose it is: a number that who keeps the connections gives it.
    owner: Option<usize>,
}

/// What is said of a piece that came on a connection.
#[derive(Clone, Copy)]
pub struct Arrival {
    /// Whose the connection is, where it is there and has an owner.
    pub owner: Option<usize>,
    /// How many octets the whole message has with which the piece begins, where the connection is there and nothing is
    /// kept of it.
    pub message_len: Option<usize>,
}

/// The connections that are there, by number, each with what came on it and wasn't told yet, and with its owner. Who
/// drives peers has them beside those.
#[derive(Drop)]
pub struct Slots {
    map: IndexMap<u64, Slot>,
    /// The place in `map` of the connection that is looked at first: the one on which octets came last.
    last: usize,
}

/// What is said of a piece that came on a connection which isn't there.
fn nowhere() -> Arrival
    ensures owner { result.owner ≡ None }
    ensures none { result.message_len ≡ None }
{
    Arrival {
        owner: None,
        message_len: None,
    }
}

impl Slot {
    #[tactic(auto, using(crate::proofs::Steps::whole, crate::proofs::Steps::not_whole))]
    /// What is said of a piece that came on the connection.
    #[inline(always)]
    fn arrival(&self, piece: &[u8]) -> Arrival
        ensures owner { result.owner ≡ self.now.owner }
        ensures whole { (o : Option OneIntake) → Some self.now.intake ≡ o
            → IfSome result.message_len (λ size. IsWholeAt o piece.now size) }
        ensures none { (o : Option OneIntake) → Some self.now.intake ≡ o
            → IfNone result.message_len (IfSome o (λ i. IsNotWhole i piece.now)) }
    {
        Arrival {
            owner: self.owner,
            message_len: self.intake.whole_message_len(piece),
        }
    }
}

impl Slots {
    /// No connections. It never answers want of memory.
    pub fn new(alloc: Global) -> Slots
        ensures none { intakes_of result ≡ none_there }
        ensures owners { owners_of result ≡ no_owner }
    {
        Slots {
            map: IndexMap::new(alloc),
            last: 0,
        }
    }

    /// The connection, where it is the one that is looked at first.
    #[inline(always)]
    fn slot_looked_at_first(&self, conn: Conn) -> Option<&Slot>
        ensures intake { IfSome (option_copied result) (λ s. Some s.intake ≡ intakes_of self.now conn.0) }
        ensures owner { IfSome (option_copied result) (λ s. s.owner ≡ owners_of self.now conn.0) }
    {
        match self.map.get_index(self.last) {
            Some((number, slot)) if *number == conn.0 => Some(slot),
            _ => None,
        }
    }

    /// The connection, where it is there.
    fn slot(&self, conn: Conn) -> Option<&Slot>
        ensures intake { option_map (λ s. s.intake) (option_copied result) ≡ intakes_of self.now conn.0 }
        ensures owner { owner_in (option_copied result) ≡ owners_of self.now conn.0 }
    {
        match self.slot_looked_at_first(conn) {
            Some(slot) => Some(slot),
            None => self.map.get(&conn.0),
        }
    }

    /// What came on the connection, where it is there.
    fn intake(&self, conn: Conn) -> Option<&Intake>
        ensures { option_copied result ≡ intakes_of self.now conn.0 }
    {
        match self.slot(conn) {
            Some(slot) => Some(&slot.intake),
            None => None,
        }
    }

    /// Whose the connection is, where it is there and has an owner. It never answers want of memory.
    pub fn owner(&self, conn: Conn) -> Option<usize>
        ensures { result ≡ owners_of self.now conn.0 }
    {
        match self.slot(conn) {
            Some(slot) => slot.owner,
            None => None,
        }
    }

    /// The connection, if it is one and there, is nobody's. It never answers want of memory.
    pub fn disown(&mut self, conn: Option<Conn>)
        ensures intakes { intakes_of self.new ≡ intakes_of self.old }
        ensures owners { owners_of self.new ≡ disowned_by conn (owners_of self.old) }
    {
        if let Some(conn) = conn {
            if let Some(slot) = self.map.get_mut(&conn.0) {
                slot.owner = None;
            }
        }
    }

    /// The connection, if it is one and there, is of this owner. It never answers want of memory.
    pub fn set_owner(&mut self, conn: Option<Conn>, owner: usize)
        ensures intakes { intakes_of self.new ≡ intakes_of self.old }
        ensures owners { ((c : Conn) → conn ≡ Some c → is_there c.0 (intakes_of self.old) ≡ true)
            → owners_of self.new ≡ owned_by conn owner (owners_of self.old) }
    {
        if let Some(conn) = conn {
            if let Some(slot) = self.map.get_mut(&conn.0) {
                slot.owner = Some(owner);
            }
        }
    }

    /// Whether the connection is there. It never answers want of memory.
    pub fn has(&self, conn: Conn) -> bool
        ensures { result ≡ is_there conn.0 (intakes_of self.now) }
    {
        self.intake(conn).is_some()
    }

    #[tactic(auto, using(crate::proofs::Steps::front_there, crate::proofs::Steps::front_none))]
    /// What stands at the front of what came on the connection; Nothing where it isn't there. It never answers want of
    /// memory.
    pub fn front(&self, conn: Conn) -> Front<'_>
        ensures { IsFrontAt (intakes_of self.now conn.0) result }
    {
        match self.intake(conn) {
            Some(intake) => intake.front(),
            None => Front::Nothing,
        }
    }

    #[tactic(auto, using(crate::proofs::Steps::whole, crate::proofs::Steps::not_whole, crate::proofs::Steps::nowhere))]
    /// How many octets the whole message has with which the piece begins, where the connection is there and nothing is
    /// kept of it; None where the connection isn't there or something is kept, behind a fault, or where the piece
    /// begins with none. It never answers want of memory.
    pub fn whole_message_len(&self, conn: Conn, piece: &[u8]) -> Option<usize>
        ensures whole { IfSome result (λ size. IsWholeAt (intakes_of self.now conn.0) piece.now size) }
        ensures none { IfNone result (IfSome (intakes_of self.now conn.0) (λ i. IsNotWhole i piece.now)) }
    {
        match self.intake(conn) {
            Some(intake) => intake.whole_message_len(piece),
            None => None,
        }
    }

    /// The connection is there: as it was, or, if it wasn't, as a new one for messages of at most `max` octets.
    pub fn add_unless_there(
        &mut self,
        alloc: Global,
        conn: Conn,
        max: u32,
    ) -> Result<(), AllocError>
        ensures opened { OnOk result (intakes_of self.new ≡ opened max conn.0 (intakes_of self.old)) }
        ensures unchanged { OnErr result (intakes_of self.new ≡ intakes_of self.old) }
        // Memory is wanted only for a connection that wasn't there.
        ensures memory { OnErr result (is_there conn.0 (intakes_of self.old) ≡ false) }
        ensures owners { owners_of self.new ≡ owners_of self.old }
    {
        if self.has(conn) {
            return Ok(());
        }
        let slot = Slot {
            intake: Intake::new(alloc, max),
            owner: None,
        };
        match self.map.insert(conn.0, slot) {
            Ok(_) => Ok(()),
            Err(_) => Err(AllocError),
        }
    }

    /// The connection is no more there. It never answers want of memory.
    pub fn shut(&mut self, conn: Conn)
        ensures shut { intakes_of self.new ≡ taken_down conn.0 (intakes_of self.old) }
        ensures owners { owners_of self.new ≡ disowned_by (Some conn) (owners_of self.old) }
    {
        let _gone = self.map.swap_remove(&conn.0);
    }

    /// No connection is there. It never answers want of memory.
    pub fn clear(&mut self)
        ensures none { intakes_of self.new ≡ none_there }
        ensures owners { owners_of self.new ≡ no_owner }
    {
        self.map.clear();
    }

    /// Keeps a piece that came on the connection, where it is there. Notes where that stands, to look at it first.
    pub fn feed(&mut self, conn: Conn, piece: &[u8]) -> Result<(), AllocError>
        ensures fed { OnOk result (intakes_of self.new ≡ changed conn.0 (fed_intake piece.now) (intakes_of self.old)) }
        ensures unchanged { OnErr result (intakes_of self.new ≡ intakes_of self.old) }
        // Nothing is kept of a connection that isn't there.
        ensures memory { OnErr result (is_there conn.0 (intakes_of self.old) ≡ true) }
        ensures owners { owners_of self.new ≡ owners_of self.old }
    {
        self.look_first_at(conn);
        self.feed_found(conn, piece)
    }

    /// Does what [`feed`](Slots::feed) does, and notes nothing.
    fn feed_found(&mut self, conn: Conn, piece: &[u8]) -> Result<(), AllocError>
        ensures fed { OnOk result (intakes_of self.new ≡ changed conn.0 (fed_intake piece.now) (intakes_of self.old)) }
        ensures unchanged { OnErr result (intakes_of self.new ≡ intakes_of self.old) }
        ensures memory { OnErr result (is_there conn.0 (intakes_of self.old) ≡ true) }
        ensures owners { owners_of self.new ≡ owners_of self.old }
    {
        match self.map.get_mut(&conn.0) {
            Some(slot) => slot.intake.feed(piece),
            None => Ok(()),
        }
    }

    /// Keeps of a piece that came on the connection what its first message wants, and answers how many octets were
    /// taken: all of them where that isn't whole with fewer, and where the connection isn't there, which keeps none.
    pub fn feed_front_or_discard(&mut self, conn: Conn, piece: &[u8]) -> Result<usize, AllocError>
        ensures fed { IfOk result (λ size.
            intakes_of self.new ≡ changed conn.0 (fed_intake (take size piece.now)) (intakes_of self.old)) }
        ensures taken { IfOk result (TakesFrontAt (intakes_of self.old conn.0) piece.now) }
        ensures unchanged { OnErr result (intakes_of self.new ≡ intakes_of self.old) }
        // Nothing is kept of a connection that isn't there, nor behind a fault.
        ensures memory { OnErr result ((i : OneIntake) × (intakes_of self.old conn.0 ≡ Some i)
            × (i.is_broken ≡ false)) }
        ensures owners { owners_of self.new ≡ owners_of self.old }
    {
        match self.map.get_mut(&conn.0) {
            Some(slot) => slot.intake.feed_front_or_discard(piece),
            None => Ok(piece.len()),
        }
    }

    /// Takes so many of the octets away again that came last on the connection, where it is there. It never answers
    /// want of memory.
    pub fn take_back(&mut self, conn: Conn, size: usize)
        ensures back { intakes_of self.new ≡ changed conn.0 (unfed_intake size) (intakes_of self.old) }
        ensures owners { owners_of self.new ≡ owners_of self.old }
    {
        if let Some(slot) = self.map.get_mut(&conn.0) {
            slot.intake.take_back(size);
        }
    }

    /// Lets the front message of the connection go. It never answers want of memory.
    pub fn skip_front_message(&mut self, conn: Conn)
        ensures skipped { (intake : OneIntake) (message rest : List ℕ) → intakes_of self.old conn.0 ≡ Some intake
            → IsFirst intake message rest
            → intakes_of self.new ≡ with_intake conn.0 (Some (record intake { octets = rest })) (intakes_of self.old) }
        // Where none stands at its front, or the connection isn't there, nothing changes.
        ensures none { IfSome (intakes_of self.old conn.0) (λ i. BeginsWithNoFrame i.max i.octets)
            → intakes_of self.new ≡ intakes_of self.old }
        ensures owners { owners_of self.new ≡ owners_of self.old }
    {
        if let Some(slot) = self.map.get_mut(&conn.0) {
            slot.intake.skip_front_message();
        }
    }

    /// A fault of the connection was told: what came on it, and what comes, is thrown away. It never answers want of
    /// memory.
    pub fn discard_rest_of_stream(&mut self, alloc: Global, conn: Conn)
        ensures broken { (intake : OneIntake) → intakes_of self.old conn.0 ≡ Some intake
            → intakes_of self.new ≡ with_intake conn.0 (Some (broken_intake intake)) (intakes_of self.old) }
        ensures owners { owners_of self.new ≡ owners_of self.old }
    {
        if let Some(slot) = self.map.get_mut(&conn.0) {
            slot.intake.discard_rest_of_stream(alloc);
        }
    }

    /// The connection, where it is there, and where it stands, by its hash.
    #[inline(never)]
    fn search(&self, conn: Conn) -> Option<(usize, &Slot)>
        ensures { option_map (λ p. p.1.now) result ≡ get nat_eq self.now.map conn.0 }
    {
        match self.map.get_full(&conn.0) {
            Some((index, _, slot)) => Some((index, slot)),
            None => None,
        }
    }

    /// Notes where the connection stands, if it is there, to look at it first. It never answers want of memory.
    #[inline(always)]
    pub fn look_first_at(&mut self, conn: Conn)
        ensures intakes { intakes_of self.new ≡ intakes_of self.old }
        ensures owners { owners_of self.new ≡ owners_of self.old }
    {
        match self.slot_looked_at_first(conn) {
            Some(_) => {}
            None => {
                if let Some((index, _)) = self.search(conn) {
                    self.last = index;
                }
            }
        }
    }

    /// Whose the connection is, and how many octets the whole message has with which the piece that came on it begins:
    /// what [`owner`](Slots::owner) and [`whole_message_len`](Slots::whole_message_len) say, at one look. Notes where
    /// the connection stands, if it is there, to look at it first. It never answers want of memory.
    #[inline(always)]
    pub fn look_at_arrival(&mut self, conn: Conn, piece: &[u8]) -> Arrival
        ensures owner { result.owner ≡ owners_of self.old conn.0 }
        ensures whole { IfSome result.message_len (λ size. IsWholeAt (intakes_of self.old conn.0) piece.now size) }
        ensures none { IfNone result.message_len (IfSome (intakes_of self.old conn.0) (λ i. IsNotWhole i piece.now)) }
        ensures intakes { intakes_of self.new ≡ intakes_of self.old }
        ensures owners { owners_of self.new ≡ owners_of self.old }
    {
        match self.slot_looked_at_first(conn) {
            Some(slot) => slot.arrival(piece),
            None => match self.search(conn) {
                Some((index, slot)) => {
                    let arrival = slot.arrival(piece);
                    self.last = index;
                    arrival
                }
                None => nowhere(),
            },
        }
    }

    /// The connection, where it is there, takes messages of at most `max` octets.
    fn set_max_message_len(&mut self, conn: Conn, max: u32)
        ensures raised { intakes_of self.new ≡ raised_at max (Some conn) (intakes_of self.old) }
        ensures owners { owners_of self.new ≡ owners_of self.old }
    {
        if let Some(slot) = self.map.get_mut(&conn.0) {
            slot.intake.set_max_message_len(max);
        }
    }

    /// The connection, if it is one and there, takes messages of at most `max` octets. It never answers want of memory.
    pub fn set_max_message_len_if_there(&mut self, conn: Option<Conn>, max: u32)
        ensures raised { intakes_of self.new ≡ raised_at max conn (intakes_of self.old) }
        ensures owners { owners_of self.new ≡ owners_of self.old }
    {
        if let Some(conn) = conn {
            self.set_max_message_len(conn, max);
        }
    }

    /// Where the peer is open, both connections that it may hold take messages of at most `max` octets. It never
    /// answers want of memory.
    pub fn set_max_message_len_if_open(
        &mut self,
        is_open: bool,
        own: Option<Conn>,
        other: Option<Conn>,
        max: u32,
    )
        ensures raised { intakes_of self.new
            ≡ cond is_open (raised_at max other (raised_at max own (intakes_of self.old))) (intakes_of self.old) }
        ensures owners { owners_of self.new ≡ owners_of self.old }
    {
        if is_open {
            self.set_max_message_len_if_there(own, max);
            self.set_max_message_len_if_there(other, max);
        }
    }

    #[tactic(auto, using(crate::proofs::Steps::left_close))]
    /// What the action closes is no more there. It never answers want of memory.
    fn shut_connection_closed_by(&mut self, action: &Action)
        ensures left { intakes_of self.new ≡ left_by (action.now ∷ []) (intakes_of self.old) }
        ensures owners { owners_of self.new ≡ closed_by (action.now ∷ []) (owners_of self.old) }
    {
        if let Action::Close(conn) = action {
            self.shut(*conn);
        }
    }

    /// What the actions close is no more there. It never answers want of memory.
    pub fn shut_connections_closed_by(&mut self, actions: &[Action])
        ensures left { intakes_of self.new ≡ left_by actions.now (intakes_of self.old) }
        ensures owners { owners_of self.new ≡ closed_by actions.now (owners_of self.old) }
    {
        if let [action, rest @ ..] = actions {
            self.shut_connection_closed_by(action);
            self.shut_connections_closed_by(rest);
        }
    }
}
