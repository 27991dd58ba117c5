//! The lines of the two peers, read.
ghost use Rattle.std.specs.Prelude.{◌≡◌, ◌∷◌, [], ℕ, List, codes, IfSome, IfNone};
ghost use Rattle.dm_text.specs.Words.{words};
ghost use Rattle.dm_text.specs.Numbers.{TellsNumber};
ghost use Rattle.dm_replay.specs.HappeningLines.{side_name};
ghost use Rattle.dm_replay.specs.HostLines.{Host, TellsHost};

use crate::arguments::next_side;
use dm_base::is_name;
use dm_text::Words;
use dm_words::next_number;
use dm_world::Side;

/// What a script says of a peer: its host and its application.
#[derive(Clone, Copy, Debug)]
pub struct HostLine<'a> {
    /// Its host.
    pub host: &'a [u8],
    /// The id of its one application.
    pub application: u32,
}

/// What a line says of the peer of this side; None where it is no line of that peer.
pub fn read_host_line(side: Side, line: &[u8]) -> Option<HostLine<'_>>
    ensures told { IfSome result (λ r.
        TellsHost side (record { host = r.host.now; application = r.application }) line.now) }
    ensures none { IfNone result ((h : Host) → TellsHost side h line.now → ⊥) }
{
    let mut left = Words::new(line);
    take_peer_and_side(&mut left, side)?;
    let (host, application) = only_host_and_number_left(&mut left)?;
    if !is_name(host) {
        return None;
    }
    Some(HostLine { host, application })
}

/// Takes the next two words where they are `peer` and the side's name, else answers None.
fn take_peer_and_side(left: &mut Words<'_>, side: Side) -> Option<()>
    ensures told { IfSome result (λ _. words left.old ≡ codes "peer" ∷ side_name side ∷ words left.new) }
    ensures none { IfNone result ((more : List (List ℕ)) → words left.old ≡ codes "peer" ∷ side_name side ∷ more → ⊥) }
{
    if left.next()? != b"peer".as_slice() {
        return None;
    }
    let named = next_side(left)?;
    if named != side {
        return None;
    }
    Some(())
}

/// The host and the number that the two words left tell; None where they are others.
fn only_host_and_number_left<'a>(left: &mut Words<'a>) -> Option<(&'a [u8], u32)>
    ensures told { IfSome result (λ r. (number : List ℕ) × (words left.old ≡ r.0.now ∷ number ∷ [])
        × TellsNumber r.1 number) }
    ensures none { IfNone result ((host number : List ℕ) (n : ℕ) → words left.old ≡ host ∷ number ∷ []
        → TellsNumber n number → ⊥) }
{
    let host = left.next()?;
    let number = next_number(left)?;
    if left.next().is_some() {
        return None;
    }
    Some((host, number))
}
