//! Which neighbour has a host, by the host in lower case.
ghost use Rattle.std.specs.Prelude.{◌≡◌, ◌<◌, ◌≤◌, ℕ, nat_le, List, None, Some, IfSome, IfNone, OnOk, OnErr};
ghost use Rattle.std.specs.Prelude.{length, if◌then◌else◌};
ghost use Rattle.dm_base.specs.Before.{lower};
ghost use Rattle.dm_base.specs.Codes.{max_name_len};
ghost use Rattle.dm_node.specs.Naming.{is_host, noted_number, IsForgotten};

use arrayvec::ArrayVec;
use dm_base::lower_octet;
use dm_dict::NoMemory;
use dm_peer::Peer;
use indexmap::IndexMap;
use std::alloc::Global;

/// The most octets of a host's name.
const MAX_NAME_LEN: usize = 255;

/// The number of the neighbour for each host in lower case.
#[derive(Drop)]
pub(crate) struct Hosts {
    alloc: Global,
    map: IndexMap<Vec<u8>, usize>,
}

/// The host in lower case, where it isn't too long for one. It never answers want of memory.
fn host_in_lower_case(host: &[u8]) -> Option<ArrayVec<u8, MAX_NAME_LEN>>
    ensures lower { IfSome result (λ l. l.items ≡ lower host.now) }
    ensures long { IfNone result (max_name_len < length host.now) }
{
    if host.len() > MAX_NAME_LEN {
        return None;
    }
    let mut lower = ArrayVec::new();
    for octet in host {
        lower.push(lower_octet(*octet));
    }
    Some(lower)
}

impl Hosts {
    /// No host is noted. It never answers want of memory.
    pub(crate) fn new(alloc: Global) -> Hosts
        ensures { (h : List ℕ) → noted_number result h ≡ None }
    {
        Hosts {
            alloc,
            map: IndexMap::new(alloc),
        }
    }

    /// The number that is noted for the host, upper and lower case taken as one; none for one that is too long.
    pub(crate) fn noted_number(&self, host: &[u8]) -> Option<usize>
        ensures { result
            ≡ if nat_le (length host.now) max_name_len then noted_number self.now (lower host.now) else None }
    {
        match host_in_lower_case(host) {
            Some(key) => self.map.get(key.as_slice()).copied(),
            None => None,
        }
    }

    /// Notes the number for a host in lower case.
    fn note_host_in_lower_case(&mut self, key: &[u8], index: usize) -> Result<(), NoMemory>
        ensures noted { OnOk result ((h : List ℕ)
            → noted_number self.new h ≡ if is_host key.now h then Some index else noted_number self.old h) }
        ensures unchanged { OnErr result ((h : List ℕ) → noted_number self.new h ≡ noted_number self.old h) }
    {
        let key = Vec::from_slice(self.alloc, key)?;
        self.map.insert(key, index)?;
        Ok(())
    }

    /// Notes the number for the host.
    pub(crate) fn note_host(&mut self, host: &[u8], index: usize) -> Result<(), NoMemory>
        requires { length host.now ≤ max_name_len }
        ensures noted { OnOk result ((h : List ℕ)
            → noted_number self.new h ≡ if is_host (lower host.now) h then Some index else noted_number self.old h) }
        ensures unchanged { OnErr result ((h : List ℕ) → noted_number self.new h ≡ noted_number self.old h) }
    {
        match host_in_lower_case(host) {
            Some(key) => self.note_host_in_lower_case(key.as_slice(), index),
            None => unreachable!(),
        }
    }

    /// Forgets the host.
    fn forget_host(&mut self, host: &[u8])
        requires { length host.now ≤ max_name_len }
        ensures { (h : List ℕ)
            → noted_number self.new h ≡ if is_host (lower host.now) h then None else noted_number self.old h }
    {
        if let Some(key) = host_in_lower_case(host) {
            self.map.swap_remove(key.as_slice());
        }
    }

    /// Forgets the host of a neighbour that is gone, where there was one.
    pub(crate) fn forget_host_of(&mut self, gone: &Option<Peer>)
        ensures { IsForgotten gone.now self.old self.new }
    {
        if let Some(peer) = gone {
            self.forget_host(peer.config().peer_host());
        }
    }
}
