//! Dictionaries without the lists of their Enumerated AVPs (RFC 6733, 4.3.1).
ghost use Rattle.std.specs.Prelude.{◌≡◌, map};
ghost use Rattle.dm_tables.specs.Tables.{defined};
ghost use Rattle.dm_dict.specs.Linked.{IsLinked};
ghost use Rattle.dm_dict.specs.WithoutLists.{without_list, without_lists};

use crate::Dictionary;
use crate::linked::Linked;
use dm_tables::{AvpDef, Values};
use std::alloc::Global;

/// Takes the lists out of the definitions.
fn drop_list_of_each_avp(alloc: Global, avps: &mut Vec<AvpDef>)
    ensures { avps.new.items ≡ map without_list avps.old.items }
{
    for avp in avps.iter_mut() {
        avp.values = Values::empty(alloc);
    }
}

/// Takes the lists out of the definitions of the tables.
fn drop_enumerated_lists(alloc: Global, linked: &mut Linked)
    requires linked { IsLinked linked.old }
    ensures without_lists { defined linked.new.tables ≡ without_lists (defined linked.old.tables) }
    ensures linked { IsLinked linked.new }
{
    drop_list_of_each_avp(alloc, &mut linked.tables.avps);
}

impl Dictionary {
    /// From now on no Enumerated AVP has a list, and every value of four octets passes (own): newer values of an AVP
    /// needn't be errors to a node that doesn't know them. By `laws::open_lists_remove_list_faults_alone` a message
    /// then has just the faults that no list makes. It never answers want of memory, and takes time by the definitions
    /// alone.
    pub fn open_lists(&mut self, alloc: Global)
        ensures { self.new ≡ without_lists self.old }
    {
        drop_enumerated_lists(alloc, &mut self.linked);
    }
}
