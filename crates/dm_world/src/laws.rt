//! Laws of worlds. They stand for users, as the premises of the laws of dm_two_peers and dm_octet_peers.
ghost use Rattle.dm_world.specs.Delivering.{HasPast};
ghost use Rattle.dm_world.specs.Kept.{IsWorldKept};

use crate::World;

/// What holds of every world, whatever happened to it: it is sound, its peers are configured for each other, and fewer
/// octets are delivered of a front message than it has.
pub fn every_world_is_sound_and_paired(world: &World)
    ensures { IsWorldKept world.now }
{
    let _kept = &world.made;
}

/// Every world has a past: two new peers, and the happenings that led them to it.
pub fn every_world_has_a_past(world: &World)
    ensures { HasPast world.now }
{
    let _kept = &world.made;
}
