//! Happenings one after the other, and what is promised of every list of them.
ghost use Rattle.std.specs.Prelude.{◌≡◌, ◌<◌, ◌^◌, ℕ, List, ◌++◌, IsTrue, IfSome, None, take, length, slice_get};
ghost use Rattle.dm_peer.specs.declared.config.Config as declared_config;
ghost use Rattle.dm_two_peers.specs.Agreement.{Agreed, EndsAreHeld, HeldAreLinks, OpenIsMatched};
ghost use Rattle.dm_two_peers.specs.Arriving.{HandUpWhatCame};
ghost use Rattle.dm_two_peers.specs.ClosedOrOpen.{AreClosedOrOpen};
ghost use Rattle.dm_two_peers.specs.Joining.{AreJoined};
ghost use Rattle.dm_two_peers.specs.Links.{Side};
ghost use Rattle.dm_two_peers.specs.Quiet.{is_quiet};
ghost use Rattle.dm_two_peers.specs.Sharing.{AreShared};
ghost use Rattle.dm_two_peers.specs.Streams.{AreCut};
ghost use Rattle.dm_octet_peers.specs.Laws.{AreClosed};
ghost use Rattle.dm_octet_peers.specs.Octets.{octet_peers};
ghost use Rattle.dm_octet_peers.specs.Talking.{ArePaired};
ghost use Rattle.dm_world.specs.declared.happening.Happening as declared_happening;
ghost use Rattle.dm_world.specs.Delivering.{IsPast, DeliversSubmitted, turns_in};
ghost use Rattle.dm_world.specs.Settling.{AreClean, EitherCanOpen};
ghost use Rattle.dm_world.specs.Settling.{RanTo, RunSettles, RunFallsQuiet, RunCanFallQuiet};
ghost use Rattle.dm_world.specs.Views.{IsEnd};

use crate::laws::every_world_is_sound_and_paired;
use crate::{Happening, World, WorldFault};
use dm_octet_peers::laws::{
    clean_octet_runs_can_settle_as_elected, clean_octet_runs_fall_quiet,
    clean_octet_runs_settle_as_elected, each_octet_quiet_run_is_closed_or_open,
    each_octet_run_delivers_in_order, each_octet_run_hands_up_only_arrivals,
    each_octet_world_can_restart_and_open, quiet_octet_peers_are_closed_or_joined,
};
use dm_peer::Peer;
use dm_two_peers::laws::{peers_of_sound_worlds_agree, quiet_peers_hold_the_same};
use dm_wire::Octets;
use std::alloc::Global;

impl World {
    /// Happenings, one after the other, up to the first that isn't applied. It answers how many were (`ran`), and why
    /// the next one wasn't (`whole`, `ended`).
    ///
    /// Whatever happens, in whatever order: neither side is open on two connections, and if both are open, it is on one
    /// connection in opposite roles, or a disconnect is coming to each on its own (`agreed`). On a link that isn't
    /// pending a side's end is open just where the side holds the link (`ends`). What a side holds is a link that is
    /// up, or a pending one that it opened (`held`). Where a side is open on a connection, the other end is open, or a
    /// disconnect is coming to the side (`matched`). Of a front message fewer octets are delivered than it has, and
    /// where there is none, no octets (`cut`).
    ///
    /// Where nothing is under way, each side holds just what the other holds, and one is Closed exactly where the other
    /// is (`shared`): both are Closed, or each stands on one connection alone, the same one, in opposite roles
    /// (`joined`). And then both are Closed, or both are open on it, I-Open against R-Open: none is left in Wait-I-CEA
    /// or Closing; that is said of each past of the world from two new peers that are configured for each other
    /// (`closed_or_open`).
    ///
    /// No run is a trap: there is a list of happenings, both sides' restarts and then deliveries, behind which a Start
    /// of either side, its Ack and two deliveries open both (`can_open`). Such a list exists, which isn't to say that
    /// peers take it by themselves.
    ///
    /// Since the world was new, losses and restarts too, what was handed up to a side on a link is a front of what the
    /// other side submitted on it: each message once, in order, octet for octet, and nothing else; where the side is
    /// open on the link and the link was never lost, the rest is what is under way (`delivers`). Nothing is handed up
    /// but where a message arrives, and then that message, once (`upward`). Both are said of each past of the world
    /// before, two new peers and the happenings that led them to it (`laws::every_world_has_a_past`), with what was
    /// applied here behind it, which is a past of the world then (`past`).
    ///
    /// Where both were Closed with nothing under way, and only Starts, connects that come about, deliveries and pieces
    /// happen: at most two CERs, one CEA and two disconnects are put in, on their links and in their order; and where
    /// it falls quiet after a Start that was taken, all of these were put in, and both are open on the connection that
    /// the election keeps (RFC 6733, 5.6.4) (`settled`). In whatever order they come it falls quiet: it is quiet where
    /// no Ack and no delivery is done any more, after nine steps, and after four where one side alone starts
    /// (`falls_quiet`). Some Acks and deliveries, with its own steps nine at most, bring it there (`can_fall_quiet`). A
    /// step is what is done, but for a piece that ends no message.
    pub fn run(&mut self, alloc: Global, list: &[Happening]) -> (usize, Option<WorldFault>)
        ensures ran { RanTo self.old (take result.0 list.now) self.new }
        ensures agreed { Agreed octet_peers self.new }
        ensures ends { EndsAreHeld octet_peers self.new }
        ensures held { HeldAreLinks octet_peers self.new }
        ensures matched { OpenIsMatched octet_peers self.new }
        ensures cut { AreCut octet_peers self.new }
        ensures shared { IsTrue (is_quiet self.new) → AreShared octet_peers self.new }
        ensures joined { IsTrue (is_quiet self.new) →
            AreJoined (octet_peers.node_of self.new.a) (octet_peers.node_of self.new.b) }
        ensures closed_or_open { (a b : declared_config.Config) (past : List declared_happening.Happening) →
            IsPast self.old a b past → ArePaired a b → a.first_id < 2 ^ 32 → b.first_id < 2 ^ 32 →
            IsTrue (is_quiet self.new) →
            AreClosedOrOpen (octet_peers.node_of self.new.a) (octet_peers.node_of self.new.b) }
        ensures can_open { EitherCanOpen self.new }
        ensures past { (a b : declared_config.Config) (past : List declared_happening.Happening) →
            IsPast self.old a b past → IsPast self.new a b (past ++ take result.0 list.now) }
        ensures delivers { (a b : declared_config.Config) (past : List declared_happening.Happening) →
            IsPast self.old a b past →
            (t : Side) (c : ℕ) → DeliversSubmitted a b (past ++ take result.0 list.now) self.new t c }
        ensures upward { (a b : declared_config.Config) (past : List declared_happening.Happening) →
            IsPast self.old a b past → HandUpWhatCame (turns_in a b (past ++ take result.0 list.now)) }
        ensures settled { AreClosed self.old → AreClean (take result.0 list.now) →
            RunSettles self.old (take result.0 list.now) }
        ensures falls_quiet { AreClosed self.old → AreClean (take result.0 list.now) →
            RunFallsQuiet self.old (take result.0 list.now) }
        ensures can_fall_quiet { AreClosed self.old → AreClean (take result.0 list.now) →
            RunCanFallQuiet self.old (take result.0 list.now) }
        ensures whole { result.1 ≡ None → result.0 ≡ length list.now }
        ensures ended { IfSome result.1 (λ f. IsEnd f (slice_get list.now result.0) self.new) }
    {
        peers_of_sound_worlds_agree::<Peer, Octets>();
        quiet_peers_hold_the_same::<Peer, Octets>();
        each_octet_run_delivers_in_order();
        each_octet_run_hands_up_only_arrivals();
        clean_octet_runs_settle_as_elected();
        clean_octet_runs_fall_quiet();
        clean_octet_runs_can_settle_as_elected();
        quiet_octet_peers_are_closed_or_joined();
        each_octet_quiet_run_is_closed_or_open();
        each_octet_world_can_restart_and_open();
        every_world_is_sound_and_paired(self);
        let ended = self.apply_up_to_fault(alloc, list);
        every_world_is_sound_and_paired(self);
        ended
    }

    /// Applies happenings, one after the other, up to the first that isn't applied. It answers how many were, and why
    /// the next one wasn't; None where all were.
    fn apply_up_to_fault(
        &mut self,
        alloc: Global,
        list: &[Happening],
    ) -> (usize, Option<WorldFault>)
        ensures ran { RanTo self.old (take result.0 list.now) self.new }
        ensures whole { result.1 ≡ None → result.0 ≡ length list.now }
        ensures ended { IfSome result.1 (λ f. IsEnd f (slice_get list.now result.0) self.new) }
    {
        for (count, happening) in list.iter().enumerate() {
            if let Err(fault) = self.apply(alloc, happening) {
                return (count, Some(fault));
            }
        }
        (list.len(), None)
    }
}
