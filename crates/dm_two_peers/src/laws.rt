//! The laws of two peers that move as the state machine: each is the contract of a function that does nothing but call
//! other laws. They stand for the users of this crate.
//!
//! `P` is the state of a peer and `M` a message: a world of peers over octets takes its own types for them.
ghost use Rattle.dm_two_peers.specs.Arriving.{EachRunHandsUpWhatCame};
ghost use Rattle.dm_two_peers.specs.Bare.{OnlyUpLinksCarry};
ghost use Rattle.dm_two_peers.specs.ClosedOrOpen.{EachQuietRunIsClosedOrOpen};
ghost use Rattle.dm_two_peers.specs.Counting.{EachPieceCounts};
ghost use Rattle.dm_two_peers.specs.Draining.{EachRestartedRunDrains};
ghost use Rattle.dm_two_peers.specs.Falling.{EachCleanRunCanFallQuiet, EachCleanRunFallsQuiet};
ghost use Rattle.dm_two_peers.specs.Delivery.{EachRunDelivers};
ghost use Rattle.dm_two_peers.specs.Joining.{QuietIsJoined, WinnerDoesNotReturn};
ghost use Rattle.dm_two_peers.specs.Kinds.{KindsAreAMachine, TwoRuns};
ghost use Rattle.dm_two_peers.specs.Laws.{ClosedIsSound, HappeningKeepsSound, SoundIsPromised, EachRunIsPromised};
ghost use Rattle.dm_two_peers.specs.Making.{AcksMakeEnds};
ghost use Rattle.dm_two_peers.specs.Recovering.{EachWorldCanClear, EachWorldCanOpen};
ghost use Rattle.dm_two_peers.specs.Settled.{EachCleanRunSettles};
ghost use Rattle.dm_two_peers.specs.Sharing.{QuietIsShared};
ghost use Rattle.dm_two_peers.specs.Streams.{HappeningKeepsCut, EachRunIsCut, EachPieceAddsUp, EachLossAddsUp};
ghost use Rattle.dm_two_peers.specs.Talkers.{TalkersAreElecting, TwoTalks};

use dm_machine::laws::{
    connection_changes_and_orders_are_allowed, steps_keep_shape_in_few_commands,
};

/// Two closed peers without links make a sound world.
pub fn closed_peers_make_a_sound_world<P, M>()
    ensures { ClosedIsSound P M }
{}

/// Whatever happens keeps a world sound.
pub fn each_happening_keeps_worlds_sound<P, M>()
    ensures { HappeningKeepsSound P M }
{
    connection_changes_and_orders_are_allowed();
    steps_keep_shape_in_few_commands();
}

/// In a sound world two peers agree, and what one holds the other holds, or is told of.
pub fn peers_of_sound_worlds_agree<P, M>()
    ensures { SoundIsPromised P M }
{}

/// Two closed peers agree after every list of happenings.
pub fn closed_peers_agree_after_each_run<P, M>()
    ensures { EachRunIsPromised P M }
{
    closed_peers_make_a_sound_world::<P, M>();
    connection_changes_and_orders_are_allowed();
    steps_keep_shape_in_few_commands();
}

/// After every list of happenings, losses and restarts too, what a side's user was handed up on a link is a front of
/// what the other side's user submitted on it: each message once, in order, as it was, and nothing else. Where the side
/// is open on the link and the link had no loss, the rest is what is under way.
///
/// It holds of peers that send what is submitted and hand up what comes (`CarriesMessages`).
pub fn each_run_delivers_in_order<P, M>()
    ensures { EachRunDelivers P M }
{
    closed_peers_make_a_sound_world::<P, M>();
    connection_changes_and_orders_are_allowed();
    steps_keep_shape_in_few_commands();
}

/// What two closed peers that send what is submitted and hand up what comes (`CarriesMessages`) hand up at an event of
/// any list of happenings is the message that it brings, once, or nothing: nothing is handed up but where a message
/// arrives.
pub fn each_run_hands_up_only_arrivals<P, M>()
    ensures { EachRunHandsUpWhatCame P M }
{
    closed_peers_make_a_sound_world::<P, M>();
    connection_changes_and_orders_are_allowed();
    steps_keep_shape_in_few_commands();
}

/// A clean run (of Starts, Acks, deliveries and pieces alone) of two closed peers, from where nothing is under way,
/// puts in one course, up to what is still to come: a CER on each connection that a taken Start made, from its opener;
/// then, where both sides started, the winner's disconnect of its own; the CEA on the one that the election keeps, with
/// the number of its CER; and the disconnect that answers the winner's. So it is at most two CERs, one CEA and two
/// disconnects. Where a Start is taken and it falls quiet, all of the course was put in, and both are open on the
/// connection that the election keeps.
///
/// `C` is what a peer is configured with, `H` the header of a message.
pub fn clean_runs_settle_as_elected<P, M, C, H>()
    ensures { EachCleanRunSettles P M C H }
{}

/// A clean run (of Starts, Acks, deliveries and pieces alone) of two closed peers, from where nothing is under way,
/// falls quiet, in whatever order things come: it is quiet where no Ack and no delivery is done any more, after nine
/// steps, and where one side alone starts after four. A piece that ends no message is no step.
pub fn clean_runs_fall_quiet<P, M, C, H>()
    ensures { EachCleanRunFallsQuiet P M C H }
{}

/// A clean run (of Starts, Acks, deliveries and pieces alone) of two closed peers, from where nothing is under way, can
/// fall quiet: after some Acks and deliveries, with its own steps nine at most, nothing is under way, and where a Start
/// was taken both are open on the connection that the election keeps.
pub fn clean_runs_can_settle_as_elected<P, M, C, H>()
    ensures { EachCleanRunCanFallQuiet P M C H }
{}

/// In a sound world neither direction of a link that isn't up has a message or a disconnect.
pub fn only_up_links_carry_anything<P, M>()
    ensures { OnlyUpLinksCarry P M }
{}

/// Where nothing is under way in a sound world, whatever happened before, each side holds just what the other holds,
/// and one is Closed exactly where the other is.
pub fn quiet_peers_hold_the_same<P, M>()
    ensures { QuietIsShared P M }
{}

/// Where nothing is under way in a sound world, whatever happened before, both are Closed, or each stands on one
/// connection alone, the same one, in opposite roles, if one of them at least didn't lose its election to the other.
pub fn quiet_peers_are_closed_or_joined<P, M>()
    ensures { QuietIsJoined P M }
{}

/// Wherever a run of two closed peers falls quiet, whatever was lost and restarted, both are Closed, or both are open
/// on one connection in opposite roles, I-Open against R-Open, if one of them at least didn't lose its election to the
/// other: none is left in Wait-I-CEA or Closing.
///
/// It holds of peers that match an answer with its request by its number (`AnswersMatch`, RFC 6733, 3).
pub fn each_quiet_run_is_closed_or_open<P, M>()
    ensures { EachQuietRunIsClosedOrOpen P M }
{
    closed_peers_make_a_sound_world::<P, M>();
    connection_changes_and_orders_are_allowed();
    steps_keep_shape_in_few_commands();
}

/// A side that wins its elections doesn't come to Wait-Returns (RFC 6733, 5.6.4).
pub fn winners_never_enter_wait_returns()
    ensures { WinnerDoesNotReturn }
{}

/// From each sound world, whatever happened before, both sides can restart, and after some deliveries nothing is
/// under way.
pub fn each_world_can_restart_and_clear<P, M>()
    ensures { EachWorldCanClear P M }
{}

/// From each sound world, whatever happened before, both sides can restart, and after some deliveries a Start of either
/// side, the Ack and two deliveries open both on the connection that it makes: a list that does it exists, which isn't
/// to say that peers take it by themselves.
pub fn each_world_can_restart_and_open<P, M, C, H>()
    ensures { EachWorldCanOpen P M C H }
{}

/// After both have restarted nobody acts any more, whatever Acks, Nacks and deliveries come in whatever order:
/// nothing is put in, each step takes off one thing that was under way, and it is quiet where nothing is left.
pub fn restarted_peers_only_drain_links<P, M>()
    ensures { EachRestartedRunDrains P M }
{}

/// Of peers that send no empty message: after every list of happenings fewer octets are delivered of a front message
/// than it has; each happening keeps it so.
pub fn no_front_message_is_fully_delivered<P, M>()
    ensures step { HappeningKeepsCut P M }
    ensures run { EachRunIsCut P M }
{}

/// No happening makes an end fresh but the Ack of its link, which makes that of the side that didn't open it.
pub fn only_acks_make_ends_fresh<P, M>()
    ensures { AcksMakeEnds P M }
{}

/// It makes no difference how messages were cut: a piece that ends no message changes nothing but the octets
/// delivered, one that ends its message is the delivery, and a loss is the one of whole messages, in its effect and in
/// what it puts in too. A piece counts as a step just where it ends its message.
pub fn cutting_messages_makes_no_difference<P, M>()
    ensures pieces { EachPieceAddsUp P M }
    ensures counts { EachPieceCounts P M }
    ensures losses { EachLossAddsUp P M }
{}

/// The state machine itself, with a word for a message, makes peers as these laws ask for them.
pub fn state_machine_itself_makes_peers()
    ensures { KindsAreAMachine }
{}

/// What the definitions say of two runs: one side starts, and it is the initiator; both start, and the connection that
/// the greater host accepts is kept (RFC 6733, 5.6.4).
pub fn two_sample_runs_open_both()
    ensures { TwoRuns }
{}

/// The state machine with the numbers of requests makes peers as the law of clean runs asks for them.
pub fn numbered_machine_makes_electing_peers()
    ensures { TalkersAreElecting }
{}

/// What the definitions say of two clean runs: what each puts in, and which link is kept.
pub fn sample_clean_runs_settle_as_elected()
    ensures { TwoTalks }
{}
