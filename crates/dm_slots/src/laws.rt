//! Laws of connections: each does nothing, and its contract is the law.
ghost use Rattle.dm_slots.specs.Staying.{OpeningKeeps, ChangingKeeps, TellingKeeps, RaisingKeeps};
ghost use Rattle.dm_slots.specs.Staying.{ClosingKeeps, ShuttingKeeps, TakingBackUndoes};
ghost use Rattle.dm_slots.specs.Hearing.{WholeIsTaken};

use dm_framer::laws::one_front_frame_or_lasting_fault;

/// A connection that is there stays there, whatever is done with what came, but where it is closed or shut. The law
/// stands for users: who keeps [`Slots`](crate::Slots) beside peers of his own knows by it that what these hold is
/// there.
pub fn connections_stay_until_closed()
    ensures opened { OpeningKeeps }
    ensures changed { ChangingKeeps }
    ensures told { TellingKeeps }
    ensures raised { RaisingKeeps }
    ensures closed { ClosingKeeps }
    ensures shut { ShuttingKeeps }
{}

/// What was kept of a piece and is taken away again leaves nothing: the connections are as they were.
pub fn taking_back_undoes_feeding()
    ensures { TakingBackUndoes }
{}

/// Where nothing is kept, what is taken of a piece that begins with a whole message is that message.
pub fn feed_front_takes_whole_message_len()
    ensures { WholeIsTaken }
{
    one_front_frame_or_lasting_fault();
}
