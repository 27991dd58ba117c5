//! What a call of a node asks for.
ghost use Rattle.dm_node.specs.Answers.{IsUntold};

use arrayvec::ArrayVec;
use dm_peer::Actions;

/// What a call told a node.
#[derive(Clone, Copy, Debug, PartialEq, Eq)]
pub enum Told {
    /// Nothing: there was nothing to tell.
    Nothing,
    /// An order's event.
    Event,
    /// The next whole message that came on the connection.
    Message,
    /// A fault of what came on the connection: no message begins so.
    Fault,
}

/// What a call of a node asks for. Who drives the node lends the same one to each call, which empties it first.
#[derive(Debug, Drop)]
pub struct Answer {
    /// What was told.
    pub told: Told,
    /// The number of the neighbour that was told it, or was removed; none where nobody was.
    pub neighbour: Option<usize>,
    /// What is to be done, in this order.
    pub actions: Actions,
}

impl Answer {
    /// Nothing was told. It never answers want of memory.
    pub fn new() -> Answer
        ensures { IsUntold result }
    {
        Answer {
            told: Told::Nothing,
            neighbour: None,
            actions: ArrayVec::new(),
        }
    }

    /// Empties it: nothing was told. It never answers want of memory.
    #[inline(always)]
    pub(crate) fn clear(&mut self)
        ensures { IsUntold self.new }
    {
        self.told = Told::Nothing;
        self.neighbour = None;
        self.actions.clear();
    }
}
