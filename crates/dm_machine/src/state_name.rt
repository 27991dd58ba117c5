//! The states, and which of them are open or hold a CER.

/// A state of the peer state machine (RFC 6733, 5.6).
#[derive(Clone, Copy, Debug, PartialEq, Eq)]
pub enum State {
    /// No connection.
    Closed,
    /// A connection is being made (Wait-Conn-Ack).
    WaitConnAck,
    /// The CER is sent and its CEA awaited (Wait-I-CEA).
    WaitICea,
    /// A connection is being made, and the other side's CER is there (Wait-Conn-Ack/Elect).
    WaitConnAckElect,
    /// The election is lost so far: the winner's CEA or disconnect is awaited (Wait-Returns).
    WaitReturns,
    /// Open on the accepted connection (R-Open).
    ROpen,
    /// Open on the initiated connection (I-Open).
    IOpen,
    /// A DPR is sent or answered, and the end awaited.
    Closing,
}

impl State {
    ghost use Rattle.std.specs.Prelude.{◌≡◌};
    ghost use Rattle.dm_machine.specs.Awaiting.{holds_cer};
    ghost use Rattle.dm_machine.specs.Moves.{is_open};

    /// Whether a peer in this state is open: R-Open or I-Open.
    #[inline(always)]
    pub fn is_open(self) -> bool
        ensures { result ≡ is_open self }
    {
        match self {
            State::ROpen | State::IOpen => true,
            _ => false,
        }
    }

    /// Whether a CER waits for its CEA in this state, in an election (RFC 6733, 5.6.4): Wait-Conn-Ack/Elect or
    /// Wait-Returns.
    #[inline(always)]
    pub fn holds_cer(self) -> bool
        ensures { result ≡ holds_cer self }
    {
        match self {
            State::WaitConnAckElect | State::WaitReturns => true,
            _ => false,
        }
    }
}
