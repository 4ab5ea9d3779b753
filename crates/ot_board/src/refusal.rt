//! Why a call is refused.

ghost use Rattle.std.specs.Prelude.{◌≡◌};

use std::alloc::AllocError;

/// Why a session does not make a step. The session comes back as it was.
#[derive(Clone, Copy, Debug, PartialEq, Eq)]
pub enum SessionRefusal {
    /// The edit is not over the client's list: its base length is another, in elements.
    BadBase,
    /// What the client has inserted in the run, and the edit, would pass 15,000 characters.
    ClientFull,
    /// The session has made 64 steps.
    SessionFull,
    /// The session's own part of the downlink is used up.
    LinkEmpty,
    /// The next message is an acknowledgement (deliver) or another's operation (acknowledge).
    WrongHead,
    /// A growth was refused, and the step would be made otherwise.
    Memory,
}

/// Why a board does not carry out a call. The board is as it was.
#[derive(Clone, Copy, Debug, PartialEq, Eq)]
pub enum BoardRefusal {
    /// The call names a client that is not there.
    NoSuchClient,
    /// The client has not joined.
    NotJoined,
    /// The client has joined (join).
    AlreadyJoined,
    /// The client is out (lend).
    Out,
    /// No session waits in the client's slot (pick up).
    NotParked,
    /// The record has no room for what the call may add, beside 64 steps of each client that is out.
    RecordFull,
    /// No message is under way to the server (take).
    LinkEmpty,
    /// A growth was refused, and the call would be carried out otherwise.
    Memory,
}

/// Why a session is not settled: it comes back, and the board is as it was. Also why `Board::replay` performs no further step of one.
#[derive(Clone, Copy, Debug, PartialEq, Eq)]
pub enum SettleRefusal {
    /// The session's client is not out here, or is parked, or the session's start does not begin the board's client (settle, park), or the table
    /// refuses the next step (replay).
    Stranger,
    /// A growth was refused, and the session would be settled otherwise, or the step performed.
    Memory,
}

impl From<AllocError> for BoardRefusal {
    ghost use Rattle.ot_board.specs.declared.refusal.BoardRefusal.TheVariants.{Memory};

    ghost from_gives = { λ _ e. e ≡ Memory };

    fn from(_e: AllocError) -> BoardRefusal {
        BoardRefusal::Memory
    }
}
