//! What a step answers.

ghost use Rattle.std.specs.Prelude.{◌≡◌};

use ot_isa::Tagged;
use ot_text::Doc;
use std::alloc::AllocError;

/// Why an instruction is not performed. A refused instruction changes nothing; where several
/// reasons hold, the first of this list is given.
#[derive(Clone, Copy, Debug, PartialEq, Eq)]
pub enum Refusal {
    /// The instruction names a client that is not there.
    NoSuchClient,
    /// 1,000,000 instructions were performed.
    StepsFull,
    /// The client has not joined (any instruction of a client but a join).
    NotJoined,
    /// The client has joined (a join).
    AlreadyJoined,
    /// The edit is not over the client's list: its base length is another, in elements.
    BadBase,
    /// What the client has inserted in the run, and the edit, would pass 15,000 characters.
    ClientFull,
    /// No message is under way to the server (take), or none to the client (deliver, acknowledge).
    LinkEmpty,
    /// The next message to the client is an acknowledgement (deliver) or another's operation
    /// (acknowledge).
    WrongHead,
    /// A growth was refused, and the instruction would be performed otherwise.
    Memory,
}

impl From<AllocError> for Refusal {
    ghost use Rattle.ot_model.specs.declared.shown.Refusal.TheVariants.{Memory};

    ghost from_gives = { λ _ e. e ≡ Memory };

    fn from(_e: AllocError) -> Refusal {
        Refusal::Memory
    }
}

/// Whose list is shown.
#[derive(Clone, Copy, Debug, PartialEq, Eq)]
pub enum Reader {
    /// The client of this number.
    Client(u16),
    /// The server.
    Server,
}

/// A list that a read shows.
#[derive(Drop)]
pub struct Shown {
    /// Whose list it is.
    pub who: Reader,
    /// The list at the moment of the read.
    pub list: Doc<Tagged>,
}
