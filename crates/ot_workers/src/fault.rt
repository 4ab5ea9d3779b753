//! Why a worker ends.

ghost use Rattle.std.specs.Prelude.{◌≡◌};
ghost use Rattle.ot_workers.specs.Faults.{board_fault, session_fault, settle_fault};
ghost use Rattle.ot_workers.specs.declared.fault.WorkFault.TheVariants.{Memory};

use ot_board::{BoardRefusal, SessionRefusal, SettleRefusal};
use std::alloc::AllocError;
use thiserror::Error;

/// Why a worker ends before all is done.
#[derive(Clone, Copy, Debug, PartialEq, Eq, Error)]
pub enum WorkFault {
    /// The board's record has no room.
    #[error("the record is full")]
    RecordFull,
    /// Another worker has ended with a fault.
    #[error("another worker has ended with a fault")]
    Stopped,
    /// A growth was refused.
    #[error("no memory")]
    Memory,
    /// Any other refusal, or the end of the last turn.
    #[error("a call was refused, or the last turn has ended")]
    Refused,
}

impl From<AllocError> for WorkFault {
    ghost from_gives = { λ _ e. e ≡ Memory };

    fn from(_e: AllocError) -> WorkFault {
        WorkFault::Memory
    }
}

impl From<BoardRefusal> for WorkFault {
    ghost from_gives = { λ r e. e ≡ board_fault r };

    fn from(refusal: BoardRefusal) -> WorkFault {
        match refusal {
            BoardRefusal::RecordFull => WorkFault::RecordFull,
            BoardRefusal::Memory => WorkFault::Memory,
            _ => WorkFault::Refused,
        }
    }
}

impl From<SettleRefusal> for WorkFault {
    ghost from_gives = { λ r e. e ≡ settle_fault r };

    fn from(refusal: SettleRefusal) -> WorkFault {
        match refusal {
            SettleRefusal::Stranger => WorkFault::Refused,
            SettleRefusal::Memory => WorkFault::Memory,
        }
    }
}

impl From<SessionRefusal> for WorkFault {
    ghost from_gives = { λ r e. e ≡ session_fault r };

    fn from(refusal: SessionRefusal) -> WorkFault {
        match refusal {
            SessionRefusal::Memory => WorkFault::Memory,
            _ => WorkFault::Refused,
        }
    }
}
