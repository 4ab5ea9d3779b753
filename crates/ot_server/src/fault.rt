//! Why the server does not receive an operation.

ghost use Rattle.std.specs.Prelude.{◌≡◌};

use std::alloc::{AllocError, AllocFailed};
use thiserror::Error;

/// Why an operation is not received, in the order of checking: the revision is above the log's length; the base is not the document's length
/// at that revision; the log has 1,000,000 entries; the length there and all insertions from there on pass 1,000,000 items; no memory.
#[derive(Debug, Drop, Error)]
pub enum ServerFault {
    #[error("the revision is not in the log")]
    NotInHistory,
    #[error("the operation does not fit the document at its revision")]
    BadBase,
    #[error("the log is full")]
    LogFull,
    #[error("the document could grow too long")]
    TooLong,
    #[error("no memory")]
    Memory,
}

impl From<AllocError> for ServerFault {
    ghost use Rattle.ot_server.specs.declared.fault.ServerFault.TheVariants.{Memory};

    ghost from_gives = { λ _ e. e ≡ Memory };

    fn from(_e: AllocError) -> ServerFault {
        ServerFault::Memory
    }
}
