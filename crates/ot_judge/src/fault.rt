//! Why parts or a text are no trace.

ghost use Rattle.std.specs.Prelude.{◌≡◌};
ghost use Rattle.ot_judge.specs.declared.fault.TraceFault.TheVariants.{Memory};

use ot_isa::Tag;
use std::alloc::{AllocError, AllocFailed};
use thiserror::Error;

/// Why parts or a text are no trace; the first that applies, in this order.
#[derive(Clone, Copy, Debug, PartialEq, Eq, Error)]
pub enum TraceFault {
    /// The text is no JSON.
    #[error("the text is no JSON")]
    NotJson,
    /// A key is missing, a value is of another kind or out of range, or an event does not fit.
    #[error("the JSON value has not the shape of a trace")]
    BadShape,
    /// There are more than 4,000 events, or more than 4,000,000 entries in their lists.
    #[error("there are more than 4,000 events, or more than 4,000,000 entries in their lists")]
    TraceFull,
    /// The start and the insertions name this tag twice.
    #[error("a tag is inserted twice")]
    TagTwice(Tag),
    /// No memory was found.
    #[error("no memory")]
    Memory,
}

impl From<AllocError> for TraceFault {
    ghost from_gives = { λ _ e. e ≡ Memory };

    fn from(_e: AllocError) -> TraceFault {
        TraceFault::Memory
    }
}

impl<T: Drop> From<AllocFailed<T>> for TraceFault {
    ghost from_gives = { λ _ e. e ≡ Memory };

    fn from(_e: AllocFailed<T>) -> TraceFault {
        TraceFault::Memory
    }
}
