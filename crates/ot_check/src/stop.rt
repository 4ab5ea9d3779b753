//! Why a schedule's trace is not given, or not followed any further.

ghost use Rattle.std.specs.Prelude.{◌≡◌};
ghost use Rattle.ot_check.specs.declared.stop.Halt.TheVariants as halt;
ghost use Rattle.ot_check.specs.declared.stop.TraceStop.TheVariants.{Memory};

use ot_machine::Refusal;
use std::alloc::{AllocError, AllocFailed};
use thiserror::Error;

/// Why a schedule's trace is not given.
#[derive(Clone, Copy, Debug, PartialEq, Eq, Error)]
pub enum TraceStop {
    /// The trace has more than 4,000 events, or more than 4,000,000 entries in their lists.
    #[error("there are more than 4,000 events, or more than 4,000,000 entries in their lists")]
    TraceFull,
    /// No memory was found.
    #[error("no memory")]
    Memory,
}

impl From<AllocError> for TraceStop {
    ghost from_gives = { λ _ e. e ≡ Memory };

    fn from(_e: AllocError) -> TraceStop {
        TraceStop::Memory
    }
}

/// Why a run is not traced any further.
#[derive(Clone, Copy)]
pub(crate) enum Halt {
    /// The table refuses the instruction, for this reason, which is not `Memory`.
    Refused(Refusal),
    /// The instruction is performed, and its event passes a limit of the trace.
    Full,
    /// No memory was found.
    Memory,
}

impl From<AllocError> for Halt {
    ghost from_gives = { λ _ e. e ≡ halt.Memory };

    fn from(_e: AllocError) -> Halt {
        Halt::Memory
    }
}

impl<T: Drop> From<AllocFailed<T>> for Halt {
    ghost from_gives = { λ _ e. e ≡ halt.Memory };

    fn from(_e: AllocFailed<T>) -> Halt {
        Halt::Memory
    }
}
