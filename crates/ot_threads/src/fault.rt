//! Why there is no record that follows the plan.

ghost use Rattle.std.specs.Prelude.{◌≡◌};
ghost use Rattle.ot_threads.specs.declared.fault.ThreadsFault.TheVariants.{Memory};

use ot_board::AuditFault;
use ot_workers::WorkFault;
use std::alloc::AllocError;
use thiserror::Error;

/// Why what workers left is no record that follows the plan; the first that applies, in this order.
#[derive(Clone, Copy, Debug, PartialEq, Eq, Error)]
pub enum ThreadsFault {
    /// A worker ended with this fault, the first of them, by number, that has one.
    #[error("a worker ended early")]
    Work(WorkFault),
    /// This client, the least, is out although all workers ended.
    #[error("a client is still out")]
    StillOut(u16),
    /// The workers' receipts are not what the board recorded.
    #[error("the receipts are not the record")]
    Audit(AuditFault),
    /// The recorded schedule does not follow the plan.
    #[error("the record does not follow the plan")]
    NotPlan,
    /// No memory was found; it may come before the last two.
    #[error("no memory")]
    Memory,
}

impl From<AllocError> for ThreadsFault {
    ghost from_gives = { λ _ e. e ≡ Memory };

    fn from(_e: AllocError) -> ThreadsFault {
        ThreadsFault::Memory
    }
}
