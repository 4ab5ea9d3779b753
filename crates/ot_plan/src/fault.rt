//! Why a text is no plan.

ghost use Rattle.std.specs.Prelude.{◌≡◌};
ghost use Rattle.ot_plan.specs.Lines.{fault_line};
ghost use Rattle.ot_plan.specs.declared.fault.PlanFault.TheVariants.{Memory};

use std::alloc::{AllocError, AllocFailed};
use thiserror::Error;

/// Why a text is no plan; the first that applies, in this order.
#[derive(Clone, Copy, Debug, PartialEq, Eq, Error)]
pub enum PlanFault {
    /// The text is no JSON.
    #[error("the text is no JSON")]
    NotJson,
    /// A key is missing, a value is of another kind, a number is none of 0 to 2^64 - 1, or there is not one list of actions for
    /// each client.
    #[error("the JSON value has not the shape of a plan")]
    BadShape,
    /// A number is out of range.
    #[error("a number is out of range")]
    BadNumber,
    /// The start text has more than 40,000 characters, or a client's insertions together more than 15,000.
    #[error("the start text or what a client inserts is too long")]
    TooLong,
    /// A client has more than 1,000 actions.
    #[error("a client has more than 1,000 actions")]
    TooMany,
    /// No memory was found.
    #[error("no memory")]
    Memory,
}

/// The line of a fault, as the program prints it.
pub fn fault_line(fault: PlanFault) -> &'static str
    ensures { result.now ≡ fault_line fault }
{
    match fault {
        PlanFault::NotJson => "otbench: NotJson\n",
        PlanFault::BadShape => "otbench: BadShape\n",
        PlanFault::BadNumber => "otbench: BadNumber\n",
        PlanFault::TooLong => "otbench: TooLong\n",
        PlanFault::TooMany => "otbench: TooMany\n",
        PlanFault::Memory => "otbench: Memory\n",
    }
}

impl From<AllocError> for PlanFault {
    ghost from_gives = { λ _ e. e ≡ Memory };

    fn from(_e: AllocError) -> PlanFault {
        PlanFault::Memory
    }
}

impl<T: Drop> From<AllocFailed<T>> for PlanFault {
    ghost from_gives = { λ _ e. e ≡ Memory };

    fn from(_e: AllocFailed<T>) -> PlanFault {
        PlanFault::Memory
    }
}
