//! Why a schedule is not made or not made longer.

ghost use Rattle.std.specs.Prelude.{◌≡◌};

use std::alloc::AllocError;
use thiserror::Error;

/// Why there is no schedule of these clients and this start text, in the order of checking.
#[derive(Clone, Copy, Debug, PartialEq, Eq, Error)]
pub enum OpeningFault {
    #[error("there are 1 to 64 clients, and no more present ones")]
    BadClient,
    #[error("a start text has at most 40,000 characters")]
    TooLong,
    #[error("no memory")]
    Memory,
}

impl From<AllocError> for OpeningFault {
    ghost use Rattle.ot_isa.specs.declared.refusal.OpeningFault.TheVariants.{Memory};

    ghost from_gives = { λ _ e. e ≡ Memory };

    fn from(_e: AllocError) -> OpeningFault {
        OpeningFault::Memory
    }
}

/// Why an instruction is not added, in the order of checking.
#[derive(Clone, Copy, Debug, PartialEq, Eq, Error)]
pub enum PushFault {
    #[error("no client has the number")]
    BadClient,
    #[error("a schedule has at most 100,000 instructions")]
    TooMany,
    #[error("no memory")]
    Memory,
}
