//! Why a builder call is refused.

ghost use Rattle.std.specs.Prelude.{◌≡◌, OnOk, IsOk, IsErrOf};

use std::alloc::{AllocError, AllocFailed};
use thiserror::Error;

/// Why `retain`, `insert` or `delete` has refused. The operation is then as it was before the call.
#[derive(Debug, Drop, Error)]
pub enum OpRefusal {
    /// The base or the target length would pass 1,000,000 elements.
    #[error("a length would pass 1,000,000")]
    TooLong,
    /// A growth was refused, and no length is too long.
    #[error("no memory")]
    Memory,
}

impl From<AllocError> for OpRefusal {
    ghost use Rattle.ot_operation.specs.declared.refusal.OpRefusal.TheVariants.{Memory};

    ghost from_gives = { λ _ e. e ≡ Memory };

    fn from(_e: AllocError) -> OpRefusal {
        OpRefusal::Memory
    }
}

/// A builder's answer where no length is too long, as for operations made of others within the limits: the one error that is
/// left is `AllocError`.
pub fn only_memory(answer: Result<(), OpRefusal>) -> Result<(), AllocError>
    requires { IsErrOf answer OpRefusal.TooLong → ⊥ }
    ensures { OnOk result (IsOk answer) }
{
    match answer {
        Ok(()) => Ok(()),
        Err(OpRefusal::Memory) => Err(AllocError),
        Err(OpRefusal::TooLong) => unreachable!(),
    }
}
