//! Why a text is no operation.

ghost use Rattle.std.specs.Prelude.{◌≡◌};
ghost use Rattle.ot_json.specs.declared.fault.OpFault.TheVariants.{Memory};

use std::alloc::{AllocError, AllocFailed};
use thiserror::Error;

/// Why a text is no operation. The leftmost faulty component decides between `BadComponent` and `TooLong`.
#[derive(Clone, Copy, Debug, PartialEq, Eq, Error)]
pub enum OpFault {
    /// The text is no JSON.
    #[error("the text is no JSON")]
    NotJson,
    /// The JSON value is no array.
    #[error("the JSON value is no array")]
    NotArray,
    /// The component with this index, from 0, is no string and no integer but 0 within 64 bits.
    #[error("item {0} of the array is no component")]
    BadComponent(usize),
    /// With a component the base length or the target length passes 1,000,000 scalars.
    #[error("a length would pass 1,000,000")]
    TooLong,
    /// No memory was found.
    #[error("no memory")]
    Memory,
}

impl From<AllocError> for OpFault {
    ghost from_gives = { λ _ e. e ≡ Memory };

    fn from(_e: AllocError) -> OpFault {
        OpFault::Memory
    }
}
