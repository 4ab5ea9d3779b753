//! The first fault of an image.

ghost use Rattle.std.specs.Prelude.{◌≡◌};
ghost use Rattle.ot_image.specs.declared.fault.ReadError.TheVariants.{Fault};

use thiserror::Error;

/// What is wrong with a field, or that a growth was refused at it.
#[derive(Clone, Copy, Debug, PartialEq, Eq, Error)]
pub enum Kind {
    /// The bytes end within the field.
    #[error("the bytes end within the field")]
    Cut,
    /// The first four bytes are neither `OTS1` nor `OTS2`, or fewer and the front of neither.
    #[error("the first four bytes are neither OTS1 nor OTS2")]
    BadMagic,
    /// Not 1 to 64 clients, more present ones than clients, or a component of length 0.
    #[error("there are not 1 to 64 clients, or more present ones than clients, or a component has length 0")]
    BadNumber,
    /// More than 40,000 start characters, or an operation with a base or target length above 1,000,000.
    #[error("there are more than 40,000 start characters, or a length of the operation passes 1,000,000")]
    TooLong,
    /// More than 100,000 instructions.
    #[error("there are more than 100,000 instructions")]
    TooMany,
    /// No Unicode scalar value.
    #[error("the number is no Unicode scalar value")]
    BadScalar,
    /// No instruction of this version, or no component.
    #[error("the byte stands for no instruction of this version, or for no component")]
    BadOpcode,
    /// A client that is not there.
    #[error("no client has the number")]
    BadClient,
    /// A component of the kind of the one before it, or an insert directly after a delete.
    #[error("the component is of the kind of the one before it, or inserts directly after a deletion")]
    NotNormal,
    /// Bytes after the last instruction.
    #[error("bytes follow the last instruction")]
    Trailing,
    /// A growth was refused.
    #[error("no memory")]
    Memory,
}

/// The first fault from left to right.
#[derive(Clone, Copy, Debug, PartialEq, Eq, Error)]
#[error("byte {at}: {kind}")]
pub struct ImageFault {
    /// The offset of the field's first byte; for `Cut` the number of bytes given.
    pub at: usize,
    /// What is wrong there.
    pub kind: Kind,
}

/// A fault of the bytes, or out of memory at a field.
#[derive(Clone, Copy, Debug, PartialEq, Eq)]
pub enum ReadError {
    Memory(usize),
    Fault(ImageFault),
}

impl From<ImageFault> for ReadError {
    ghost from_gives = { λ f e. e ≡ Fault f };

    fn from(f: ImageFault) -> ReadError {
        ReadError::Fault(f)
    }
}
