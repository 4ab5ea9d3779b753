//! Why a text is no schedule.

use thiserror::Error;

/// What is wrong with a line, in the order in which a line is looked at.
#[derive(Clone, Copy, Debug, PartialEq, Eq, Error)]
pub enum Kind {
    /// The line, or its start text, is no text.
    #[error("the line, or its start text, is no text")]
    BadText,
    /// The first line that counts does not say how many clients there are.
    #[error("the first line that counts does not say how many clients there are")]
    NoClients,
    /// The first word is not allowed at this place.
    #[error("the first word is not allowed at this place")]
    UnknownWord,
    /// No number of one to nine digits stands where one is wanted.
    #[error("no number of one to nine digits stands where one is wanted")]
    BadNumber,
    /// There are not 1 to 64 clients, or no client has the number.
    #[error("there are not 1 to 64 clients, or no client has the number")]
    BadClient,
    /// The rest of an edit's line is no operation.
    #[error("the rest of the line is no operation")]
    BadOperation,
    /// A further word stands on the line.
    #[error("a further word stands on the line")]
    Extra,
    /// The start text has more than 40,000 characters, or a length of the operation passes 1,000,000.
    #[error("the start text has more than 40,000 characters, or a length of the operation passes 1,000,000")]
    TooLong,
    /// There are more than 100,000 instructions.
    #[error("there are more than 100,000 instructions")]
    TooMany,
    /// No memory was found.
    #[error("no memory")]
    Memory,
    /// A read failed, or 2^50 bytes were read.
    #[error("a read failed")]
    ReadFault,
}

/// A fault with its line, counted from 1.
#[derive(Clone, Copy, Debug, PartialEq, Eq, Error)]
#[error("line {line}: {kind}")]
pub struct AsmFault {
    pub line: u64,
    pub kind: Kind,
}
