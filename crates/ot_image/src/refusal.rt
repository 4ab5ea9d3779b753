//! The first field of bytes that keeps them from being an image.

use crate::fault::ImageFault;

/// Whose characters these are.
#[derive(Clone, Copy, Debug, PartialEq, Eq)]
pub enum Text {
    /// Those of the start text.
    Start,
    /// Those of an insertion: of an instruction's component, both counted from 0.
    Insertion(u32, u32),
}

/// A field of an image. Instructions, the components of one and the characters of a text are counted from 0.
#[derive(Clone, Copy, Debug, PartialEq, Eq)]
pub enum Place {
    Magic,
    Clients,
    /// How many clients are present.
    Present,
    /// How many characters the start text has.
    StartCount,
    /// A character of a text.
    Character(Text, u32),
    /// How many instructions there are.
    InstrCount,
    /// The byte of an instruction's kind.
    InstrKind(u32),
    /// The client of an instruction.
    Client(u32),
    /// How many components the operation of an instruction has.
    ComponentCount(u32),
    /// The byte of the kind of an instruction's component.
    ComponentKind(u32, u32),
    /// The length of an instruction's component.
    ComponentLength(u32, u32),
    /// What follows the last instruction.
    End,
}

/// What is wanted where a value is not allowed.
#[derive(Clone, Copy, Debug, PartialEq, Eq)]
pub enum Wanted {
    /// A number from 1 to this one.
    Positive(u16),
    /// A number from 0 to this one.
    Number(u16),
    /// At most this.
    Most(u32),
    /// A Unicode scalar value.
    Scalar,
    /// The byte of an instruction of this version.
    Instr(u8),
    /// The byte of a component.
    Component,
    /// Behind a component with the first byte none with the second.
    NotBehind(u8, u8),
    /// A length other than 0.
    NotZero,
    /// At most this, with which the operation's base length keeps its limit.
    WithinBase(usize),
    /// At most this, with which the operation's target length keeps its limit.
    WithinTarget(usize),
}

/// Why a field is refused.
#[derive(Clone, Copy, Debug, PartialEq, Eq)]
pub enum Reason {
    /// The bytes end within the field: how many of its bytes are there, and how many it has.
    Cut(usize, usize),
    /// The first four bytes are no magic.
    NoMagic,
    /// The value, and what is wanted.
    Value(u32, Wanted),
    /// So many bytes follow the last instruction.
    Trailing(usize),
}

/// The first field from the left that is refused: its fault, as `load` gives it, and the field's name and the reason.
#[derive(Clone, Copy, Debug, PartialEq, Eq)]
pub struct Refusal {
    pub fault: ImageFault,
    pub place: Place,
    pub reason: Reason,
}
