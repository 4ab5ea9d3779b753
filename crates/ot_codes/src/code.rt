//! One code, and what codes come to.

ghost use Rattle.std.specs.Prelude.{◌≡◌, ◌+◌, ◌<◌, ◌≤◌, ◌^◌};
ghost use Rattle.ot_codes.specs.Codes.{HasPart, added, counted, keeps, length_of, lessened, precedes, subtracted, with_length};

/// A component without its elements: what it does, and with how many of them (1 to 1,000,000 in an operation).
#[derive(Clone, Copy)]
pub enum Code {
    /// The next elements are retained.
    Retain(u32),
    /// Elements are inserted.
    Insert(u32),
    /// The next elements are deleted.
    Delete(u32),
}

impl Code {
    /// How many elements the code retains, inserts or deletes.
    pub fn len(self) -> u32
        ensures { result ≡ length_of self }
    {
        match self {
            Code::Retain(count) | Code::Insert(count) | Code::Delete(count) => count,
        }
    }

    /// A code of the same kind of another length.
    pub fn with_len(self, count: u32) -> Code
        ensures { result ≡ with_length self count }
    {
        match self {
            Code::Retain(_) => Code::Retain(count),
            Code::Insert(_) => Code::Insert(count),
            Code::Delete(_) => Code::Delete(count),
        }
    }

    /// The code is a retain.
    pub fn keeps(self) -> bool
        ensures { result ≡ keeps self }
    {
        matches!(self, Code::Retain(_))
    }

    /// The next code may stand directly behind this one: it is of another kind, and no insertion behind a deletion.
    pub(crate) fn precedes(self, next: Code) -> bool
        ensures { result ≡ precedes self next }
    {
        matches!(
            (self, next),
            (Code::Retain(_), Code::Insert(_) | Code::Delete(_))
                | (Code::Insert(_), Code::Retain(_) | Code::Delete(_))
                | (Code::Delete(_), Code::Retain(_))
        )
    }
}

/// How many elements codes retain, delete and insert.
#[derive(Clone, Copy)]
pub struct Sum {
    pub kept: u32,
    pub deleted: u32,
    pub inserted: u32,
}

impl Sum {
    pub const ZERO: Sum = Sum {
        kept: 0,
        deleted: 0,
        inserted: 0,
    };

    /// The sum with one more code.
    pub(crate) fn with(self, code: Code) -> Sum
        requires kept { self.kept + length_of code < 2 ^ 32 }
        requires deleted { self.deleted + length_of code < 2 ^ 32 }
        requires inserted { self.inserted + length_of code < 2 ^ 32 }
        ensures { result ≡ counted self code }
    {
        match code {
            Code::Retain(count) => Sum {
                kept: self.kept + count,
                ..self
            },
            Code::Insert(count) => Sum {
                inserted: self.inserted + count,
                ..self
            },
            Code::Delete(count) => Sum {
                deleted: self.deleted + count,
                ..self
            },
        }
    }

    /// Two sums together.
    pub(crate) fn plus(self, more: Sum) -> Sum
        requires kept { self.kept + more.kept < 2 ^ 32 }
        requires deleted { self.deleted + more.deleted < 2 ^ 32 }
        requires inserted { self.inserted + more.inserted < 2 ^ 32 }
        ensures { result ≡ added self more }
    {
        Sum {
            kept: self.kept + more.kept,
            deleted: self.deleted + more.deleted,
            inserted: self.inserted + more.inserted,
        }
    }

    /// The sum without one of its codes.
    pub(crate) fn less(self, code: Code) -> Sum
        requires { HasPart self code }
        ensures { result ≡ lessened self code }
    {
        match code {
            Code::Retain(count) => Sum {
                kept: self.kept - count,
                ..self
            },
            Code::Insert(count) => Sum {
                inserted: self.inserted - count,
                ..self
            },
            Code::Delete(count) => Sum {
                deleted: self.deleted - count,
                ..self
            },
        }
    }

    /// What a sum has more than another.
    pub(crate) fn minus(self, other: Sum) -> Sum
        requires kept { other.kept ≤ self.kept }
        requires deleted { other.deleted ≤ self.deleted }
        requires inserted { other.inserted ≤ self.inserted }
        ensures { result ≡ subtracted self other }
    {
        Sum {
            kept: self.kept - other.kept,
            deleted: self.deleted - other.deleted,
            inserted: self.inserted - other.inserted,
        }
    }
}
