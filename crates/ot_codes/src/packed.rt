//! A code in four bytes.

ghost use Rattle.std.specs.Prelude.{◌≡◌, ◌+◌, ◌-◌, ◌<◌, ◌≤◌, ◌^◌};
ghost use Rattle.ot_codes.specs.Codes.{counted, joined, length_of, stands_before, with_length};

use crate::code::{Code, Sum};
use std::marker::Model;

// The kind stands in the two highest bits.
const INSERT: u32 = 1 << 30;

const DELETE: u32 = 2 << 30;

/// A code in four bytes: its kind in the two highest bits, its length in the others. A contract sees the code.
#[derive(Clone, Copy)]
pub struct Packed {
    bits: u32,
}

impl Model for Packed {
    ghost use Rattle.std.specs.Prelude.{◌<◌, ◌^◌};
    ghost use Rattle.ot_codes.specs.declared.code.Code.{Code};

    ghost Value = { Code };

    ghost use Rattle.ot_codes.specs.Codes.{length_of};
    ghost use Rattle.ot_codes.specs.Packing.{unpacked, packed, packed_back};

    ghost view = { λ p. unpacked p.bits };

    ghost invariant = { λ p. length_of (unpacked p.bits) < 2 ^ 26 };

    ghost inverse = { λ code. record { bits = packed code } };

    ghost inverse_ok = { λ p h. λ i. record { bits = packed_back p.bits i } };
}

impl Packed {
    /// A code of no elements, where none is held.
    pub(crate) const NONE: Packed = Packed { bits: 0 };

    /// The code in four bytes.
    pub(crate) fn new(code: Code) -> Packed
        requires { length_of code < 2 ^ 26 }
        ensures { result ≡ code }
    {
        match code {
            Code::Retain(count) => Packed { bits: count },
            Code::Insert(count) => Packed {
                bits: INSERT + count,
            },
            Code::Delete(count) => Packed {
                bits: DELETE + count,
            },
        }
    }

    /// The code.
    pub fn code(self) -> Code
        ensures is { result ≡ self }
        ensures short { length_of result < 2 ^ 26 }
    {
        if self.bits < INSERT {
            Code::Retain(self.bits)
        } else if self.bits < DELETE {
            Code::Insert(self.bits - INSERT)
        } else {
            Code::Delete(self.bits - DELETE)
        }
    }

    /// Two codes of one kind as one; none where they are of two kinds.
    pub(crate) fn joined(self, next: Packed) -> Option<Packed>
        requires { length_of self + length_of next < 2 ^ 26 }
        ensures { result ≡ joined self next }
    {
        if self.bits / INSERT != next.bits / INSERT {
            return None;
        }
        Some(Packed {
            bits: self.bits + next.bits % INSERT,
        })
    }

    /// How many elements the code retains, inserts or deletes.
    pub(crate) fn len(self) -> u32
        ensures { result ≡ length_of self }
    {
        self.bits % INSERT
    }

    /// The code without its first `count` elements.
    pub(crate) fn without(self, count: u32) -> Packed
        requires { count ≤ length_of self }
        ensures { result ≡ with_length self (length_of self - count) }
    {
        Packed {
            bits: self.bits - count,
        }
    }

    /// The code is an insertion, and the last one is a deletion: then it stands before it.
    pub(crate) fn stands_before(self, last: Packed) -> bool
        ensures { result ≡ stands_before self last }
    {
        INSERT <= self.bits && self.bits < DELETE && DELETE <= last.bits
    }

    /// The sum with this code. No branch depends on the kind.
    pub(crate) fn added_to(self, sum: Sum) -> Sum
        requires kept { sum.kept + 2 ^ 26 ≤ 2 ^ 32 }
        requires deleted { sum.deleted + 2 ^ 26 ≤ 2 ^ 32 }
        requires inserted { sum.inserted + 2 ^ 26 ≤ 2 ^ 32 }
        ensures is { result ≡ counted sum self }
        ensures short { length_of self < 2 ^ 26 }
    {
        let (kind, length) = (self.bits / INSERT, self.bits % INSERT);
        let kept = if kind == 0 { length } else { 0 };
        let inserted = if kind == 1 { length } else { 0 };
        let deleted = if kind == 2 { length } else { 0 };
        Sum {
            kept: sum.kept + kept,
            deleted: sum.deleted + deleted,
            inserted: sum.inserted + inserted,
        }
    }
}
