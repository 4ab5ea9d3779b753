//! Characters, each distinguished from all others by who made it.

ghost use Rattle.std.specs.Prelude.{length};

use ot_list::Item;
use ot_text::Element;

/// Who made a character, and its number among all that its maker made. In a run no tag stands twice.
#[derive(Clone, Copy, Debug, PartialEq, Eq, Hash)]
pub struct Tag {
    /// The client's number, or 65,535 for the start text.
    pub origin: u16,
    /// Counted from 0: over the start text by place, over a client's insertions in the order of its edits and within
    /// an edit from left to right.
    pub serial: u32,
}

/// A character with its tag. Two of them are equal where both are.
#[derive(Clone, Copy, Debug, PartialEq, Eq)]
pub struct Tagged {
    pub ch: char,
    pub tag: Tag,
}

impl Element for Tagged {
    ghost use Rattle.std.proofs.Common.{rules};

    ghost equal_is_same = { Prim.search rules };

    ghost fits_in_memory = { Prim.search rules };
}

impl Item for Tagged {
    type Sum = u32;

    const CAP: usize = 512;

    const FILL: usize = 384;

    ghost CAP = { 512 };

    ghost FILL = { 384 };

    ghost total = { λ items. length items };

    ghost count_of = { λ sum. sum };

    fn sum(items: &[Tagged]) -> u32 {
        items.len() as u32
    }

    fn count(sum: u32) -> usize {
        sum as usize
    }

    ghost use Rattle.std.proofs.Common.{rules};

    ghost bounds = { Prim.search rules };

    ghost counts = { Prim.search rules };
}
