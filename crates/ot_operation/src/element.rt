//! What the elements of a document are.

ghost use Rattle.std.specs.Prelude.{◌≡◌, true};

use ot_list::Item;

/// A type of elements: `char`, or a struct of your own. Copied freely (`Copy`), and `==` (`Eq`) is equality of values, which an
/// implementation proves: derived equality of fields that are themselves so is found by the search. The search also
/// finds that an element takes less than 2^63 bytes (`fits_in_memory`), for which the language asks where a single one is lent as a slice.
pub trait Element: Copy + Eq + Item {
    ghost equal_is_same: { (x y : Self) → Self.eq x y ≡ true → x ≡ y };

    ghost use Rattle.std.specs.Mem.{FitsInMemory};

    ghost fits_in_memory: { FitsInMemory Self.row };
}

impl Element for char {
    ghost use Rattle.std.proofs.Common.{rules};

    ghost equal_is_same = { Prim.search rules };

    ghost fits_in_memory = { Prim.search rules };
}
