//! What the items of a list are.

ghost use Rattle.std.specs.Prelude.{◌≡◌, ◌<◌, ◌≤◌, ◌^◌, ℕ, List as ListOf, length};

/// A type of items. `sum` says what a leaf's items come to; `count` says by the sum alone how many they are.
pub trait Item: Copy {
    /// What the items of a leaf come to. It is read where the leaf itself is not.
    type Sum: Copy;

    /// The greatest number of items of a leaf.
    const CAP: usize;

    /// How many items a leaf gets where many are written: what comes later then finds room. 1 to `CAP`.
    const FILL: usize;

    ghost CAP: { ℕ };

    ghost FILL: { ℕ };

    ghost total: { ListOf Self → Self.Sum };

    ghost count_of: { Self.Sum → ℕ };

    /// What these items come to. It is total: where numbers may grow too large, an implementation says what is left of them.
    fn sum(items: &[Self]) -> Self::Sum
        requires { length items.now ≤ CAP }
        ensures { result ≡ total items.now };

    /// How many items a leaf of this sum has.
    fn count(sum: Self::Sum) -> usize
        ensures { result ≡ count_of sum };

    ghost bounds: { (0 < FILL) × (FILL ≤ CAP) × (CAP < 2 ^ 32) };

    ghost counts: { (items : ListOf Self) → length items ≤ CAP → count_of (total items) ≡ length items };
}

/// Characters, in leaves of up to 512, whose sums are their counts.
impl Item for char {
    type Sum = u32;

    const CAP: usize = 512;

    const FILL: usize = 384;

    ghost CAP = { 512 };

    ghost FILL = { 384 };

    ghost total = { λ items. length items };

    ghost count_of = { λ sum. sum };

    fn sum(items: &[char]) -> u32 {
        items.len() as u32
    }

    fn count(sum: u32) -> usize {
        sum as usize
    }

    ghost use Rattle.std.proofs.Common.{rules};

    ghost bounds = { Prim.search rules };

    ghost counts = { Prim.search rules };
}
