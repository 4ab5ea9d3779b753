//! A document looked at piece by piece, without a copy.

ghost use Rattle.std.specs.Prelude.{◌≡◌, [], ◌++◌, ◌<◌, length, IfSome, MatchOption};

use ot_list::Item;
use std::marker::Model;

/// What is left to be looked at of a document. A contract sees the elements that are left.
#[derive(Drop)]
pub struct Pieces<'a, T: Item> {
    pub(crate) leaves: &'a [Vec<T>],
}

impl<'a, T: Item> Model for Pieces<'a, T> {
    ghost use Rattle.std.specs.Prelude.{List, map};

    ghost Value = { List T };

    ghost use Rattle.ot_list.specs.Leaves.{concatenated, AreLeaves};

    ghost view = { λ p. concatenated (map (λ v. v.items) p.leaves.now) };

    ghost invariant = { λ p. AreLeaves T.CAP (map (λ v. v.items) p.leaves.now) };
}

impl<'a, T: Item> Pieces<'a, T> {
    /// The next elements, 1 to 512 of them as they lie in memory, or `None` where all were looked at. A look-up.
    pub fn next(&mut self) -> Option<&'a [T]>
        ensures next { MatchOption result (self.old ≡ []) (λ piece. self.old ≡ piece.now ++ self.new) }
        ensures some { IfSome result (λ piece. 0 < length piece.now) }
    {
        let (first, others) = self.leaves.split_first()?;
        self.leaves = others;
        Some(first.as_slice())
    }
}
