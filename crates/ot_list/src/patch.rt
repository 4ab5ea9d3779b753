//! Patches: the changes from one list to another.

ghost use Rattle.std.specs.Prelude.{◌≡◌, ◌<◌, ◌^◌, ◌+◌, ◌≤◌, ℕ, List as ListOf, map, length, [], All, OnOk, OnErr, ◌++◌, ◌∷◌};
ghost use Rattle.ot_list.specs.Leaves.{AreLeaves};
ghost use Rattle.ot_list.specs.Spans.{all_gone, IsEven};
ghost use Rattle.ot_list.specs.Change.{patched, IsOf, IsReady};

use crate::moves::{Room, are_even, carry_out};
use crate::{Item, List, Span};
use std::alloc::{AllocError, Global};
use std::marker::Model;

/// Leaves for a list in place of some of its own.
#[derive(Drop)]
pub struct Patch<E: Item> {
    pub(crate) spans: Vec<Span>,
    pub(crate) leaves: Vec<Vec<E>>,
    pub(crate) sums: Vec<E::Sum>,
    pub(crate) leaf_room: Room<Vec<E>>,
    pub(crate) sum_room: Room<E::Sum>,
}

impl<E: Item> Model for Patch<E> {
    ghost use Rattle.std.specs.Prelude.{◌≡◌, map, [], min, vec_capacity};
    ghost use Rattle.ot_list.specs.Change.{Change};

    ghost Value = { Change E };

    ghost view = { λ a. record { spans = a.spans.items; leaves = map (λ v. v.items) a.leaves.items; room = min (vec_capacity a.leaf_room.list) (vec_capacity a.sum_room.list); spare = min (vec_capacity a.leaf_room.gone) (vec_capacity a.sum_room.gone) } };

    ghost invariant = { λ a. (a.sums.items ≡ map E.total (map (λ v. v.items) a.leaves.items)) × (a.leaf_room.list.items ≡ []) × (a.leaf_room.gone.items ≡ []) × (a.sum_room.list.items ≡ []) × (a.sum_room.gone.items ≡ []) };
}

// How many leaves go.
fn count_gone(spans: &[Span]) -> usize
    requires { all_gone spans.now < 2 ^ 64 }
    ensures { result ≡ all_gone spans.now }
{
    let mut gone = 0;
    for span in spans {
        gone += span.gone;
    }
    gone
}

impl<E: Item> Patch<E> {
    /// A patch that changes nothing. It takes no memory.
    pub fn new(alloc: Global) -> Patch<E>
        ensures spans { result.spans ≡ [] }
        ensures leaves { result.leaves ≡ [] }
    {
        Patch {
            spans: Vec::new(alloc),
            leaves: Vec::new(alloc),
            sums: Vec::new(alloc),
            leaf_room: Room::new(alloc),
            sum_room: Room::new(alloc),
        }
    }

    /// Makes it a patch that changes nothing; what it holds goes, and its room stays.
    pub fn clear(&mut self)
        ensures spans { self.new.spans ≡ [] }
        ensures leaves { self.new.leaves ≡ [] }
    {
        self.spans.clear();
        self.leaves.clear();
        self.sums.clear();
    }

    /// Adds a span: so many leaves more are kept, then so many go, and a new one comes in their place. `AllocError` where a growth was refused: the
    /// patch is as it was then.
    pub fn replace(&mut self, kept: usize, gone: usize, leaf: Vec<E>) -> Result<(), AllocError>
        requires { length leaf.items ≤ E.CAP }
        ensures spans { OnOk result (self.new.spans ≡ self.old.spans ++ record { kept = kept; gone = gone; put = 1 } ∷ []) }
        ensures leaves { OnOk result (self.new.leaves ≡ self.old.leaves ++ leaf.items ∷ []) }
        ensures same_spans { OnErr result (self.new.spans ≡ self.old.spans) }
        ensures same_leaves { OnErr result (self.new.leaves ≡ self.old.leaves) }
    {
        self.spans.reserve(1)?;
        self.sums.reserve(1)?;
        self.leaves.reserve(1)?;
        self.spans.push_reserved(Span { kept, gone, put: 1 });
        self.sums.push_reserved(E::sum(leaf.as_slice()));
        self.leaves.push_reserved(leaf);
        Ok(())
    }

    /// Adds a span: so many leaves more are kept, then so many go. `AllocError` where the growth was refused: the patch is as it was then.
    pub fn remove(&mut self, kept: usize, gone: usize) -> Result<(), AllocError>
        ensures spans { OnOk result (self.new.spans ≡ self.old.spans ++ record { kept = kept; gone = gone; put = 0 } ∷ []) }
        ensures same_spans { OnErr result (self.new.spans ≡ self.old.spans) }
        ensures leaves { self.new.leaves ≡ self.old.leaves }
    {
        self.spans.push(Span { kept, gone, put: 0 })?;
        Ok(())
    }

    /// Where it changes a list.
    pub fn spans(&self) -> &[Span]
        ensures { result.now ≡ self.now.spans }
    {
        self.spans.as_slice()
    }
}

impl<E: Item> List<E> {
    /// Makes room in the patch for the headers of leaves that `apply` will move. No value changes. Costs nothing where as many leaves go as come, at
    /// each place.
    pub fn prepare(&self, patch: &mut Patch<E>) -> Result<(), AllocError>
        requires { IsOf self.now patch.old }
        ensures spans { patch.new.spans ≡ patch.old.spans }
        ensures leaves { patch.new.leaves ≡ patch.old.leaves }
        ensures ready { OnOk result (IsReady self.now patch.new) }
    {
        let leaves = self.leaves.len();
        if are_even(patch.spans.as_slice()) {
            return Ok(());
        }
        let gone = count_gone(patch.spans.as_slice());
        let count = leaves - gone + patch.leaves.len();
        patch.leaf_room.reserve(count, gone)?;
        patch.sum_room.reserve(count, gone)?;
        Ok(())
    }

    /// Puts the patch's leaves in the place of those that go. It takes no memory and cannot fail.
    pub fn apply(&mut self, patch: Patch<E>)
        requires of { IsOf self.old patch }
        requires sound { AreLeaves E.CAP (patched self.old patch) }
        requires ready { IsReady self.old patch }
        ensures { self.new ≡ patched self.old patch }
    {
        let mut patch = patch;
        carry_out(
            patch.spans.as_slice(),
            &mut self.leaves,
            &mut patch.leaves,
            &mut patch.leaf_room,
        );
        carry_out(
            patch.spans.as_slice(),
            &mut self.sums,
            &mut patch.sums,
            &mut patch.sum_room,
        );
    }
}
