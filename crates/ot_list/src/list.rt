//! The list.

ghost use Rattle.std.specs.Prelude.{◌≡◌, ◌↔◌, ◌<◌, ◌≤◌, ◌+◌, ◌-◌, ◌^◌, List as ListOf, map, length, take, drop, set, get_or, [], false, IsTrue, IfOk, OnErr};
ghost use Rattle.ot_list.specs.Leaves.{concatenated, AreLeaves, MayHave, replaced, with_run};

use crate::Item;
use crate::replace::replace;
use std::alloc::{AllocError, Global};
use std::marker::Model;

/// So many leaves a block has, whose sums are read together.
const BLOCK: usize = 8;

/// A list in leaves.
#[derive(Drop)]
pub struct List<E: Item> {
    pub(crate) leaves: Vec<Vec<E>>,
    pub(crate) sums: Vec<E::Sum>,
}

impl<E: Item> Model for List<E> {
    ghost Value = { ListOf (ListOf E) };

    ghost view = { λ a. map (λ v. v.items) a.leaves.items };

    ghost invariant = { λ a. (a.sums.items ≡ map E.total (map (λ v. v.items) a.leaves.items)) × AreLeaves E.CAP (map (λ v. v.items) a.leaves.items) };
}

impl<E: Item> List<E> {
    /// A list without items. It takes no memory.
    pub fn new(alloc: Global) -> List<E>
        ensures { result ≡ [] }
    {
        List {
            leaves: Vec::new(alloc),
            sums: Vec::new(alloc),
        }
    }

    /// Where the list's memory comes from.
    pub fn allocator(&self) -> Global {
        *self.leaves.allocator()
    }

    /// How many leaves there are.
    pub fn leaf_count(&self) -> usize
        ensures count { result ≡ length self.now }
        ensures leaves { AreLeaves E.CAP self.now }
    {
        self.leaves.len()
    }

    /// What each leaf comes to.
    pub fn sums(&self) -> &[E::Sum]
        ensures { result.now ≡ map E.total self.now }
    {
        self.sums.as_slice()
    }

    /// The items of a leaf.
    pub fn leaf(&self, place: usize) -> &[E]
        requires { place < length self.now }
        ensures { result.now ≡ get_or self.now place [] }
    {
        self.leaves[place].as_slice()
    }

    /// The leaves, in order.
    pub fn leaves(&self) -> &[Vec<E>]
        ensures { map (λ v. v.items) result.now ≡ self.now }
    {
        self.leaves.as_slice()
    }

    /// A list of the same leaves. `AllocError` where a growth was refused.
    pub fn copy(&self) -> Result<List<E>, AllocError>
        ensures { IfOk result (λ list. list ≡ self.now) }
    {
        let alloc = *self.leaves.allocator();
        let leaves = copy_leaves(alloc, self.leaves.as_slice())?;
        let sums = Vec::from_slice(alloc, self.sums.as_slice())?;
        Ok(List { leaves, sums })
    }

    // How many items a leaf has, by its sum.
    fn size(&self, place: usize) -> usize
        requires { place < length self.now }
        ensures value { result ≡ length (get_or self.now place []) }
        ensures small { result ≤ E.CAP }
        ensures cap { E.CAP < 2 ^ 32 }
    {
        E::count(self.sums[place])
    }

    // How many items a block of leaves has.
    fn block_size(&self, place: usize) -> usize
        requires { place + 8 ≤ length self.now }
        ensures { result ≡ length (concatenated (take 8 (drop place self.now))) }
    {
        let _ = self.leaf_count();
        let mut items = 0;
        for next in place..place + BLOCK {
            items += self.size(next);
        }
        items
    }

    // `find` by blocks of leaves: it may stop before it has to.
    fn skip_blocks(&self, from: usize, count: usize) -> (usize, usize)
        requires { from ≤ length self.now }
        ensures order { from ≤ result.0 }
        ensures within { result.0 ≤ length self.now }
        ensures count { length (concatenated (take (result.0 - from) (drop from self.now))) + result.1 ≡ count }
    {
        let mut place = from;
        let mut left = count;
        while self.leaf_count() - place >= BLOCK {
            let block = self.block_size(place);
            if block > left {
                return (place, left);
            }
            place += BLOCK;
            left -= block;
        }
        (place, left)
    }

    /// Walks over whole leaves, from one on, as long as they have at most `count` items together. Says before which leaf it stops, and how many items of
    /// the count are left: fewer than that leaf has, if there is one. It reads sums alone.
    pub fn find(&self, from: usize, count: usize) -> (usize, usize)
        requires { from ≤ length self.now }
        ensures order { from ≤ result.0 }
        ensures within { result.0 ≤ length self.now }
        ensures count { length (concatenated (take (result.0 - from) (drop from self.now))) + result.1 ≡ count }
        ensures next { result.0 < length self.now → result.1 < length (get_or self.now result.0 []) }
    {
        let (start, rest) = self.skip_blocks(from, count);
        let mut left = rest;
        for place in start..self.leaf_count() {
            let items = self.size(place);
            if items > left {
                return (place, left);
            }
            left -= items;
        }
        (self.leaf_count(), left)
    }

    // May the leaf at that place have so many items, beside its neighbours?
    fn may_have(&self, place: usize, count: usize) -> bool
        requires place { place < length self.now }
        requires small { count ≤ E.CAP }
        ensures { IsTrue result ↔ MayHave E.CAP self.now place count }
    {
        let leaves = self.leaf_count();
        if count == 0 {
            return false;
        }
        if place > 0 && self.size(place - 1) + count <= E::CAP {
            return false;
        }
        place + 1 >= leaves || self.size(place + 1) + count > E::CAP
    }

    /// In a leaf, where it lies, `gone` items go from the place `at` of the leaf on, and others come there. Answers false, and changes nothing, exactly where
    /// the leaves would not be as they have to be then: 1 to `CAP` items each, two neighbours more than `CAP`. `AllocError` where the leaf's growth was
    /// refused, which happens only where more items come than go: nothing has changed then.
    pub fn replace_in_leaf(
        &mut self,
        leaf: usize,
        at: usize,
        gone: usize,
        items: &[E],
    ) -> Result<bool, AllocError>
        requires leaf { leaf < length self.old }
        requires within { at + gone ≤ length (get_or self.old leaf []) }
        ensures made { IfOk result (λ made. IsTrue made → self.new ≡ replaced self.old leaf at gone items.now) }
        ensures not { IfOk result (λ made. made ≡ false → self.new ≡ self.old) }
        ensures only { IfOk result (λ made. made ≡ false → AreLeaves E.CAP (replaced self.old leaf at gone items.now) → ⊥) }
        ensures err { OnErr result (self.new ≡ self.old) }
        ensures grown { OnErr result (gone < length items.now) }
    {
        let left = self.size(leaf) - gone;
        if items.len() > E::CAP - left {
            return Ok(false);
        }
        if !self.may_have(leaf, left + items.len()) {
            return Ok(false);
        }
        replace(&mut self.leaves[leaf], at, gone, items, E::CAP)?;
        self.sums[leaf] = E::sum(self.leaves[leaf].as_slice());
        Ok(true)
    }

    /// A copy of a leaf in which others come in the place of `gone` items, with as much room as the leaf has. `AllocError` where memory was refused.
    pub fn leaf_with(
        &self,
        leaf: usize,
        at: usize,
        gone: usize,
        items: &[E],
    ) -> Result<Vec<E>, AllocError>
        requires leaf { leaf < length self.now }
        requires within { at + gone ≤ length (get_or self.now leaf []) }
        ensures { IfOk result (λ copy. copy.items ≡ with_run (get_or self.now leaf []) at gone items.now) }
    {
        let old = &self.leaves[leaf];
        let mut copy = Vec::with_capacity(*old.allocator(), old.capacity())?;
        let old = old.as_slice();
        copy.extend_from_slice(&old[..at])?;
        copy.extend_from_slice(items)?;
        copy.extend_from_slice(&old[at + gone..])?;
        Ok(copy)
    }

    /// Exchanges a leaf for other items: what was the leaf is handed back. Answers false, and changes nothing, exactly where the leaves would not be as they
    /// have to be then. It takes no memory.
    pub fn exchange_leaf(&mut self, place: usize, items: &mut Vec<E>) -> bool
        requires { place < length self.old }
        ensures made { IsTrue result → self.new ≡ set self.old place items.old.items }
        ensures old { IsTrue result → items.new.items ≡ get_or self.old place [] }
        ensures not { result ≡ false → self.new ≡ self.old }
        ensures kept { result ≡ false → items.new.items ≡ items.old.items }
        ensures only { result ≡ false → AreLeaves E.CAP (set self.old place items.old.items) → ⊥ }
    {
        let count = items.len();
        if count > E::CAP {
            return false;
        }
        if !self.may_have(place, count) {
            return false;
        }
        self.sums[place] = E::sum(items.as_slice());
        std::mem::swap(&mut self.leaves[place], items);
        true
    }
}

// Copies of leaves.
fn copy_leaves<T: Copy>(alloc: Global, leaves: &[Vec<T>]) -> Result<Vec<Vec<T>>, AllocError>
    ensures { IfOk result (λ copies. map (λ v. v.items) copies.items ≡ map (λ v. v.items) leaves.now) }
{
    let mut copies = Vec::with_capacity(alloc, leaves.len())?;
    for leaf in leaves {
        let copy = Vec::from_slice(alloc, leaf.as_slice())?;
        copies.push(copy)?;
    }
    Ok(copies)
}
