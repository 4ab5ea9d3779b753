//! A place in a list of leaves, from which it is read.

ghost use Rattle.std.specs.Prelude.{◌≡◌, ◌+◌, ◌<◌, ◌≤◌, ◌++◌, [], length, take, drop, get_or, IfSome, OnOk};
ghost use Rattle.ot_list.specs.Leaves.{concatenated};
ghost use Rattle.ot_text.specs.Places.{rest_at, left_at, start_of, IsInside, IsBehind};

use ot_list::{Item, List};
use std::alloc::AllocError;

// A leaf, and how many of its items lie before the place.
#[derive(Clone, Copy)]
pub struct Place {
    pub leaf: usize,
    pub offset: usize,
}

impl Place {
    // The place behind the first items.
    pub fn after<T: Item>(list: &List<T>, count: usize) -> Place
        requires { count ≤ length (concatenated list.now) }
        ensures inside { IsInside list.now result.leaf result.offset }
        ensures left { left_at list.now result.leaf result.offset ≡ drop count (concatenated list.now) }
    {
        let (leaf, offset) = list.find(0, count);
        Place { leaf, offset }
    }

    // The place behind the first items, in a leaf or at the end of the last one; none where there is no leaf.
    pub fn behind<T: Item>(list: &List<T>, count: usize) -> Option<Place>
        requires { count ≤ length (concatenated list.now) }
        ensures { IfSome result (λ p. IsBehind list.now p.leaf p.offset count) }
    {
        if list.leaf_count() == 0 {
            return None;
        }
        let first = Place { leaf: 0, offset: 0 };
        Some(first.ahead(list, count))
    }

    // The place behind the next items, in a leaf or at the end of the last one.
    pub fn ahead<T: Item>(self, list: &List<T>, count: usize) -> Place
        requires there { self.leaf < length list.now }
        requires within { self.offset ≤ length (get_or list.now self.leaf []) }
        requires fits { start_of list.now self.leaf self.offset + count ≤ length (concatenated list.now) }
        ensures { IsBehind list.now result.leaf result.offset (start_of list.now self.leaf self.offset + count) }
    {
        let leaves = list.leaf_count();
        let rest = list.leaf(self.leaf).len() - self.offset;
        if count < rest {
            return Place {
                leaf: self.leaf,
                offset: self.offset + count,
            };
        }
        let (next, at) = list.find(self.leaf + 1, count - rest);
        if next < leaves {
            return Place {
                leaf: next,
                offset: at,
            };
        }
        let last = next - 1;
        Place {
            leaf: last,
            offset: list.leaf(last).len(),
        }
    }

    // What is left of the leaf there.
    pub fn rest<'a, T: Item>(self, list: &'a List<T>) -> &'a [T]
        requires inside { IsInside list.now self.leaf self.offset }
        requires some { 0 < length (left_at list.now self.leaf self.offset) }
        ensures value { result.now ≡ rest_at list.now self.leaf self.offset }
        ensures filled { 0 < length result.now }
        ensures there { self.leaf < length list.now }
        ensures front { take (length result.now) (left_at list.now self.leaf self.offset) ≡ result.now }
    {
        let leaf = list.leaf(self.leaf);
        &leaf[self.offset..]
    }

    // Skips items of any leaves. It reads the sums of whole leaves, and not their items.
    pub fn advance<T: Item>(&mut self, list: &List<T>, count: usize)
        requires within { count ≤ length (left_at list.now self.old.leaf self.old.offset) }
        requires inside { IsInside list.now self.old.leaf self.old.offset }
        ensures inside { IsInside list.now self.new.leaf self.new.offset }
        ensures left { left_at list.now self.new.leaf self.new.offset ≡ drop count (left_at list.now self.old.leaf self.old.offset) }
        ensures later { self.old.leaf ≤ self.new.leaf }
    {
        if count == 0 {
            return;
        }
        let _ = list.leaf_count();
        let rest = self.rest(list).len();
        if count < rest {
            self.offset += count;
            return;
        }
        let (leaf, offset) = list.find(self.leaf + 1, count - rest);
        self.leaf = leaf;
        self.offset = offset;
    }

    // Reads items of any leaves: they are copied to the end of `items`.
    pub fn read<T: Item>(
        &mut self,
        list: &List<T>,
        count: usize,
        items: &mut Vec<T>,
    ) -> Result<(), AllocError>
        requires within { count ≤ length (left_at list.now self.old.leaf self.old.offset) }
        requires inside { IsInside list.now self.old.leaf self.old.offset }
        ensures read { OnOk result (items.new.items ≡ items.old.items ++ take count (left_at list.now self.old.leaf self.old.offset)) }
        ensures inside { OnOk result (IsInside list.now self.new.leaf self.new.offset) }
        ensures left { OnOk result (left_at list.now self.new.leaf self.new.offset ≡ drop count (left_at list.now self.old.leaf self.old.offset)) }
        ensures later { OnOk result (self.old.leaf ≤ self.new.leaf) }
    {
        let mut ahead = count;
        while ahead > 0 {
            let rest = self.rest(list);
            let step = rest.len().min(ahead);
            items.extend_from_slice(&rest[..step])?;
            self.advance(list, step);
            ahead -= step;
        }
        Ok(())
    }
}
