//! A list written from left to right over an old one.

ghost use Rattle.std.specs.Prelude.{◌≡◌, ◌↔◌, ◌+◌, ◌-◌, ◌*◌, ◌<◌, ◌≤◌, ◌++◌, ◌∷◌, List as ListOf, [], length, get_or, take, drop, false, IsTrue, OnOk, IfOk};
ghost use Rattle.ot_list.specs.Leaves.{concatenated, AreLeaves, MayEnd, last_leaf};
ghost use Rattle.ot_list.specs.Change.{patched, IsOf};
ghost use Rattle.ot_list.specs.Written.{written, front_of, place_of, IsDraft, Continues, IsWithoutLast, IsWithLeaf, HasClosed, HasHalved, HasFlushed, MayFollow, IsAt};

use crate::blocks::move_down;
use crate::{Item, List, Patch, Span};
use std::alloc::{AllocError, Global};

/// Writes a list from left to right over an old one, of which it keeps whole leaves. The old list is only read, and every call is given the same one.
#[derive(Drop)]
pub struct Draft<E: Item> {
    // what is written and no whole leaf yet
    pending: Vec<E>,
    // the spans that are done
    spans: Vec<Span>,
    // the new leaves, with their sums; those from `first` on are of the last span
    leaves: Vec<Vec<E>>,
    sums: Vec<E::Sum>,
    first: usize,
    // the old leaves that the last span keeps, up to `place`
    kept: usize,
    place: usize,
}

// Takes the first items out, as a leaf. Where these are all, and fill most of their room, none is copied.
fn take_front<T: Copy>(items: &mut Vec<T>, count: usize) -> Result<Vec<T>, AllocError>
    requires { count ≤ length items.old.items }
    ensures front { IfOk result (λ front. front.items ≡ take count items.old.items) }
    ensures rest { OnOk result (items.new.items ≡ drop count items.old.items) }
{
    let alloc = *items.allocator();
    if count == items.len() && items.capacity() / 4 <= count / 3 {
        return Ok(std::mem::replace(items, Vec::new(alloc)));
    }
    let front = Vec::from_slice(alloc, &items[..count])?;
    drop_front(items, count);
    Ok(front)
}

// Removes the first items.
fn drop_front<T: Copy>(items: &mut Vec<T>, count: usize)
    requires { count ≤ length items.old.items }
    ensures { items.new.items ≡ drop count items.old.items }
{
    let left = items.len() - count;
    if left > 0 {
        move_down(items.as_mut_slice(), count, 0, left);
    }
    items.truncate(left);
}

impl<E: Item> Draft<E> {
    /// A draft in which nothing is written. It takes no memory.
    pub fn new(alloc: Global) -> Result<Draft<E>, AllocError>
        ensures draft { IfOk result (λ d. (old : ListOf (ListOf E)) → IsDraft E.CAP E.total old d) }
        ensures empty { IfOk result (λ d. (old : ListOf (ListOf E)) → written old d ≡ []) }
        ensures place { IfOk result (λ d. place_of d ≡ 0) }
    {
        Ok(Draft {
            pending: Vec::new(alloc),
            spans: Vec::new(alloc),
            leaves: Vec::new(alloc),
            sums: Vec::new(alloc),
            first: 0,
            kept: 0,
            place: 0,
        })
    }

    // The items of the last whole leaf: none, where there is none.
    fn last_items<'a>(&'a self, old: &'a List<E>) -> &'a [E]
        requires { IsDraft E.CAP E.total old.now self.now }
        ensures { result.now ≡ last_leaf (front_of old.now self.now) }
    {
        let count = self.leaves.len();
        if count > self.first {
            return self.leaves[count - 1].as_slice();
        }
        if self.kept > 0 {
            return old.leaf(self.place - 1);
        }
        &[]
    }

    // How many items the last whole leaf has, by its sum: 0, where there is none.
    fn last_count(&self, old: &List<E>) -> usize
        requires { IsDraft E.CAP E.total old.now self.now }
        ensures { result ≡ length (last_leaf (front_of old.now self.now)) }
    {
        let count = self.sums.len();
        if count > self.first {
            return E::count(self.sums[count - 1]);
        }
        if self.kept > 0 {
            return E::count(old.sums()[self.place - 1]);
        }
        0
    }

    // The last whole leaf is written no more.
    fn drop_last(&mut self, old: &List<E>)
        requires draft { IsDraft E.CAP E.total old.now self.old }
        requires some { 0 < length (last_leaf (front_of old.now self.old)) }
        ensures { IsWithoutLast E.CAP E.total old.now self.old self.new }
    {
        if self.leaves.len() > self.first {
            let _ = self.leaves.pop();
            let _ = self.sums.pop();
            return;
        }
        self.kept -= 1;
        self.place -= 1;
        if self.kept > 0 {
            return;
        }
        match self.spans.pop() {
            Some(span) => {
                self.first -= span.put;
                self.kept = span.kept;
                self.place -= span.gone;
            }
            None => {}
        }
    }

    // Writes a whole leaf.
    fn add(&mut self, old: &List<E>, leaf: Vec<E>) -> Result<(), AllocError>
        requires draft { IsDraft E.CAP E.total old.now self.old }
        requires some { 0 < length leaf.items }
        requires small { length leaf.items ≤ E.CAP }
        requires end { MayEnd E.CAP (front_of old.now self.old) (length leaf.items) }
        ensures { OnOk result (IsWithLeaf E.CAP E.total old.now self.old self.new leaf.items) }
    {
        self.sums.push(E::sum(leaf.as_slice()))?;
        self.leaves.push(leaf)?;
        Ok(())
    }

    // The first `count` pending items become a leaf.
    fn close_alone(&mut self, old: &List<E>, count: usize) -> Result<(), AllocError>
        requires draft { IsDraft E.CAP E.total old.now self.old }
        requires some { 0 < count }
        requires small { count ≤ E.CAP }
        requires enough { count ≤ length self.old.pending.items }
        requires end { MayEnd E.CAP (front_of old.now self.old) count }
        ensures { OnOk result (HasClosed E.CAP E.total old.now self.old self.new count) }
    {
        let leaf = take_front(&mut self.pending, count)?;
        self.add(old, leaf)?;
        Ok(())
    }

    // The last whole leaf and the first `count` pending items become one.
    fn close_joined(&mut self, old: &List<E>, count: usize) -> Result<(), AllocError>
        requires draft { IsDraft E.CAP E.total old.now self.old }
        requires some { 0 < length (last_leaf (front_of old.now self.old)) }
        requires small { length (last_leaf (front_of old.now self.old)) + count ≤ E.CAP }
        requires enough { count ≤ length self.old.pending.items }
        ensures { OnOk result (HasClosed E.CAP E.total old.now self.old self.new count) }
    {
        let alloc = *self.pending.allocator();
        let last = self.last_items(old);
        let mut leaf = Vec::with_capacity(alloc, last.len() + count)?;
        leaf.extend_from_slice(last)?;
        let pending = self.pending.as_slice();
        leaf.extend_from_slice(&pending[..count])?;
        self.drop_last(old);
        self.add(old, leaf)?;
        drop_front(&mut self.pending, count);
        Ok(())
    }

    // The first `count` pending items become a leaf; where that is too small beside the leaf before it, the two become one.
    fn close(&mut self, old: &List<E>, count: usize) -> Result<(), AllocError>
        requires draft { IsDraft E.CAP E.total old.now self.old }
        requires some { 0 < count }
        requires small { count ≤ E.CAP }
        requires enough { count ≤ length self.old.pending.items }
        ensures { OnOk result (HasClosed E.CAP E.total old.now self.old self.new count) }
    {
        let before = self.last_count(old);
        if before == 0 {
            return self.close_alone(old, count);
        }
        if before + count > E::CAP {
            return self.close_alone(old, count);
        }
        self.close_joined(old, count)
    }

    // So many pending items become leaves that no more are left than a leaf may have. What may stand behind all may stand behind these.
    fn halve(&mut self, old: &List<E>, next: usize) -> Result<(), AllocError>
        requires draft { IsDraft E.CAP E.total old.now self.old }
        requires some { 0 < next }
        requires small { next ≤ E.CAP }
        ensures { OnOk result (HasHalved E.CAP E.total old.now self.old self.new next) }
    {
        let count = self.pending.len();
        if count <= E::CAP {
            return Ok(());
        }
        let left = (count / 2).max(E::CAP + 1 - next);
        self.close(old, count - left)?;
        Ok(())
    }

    // All that is pending becomes leaves, behind which a leaf of `next` items may stand, if it may behind all that was pending.
    fn flush(&mut self, old: &List<E>, next: usize) -> Result<(), AllocError>
        requires draft { IsDraft E.CAP E.total old.now self.old }
        requires some { 0 < next }
        requires small { next ≤ E.CAP }
        ensures { OnOk result (HasFlushed E.CAP E.total old.now self.old self.new next) }
    {
        self.halve(old, next)?;
        let left = self.pending.len();
        if left == 0 {
            return Ok(());
        }
        self.close(old, left)?;
        Ok(())
    }

    // Makes room for one more pending item.
    fn make_room(&mut self, old: &List<E>) -> Result<(), AllocError>
        requires { IsDraft E.CAP E.total old.now self.old }
        ensures ok { OnOk result (Continues E.CAP E.total old.now self.old self.new []) }
        ensures room { OnOk result (length self.new.pending.items < 2 * E.CAP) }
    {
        if self.pending.is_empty() {
            self.pending.reserve(E::CAP)?;
            return Ok(());
        }
        if self.pending.len() < 2 * E::CAP {
            return Ok(());
        }
        self.close(old, E::FILL)?;
        Ok(())
    }

    /// Writes items. After an error the draft is abandoned.
    pub fn extend(&mut self, old: &List<E>, items: &[E]) -> Result<(), AllocError>
        requires { IsDraft E.CAP E.total old.now self.old }
        ensures { OnOk result (Continues E.CAP E.total old.now self.old self.new items.now) }
    {
        let mut at = 0;
        while at < items.len() {
            self.make_room(old)?;
            let step = (items.len() - at).min(2 * E::CAP - self.pending.len());
            self.pending.extend_from_slice(&items[at..at + step])?;
            at += step;
        }
        Ok(())
    }

    // May a leaf of that length stand behind all that is written?
    fn may_follow(&self, old: &List<E>, next: usize) -> bool
        requires draft { IsDraft E.CAP E.total old.now self.now }
        requires small { next ≤ E.CAP }
        ensures { IsTrue result ↔ MayFollow E.CAP old.now self.now next }
    {
        let count = self.pending.len();
        if count > 0 {
            return count + next > E::CAP;
        }
        let last = self.last_count(old);
        last == 0 || last + next > E::CAP
    }

    // Are the old leaves before that place kept, with nothing written behind them?
    fn is_at(&self, place: usize) -> bool
        requires { self.now.first ≤ length self.now.leaves.items }
        ensures { IsTrue result → IsAt self.now place }
    {
        if self.leaves.len() > self.first {
            return false;
        }
        if !self.pending.is_empty() {
            return false;
        }
        self.place == place
    }

    // The span in which it writes ends: the old leaves before that place go.
    fn end_span(&mut self, to: usize) -> Result<(), AllocError>
        requires place { self.old.place ≤ to }
        requires first { self.old.first ≤ length self.old.leaves.items }
        ensures spans { OnOk result (self.new.spans.items ≡ self.old.spans.items ++ record { kept = self.old.kept; gone = to - self.old.place; put = length self.old.leaves.items - self.old.first } ∷ []) }
        ensures pending { self.new.pending ≡ self.old.pending }
        ensures leaves { self.new.leaves ≡ self.old.leaves }
        ensures sums { self.new.sums ≡ self.old.sums }
        ensures first { OnOk result (self.new.first ≡ length self.old.leaves.items) }
    {
        let count = self.leaves.len();
        self.spans.push(Span {
            kept: self.kept,
            gone: to - self.place,
            put: count - self.first,
        })?;
        self.first = count;
        Ok(())
    }

    /// Writes whole old leaves, from one place up to another: they stay as they are, and those before them are done with. Answers false, and leaves all as
    /// it is, where the first of them may not stand behind what is written: its items are then to be written instead. After an error the draft is
    /// abandoned.
    pub fn keep(&mut self, old: &List<E>, from: usize, to: usize) -> Result<bool, AllocError>
        requires draft { IsDraft E.CAP E.total old.now self.old }
        requires place { place_of self.old ≤ from }
        requires some { from < to }
        requires within { to ≤ length old.now }
        ensures draft { OnOk result (IsDraft E.CAP E.total old.now self.new) }
        ensures text { IfOk result (λ kept. IsTrue kept → written old.now self.new ≡ written old.now self.old ++ concatenated (take (to - from) (drop from old.now))) }
        ensures place { IfOk result (λ kept. IsTrue kept → place_of self.new ≡ to) }
        ensures same { IfOk result (λ kept. kept ≡ false → self.new ≡ self.old) }
        ensures only { IfOk result (λ kept. kept ≡ false → MayFollow E.CAP old.now self.old (length (get_or old.now from [])) → ⊥) }
    {
        let _ = old.leaf_count();
        if self.is_at(from) {
            self.kept += to - from;
            self.place = to;
            return Ok(true);
        }
        let next = E::count(old.sums()[from]);
        if !self.may_follow(old, next) {
            return Ok(false);
        }
        self.flush(old, next)?;
        self.end_span(from)?;
        self.kept = to - from;
        self.place = to;
        Ok(true)
    }

    /// Ends the writing: the old leaves that are left go. The patch becomes the one that leads from the old list to what is written; what it held goes, and
    /// its room stays. The draft is then abandoned, as after an error.
    pub fn finish(&mut self, old: &List<E>, patch: &mut Patch<E>) -> Result<(), AllocError>
        requires { IsDraft E.CAP E.total old.now self.old }
        ensures of { OnOk result (IsOf old.now patch.new) }
        ensures sound { OnOk result (AreLeaves E.CAP (patched old.now patch.new)) }
        ensures text { OnOk result (concatenated (patched old.now patch.new) ≡ written old.now self.old) }
    {
        self.flush(old, E::CAP)?;
        self.end_span(old.leaf_count())?;
        std::mem::swap(&mut self.spans, &mut patch.spans);
        std::mem::swap(&mut self.leaves, &mut patch.leaves);
        std::mem::swap(&mut self.sums, &mut patch.sums);
        Ok(())
    }

    /// The list that is written over none. The draft is then abandoned, as after an error.
    pub fn list(&mut self) -> Result<List<E>, AllocError>
        requires { IsDraft E.CAP E.total [] self.old }
        ensures { IfOk result (λ list. concatenated list ≡ written [] self.old) }
    {
        let alloc = *self.pending.allocator();
        let none = List::new(alloc);
        self.flush(&none, E::CAP)?;
        Ok(List {
            leaves: std::mem::replace(&mut self.leaves, Vec::new(alloc)),
            sums: std::mem::replace(&mut self.sums, Vec::new(alloc)),
        })
    }
}
