//! An operation carried out where the list lies.

ghost use Rattle.std.specs.Prelude.{◌≡◌, ◌+◌, ◌-◌, ◌<◌, ◌≤◌, [], length, take, drop, set, get_or, unwrap_or, false, IsTrue, IfOk, IfSome, None, OnErr};
ghost use Rattle.ot_operation.specs.Operation.{apply};
ghost use Rattle.ot_operation.specs.Run.{base_of};
ghost use Rattle.ot_codes.specs.Codes.{runs_of};
ghost use Rattle.ot_list.specs.Leaves.{concatenated, with_run, replaced, AreLeaves};
ghost use Rattle.ot_text.specs.Components.{insertions};
ghost use Rattle.ot_text.specs.InPlace.{HasPassed, changed_behind, brought_back};
ghost use Rattle.ot_text.specs.Places.{start_of};

use crate::TextOp;
use crate::place::Place;
use ot_codes::Cursor;
use ot_list::{Item, List};
use ot_operation::Element;
use std::alloc::AllocError;

// An operation of more components is carried out by a draft.
const FEW: usize = 128;

// What is left of an operation: its codes, and the text that they insert.
#[derive(Drop)]
struct Left<'a, T> {
    codes: Cursor<'a>,
    text: &'a [T],
}

impl<'a, T: Item> Left<'a, T> {
    // Goes past what is retained next. Says how much that is.
    fn retain(&mut self) -> usize
        ensures { HasPassed self.old.codes self.new.codes self.old.text.now self.new.text.now result (take result) }
    {
        let kept = self.codes.retain().unwrap_or(0);
        self.codes.pass(kept);
        kept as usize
    }

    // Goes past what is inserted next.
    fn insert(&mut self) -> &'a [T]
        requires { length self.old.text.now ≡ insertions self.old.codes }
        ensures { HasPassed self.old.codes self.new.codes self.old.text.now self.new.text.now 0 (λ _. result.now) }
    {
        let come = self.codes.insertion().unwrap_or(0);
        self.codes.pass(come);
        let (first, others) = self.text.split_at(come as usize);
        self.text = others;
        first
    }

    // Goes past what is deleted next, but for what is more than `most`. Says how much that is.
    fn delete(&mut self, most: usize) -> usize
        ensures passed { HasPassed self.old.codes self.new.codes self.old.text.now self.new.text.now result (λ _. []) }
        ensures most { result ≤ most }
    {
        let gone = most.min(self.codes.deletion().unwrap_or(0) as usize);
        self.codes.pass(gone as u32);
        gone
    }
}

// Puts others in the place of `gone` items of a leaf. Gives what the leaf is brought back by: all that it was, where it is shorter then, else the items that went. None, and
// nothing has changed, where the leaf may not have what it has then.
fn exchange<T: Item>(
    list: &mut List<T>,
    place: Place,
    gone: usize,
    come: &[T],
) -> Result<Option<Vec<T>>, AllocError>
    requires there { place.leaf < length list.old }
    requires within { place.offset + gone ≤ length (get_or list.old place.leaf []) }
    ensures made { IfOk result (λ saved. IfSome saved (λ v. list.new ≡ replaced list.old place.leaf place.offset gone come.now)) }
    ensures leaf { IfOk result (λ saved. IfSome saved (λ v. brought_back (gone - length come.now) v.items (with_run (with_run (get_or list.old place.leaf []) place.offset gone come.now) place.offset (length come.now) v.items) ≡ get_or list.old place.leaf [])) }
    ensures few { IfOk result (λ saved. IfSome saved (λ v. gone ≤ length come.now → length v.items ≤ length come.now)) }
    ensures not { IfOk result (λ saved. saved ≡ None → list.new ≡ list.old) }
    ensures err { OnErr result (list.new ≡ list.old) }
{
    let Place { leaf, offset } = place;
    if gone > come.len() {
        let mut shorter = list.leaf_with(leaf, offset, gone, come)?;
        if !list.exchange_leaf(leaf, &mut shorter) {
            return Ok(None);
        }
        return Ok(Some(shorter));
    }
    let saved = Vec::from_slice(list.allocator(), &list.leaf(leaf)[offset..offset + gone])?;
    if !list.replace_in_leaf(leaf, offset, gone, come)? {
        return Ok(None);
    }
    Ok(Some(saved))
}

// Brings a leaf back in which `come` items stand in the place of `gone`.
fn bring_back<T: Item>(
    list: &mut List<T>,
    place: Place,
    gone: usize,
    come: usize,
    mut saved: Vec<T>,
)
    requires there { place.leaf < length list.old }
    requires within { place.offset + come ≤ length (get_or list.old place.leaf []) }
    requires few { gone ≤ come → length saved.items ≤ come }
    requires sound { AreLeaves T.CAP (set list.old place.leaf (brought_back (gone - come) saved.items (with_run (get_or list.old place.leaf []) place.offset come saved.items))) }
    ensures { list.new ≡ set list.old place.leaf (brought_back (gone - come) saved.items (with_run (get_or list.old place.leaf []) place.offset come saved.items)) }
{
    if gone > come {
        if !list.exchange_leaf(place.leaf, &mut saved) {
            unreachable!();
        }
        return;
    }
    match list.replace_in_leaf(place.leaf, place.offset, come, saved.as_slice()) {
        Ok(true) => {}
        _ => unreachable!(),
    }
}

// Carries out what is left of an operation, from a place on, at up to `most` places. Answers false, and changes nothing, where there are more, or a leaf may not have
// what it has then.
fn change_from<T: Item>(
    list: &mut List<T>,
    place: Place,
    mut left: Left<'_, T>,
    most: usize,
) -> Result<bool, AllocError>
    requires there { place.leaf < length list.old }
    requires within { place.offset ≤ length (get_or list.old place.leaf []) }
    requires base { start_of list.old place.leaf place.offset + base_of (runs_of left.codes) ≡ length (concatenated list.old) }
    requires text { length left.text.now ≡ insertions left.codes }
    ensures made { IfOk result (λ made. IsTrue made → concatenated list.new ≡ changed_behind (start_of list.old place.leaf place.offset) left.entry.codes left.entry.text.now (concatenated list.old)) }
    ensures not { IfOk result (λ made. made ≡ false → list.new ≡ list.old) }
    ensures err { OnErr result (list.new ≡ list.old) }
{
    if most == 0 {
        return Ok(false);
    }
    // For the proof: the invariant of every list, also below.
    let _first = list.leaf_count();
    let come = left.insert();
    let gone = left.delete(list.leaf(place.leaf).len() - place.offset);
    let kept = left.retain();
    if left.codes.head().is_none() {
        return list.replace_in_leaf(place.leaf, place.offset, gone, come);
    }
    let Some(before) = exchange(list, place, gone, come)? else {
        return Ok(false);
    };
    let _second = list.leaf_count();
    let behind = Place {
        leaf: place.leaf,
        offset: place.offset + come.len(),
    };
    match change_from(list, behind.ahead(list, kept), left, most - 1) {
        Ok(true) => Ok(true),
        Ok(false) => {
            bring_back(list, place, gone, come.len(), before);
            Ok(false)
        }
        Err(refused) => {
            bring_back(list, place, gone, come.len(), before);
            Err(refused)
        }
    }
}

// Makes of a list what an operation makes of it, where it has a few components. Each place is changed where it lies, one after the other. Answers false, and changes
// nothing, where a leaf may not have what it has then.
pub fn change_in_place<T: Element>(list: &mut List<T>, op: &TextOp<T>) -> Result<bool, AllocError>
    requires { op.now.base ≡ length (concatenated list.old) }
    ensures made { IfOk result (λ made. IsTrue made → concatenated list.new ≡ apply op.now (concatenated list.old)) }
    ensures not { IfOk result (λ made. made ≡ false → list.new ≡ list.old) }
    ensures err { OnErr result (list.new ≡ list.old) }
{
    if op.component_count() > FEW {
        return Ok(false);
    }
    let mut left = Left {
        codes: op.codes().cursor(),
        text: op.text(),
    };
    let kept = left.retain();
    let Some(place) = Place::behind(list, kept) else {
        return Ok(false);
    };
    change_from(list, place, left, FEW)
}
