//! A document that is written over an old one, as components say.

ghost use Rattle.std.specs.Prelude.{◌≡◌, ◌+◌, ◌≤◌, ◌<◌, [], ◌++◌, length, take, drop, OnOk, OnErr, IfOk};
ghost use Rattle.ot_operation.specs.Operation.{apply};
ghost use Rattle.ot_operation.specs.Run.{base_of, operation_of};
ghost use Rattle.ot_list.specs.Leaves.{concatenated};
ghost use Rattle.ot_list.specs.Written.{written};
ghost use Rattle.ot_text.specs.Places.{left_at, IsInside};
ghost use Rattle.ot_text.specs.Writing.{left_of, IsWriter, HasWritten};

use crate::place::Place;
use crate::{ComponentRef, Components};
use ot_list::{Draft, Item, List, Patch};
use std::alloc::{AllocError, Global};

// What is written, and up to where the old document is gone through.
#[derive(Drop)]
struct Writer<T: Item> {
    draft: Draft<T>,
    place: Place,
}

impl<T: Item> Writer<T> {
    // Nothing is written.
    fn new(alloc: Global, old: &List<T>) -> Result<Writer<T>, AllocError>
        ensures writer { IfOk result (λ w. IsWriter T.CAP T.total old.now w) }
        ensures empty { IfOk result (λ w. written old.now w.draft ≡ []) }
        ensures left { IfOk result (λ w. left_of old.now w ≡ concatenated old.now) }
    {
        let draft = Draft::new(alloc)?;
        let place = Place::after(old, 0);
        Ok(Writer { draft, place })
    }

    // Writes the next elements as they are, as far as they are whole leaves and may stand there. Says how many.
    fn keep_leaves(&mut self, old: &List<T>, count: usize) -> Result<usize, AllocError>
        requires { IsWriter T.CAP T.total old.now self.old }
        ensures written { IfOk result (λ n. HasWritten T.CAP T.total old.now self.old self.new (take n (left_of old.now self.old)) n) }
        ensures most { IfOk result (λ n. n ≤ count) }
    {
        if self.place.offset > 0 || self.place.leaf >= old.leaf_count() {
            return Ok(0);
        }
        let (to, left) = old.find(self.place.leaf, count);
        if to == self.place.leaf {
            return Ok(0);
        }
        if !self.draft.keep(old, self.place.leaf, to)? {
            return Ok(0);
        }
        self.place.leaf = to;
        Ok(count - left)
    }

    // Writes the next elements as they are, as far as they are of one leaf. Says how many.
    fn keep_part(&mut self, old: &List<T>, count: usize) -> Result<usize, AllocError>
        requires writer { IsWriter T.CAP T.total old.now self.old }
        requires within { count ≤ length (left_of old.now self.old) }
        ensures written { IfOk result (λ n. HasWritten T.CAP T.total old.now self.old self.new (take n (left_of old.now self.old)) n) }
        ensures some { IfOk result (λ n. 0 < count → 0 < n) }
        ensures most { IfOk result (λ n. n ≤ count) }
    {
        if count == 0 {
            return Ok(0);
        }
        let rest = self.place.rest(old);
        let step = rest.len().min(count);
        self.draft.extend(old, &rest[..step])?;
        self.place.advance(old, step);
        Ok(step)
    }

    // Writes the next elements as they are.
    fn keep(&mut self, old: &List<T>, count: usize) -> Result<(), AllocError>
        requires writer { IsWriter T.CAP T.total old.now self.old }
        requires within { count ≤ length (left_of old.now self.old) }
        ensures { OnOk result (HasWritten T.CAP T.total old.now self.old self.new (take count (left_of old.now self.old)) count) }
    {
        let mut ahead = count;
        while ahead > 0 {
            ahead -= self.keep_leaves(old, ahead)?;
            ahead -= self.keep_part(old, ahead)?;
        }
        Ok(())
    }

    // Writes what is inserted.
    fn insert(&mut self, old: &List<T>, text: &[T]) -> Result<(), AllocError>
        requires { IsWriter T.CAP T.total old.now self.old }
        ensures { OnOk result (HasWritten T.CAP T.total old.now self.old self.new text.now 0) }
    {
        self.draft.extend(old, text)?;
        Ok(())
    }

    // Skips the next elements, which are deleted.
    fn delete(&mut self, old: &List<T>, count: usize)
        requires writer { IsWriter T.CAP T.total old.now self.old }
        requires within { count ≤ length (left_of old.now self.old) }
        ensures { HasWritten T.CAP T.total old.now self.old self.new [] count }
    {
        self.place.advance(old, count);
    }

    // Writes what components make of the old document.
    fn write(&mut self, old: &List<T>, components: Components<'_, T>) -> Result<(), AllocError>
        requires writer { IsWriter T.CAP T.total old.now self.old }
        requires base { base_of components ≡ length (left_of old.now self.old) }
        ensures writer { OnOk result (IsWriter T.CAP T.total old.now self.new) }
        ensures written { OnOk result (written old.now self.new.draft ≡ written old.now self.old.draft ++ apply (operation_of components.entry) (left_of old.now self.old)) }
    {
        for component in components {
            match component {
                ComponentRef::Retain(count) => self.keep(old, count)?,
                ComponentRef::Insert(text) => self.insert(old, text)?,
                ComponentRef::Delete(count) => self.delete(old, count),
            }
        }
        Ok(())
    }
}

// Makes of a list what components make of it. Leaves that are not touched stay as they lie. `AllocError` where a growth was refused: every growth comes first, so
// the list is then as it was.
pub fn rewrite<T: Item>(list: &mut List<T>, components: Components<'_, T>) -> Result<(), AllocError>
    requires { base_of components ≡ length (concatenated list.old) }
    ensures ok { OnOk result (concatenated list.new ≡ apply (operation_of components.entry) (concatenated list.old)) }
    ensures err { OnErr result (list.new ≡ list.old) }
{
    let alloc = list.allocator();
    let mut patch = Patch::new(alloc);
    let mut writer = Writer::new(alloc, list)?;
    writer.write(list, components)?;
    writer.draft.finish(list, &mut patch)?;
    list.prepare(&mut patch)?;
    list.apply(patch);
    Ok(())
}
