//! The list of a document: its own, or one that it has in common with other documents.

ghost use Rattle.std.specs.Prelude.{◌≡◌, IfOk, OnOk};
ghost use Rattle.ot_text.specs.Held.{leaves_of, IsOwn};

use ot_list::{Item, List};
use std::alloc::AllocError;
use std::mem;
use std::sync::Arc;

// A list, alone or with other owners.
#[derive(Drop)]
pub enum Held<T: Item> {
    Own(List<T>),
    Shared(Arc<List<T>>),
}

impl<T: Item> Held<T> {
    pub fn list(&self) -> &List<T>
        ensures { result.now ≡ leaves_of self.now }
    {
        match self {
            Held::Own(list) => list,
            Held::Shared(list) => list,
        }
    }

    // The same list: a shared one has one more owner, another is copied.
    pub fn copy(&self) -> Result<Held<T>, AllocError>
        ensures { IfOk result (λ held. leaves_of held ≡ leaves_of self.now) }
    {
        match self {
            Held::Own(list) => Ok(Held::Own(list.copy()?)),
            Held::Shared(list) => Ok(Held::Shared(Arc::try_clone(list)?)),
        }
    }

    // The list may have several owners then. Nothing is copied.
    pub fn share(&mut self) -> Result<(), AllocError>
        ensures { leaves_of self.new ≡ leaves_of self.old }
    {
        if matches!(self, Held::Shared(_)) {
            return Ok(());
        }
        let alloc = self.list().allocator();
        if let Held::Own(list) = mem::replace(self, Held::Own(List::new(alloc))) {
            match Arc::new(alloc, list) {
                Ok(shared) => *self = Held::Shared(shared),
                Err(refused) => {
                    *self = Held::Own(refused.value);
                    return Err(AllocError);
                }
            }
        }
        Ok(())
    }

    // The list has no other owner then: it is copied where it has one.
    pub fn make_own(&mut self) -> Result<(), AllocError>
        ensures value { leaves_of self.new ≡ leaves_of self.old }
        ensures own { OnOk result (IsOwn self.new) }
    {
        if matches!(self, Held::Own(_)) {
            return Ok(());
        }
        let alloc = self.list().allocator();
        if let Held::Shared(shared) = mem::replace(self, Held::Own(List::new(alloc))) {
            match Arc::try_unwrap(shared) {
                Ok(list) => *self = Held::Own(list),
                Err(shared) => {
                    let copy = shared.copy();
                    *self = Held::Shared(shared);
                    *self = Held::Own(copy?);
                }
            }
        }
        Ok(())
    }
}
