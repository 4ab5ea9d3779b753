//! Operations and the documents that they take.

ghost use Rattle.std.specs.Prelude.{◌≡◌, ◌↔◌, ◌≤◌, length, IfOk, IsTrue};
ghost use Rattle.ot_operation.specs.Operation.{apply, invert};
ghost use Rattle.ot_operation.specs.Run.{base_of, image_from, operation_of};
ghost use Rattle.ot_operation.specs.declared.TheConstants.{LIMIT};

use crate::{ComponentRef, Components, Doc, TextOp};
use ot_operation::{Element, only_memory};
use std::alloc::{AllocError, Global};

impl<T: Element> TextOp<T> {
    /// The document's length is the operation's base length.
    pub fn fits(&self, document: &Doc<T>) -> bool
        ensures { IsTrue result ↔ (self.now.base ≡ length document.now) }
    {
        self.base_len() == document.len()
    }

    /// The document that the operation makes of this one, which stays: retained elements are copied, inserted ones added,
    /// deleted ones passed over. The document has to fit. `AllocError` where a growth was refused; nothing has changed then.
    /// Where the old document is no longer needed, `Doc::change` copies less.
    pub fn apply(&self, document: &Doc<T>) -> Result<Doc<T>, AllocError>
        requires { self.now.base ≡ length document.now }
        ensures { IfOk result (λ d. d ≡ apply self.now document.now) }
    {
        let mut changed = document.copy()?;
        changed.change(self)?;
        Ok(changed)
    }

    /// The inverse of this operation, as ot.js' `invert`: applied to what this operation makes of `document`, it gives
    /// `document`. Retains stay, an insertion becomes a deletion of its length, a deletion an insertion of what was deleted.
    /// The document has to fit. `AllocError` where a growth was refused; nothing has changed then.
    pub fn invert(&self, document: &Doc<T>) -> Result<TextOp<T>, AllocError>
        requires { self.now.base ≡ length document.now }
        ensures value { IfOk result (λ op. op ≡ invert self.now document.now) }
        ensures gives_back { IfOk result (λ op. apply op (apply self.now document.now) ≡ document.now) }
    {
        take_back(self.allocator(), self.components(), document)
    }
}

// The inverse of the components, on the document that they make of this one.
fn take_back<T: Element>(
    alloc: Global,
    components: Components<'_, T>,
    document: &Doc<T>,
) -> Result<TextOp<T>, AllocError>
    requires base { base_of components ≡ length document.now }
    requires base_fits { length document.now ≤ LIMIT }
    requires target_fits { length (image_from 0 components) ≤ LIMIT }
    ensures { IfOk result (λ op. op ≡ invert (operation_of components.entry) document.now) }
{
    let mut inverse = TextOp::new(alloc);
    // how many elements of the document are gone through
    let mut at = 0;
    for component in components {
        match component {
            ComponentRef::Retain(count) => {
                only_memory(inverse.retain(count))?;
                at += count;
            }
            ComponentRef::Insert(text) => only_memory(inverse.delete(text.len()))?,
            ComponentRef::Delete(count) => {
                let gone = document.part(at, count)?;
                only_memory(inverse.insert_vec(gone))?;
                at += count;
            }
        }
    }
    Ok(inverse)
}
