//! Text operations and documents.
//!
//! An operation ([`TextOp`]) goes over a document once, from left to right, as in ot.js' `TextOperation`: it retains, inserts and deletes elements. It is stored
//! as its codes (`ot_codes`: the kind and length of each component) and its text, which is all that it inserts, in order:
//!
//! ```text
//!     operation   [2,"xy",-3,1,"z"]      on documents of 6 elements
//!     codes       Retain 2 | Insert 2 | Delete 3 | Retain 1 | Insert 1
//!     text        x y z
//!     components  retain 2 | insert x y | delete 3 | retain 1 | insert z
//! ```
//!
//! Up to five codes, and a text of one element, lie in the operation itself: an operation that types or deletes at one place takes no memory.
//!
//! A document ([`Doc`]) is stored in leaves (`ot_list`), for characters of at most 512 elements, here of at most 4:
//!
//! ```text
//!     before      [ a b c ] [ d e f ]
//!     after       [ a b x y ] [ f z ]
//! ```
//!
//! - A call of the builder writes a code, and appends an insertion's elements to the text.
//! - [`Components`] reads an operation in order and takes no memory: each insertion gives its part of the text as a slice.
//! - [`Doc::change`] changes the document where it lies, place by place, if the operation has few components; where a leaf may not have what it has then, the places
//!   before are brought back. Otherwise a draft is written, which keeps the leaves that do not change, and the document's leaves are exchanged for it. After a refused
//!   growth the document is as it was.
//! - [`Doc::share`] lets copies of a document have one list of leaves. The first change of one of them copies it.
//! - `apply` changes a copy of a document. `invert` reads from the document what the operation deletes.
//!
//! A contract sees an operation as its base length and its image: the shape that the codes spell, filled with the text. It sees a document as the list of its
//! elements, and components as the runs that are left. `transform` and `compose` are in `ot_algebra`.
//!
//! Contracts: `Operation.antt` and `Run.antt` of `ot_operation` (an operation, the builder, its runs), `Shape.antt` of `ot_codes` (shapes, and how they are filled),
//! `specs/Components.antt` here (codes with a text, as runs). To read: [`TextOp`] below, `components.rt`, `document.rt`, `in_place.rt` (the change in place),
//! `writer.rt` (the draft), `held.rt` (shared lists), `text.rt` (an operation's text).
#![tactic(auto)]

ghost use Rattle.std.specs.Prelude.{◌≡◌, ◌+◌, ◌*◌, ◌↔◌, ◌≤◌, length, max, IfOk, OnOk, OnErr, IsErrOf, IsTrue};
ghost use Rattle.ot_operation.specs.Operation.{empty, identity, with_retain, with_insert, with_delete, IsOperation, IsTooLong, news};
ghost use Rattle.ot_operation.specs.Run.{IsNormal, normal_runs, operation_of};
ghost use Rattle.ot_operation.specs.declared.TheConstants.{LIMIT};
ghost use Rattle.ot_codes.specs.Shape.{filled, shape};

mod compare;
mod components;
mod document;
mod documents;
mod held;
mod in_place;
mod pieces;
mod place;
mod text;
mod writer;

use compare::{same_codes, same_text};
pub use components::{Component, ComponentRef, Components};
pub use document::Doc;
use ot_codes::{Code, Codes};
pub use ot_operation::{Element, LIMIT, OpRefusal, only_memory};
pub use pieces::Pieces;
use std::alloc::{AllocError, Global};
use std::marker::Model;
use std::mem;
use text::Text;

/// An operation in normal form, its base and its target length at most 1,000,000 elements.
///
/// It is built from left to right by `retain`, `insert` and `delete`, which are those of ot.js' `TextOperation`.
#[derive(Drop)]
pub struct TextOp<T> {
    codes: Codes,
    text: Text<T>,
}

impl<T> Model for TextOp<T> {
    ghost use Rattle.std.specs.Prelude.{◌≡◌, length};
    ghost use Rattle.ot_operation.specs.Operation.{Operation, news};

    ghost Value = { Operation T };

    ghost use Rattle.ot_codes.specs.Shape.{filled};

    ghost view = { λ s. filled s.codes s.text };

    ghost invariant = { λ s. length s.text ≡ length (news s.codes.image) };
}

impl<T: Element> TextOp<T> {
    /// The operation without components, on the empty document. Takes no memory; later calls take theirs from `alloc`.
    pub fn new(alloc: Global) -> TextOp<T>
        ensures { result ≡ empty }
    {
        TextOp {
            codes: Codes::new(alloc),
            text: Text::new(alloc),
        }
    }

    // How many elements the base and the target length may still gain.
    fn room(&self) -> (usize, usize)
        ensures base { result.0 + self.now.base ≡ LIMIT }
        ensures target { result.1 + length self.now.image ≡ LIMIT }
    {
        (LIMIT - self.base_len(), LIMIT - self.target_len())
    }

    /// Keeps the next `count` elements of the document; 0 adds nothing, and a retain at the end is lengthened.
    ///
    /// `TooLong` exactly where the base or the target length would pass 1,000,000; else `Memory` where a growth was
    /// refused. After an error the operation is as it was.
    pub fn retain(&mut self, count: usize) -> Result<(), OpRefusal>
        ensures ok { OnOk result (self.new ≡ with_retain self.old count) }
        ensures too_long { IsErrOf result OpRefusal.TooLong ↔ IsTooLong (with_retain self.old count) }
        ensures err { OnErr result (self.new ≡ self.old) }
    {
        let (base, target) = self.room();
        if count > base.min(target) {
            return Err(OpRefusal::TooLong);
        }
        self.codes.put(Code::Retain(count as u32))?;
        Ok(())
    }

    /// Adds the elements of `text`; an empty text adds nothing. Where the last component is a deletion the text comes before
    /// it, and it is concatenated with an insertion that stands there. Copies `text` alone.
    ///
    /// `TooLong` exactly where the target length would pass 1,000,000; else `Memory` where a growth was refused. After an
    /// error the operation is as it was.
    pub fn insert(&mut self, text: &[T]) -> Result<(), OpRefusal>
        ensures ok { OnOk result (self.new ≡ with_insert self.old text.now) }
        ensures too_long { IsErrOf result OpRefusal.TooLong ↔ IsTooLong (with_insert self.old text.now) }
        ensures err { OnErr result (self.new ≡ self.old) }
    {
        let count = text.len();
        let (_, target) = self.room();
        if count > target {
            return Err(OpRefusal::TooLong);
        }
        let alloc = self.allocator();
        let before = self.text.as_slice().len();
        self.text.extend(alloc, text)?;
        if let Err(refused) = self.codes.put(Code::Insert(count as u32)) {
            self.text.truncate(alloc, before);
            return Err(OpRefusal::from(refused));
        }
        Ok(())
    }

    /// Does as `insert` with the elements of a list that is no longer needed.
    ///
    /// `TooLong` exactly where the target length would pass 1,000,000; else `Memory` where a growth was refused. After an
    /// error the operation is as it was, and the list is gone.
    pub fn insert_vec(&mut self, text: Vec<T>) -> Result<(), OpRefusal>
        ensures ok { OnOk result (self.new ≡ with_insert self.old text.items) }
        ensures too_long { IsErrOf result OpRefusal.TooLong ↔ IsTooLong (with_insert self.old text.items) }
        ensures err { OnErr result (self.new ≡ self.old) }
    {
        let count = text.len();
        if count == 1 || self.text.as_slice().len() > 0 {
            return self.insert(text.as_slice());
        }
        let (_, target) = self.room();
        if count > target {
            return Err(OpRefusal::TooLong);
        }
        self.codes.put(Code::Insert(count as u32))?;
        self.text = Text::from_vec(text); // it moves in, where there was no text
        Ok(())
    }

    /// Removes the next `count` elements of the document; 0 adds nothing, and a deletion at the end is lengthened.
    ///
    /// `TooLong` exactly where the base length would pass 1,000,000; else `Memory` where a growth was refused. After an error
    /// the operation is as it was.
    pub fn delete(&mut self, count: usize) -> Result<(), OpRefusal>
        ensures ok { OnOk result (self.new ≡ with_delete self.old count) }
        ensures too_long { IsErrOf result OpRefusal.TooLong ↔ IsTooLong (with_delete self.old count) }
        ensures err { OnErr result (self.new ≡ self.old) }
    {
        let (base, _) = self.room();
        if count > base {
            return Err(OpRefusal::TooLong);
        }
        self.codes.put(Code::Delete(count as u32))?;
        Ok(())
    }

    /// Where the operation's memory comes from.
    pub fn allocator(&self) -> Global {
        self.codes.allocator()
    }

    /// The codes: the components without their elements.
    pub fn codes(&self) -> &Codes
        ensures value { result.now ≡ shape self.now }
        ensures operation { IsOperation self.now }
    {
        self.codes.sum(); // they are those of an operation
        &self.codes
    }

    /// All elements that the operation inserts, in order.
    pub fn text(&self) -> &[T]
        ensures { result.now ≡ news self.now.image }
    {
        self.text.as_slice() // in the order of the codes
    }

    /// The operation of these codes with this text, which has as many elements as they insert. Takes no memory.
    pub fn from_parts(codes: Codes, text: Vec<T>) -> TextOp<T>
        requires { length text.items ≡ length (news codes.image) }
        ensures { result ≡ filled codes text.items }
    {
        TextOp {
            codes,
            text: Text::from_vec(text),
        }
    }

    /// The operation of other codes that insert as many elements, with a copy of this text. `AllocError` where a growth was refused.
    pub fn with_codes(&self, codes: Codes) -> Result<TextOp<T>, AllocError>
        requires { length (news codes.image) ≡ length (news self.now.image) }
        ensures { IfOk result (λ op. op ≡ filled codes (news self.now.image)) }
    {
        let text = Text::from_slice(self.allocator(), self.text())?;
        Ok(TextOp { codes, text })
    }

    /// Exchanges the codes with others that insert as many elements: the text stays. Takes no memory.
    pub fn exchange_codes(&mut self, codes: &mut Codes)
        requires { length (news codes.old.image) ≡ length (news self.old.image) }
        ensures op { self.new ≡ filled codes.old (news self.old.image) }
        ensures codes { codes.new ≡ shape self.old }
    {
        mem::swap(&mut self.codes, codes);
    }

    /// The components, in order: the only ones in normal form that spell the operation. Takes no memory.
    pub fn components(&self) -> Components<'_, T>
        ensures normal { IsNormal result }
        ensures spells { operation_of result ≡ self.now }
        ensures fits { max self.now.base (length self.now.image) ≤ LIMIT }
        ensures form { result ≡ normal_runs self.now }
    {
        Components::new(self.codes.cursor(), self.text.as_slice())
    }

    /// How many components the operation has. It goes through no component.
    pub fn component_count(&self) -> usize
        ensures value { result ≡ length (normal_runs self.now) }
        ensures small { result ≤ 2 * LIMIT }
    {
        self.codes.count()
    }

    /// The base length: how many elements the documents have that the operation takes. A look-up.
    pub fn base_len(&self) -> usize
        ensures value { result ≡ self.now.base }
        ensures operation { IsOperation self.now }
        ensures small { result ≤ LIMIT }
    {
        let sum = self.codes.sum();
        sum.kept as usize + sum.deleted as usize
    }

    /// The target length: how many elements the documents have that the operation makes. A look-up.
    pub fn target_len(&self) -> usize
        ensures value { result ≡ length self.now.image }
        ensures small { result ≤ LIMIT }
    {
        self.codes.target_len() as usize
    }

    /// How many elements the operation adds, in all its insertions. A look-up.
    pub fn inserted(&self) -> usize
        ensures value { result ≡ length (news self.now.image) }
        ensures small { result ≤ LIMIT }
    {
        self.codes.inserted() as usize
    }

    /// The operation keeps every element and adds none: it has no component, or one retain alone. A look-up.
    pub fn is_noop(&self) -> bool
        ensures { IsTrue result ↔ (self.now ≡ identity self.now.base) }
    {
        let sum = self.codes.sum();
        if sum.deleted > 0 {
            return false;
        }
        sum.inserted == 0
    }

    /// The two operations are equal: equal base length and equal image, and so equal components.
    pub fn equals(&self, other: &TextOp<T>) -> bool
        ensures { IsTrue result ↔ (self.now ≡ other.now) }
    {
        same_text(self.text(), other.text()) && same_codes(self.codes(), other.codes())
    }

    /// An operation equal to this one, or `AllocError` where a growth was refused.
    pub fn copy(&self) -> Result<TextOp<T>, AllocError>
        ensures { IfOk result (λ op. op ≡ self.now) }
    {
        let codes = self.codes().copy()?;
        self.with_codes(codes)
    }
}
