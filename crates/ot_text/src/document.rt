//! A document: a list of elements, held in leaves.

ghost use Rattle.std.specs.Prelude.{◌≡◌, ◌+◌, ◌*◌, ◌/◌, ◌≤◌, ◌↔◌, [], length, take, drop, OnOk, OnErr, IfOk, IsTrue, slice_get};
ghost use Rattle.ot_operation.specs.Operation.{apply};
ghost use Rattle.ot_operation.specs.declared.TheConstants.{LIMIT};
ghost use Rattle.ot_list.specs.Leaves.{concatenated};

use crate::TextOp;
use crate::held::Held;
use crate::in_place::change_in_place;
use crate::pieces::Pieces;
use crate::place::Place;
use crate::writer::rewrite;
use ot_list::{Draft, Item, List};
use ot_operation::Element;
use std::alloc::{AllocError, Global};
use std::marker::Model;

/// A list of at most 1,000,000 elements, in leaves of 1 to `T::CAP` elements of which each two neighbours together have more. A contract sees the list alone.
#[derive(Drop)]
pub struct Doc<T: Item> {
    held: Held<T>,
    count: usize,
}

impl<T: Item> Model for Doc<T> {
    ghost use Rattle.std.specs.Prelude.{List};

    ghost Value = { List T };

    ghost use Rattle.ot_list.specs.Leaves.{concatenated};
    ghost use Rattle.ot_text.specs.Held.{leaves_of};
    ghost use Rattle.ot_text.specs.Places.{IsHeld};

    ghost view = { λ d. concatenated (leaves_of d.held) };

    ghost invariant = { λ d. IsHeld (leaves_of d.held) d.count };
}

impl<T: Element> Doc<T> {
    /// The empty document. Takes no memory; later calls take theirs from `alloc`.
    pub fn new(alloc: Global) -> Doc<T>
        ensures { result ≡ [] }
    {
        Doc {
            held: Held::Own(List::new(alloc)),
            count: 0,
        }
    }

    /// The document of these elements, which are copied; at most 1,000,000. `AllocError` where a growth was refused.
    pub fn from_slice(alloc: Global, items: &[T]) -> Result<Doc<T>, AllocError>
        requires { length items.now ≤ LIMIT }
        ensures { IfOk result (λ d. d ≡ items.now) }
    {
        let none = List::new(alloc);
        let mut draft = Draft::new(alloc)?;
        draft.extend(&none, items)?;
        let list = draft.list()?;
        Ok(Doc {
            held: Held::Own(list),
            count: items.len(),
        })
    }

    /// Where the document's memory comes from.
    pub fn allocator(&self) -> Global {
        self.held.list().allocator()
    }

    /// How many elements there are. A look-up.
    pub fn len(&self) -> usize
        ensures value { result ≡ length self.now }
        ensures small { result ≤ LIMIT }
    {
        self.count // kept beside the leaves
    }

    /// How many leaves there are: the empty document has none, and `n` leaves have at most `CAP * n` elements, and at least `CAP + 1` for each two of them.
    pub fn chunks(&self) -> usize
        ensures few { result / 2 * (T.CAP + 1) ≤ length self.now }
        ensures filled { result ≤ length self.now }
        ensures enough { length self.now ≤ T.CAP * result }
    {
        self.held.list().leaf_count()
    }

    /// The element at a place, counted from 0, or `None` past the end. Reads the sums of the leaves before it, and not their elements.
    pub fn get(&self, place: usize) -> Option<T>
        ensures { result ≡ slice_get self.now place }
    {
        if place >= self.count {
            return None;
        }
        let list = self.held.list();
        Place::after(list, place).rest(list).first().copied()
    }

    /// The elements in order, to be looked at piece by piece: nothing is copied.
    pub fn pieces(&self) -> Pieces<'_, T>
        ensures { result ≡ self.now }
    {
        let list = self.held.list();
        let _ = list.leaf_count();
        Pieces {
            leaves: list.leaves(),
        }
    }

    /// A copy of `count` elements from the place `from` on, which have to be there; `AllocError` where a growth was refused.
    pub fn part(&self, from: usize, count: usize) -> Result<Vec<T>, AllocError>
        requires { from + count ≤ length self.now }
        ensures { IfOk result (λ v. v.items ≡ take count (drop from self.now)) }
    {
        let mut part = Vec::with_capacity(self.allocator(), count)?;
        let list = self.held.list();
        let mut at = Place::after(list, from);
        at.read(list, count, &mut part)?;
        Ok(part)
    }

    /// A copy of all elements, made in one pass; `AllocError` where a growth was refused.
    pub fn to_vec(&self) -> Result<Vec<T>, AllocError>
        ensures { IfOk result (λ v. v.items ≡ self.now) }
    {
        self.part(0, self.count)
    }

    /// A document of the same elements, or `AllocError` where a growth was refused.
    pub fn copy(&self) -> Result<Doc<T>, AllocError>
        ensures { IfOk result (λ d. d ≡ self.now) }
    {
        let held = self.held.copy()?;
        Ok(Doc {
            held,
            count: self.count,
        })
    }

    /// Makes copies cheap: they have the elements in common from then on, and a copy takes no memory, until one of them is changed. `AllocError` where a growth was
    /// refused.
    pub fn share(&mut self) -> Result<(), AllocError>
        ensures { self.new ≡ self.old }
    {
        self.held.share()
    }

    /// The two documents are equal as lists; how they lie in leaves does not count.
    pub fn equals(&self, other: &Doc<T>) -> bool
        ensures { IsTrue result ↔ (self.now ≡ other.now) }
    {
        if self.count != other.count {
            return false;
        }
        same_lists(self.held.list(), other.held.list(), self.count)
    }

    /// Makes this document what the operation makes of it, which has to fit.
    ///
    /// Where the operation has few components it is carried out where the leaves lie, if each may have what it has then; else leaves that are not touched stay as they
    /// lie. A list that other documents have in common with this one is copied first. `AllocError` where a growth was refused: the document
    /// is then as it was.
    pub fn change(&mut self, op: &TextOp<T>) -> Result<(), AllocError>
        requires { op.now.base ≡ length self.old }
        ensures ok { OnOk result (self.new ≡ apply op.now self.old) }
        ensures err { OnErr result (self.new ≡ self.old) }
    {
        let count = op.target_len();
        self.held.make_own()?;
        let Held::Own(list) = &mut self.held else {
            unreachable!();
        };
        change_list(list, op)?;
        self.count = count;
        Ok(())
    }
}

// Makes of a list what an operation makes of it.
fn change_list<T: Element>(list: &mut List<T>, op: &TextOp<T>) -> Result<(), AllocError>
    requires { op.now.base ≡ length (concatenated list.old) }
    ensures ok { OnOk result (concatenated list.new ≡ apply op.now (concatenated list.old)) }
    ensures size { OnOk result (length (concatenated list.new) ≡ length op.now.image) }
    ensures err { OnErr result (list.new ≡ list.old) }
{
    // For the proof: the invariant of every operation.
    let _operation = op.base_len();
    if change_in_place(list, op)? {
        return Ok(());
    }
    rewrite(list, op.components())
}

fn same_items<T: Element>(a: &[T], b: &[T]) -> bool
    ensures { IsTrue result ↔ (a.now ≡ b.now) }
{
    a == b
}

// Are lists of `count` items equal?
fn same_lists<T: Element>(a: &List<T>, b: &List<T>, count: usize) -> bool
    requires a_count { length (concatenated a.now) ≡ count }
    requires b_count { length (concatenated b.now) ≡ count }
    ensures { IsTrue result ↔ (concatenated a.now ≡ concatenated b.now) }
{
    let mut at_a = Place::after(a, 0);
    let mut at_b = Place::after(b, 0);
    let mut ahead = count;
    while ahead > 0 {
        let x = at_a.rest(a);
        let y = at_b.rest(b);
        let step = x.len().min(y.len());
        if !same_items(&x[..step], &y[..step]) {
            return false;
        }
        at_a.advance(a, step);
        at_b.advance(b, step);
        ahead -= step;
    }
    true
}
