//! Components in order, without taking memory.

ghost use Rattle.std.specs.Prelude.{◌≡◌, length, IfOk, map};
ghost use Rattle.std.specs.Iterator.{YieldsFirstBy, item_count};
ghost use Rattle.ot_operation.specs.Run.{normal_runs};
ghost use Rattle.ot_text.specs.Components.{insertions, run_of, run_of_list, runs_with};

use crate::TextOp;
use ot_codes::{Code, Cursor};
use ot_operation::Element;
use std::alloc::{AllocError, Global};
use std::marker::Model;

/// One step over a document, as in ot.js' `TextOperation`: counts are in elements (Unicode scalars where these are `char`).
#[derive(Drop)]
pub enum Component<T> {
    /// The next elements stay.
    Retain(usize),
    /// Elements come in.
    Insert(Vec<T>),
    /// The next elements go.
    Delete(usize),
}

/// A component of an operation that is read where it lies.
#[derive(Clone, Copy)]
pub enum ComponentRef<'a, T> {
    /// The next elements stay.
    Retain(usize),
    /// These elements come in.
    Insert(&'a [T]),
    /// The next elements go.
    Delete(usize),
}

/// What is left of an operation's components. A contract sees the runs that are left (`ot_text`).
#[derive(Drop)]
pub struct Components<'a, T> {
    codes: Cursor<'a>,
    text: &'a [T],
}

impl<'a, T> Model for Components<'a, T> {
    ghost use Rattle.std.specs.Prelude.{◌≡◌, List, length};
    ghost use Rattle.ot_operation.specs.Run.{Run};

    ghost Value = { List (Run T) };

    ghost use Rattle.ot_text.specs.Components.{insertions, runs_with};

    ghost view = { λ c. runs_with c.codes c.text.now };

    ghost invariant = { λ c. length c.text.now ≡ insertions c.codes };
}

impl<'a, T> Components<'a, T> {
    // These codes with this text, which has as many elements as they insert.
    pub(crate) fn new(codes: Cursor<'a>, text: &'a [T]) -> Components<'a, T>
        requires { length text.now ≡ insertions codes }
        ensures { result ≡ runs_with codes.entry text.now }
    {
        Components { codes, text }
    }
}

impl<'a, T> Iterator for Components<'a, T> {
    type Item = ComponentRef<'a, T>;

    ghost next_gives = { YieldsFirstBy run_of (λ left. left) };

    ghost remaining = { item_count (λ left. left) };

    fn next(&mut self) -> Option<ComponentRef<'a, T>> {
        let code = self.codes.head()?;
        self.codes.next();
        match code {
            Code::Retain(count) => Some(ComponentRef::Retain(count as usize)),
            Code::Insert(count) => {
                let (first, others) = self.text.split_at(count as usize);
                self.text = others;
                Some(ComponentRef::Insert(first))
            }
            Code::Delete(count) => Some(ComponentRef::Delete(count as usize)),
        }
    }
}

// The component with a copy of its elements.
fn copied<T: Element>(
    alloc: Global,
    component: ComponentRef<'_, T>,
) -> Result<Component<T>, AllocError>
    ensures { IfOk result (λ copy. run_of_list copy ≡ run_of component.entry) }
{
    match component {
        ComponentRef::Retain(count) => Ok(Component::Retain(count)),
        ComponentRef::Insert(text) => {
            let text = Vec::from_slice(alloc, text)?;
            Ok(Component::Insert(text))
        }
        ComponentRef::Delete(count) => Ok(Component::Delete(count)),
    }
}

impl<T: Element> TextOp<T> {
    /// The components in a list of their own, in order, each insertion with a copy of its elements. `AllocError` where a growth was refused.
    pub fn to_components(&self) -> Result<Vec<Component<T>>, AllocError>
        ensures { IfOk result (λ list. map run_of_list list.items ≡ normal_runs self.now) }
    {
        let alloc = self.allocator();
        let mut list = Vec::new(alloc);
        for component in self.components() {
            let copy = copied(alloc, component)?;
            list.push(copy)?;
        }
        Ok(list)
    }
}
