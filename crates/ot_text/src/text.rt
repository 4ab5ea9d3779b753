//! The text of an operation.

ghost use Rattle.std.specs.Prelude.{◌≡◌, ◌≤◌, [], ◌++◌, length, take, IfOk, OnOk, OnErr};
ghost use Rattle.ot_text.specs.Text.{held_text};

use ot_operation::Element;
use std::alloc::{AllocError, Global};
use std::marker::Model;
use std::slice;

// One element in the value itself, or a list.
#[derive(Drop)]
pub(crate) enum Elements<T> {
    One(T),
    Many(Vec<T>),
}

/// Elements in order. A single one lies in the value itself and takes no memory beside it: where many people type at once, most operations insert
/// one. A contract sees the list of them.
pub(crate) struct Text<T> {
    held: Elements<T>,
}

impl<T> Model for Text<T> {
    ghost use Rattle.std.specs.Prelude.{List};

    ghost Value = { List T };

    ghost use Rattle.ot_text.specs.Text.{held_text};

    ghost view = { λ text. held_text text.held };
}

impl<T: Drop> Drop for Text<T> {
    fn drop(self) {
        let Text { held: _ } = self;
    }
}

impl<T: Element> Text<T> {
    /// No elements. Takes no memory; later calls take theirs from `alloc`.
    pub(crate) fn new(alloc: Global) -> Text<T>
        ensures { result ≡ [] }
    {
        Text {
            held: Elements::Many(Vec::new(alloc)),
        }
    }

    /// The elements of a list, which move in.
    pub(crate) fn from_vec(list: Vec<T>) -> Text<T>
        ensures { result ≡ list.items }
    {
        Text {
            held: Elements::Many(list),
        }
    }

    /// A copy of elements. `AllocError` where memory was refused.
    pub(crate) fn from_slice(alloc: Global, elements: &[T]) -> Result<Text<T>, AllocError>
        ensures { IfOk result (λ text. text ≡ elements.now) }
    {
        let held = match elements {
            [one] => Elements::One(*one),
            _ => Elements::Many(Vec::from_slice(alloc, elements)?),
        };
        Ok(Text { held })
    }

    /// The elements, in order.
    pub(crate) fn as_slice(&self) -> &[T]
        ensures { result.now ≡ self.now }
    {
        match &self.held {
            Elements::One(one) => slice::from_ref(one),
            Elements::Many(many) => many.as_slice(),
        }
    }

    /// A copy of more elements at the end. `AllocError` where a growth was refused: the text is as it was then.
    pub(crate) fn extend(&mut self, alloc: Global, more: &[T]) -> Result<(), AllocError>
        ensures ok { OnOk result (self.new ≡ self.old ++ more.now) }
        ensures err { OnErr result (self.new ≡ self.old) }
    {
        match &mut self.held {
            Elements::One(one) => {
                let first = *one;
                let mut many = Vec::with_capacity(alloc, more.len().saturating_add(1))?;
                many.push(first)?;
                many.extend_from_slice(more)?;
                self.held = Elements::Many(many);
            }
            Elements::Many(many) => {
                if many.len() == 0 && more.len() == 1 {
                    self.held = Elements::One(more[0]);
                } else {
                    many.extend_from_slice(more)?;
                }
            }
        }
        Ok(())
    }

    /// The first `count` elements stay.
    pub(crate) fn truncate(&mut self, alloc: Global, count: usize)
        requires { count ≤ length self.old }
        ensures { self.new ≡ take count self.old }
    {
        match &mut self.held {
            Elements::One(_) => {
                if count == 0 {
                    self.held = Elements::Many(Vec::new(alloc));
                }
            }
            Elements::Many(many) => many.truncate(count),
        }
    }
}
