//! An entry of the server's log.

ghost use Rattle.std.specs.Prelude.{◌≡◌};

use ot_text::{Element, TextOp};
use std::marker::Model;

/// An operation as the server applied it, and the client that made it.
#[derive(Drop)]
pub struct Entry<T> {
    maker: u16,
    op: TextOp<T>,
}

impl<T> Model for Entry<T> {
    ghost use Rattle.ot_server.specs.History.{Entry};

    ghost Value = { Entry T };

    ghost view = { λ s. record { maker = s.maker; op = s.op } };
}

impl<T: Element> Entry<T> {
    pub(crate) fn new(maker: u16, op: TextOp<T>) -> Entry<T>
        ensures { result ≡ record { maker = maker; op = op } }
    {
        Entry { maker, op }
    }

    /// The client that made the operation.
    pub fn maker(&self) -> u16
        ensures { result ≡ self.now.maker }
    {
        self.maker
    }

    /// The operation as it was applied, over the document before it.
    pub fn operation(&self) -> &TextOp<T>
        ensures { result.now ≡ self.now.op }
    {
        &self.op
    }
}
