//! The link from a client to the server.

ghost use Rattle.std.specs.Prelude.{◌≡◌, ◌↔◌, length, IsTrue, Some, None};
ghost use Rattle.std.specs.Option.{option_copied, option_to_list};

use std::marker::Model;

/// At most one message on its way to the server.
#[derive(Drop)]
pub struct Uplink<M> {
    message: Option<M>,
}

impl<M> Model for Uplink<M> {
    ghost use Rattle.std.specs.Prelude.{Option};

    ghost Value = { Option M };

    ghost view = { λ u. u.message };
}

impl<M: Drop> Uplink<M> {
    /// The link without a message. It takes no memory.
    pub fn new() -> Uplink<M>
        ensures { result ≡ None }
    {
        Uplink { message: None }
    }

    /// Puts the message on the empty link.
    pub fn push(&mut self, message: M)
        requires { self.old ≡ None }
        ensures { self.new ≡ Some message }
    {
        self.message = Some(message);
    }

    /// The message, if there is one.
    pub fn head(&self) -> Option<&M>
        ensures { option_copied result ≡ self.now }
    {
        self.message.as_ref()
    }

    /// Takes the message off the link, if there is one.
    pub fn pop(&mut self) -> Option<M>
        ensures value { result ≡ self.old }
        ensures rest { self.new ≡ None }
    {
        self.message.take()
    }

    /// How many messages there are: 0 or 1.
    pub fn len(&self) -> usize
        ensures { result ≡ length (option_to_list self.now) }
    {
        if self.message.is_some() { 1 } else { 0 }
    }

    /// There is no message.
    pub fn is_empty(&self) -> bool
        ensures { IsTrue result ↔ (self.now ≡ None) }
    {
        self.message.is_none()
    }
}
