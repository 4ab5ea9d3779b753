//! The link from the server to a client.

ghost use Rattle.std.specs.Prelude.{◌≡◌, ◌+◌, ◌-◌, ◌<◌, ◌≤◌, ◌↔◌, [], ◌∷◌, ◌++◌, drop, take, length, slice_get, IfNone, IsTrue, OnErr, OnOk, OnSome};
ghost use Rattle.std.specs.Option.{option_copied};

use std::alloc::{AllocError, Global};
use std::collections::VecDeque;
use std::marker::Model;

/// Messages on their way to a client, oldest first.
#[derive(Drop)]
pub struct Downlink<M> {
    messages: VecDeque<M>,
}

impl<M> Model for Downlink<M> {
    ghost use Rattle.std.specs.Prelude.{◌-◌, length};
    ghost use Rattle.std.specs.VecDeque.{deque_capacity};
    ghost use Rattle.ot_links.specs.Queue.{Queue};

    ghost Value = { Queue M };

    ghost view = { λ s. record { items = s.messages.items; room = deque_capacity s.messages - length s.messages.items } };
}

impl<M: Drop> Downlink<M> {
    /// The link without a message. It takes no memory; what the link grows by later comes from `alloc`.
    pub fn new(alloc: Global) -> Downlink<M>
        ensures { result.items ≡ [] }
    {
        Downlink {
            messages: VecDeque::new(alloc),
        }
    }

    /// Makes room for at least one more message. Only where there is none does it ask for memory; then it asks for as much room as there are messages,
    /// at least four. After an error messages and room are as they were.
    pub fn reserve_one(&mut self) -> Result<(), AllocError>
        ensures items { self.new.items ≡ self.old.items }
        ensures room { OnOk result (0 < self.new.room) }
        ensures kept { self.old.room ≤ self.new.room }
        ensures err { OnErr result (self.new ≡ self.old) }
        ensures full { OnErr result (self.old.room ≡ 0) }
    {
        if self.has_room() {
            return Ok(());
        }
        let more = self.len().max(4);
        self.messages.reserve_exact(more)
    }

    /// There is room for one more message.
    pub fn has_room(&self) -> bool
        ensures { IsTrue result ↔ (0 < self.now.room) }
    {
        self.len() < self.messages.capacity()
    }

    /// Puts a message at the end, in the room that there is.
    pub fn push(&mut self, message: M)
        requires { 0 < self.old.room }
        ensures items { self.new.items ≡ self.old.items ++ message ∷ [] }
        ensures room { self.new.room + 1 ≡ self.old.room }
    {
        self.messages.push_back_reserved(message);
    }

    /// The message at the front, if there is one.
    pub fn head(&self) -> Option<&M>
        ensures { option_copied result ≡ slice_get self.now.items 0 }
    {
        self.messages.front()
    }

    /// Takes the message at the front off the link, if there is one. Its place is room again.
    pub fn pop(&mut self) -> Option<M>
        ensures value { result ≡ slice_get self.old.items 0 }
        ensures rest { self.new.items ≡ drop 1 self.old.items }
        ensures room { OnSome result (self.new.room ≡ self.old.room + 1) }
        ensures none { IfNone result (self.new ≡ self.old) }
    {
        self.messages.pop_front()
    }

    /// The message at a place, counted from the front, if there is one.
    pub fn get(&self, place: usize) -> Option<&M>
        ensures { option_copied result ≡ slice_get self.now.items place }
    {
        self.messages.get(place)
    }

    /// How many messages there are.
    pub fn len(&self) -> usize
        ensures { result ≡ length self.now.items }
    {
        self.messages.len()
    }

    /// There is no message.
    pub fn is_empty(&self) -> bool
        ensures { IsTrue result ↔ (self.now.items ≡ []) }
    {
        self.messages.is_empty()
    }

    /// Removes the message at the end, if there is one, as if it had not been pushed. Its place is room again.
    pub fn take_back(&mut self) -> Option<M>
        ensures value { result ≡ slice_get self.old.items (length self.old.items - 1) }
        ensures rest { self.new.items ≡ take (length self.old.items - 1) self.old.items }
        ensures room { OnSome result (self.new.room ≡ self.old.room + 1) }
        ensures none { IfNone result (self.new ≡ self.old) }
    {
        self.messages.pop_back()
    }

    /// Puts a message at the front, in the room that there is, as if it had not been popped.
    pub fn put_back(&mut self, message: M)
        requires { 0 < self.old.room }
        ensures items { self.new.items ≡ message ∷ self.old.items }
        ensures room { self.new.room + 1 ≡ self.old.room }
    {
        self.messages.push_front_reserved(message);
    }
}
