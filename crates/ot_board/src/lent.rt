//! A session in whichever state.

ghost use Rattle.std.specs.Prelude.{◌≡◌, length, None};
ghost use Rattle.ot_machine.specs.Parts.{part_in};
ghost use Rattle.ot_model.specs.Session.{IsAllowed};

use crate::session::{Remains, Session};
use ot_client::{AwaitingConfirm, AwaitingWithBuffer, Synchronized};
use ot_isa::{Instr, Tagged};
use ot_machine::Part;
use ot_text::Doc;

/// A client that was lent, in whichever state it is.
#[derive(Drop)]
pub enum Lent {
    Synchronized(Session<Synchronized>),
    AwaitingConfirm(Session<AwaitingConfirm<Tagged>>),
    AwaitingWithBuffer(Session<AwaitingWithBuffer<Tagged>>),
}

impl Lent {
    ghost use Rattle.ot_board.specs.Lents.{session_of};

    /// The client's number.
    pub fn client(&self) -> u16
        ensures { result ≡ (session_of self.now).start.number }
    {
        match self {
            Lent::Synchronized(session) => session.client(),
            Lent::AwaitingConfirm(session) => session.client(),
            Lent::AwaitingWithBuffer(session) => session.client(),
        }
    }

    /// The steps that were made, at most 64.
    pub fn steps(&self) -> &[Instr]
        ensures steps { result.now ≡ (session_of self.now).steps }
        ensures allowed { IsAllowed (session_of self.now) }
    {
        match self {
            Lent::Synchronized(session) => session.steps(),
            Lent::AwaitingConfirm(session) => session.steps(),
            Lent::AwaitingWithBuffer(session) => session.steps(),
        }
    }

    /// The client's list.
    pub fn document(&self) -> &Doc<Tagged>
        ensures { result.now ≡ (session_of self.now).now.client.list }
    {
        match self {
            Lent::Synchronized(session) => session.document(),
            Lent::AwaitingConfirm(session) => session.document(),
            Lent::AwaitingWithBuffer(session) => session.document(),
        }
    }

    /// How many messages of the session's own part are left.
    pub fn incoming_len(&self) -> usize
        ensures { result ≡ length (session_of self.now).now.incoming }
    {
        match self {
            Lent::Synchronized(session) => session.incoming_len(),
            Lent::AwaitingConfirm(session) => session.incoming_len(),
            Lent::AwaitingWithBuffer(session) => session.incoming_len(),
        }
    }

    // The part that it began with.
    pub(crate) fn start(&self) -> &Part
        ensures { part_in result.now ≡ (session_of self.now).start }
    {
        match self {
            Lent::Synchronized(session) => session.start(),
            Lent::AwaitingConfirm(session) => session.start(),
            Lent::AwaitingWithBuffer(session) => session.start(),
        }
    }

    // The session taken apart.
    pub(crate) fn into_remains(self) -> Remains
        ensures start { part_in result.start ≡ (session_of self).start }
        ensures now { part_in result.now ≡ (session_of self).now }
        ensures steps { result.steps.items ≡ (session_of self).steps }
        ensures unsent { result.start.sent ≡ None }
        ensures allowed { IsAllowed (session_of self) }
    {
        match self {
            Lent::Synchronized(session) => session.into_remains(),
            Lent::AwaitingConfirm(session) => session.into_remains(),
            Lent::AwaitingWithBuffer(session) => session.into_remains(),
        }
    }

    // Its steps alone.
    pub(crate) fn into_steps(self) -> Vec<Instr>
        ensures steps { result.items ≡ (session_of self).steps }
        ensures allowed { IsAllowed (session_of self) }
    {
        match self {
            Lent::Synchronized(session) => session.into_steps(),
            Lent::AwaitingConfirm(session) => session.into_steps(),
            Lent::AwaitingWithBuffer(session) => session.into_steps(),
        }
    }
}
