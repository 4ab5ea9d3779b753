//! A client of which nothing is under way.

ghost use Rattle.std.specs.Prelude.{◌≡◌, ◌+◌, ◌<◌, IfOk, IfErr, None};
ghost use Rattle.ot_client.specs.Client.{message_of};
ghost use Rattle.std.specs.Option.{option_map};
ghost use Rattle.ot_client.specs.Change.{changed, Fits};
ghost use Rattle.ot_client.specs.declared.change.Pending.TheVariants.{Nothing};
ghost use Rattle.ot_client.specs.State.{delivered, edited, message_edited};
ghost use Rattle.ot_client.specs.Values.{confirming, synchronized};
ghost use Rattle.ot_client.specs.declared.TheConstants.{REVISION_LIMIT};

use crate::change::Pending;
use crate::{AwaitingConfirm, Change, Sent};
use ot_text::{Element, TextOp};
use std::alloc::AllocError;
use std::marker::Model;
use std::mem;

/// A client whose document is the server's at its revision: nothing of its own is under way (`Synchronized` of ot.js).
#[derive(Drop)]
pub struct Synchronized {
    revision: u32,
}

impl Model for Synchronized {
    ghost use Rattle.std.specs.Prelude.{ℕ};

    ghost Value = { ℕ };

    ghost view = { λ s. s.revision };
}

impl Synchronized {
    /// The client at this revision, counted in entries of the server's log. It takes no memory.
    pub fn new(revision: u32) -> Synchronized
        ensures { result ≡ revision }
    {
        Synchronized { revision }
    }

    /// How many entries of the server's log the client has.
    pub fn revision(&self) -> u32
        ensures { result ≡ self.now }
    {
        self.revision
    }

    /// A client equal to this one. It takes no memory.
    pub fn copy(&self) -> Synchronized
        ensures { result ≡ self.now }
    {
        Synchronized::new(self.revision)
    }

    // What the user's edit changes of the client, and what it sends.
    pub(crate) fn prepare_edit<T: Element>(
        &self,
        op: &TextOp<T>,
    ) -> Result<(Change<T>, Option<Sent<T>>), AllocError>
        ensures fits { IfOk result (λ given. Fits (synchronized self.now) given.0) }
        ensures change { IfOk result (λ given. changed (synchronized self.now) given.0 ≡ edited (synchronized self.now) op.now) }
        ensures sent { IfOk result (λ given. option_map message_of given.1 ≡ message_edited self.now (synchronized self.now).phase op.now) }
    {
        let revision = self.revision;
        let pending = Pending::Send(op.copy()?);
        let op = op.copy()?;
        Ok((Change { revision, pending }, Some(Sent { revision, op })))
    }

    // What the next entry of the server's log changes of the client: the operation that the document is to be changed by is the one that came.
    pub(crate) fn prepare_deliver<T: Element>(&self) -> (Change<T>, Option<TextOp<T>>)
        requires { self.now < REVISION_LIMIT }
        ensures change { result.0 ≡ record { revision = self.now + 1; pending = Nothing } }
        ensures applied { result.1 ≡ None }
    {
        let revision = self.revision + 1;
        let pending = Pending::Nothing;
        (Change { revision, pending }, None)
    }

    // Exchanges the revision.
    pub(crate) fn exchange_revision(&mut self, revision: &mut u32)
        ensures client { self.new ≡ revision.old }
        ensures revision { revision.new ≡ self.old }
    {
        mem::swap(&mut self.revision, revision);
    }

    /// Takes the user's edit, which is in the user's document already: it is sent with the client's revision, and outstanding from now on. If memory
    /// runs out, the client and the edit come back.
    pub fn edit<T: Element>(
        self,
        op: TextOp<T>,
    ) -> Result<(AwaitingConfirm<T>, Sent<T>), (Synchronized, TextOp<T>)>
        ensures state { IfOk result (λ given. confirming given.0 ≡ edited (synchronized self) op) }
        ensures sent { IfOk result (λ given. message_of given.1 ≡ record { revision = self; op = op }) }
        ensures back { IfErr result (λ back. back ≡ (self, op)) }
    {
        let Ok(copy) = op.copy() else {
            return Err((self, op));
        };
        let sent = Sent {
            revision: self.revision,
            op: copy,
        };
        Ok((AwaitingConfirm::new(self.revision, op), sent))
    }

    /// Takes the next entry of the server's log, an operation of another client: gives the client after it, and what the document is to be changed by,
    /// the operation as it came. The revision, below 1,000,000, rises by 1. It takes no memory.
    pub fn deliver<T: Element>(self, op: TextOp<T>) -> (Synchronized, TextOp<T>)
        requires { self < REVISION_LIMIT }
        ensures state { synchronized result.0 ≡ delivered (synchronized self) op }
        ensures applied { result.1 ≡ op }
    {
        (Synchronized::new(self.revision + 1), op)
    }
}
