//! A client of which one operation is under way.

ghost use Rattle.std.specs.Prelude.{◌≡◌, ◌+◌, ◌<◌, ◌≤◌, length, IfErr, IfOk, None};
ghost use Rattle.std.specs.Option.{unwrap_or};
ghost use Rattle.ot_operation.specs.Operation.{news};
ghost use Rattle.ot_codes.specs.Shape.{filled, shape};
ghost use Rattle.ot_client.specs.Change.{changed, Fits};
ghost use Rattle.ot_client.specs.declared.change.Pending.TheVariants.{Unsend};
ghost use Rattle.ot_client.specs.State.{against_pending, delivered, edited};
ghost use Rattle.ot_client.specs.Values.{buffering, confirming};
ghost use Rattle.ot_operation.specs.declared.TheConstants.{LIMIT};
ghost use Rattle.ot_client.specs.declared.TheConstants.{REVISION_LIMIT};

use crate::change::Pending;
use crate::transformed::transformed;
use crate::{AwaitingWithBuffer, Change, Sent, Synchronized};
use ot_algebra::transform_second;
use ot_codes::Codes;
use ot_text::{Element, TextOp};
use std::alloc::AllocError;
use std::marker::Model;
use std::mem;

/// A client that has sent an operation, which the server has not yet confirmed (`AwaitingConfirm` of ot.js).
#[derive(Drop)]
pub struct AwaitingConfirm<T> {
    revision: u32,
    outstanding: TextOp<T>,
}

impl<T> Model for AwaitingConfirm<T> {
    ghost use Rattle.ot_client.specs.Values.{Confirming};

    ghost Value = { Confirming T };

    ghost view = { λ s. record { revision = s.revision; outstanding = s.outstanding } };
}

impl<T: Element> AwaitingConfirm<T> {
    // The client that has sent this operation.
    pub(crate) fn new(revision: u32, outstanding: TextOp<T>) -> AwaitingConfirm<T>
        ensures { result ≡ record { revision = revision; outstanding = outstanding } }
    {
        AwaitingConfirm {
            revision,
            outstanding,
        }
    }

    /// How many entries of the server's log the client has.
    pub fn revision(&self) -> u32
        ensures { result ≡ self.now.revision }
    {
        self.revision
    }

    /// The operation that was sent, over the server's document at the client's revision.
    pub fn outstanding(&self) -> &TextOp<T>
        ensures { result.now ≡ self.now.outstanding }
    {
        &self.outstanding
    }

    /// A client equal to this one, or out of memory.
    pub fn copy(&self) -> Result<AwaitingConfirm<T>, AllocError>
        ensures { IfOk result (λ client. client ≡ self.now) }
    {
        Ok(AwaitingConfirm {
            revision: self.revision,
            outstanding: self.outstanding.copy()?,
        })
    }

    /// Takes the user's edit, over what the outstanding operation makes: it waits in the buffer. It takes no memory.
    pub fn edit(self, op: TextOp<T>) -> AwaitingWithBuffer<T>
        requires { op.base ≡ length self.outstanding.image }
        ensures { buffering result ≡ edited (confirming self) op }
    {
        AwaitingWithBuffer::new(self.revision, self.outstanding, op)
    }

    /// Takes the next entry of the server's log, an operation of another client over the base of the outstanding one: gives the client after it, whose
    /// outstanding operation is transformed against the entry, and what the document is to be changed by. The revision, below 1,000,000, rises by 1. The
    /// base and what both insert are at most 1,000,000 items together. The text of the outstanding operation stays where it lies. If memory runs out, the client
    /// and the entry come back.
    pub fn deliver(
        self,
        op: TextOp<T>,
    ) -> Result<(AwaitingConfirm<T>, TextOp<T>), (AwaitingConfirm<T>, TextOp<T>)>
        requires revision { self.revision < REVISION_LIMIT }
        requires base { op.base ≡ self.outstanding.base }
        requires fits { op.base + length (news self.outstanding.image) + length (news op.image) ≤ LIMIT }
        ensures state { IfOk result (λ given. confirming given.0 ≡ delivered (confirming self) op) }
        ensures applied { IfOk result (λ given. given.1 ≡ against_pending (confirming self).phase op) }
        ensures back { IfErr result (λ back. back ≡ (self, op)) }
    {
        let Ok((mut codes, applied)) = transformed(&self.outstanding, &op) else {
            return Err((self, op));
        };
        let mut outstanding = self.outstanding;
        outstanding.exchange_codes(&mut codes);
        let client = AwaitingConfirm::new(self.revision + 1, outstanding);
        Ok((client, applied))
    }

    /// What the document is to be changed by at that entry, the second of what `deliver` gives, under its conditions but for the revision. Costs
    /// the codes of the outstanding operation, and the entry. `Err` comes where memory was refused.
    pub fn against_pending(&self, op: &TextOp<T>) -> Result<TextOp<T>, AllocError>
        requires base { op.now.base ≡ self.now.outstanding.base }
        requires fits { op.now.base + length (news self.now.outstanding.image) + length (news op.now.image) ≤ LIMIT }
        ensures { IfOk result (λ applied. applied ≡ against_pending (confirming self.now).phase op.now) }
    {
        transform_second(&self.outstanding, op)
    }

    /// Takes the confirmation of the operation that was sent: nothing is under way. The revision, below 1,000,000, rises by 1. It takes no memory.
    pub fn acknowledge(self) -> Synchronized
        requires { self.revision < REVISION_LIMIT }
        ensures { result ≡ self.revision + 1 }
    {
        Synchronized::new(self.revision + 1)
    }

    // What the user's edit changes of the client; nothing is sent.
    pub(crate) fn prepare_edit(
        &self,
        op: &TextOp<T>,
    ) -> Result<(Change<T>, Option<Sent<T>>), AllocError>
        requires { op.now.base ≡ length self.now.outstanding.image }
        ensures fits { IfOk result (λ given. Fits (confirming self.now) given.0) }
        ensures change { IfOk result (λ given. changed (confirming self.now) given.0 ≡ edited (confirming self.now) op.now) }
        ensures sent { IfOk result (λ given. given.1 ≡ None) }
    {
        let revision = self.revision;
        let pending = Pending::Buffer(op.copy()?);
        Ok((Change { revision, pending }, None))
    }

    // What the next entry of the server's log changes of the client, and what the document is to be changed by, under the conditions of `deliver`.
    pub(crate) fn prepare_deliver(
        &self,
        op: &TextOp<T>,
    ) -> Result<(Change<T>, Option<TextOp<T>>), AllocError>
        requires revision { self.now.revision < REVISION_LIMIT }
        requires base { op.now.base ≡ self.now.outstanding.base }
        requires fits { op.now.base + length (news self.now.outstanding.image) + length (news op.now.image) ≤ LIMIT }
        ensures fits { IfOk result (λ given. Fits (confirming self.now) given.0) }
        ensures change { IfOk result (λ given. changed (confirming self.now) given.0 ≡ delivered (confirming self.now) op.now) }
        ensures applied { IfOk result (λ given. unwrap_or given.1 op.now ≡ against_pending (confirming self.now).phase op.now) }
    {
        let (codes, applied) = transformed(&self.outstanding, op)?;
        let revision = self.revision + 1;
        let pending = Pending::Outstanding(codes);
        Ok((Change { revision, pending }, Some(applied)))
    }

    // What the confirmation of the operation that was sent changes of the client; nothing is sent.
    pub(crate) fn prepare_acknowledge(&self) -> (Change<T>, Option<Sent<T>>)
        requires { self.now.revision < REVISION_LIMIT }
        ensures change { result.0 ≡ record { revision = self.now.revision + 1; pending = Unsend } }
        ensures sent { result.1 ≡ None }
    {
        let revision = self.revision + 1;
        let pending = Pending::Unsend;
        (Change { revision, pending }, None)
    }

    // Exchanges the revision, and the codes of the outstanding operation with others that insert as many elements.
    pub(crate) fn exchange_codes(&mut self, revision: &mut u32, codes: &mut Codes)
        requires { length (news codes.old.image) ≡ length (news self.old.outstanding.image) }
        ensures client { self.new ≡ record { revision = revision.old; outstanding = filled codes.old (news self.old.outstanding.image) } }
        ensures revision { revision.new ≡ self.old.revision }
        ensures codes { codes.new ≡ shape self.old.outstanding }
    {
        mem::swap(&mut self.revision, revision);
        self.outstanding.exchange_codes(codes);
    }

    // The operation that was sent.
    pub(crate) fn into_outstanding(self) -> TextOp<T>
        ensures { result ≡ self.outstanding }
    {
        self.outstanding
    }
}
