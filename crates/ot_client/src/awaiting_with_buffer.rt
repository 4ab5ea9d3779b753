//! A client of which one operation is under way, with later edits.

ghost use Rattle.std.specs.Prelude.{◌≡◌, ◌+◌, ◌<◌, ◌≤◌, length, IfOk, IfErr, None, Some};
ghost use Rattle.std.specs.Option.{option_map, unwrap_or};
ghost use Rattle.ot_operation.specs.Operation.{news};
ghost use Rattle.ot_codes.specs.Shape.{filled, shape};
ghost use Rattle.ot_operation.specs.Compose.{compose as composition};
ghost use Rattle.ot_operation.specs.Merge.{first_after, second_after};
ghost use Rattle.ot_client.specs.Change.{changed, Fits};
ghost use Rattle.ot_client.specs.Client.{message_of};
ghost use Rattle.ot_client.specs.declared.change.Pending.TheVariants.{Confirm};
ghost use Rattle.ot_client.specs.State.{against_pending, delivered, edited};
ghost use Rattle.ot_client.specs.Values.{buffering, confirming, IsJoined};
ghost use Rattle.ot_operation.specs.declared.TheConstants.{LIMIT};
ghost use Rattle.ot_client.specs.declared.TheConstants.{REVISION_LIMIT};

use crate::change::Pending;
use crate::transformed::{transformed, transformed_in_place};
use crate::{AwaitingConfirm, Change, Sent};
use ot_algebra::{compose, transform_second};
use ot_codes::Codes;
use ot_text::{Element, TextOp};
use std::alloc::AllocError;
use std::marker::Model;
use std::mem;

/// A client that has sent an operation, which the server has not yet confirmed, and has edits after it (`AwaitingWithBuffer` of ot.js).
#[derive(Drop)]
pub struct AwaitingWithBuffer<T> {
    revision: u32,
    outstanding: TextOp<T>,
    buffer: TextOp<T>,
}

impl<T> Model for AwaitingWithBuffer<T> {
    ghost use Rattle.ot_client.specs.Values.{Buffering};

    ghost Value = { Buffering T };

    ghost use Rattle.ot_client.specs.Values.{IsJoined};

    ghost view = { λ s. record { revision = s.revision; outstanding = s.outstanding; buffer = s.buffer } };

    ghost invariant = { λ s. IsJoined (record { revision = s.revision; outstanding = s.outstanding; buffer = s.buffer }) };
}

impl<T: Element> AwaitingWithBuffer<T> {
    // The client that has sent this operation and has these edits in its buffer.
    pub(crate) fn new(
        revision: u32,
        outstanding: TextOp<T>,
        buffer: TextOp<T>,
    ) -> AwaitingWithBuffer<T>
        requires { buffer.base ≡ length outstanding.image }
        ensures { result ≡ record { revision = revision; outstanding = outstanding; buffer = buffer } }
    {
        AwaitingWithBuffer {
            revision,
            outstanding,
            buffer,
        }
    }

    /// How many entries of the server's log the client has.
    pub fn revision(&self) -> u32
        ensures { result ≡ self.now.revision }
    {
        self.revision
    }

    /// The operation that was sent, over the server's document at the client's revision.
    pub fn outstanding(&self) -> &TextOp<T>
        ensures { result.now ≡ self.now.outstanding }
    {
        &self.outstanding
    }

    /// The edits since, as one operation over what the outstanding operation makes.
    pub fn buffer(&self) -> &TextOp<T>
        ensures value { result.now ≡ self.now.buffer }
        ensures joined { IsJoined self.now }
    {
        &self.buffer
    }

    /// A client equal to this one, or out of memory.
    pub fn copy(&self) -> Result<AwaitingWithBuffer<T>, AllocError>
        ensures { IfOk result (λ client. client ≡ self.now) }
    {
        Ok(AwaitingWithBuffer {
            revision: self.revision,
            outstanding: self.outstanding.copy()?,
            buffer: self.buffer.copy()?,
        })
    }

    /// Takes the user's edit, over what the buffer makes: it is composed into the buffer. If memory runs out, the client and the edit come back.
    pub fn edit(
        self,
        op: TextOp<T>,
    ) -> Result<AwaitingWithBuffer<T>, (AwaitingWithBuffer<T>, TextOp<T>)>
        requires { op.base ≡ length self.buffer.image }
        ensures state { IfOk result (λ client. buffering client ≡ edited (buffering self) op) }
        ensures back { IfErr result (λ back. back ≡ (self, op)) }
    {
        match self.composed(&op) {
            Ok(buffer) => Ok(AwaitingWithBuffer::new(self.revision, self.outstanding, buffer)),
            Err(_) => Err((self, op)),
        }
    }

    /// Takes the next entry of the server's log, an operation of another client over the base of the outstanding one: gives the client after it, and
    /// what the document is to be changed by. The outstanding operation is transformed against the entry, and the buffer against what the outstanding
    /// operation leaves of it. The revision, below 1,000,000, rises by 1. The base and what all three insert are at most 1,000,000 items together. The
    /// texts of both operations stay where they lie. If memory runs out, the client and the entry come back.
    pub fn deliver(
        self,
        op: TextOp<T>,
    ) -> Result<(AwaitingWithBuffer<T>, TextOp<T>), (AwaitingWithBuffer<T>, TextOp<T>)>
        requires revision { self.revision < REVISION_LIMIT }
        requires base { op.base ≡ self.outstanding.base }
        requires fits { op.base + length (news self.outstanding.image) + length (news self.buffer.image) + length (news op.image) ≤ LIMIT }
        ensures state { IfOk result (λ given. buffering given.0 ≡ delivered (buffering self) op) }
        ensures applied { IfOk result (λ given. given.1 ≡ against_pending (buffering self).phase op) }
        ensures back { IfErr result (λ back. back ≡ (self, op)) }
    {
        let Ok((mut codes, applied)) = self.transform(&op) else {
            return Err((self, op));
        };
        let mut outstanding = self.outstanding;
        let mut buffer = self.buffer;
        let (first, second) = &mut *codes;
        outstanding.exchange_codes(first);
        buffer.exchange_codes(second);
        let client = AwaitingWithBuffer::new(self.revision + 1, outstanding, buffer);
        Ok((client, applied))
    }

    /// What the document is to be changed by at that entry, the second of what `deliver` gives, under its conditions but for the revision. Costs
    /// the codes of both operations, and the entry. `Err` comes where memory was refused.
    pub fn against_pending(&self, op: &TextOp<T>) -> Result<TextOp<T>, AllocError>
        requires base { op.now.base ≡ self.now.outstanding.base }
        requires fits { op.now.base + length (news self.now.outstanding.image) + length (news self.now.buffer.image) + length (news op.now.image) ≤ LIMIT }
        ensures { IfOk result (λ applied. applied ≡ against_pending (buffering self.now).phase op.now) }
    {
        // For the proof: the invariant of every operation.
        let _operation = self.outstanding.base_len();
        let _operation = op.base_len();
        let passed = transform_second(&self.outstanding, op)?;
        transform_second(&self.buffer, &passed)
    }

    /// Takes the confirmation of the operation that was sent: the revision, below 1,000,000, rises by 1, and the buffer is sent with the risen
    /// revision and outstanding from now on. If memory runs out, the client comes back.
    pub fn acknowledge(self) -> Result<(AwaitingConfirm<T>, Sent<T>), AwaitingWithBuffer<T>>
        requires { self.revision < REVISION_LIMIT }
        ensures state { IfOk result (λ given. given.0 ≡ record { revision = self.revision + 1; outstanding = self.buffer }) }
        ensures sent { IfOk result (λ given. message_of given.1 ≡ record { revision = self.revision + 1; op = self.buffer }) }
        ensures back { IfErr result (λ back. back ≡ self) }
    {
        let Ok(copy) = self.buffer.copy() else {
            return Err(self);
        };
        let revision = self.revision + 1;
        let sent = Sent { revision, op: copy };
        let client = AwaitingConfirm::new(revision, self.buffer);
        Ok((client, sent))
    }

    // What the user's edit changes of the client; nothing is sent.
    pub(crate) fn prepare_edit(
        &self,
        op: &TextOp<T>,
    ) -> Result<(Change<T>, Option<Sent<T>>), AllocError>
        requires { op.now.base ≡ length self.now.buffer.image }
        ensures fits { IfOk result (λ given. Fits (buffering self.now) given.0) }
        ensures change { IfOk result (λ given. changed (buffering self.now) given.0 ≡ edited (buffering self.now) op.now) }
        ensures sent { IfOk result (λ given. given.1 ≡ None) }
    {
        let revision = self.revision;
        let pending = Pending::Rebuffer(self.composed(op)?);
        Ok((Change { revision, pending }, None))
    }

    // What the next entry of the server's log changes of the client, and what the document is to be changed by, under the conditions of `deliver`.
    pub(crate) fn prepare_deliver(
        &self,
        op: &TextOp<T>,
    ) -> Result<(Change<T>, Option<TextOp<T>>), AllocError>
        requires revision { self.now.revision < REVISION_LIMIT }
        requires base { op.now.base ≡ self.now.outstanding.base }
        requires fits { op.now.base + length (news self.now.outstanding.image) + length (news self.now.buffer.image) + length (news op.now.image) ≤ LIMIT }
        ensures fits { IfOk result (λ given. Fits (buffering self.now) given.0) }
        ensures change { IfOk result (λ given. changed (buffering self.now) given.0 ≡ delivered (buffering self.now) op.now) }
        ensures applied { IfOk result (λ given. unwrap_or given.1 op.now ≡ against_pending (buffering self.now).phase op.now) }
    {
        let (codes, applied) = self.transform(op)?;
        let revision = self.revision + 1;
        let pending = Pending::Both(codes);
        Ok((Change { revision, pending }, Some(applied)))
    }

    // What the confirmation of the operation that was sent changes of the client, and what it sends: the buffer.
    pub(crate) fn prepare_acknowledge(&self) -> Result<(Change<T>, Option<Sent<T>>), AllocError>
        requires { self.now.revision < REVISION_LIMIT }
        ensures fits { IfOk result (λ given. Fits (buffering self.now) given.0) }
        ensures change { IfOk result (λ given. given.0 ≡ record { revision = self.now.revision + 1; pending = Confirm }) }
        ensures sent { IfOk result (λ given. option_map message_of given.1 ≡ Some (record { revision = self.now.revision + 1; op = self.now.buffer })) }
    {
        let revision = self.revision + 1;
        let op = self.buffer.copy()?;
        let pending = Pending::Confirm;
        Ok((Change { revision, pending }, Some(Sent { revision, op })))
    }

    // Exchanges the revision, and the codes of the outstanding operation and of the buffer with others that insert as many elements.
    pub(crate) fn exchange_codes(
        &mut self,
        revision: &mut u32,
        outstanding: &mut Codes,
        buffer: &mut Codes,
    )
        requires outstanding { length (news outstanding.old.image) ≡ length (news self.old.outstanding.image) }
        requires buffer { length (news buffer.old.image) ≡ length (news self.old.buffer.image) }
        requires joined { (filled buffer.old (news self.old.buffer.image)).base ≡ length (filled outstanding.old (news self.old.outstanding.image)).image }
        ensures client { self.new ≡ record { revision = revision.old; outstanding = filled outstanding.old (news self.old.outstanding.image); buffer = filled buffer.old (news self.old.buffer.image) } }
        ensures revision { revision.new ≡ self.old.revision }
        ensures outstanding { outstanding.new ≡ shape self.old.outstanding }
        ensures buffer { buffer.new ≡ shape self.old.buffer }
    {
        mem::swap(&mut self.revision, revision);
        self.outstanding.exchange_codes(outstanding);
        self.buffer.exchange_codes(buffer);
    }

    // Exchanges the revision, and the buffer with another operation over what the outstanding operation makes.
    pub(crate) fn exchange_buffer(&mut self, revision: &mut u32, buffer: &mut TextOp<T>)
        requires { buffer.old.base ≡ length self.old.outstanding.image }
        ensures client { self.new ≡ record { revision = revision.old; outstanding = self.old.outstanding; buffer = buffer.old } }
        ensures revision { revision.new ≡ self.old.revision }
        ensures buffer { buffer.new ≡ self.old.buffer }
    {
        mem::swap(&mut self.revision, revision);
        mem::swap(&mut self.buffer, buffer);
    }

    // The operation that was sent, and the buffer.
    pub(crate) fn into_operations(self) -> (TextOp<T>, TextOp<T>)
        ensures operations { result ≡ (self.outstanding, self.buffer) }
        ensures joined { IsJoined self }
    {
        (self.outstanding, self.buffer)
    }

    // The buffer with the edit composed into it.
    pub(crate) fn composed(&self, op: &TextOp<T>) -> Result<TextOp<T>, AllocError>
        requires { op.now.base ≡ length self.now.buffer.image }
        ensures value { IfOk result (λ buffer. buffer ≡ composition self.now.buffer op.now) }
        ensures base { IfOk result (λ buffer. buffer.base ≡ length self.now.outstanding.image) }
        ensures joined { IsJoined self.now }
    {
        compose(self.buffer.allocator(), &self.buffer, op)
    }

    // The codes of the outstanding operation and of the buffer after an entry of the server's log, and what the document is to be changed by at that entry.
    pub(crate) fn transform(
        &self,
        op: &TextOp<T>,
    ) -> Result<(Box<(Codes, Codes)>, TextOp<T>), AllocError>
        requires base { op.now.base ≡ self.now.outstanding.base }
        requires fits { op.now.base + length (news self.now.outstanding.image) + length (news self.now.buffer.image) + length (news op.now.image) ≤ LIMIT }
        ensures text { IfOk result (λ given. length (news given.0.value.0.image) ≡ length (news self.now.outstanding.image)) }
        ensures buffer_text { IfOk result (λ given. length (news given.0.value.1.image) ≡ length (news self.now.buffer.image)) }
        ensures outstanding { IfOk result (λ given. filled given.0.value.0 (news self.now.outstanding.image) ≡ first_after self.now.outstanding op.now) }
        ensures buffer { IfOk result (λ given. filled given.0.value.1 (news self.now.buffer.image) ≡ first_after self.now.buffer (second_after self.now.outstanding op.now)) }
        ensures base { IfOk result (λ given. given.0.value.1.base ≡ length (first_after self.now.outstanding op.now).image) }
        ensures joined { IsJoined self.now }
        ensures applied { IfOk result (λ given. given.1 ≡ against_pending (buffering self.now).phase op.now) }
    {
        // For the proof: the invariant of every operation.
        let _operation = self.outstanding.base_len();
        let _operation = op.base_len();
        let (first, passed) = transformed(&self.outstanding, op)?;
        let mut applied = passed;
        let second = transformed_in_place(&self.buffer, &mut applied)?;
        let codes = Box::new(op.allocator(), (first, second))?;
        Ok((codes, applied))
    }
}
