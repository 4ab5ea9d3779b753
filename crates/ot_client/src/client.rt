//! A client in any of the three states.

ghost use Rattle.std.specs.Prelude.{◌≡◌, ◌+◌, ◌<◌, length, IfErr, IfOk, IsTrue, Some, false};
ghost use Rattle.std.specs.Option.{option_map, unwrap_or};
ghost use Rattle.ot_client.specs.Client.{message_of, state_of};
ghost use Rattle.ot_client.specs.Change.{changed, undoing, Fits, IsInPlace};
ghost use Rattle.ot_client.specs.State.{against_pending, delivered, edited, message_acknowledged, message_edited, phase_acknowledged};
ghost use Rattle.ot_client.specs.Conditions.{IsAwaiting, MayDeliver, MayEdit};
ghost use Rattle.ot_client.specs.Values.{buffering, confirming, synchronized};
ghost use Rattle.ot_client.specs.declared.TheConstants.{REVISION_LIMIT};

use crate::change::Pending;
use crate::{AwaitingConfirm, AwaitingWithBuffer, Change, Sent, Synchronized};
use ot_text::{Element, TextOp};
use std::alloc::AllocError;
use std::mem;

/// A client in whichever state it is.
#[derive(Drop)]
pub enum Client<T> {
    Synchronized(Synchronized),
    AwaitingConfirm(AwaitingConfirm<T>),
    AwaitingWithBuffer(AwaitingWithBuffer<T>),
}

impl<T: Element> Client<T> {
    // The three states as clients.
    pub(crate) fn synchronized(revision: u32) -> Client<T>
        ensures { state_of result ≡ synchronized revision }
    {
        Client::Synchronized(Synchronized::new(revision))
    }

    pub(crate) fn confirming(revision: u32, outstanding: TextOp<T>) -> Client<T>
        ensures { state_of result ≡ confirming (record { revision = revision; outstanding = outstanding }) }
    {
        Client::AwaitingConfirm(AwaitingConfirm::new(revision, outstanding))
    }

    pub(crate) fn buffering(revision: u32, outstanding: TextOp<T>, buffer: TextOp<T>) -> Client<T>
        requires { buffer.base ≡ length outstanding.image }
        ensures { state_of result ≡ buffering (record { revision = revision; outstanding = outstanding; buffer = buffer }) }
    {
        Client::AwaitingWithBuffer(AwaitingWithBuffer::new(revision, outstanding, buffer))
    }

    /// How many entries of the server's log the client has.
    pub fn revision(&self) -> u32
        ensures { result ≡ (state_of self.now).revision }
    {
        match self {
            Client::Synchronized(client) => client.revision(),
            Client::AwaitingConfirm(client) => client.revision(),
            Client::AwaitingWithBuffer(client) => client.revision(),
        }
    }

    /// Takes the next entry of the server's log, an operation of another client: gives the client after it, and what the document is to be changed by.
    /// The calls of the three states say what each asks, and what it costs. If memory runs out, the client and the entry come back.
    pub fn deliver(self, op: TextOp<T>) -> Result<(Client<T>, TextOp<T>), (Client<T>, TextOp<T>)>
        requires revision { (state_of self).revision < REVISION_LIMIT }
        requires operations { MayDeliver (state_of self).phase op }
        ensures state { IfOk result (λ given. state_of given.0 ≡ delivered (state_of self) op) }
        ensures applied { IfOk result (λ given. given.1 ≡ against_pending (state_of self).phase op) }
        ensures back { IfErr result (λ back. back ≡ (self, op)) }
    {
        match self {
            Client::Synchronized(client) => {
                let (client, applied) = client.deliver(op);
                Ok((Client::Synchronized(client), applied))
            }
            Client::AwaitingConfirm(client) => match client.deliver(op) {
                Ok((client, applied)) => Ok((Client::AwaitingConfirm(client), applied)),
                Err((client, op)) => Err((Client::AwaitingConfirm(client), op)),
            },
            Client::AwaitingWithBuffer(client) => match client.deliver(op) {
                Ok((client, applied)) => Ok((Client::AwaitingWithBuffer(client), applied)),
                Err((client, op)) => Err((Client::AwaitingWithBuffer(client), op)),
            },
        }
    }

    /// What the user's edit changes of the client, and what it sends then, if anything. The edit is in the user's document already. The client and the
    /// edit are only read. `Err` comes where memory was refused.
    pub fn prepare_edit(&self, op: &TextOp<T>) -> Result<(Change<T>, Option<Sent<T>>), AllocError>
        requires { MayEdit (state_of self.now).phase op.now }
        ensures fits { IfOk result (λ given. Fits (state_of self.now) given.0) }
        ensures change { IfOk result (λ given. changed (state_of self.now) given.0 ≡ edited (state_of self.now) op.now) }
        ensures sent { IfOk result (λ given. option_map message_of given.1 ≡ message_edited (state_of self.now).revision (state_of self.now).phase op.now) }
    {
        match self {
            Client::Synchronized(client) => client.prepare_edit(op),
            Client::AwaitingConfirm(client) => client.prepare_edit(op),
            Client::AwaitingWithBuffer(client) => client.prepare_edit(op),
        }
    }

    /// What the next entry of the server's log, an operation of another client, changes of the client, under the conditions of `deliver`, and what the
    /// document is to be changed by; `None` there where that is the operation as it came, as for a synchronized client. The client and the operation
    /// are only read. `Err` comes where memory was refused.
    pub fn prepare_deliver(
        &self,
        op: &TextOp<T>,
    ) -> Result<(Change<T>, Option<TextOp<T>>), AllocError>
        requires revision { (state_of self.now).revision < REVISION_LIMIT }
        requires operations { MayDeliver (state_of self.now).phase op.now }
        ensures fits { IfOk result (λ given. Fits (state_of self.now) given.0) }
        ensures change { IfOk result (λ given. changed (state_of self.now) given.0 ≡ delivered (state_of self.now) op.now) }
        ensures applied { IfOk result (λ given. unwrap_or given.1 op.now ≡ against_pending (state_of self.now).phase op.now) }
    {
        match self {
            Client::Synchronized(client) => Ok(client.prepare_deliver()),
            Client::AwaitingConfirm(client) => client.prepare_deliver(op),
            Client::AwaitingWithBuffer(client) => client.prepare_deliver(op),
        }
    }

    /// What the confirmation of the operation that was sent changes of the client, by the rules of the two states in which one is, and what it sends
    /// then, if anything. The client is only read. `Err` comes where memory was refused.
    pub fn prepare_acknowledge(&self) -> Result<(Change<T>, Option<Sent<T>>), AllocError>
        requires awaiting { IsAwaiting (state_of self.now).phase }
        requires revision { (state_of self.now).revision < REVISION_LIMIT }
        ensures fits { IfOk result (λ given. Fits (state_of self.now) given.0) }
        ensures revision { IfOk result (λ given. (changed (state_of self.now) given.0).revision ≡ (state_of self.now).revision + 1) }
        ensures phase { IfOk result (λ given. phase_acknowledged (state_of self.now).phase ≡ Some (changed (state_of self.now) given.0).phase) }
        ensures sent { IfOk result (λ given. option_map message_of given.1 ≡ message_acknowledged ((state_of self.now).revision + 1) (state_of self.now).phase) }
    {
        match self {
            Client::AwaitingConfirm(client) => Ok(client.prepare_acknowledge()),
            Client::AwaitingWithBuffer(client) => client.prepare_acknowledge(),
            Client::Synchronized(_) => unreachable!(),
        }
    }

    /// Changes the client, and leaves in `change` what undoes it: exchanged once more, the client is as it was. It takes no memory.
    pub fn exchange(&mut self, change: &mut Change<T>)
        requires { Fits (state_of self.old) change.old }
        ensures client { state_of self.new ≡ changed (state_of self.old) change.old }
        ensures undoing { change.new ≡ undoing (state_of self.old) change.old }
        ensures fits { Fits (state_of self.new) change.new }
        ensures back { changed (state_of self.new) change.new ≡ state_of self.old }
    {
        if !self.exchange_in_place(change) {
            self.exchange_state(change);
        }
    }

    // Does so where the client stays in its state and what changes of it is exchanged where it lies. Else nothing changes, and the answer is no.
    fn exchange_in_place(&mut self, change: &mut Change<T>) -> bool
        requires { Fits (state_of self.old) change.old }
        ensures client { IsTrue result → state_of self.new ≡ changed (state_of self.old) change.old }
        ensures undoing { IsTrue result → change.new ≡ undoing (state_of self.old) change.old }
        ensures other { result ≡ false → IsInPlace (state_of self.old).phase change.old.pending → ⊥ }
        ensures client_same { result ≡ false → self.new ≡ self.old }
        ensures change_same { result ≡ false → change.new ≡ change.old }
    {
        match (self, &mut change.pending) {
            (Client::Synchronized(client), Pending::Nothing) => {
                client.exchange_revision(&mut change.revision);
                true
            }
            (Client::AwaitingConfirm(client), Pending::Outstanding(codes)) => {
                client.exchange_codes(&mut change.revision, codes);
                true
            }
            (Client::AwaitingWithBuffer(client), Pending::Both(codes)) => {
                let (outstanding, buffer) = &mut **codes;
                client.exchange_codes(&mut change.revision, outstanding, buffer);
                true
            }
            (Client::AwaitingWithBuffer(client), Pending::Rebuffer(op)) => {
                client.exchange_buffer(&mut change.revision, op);
                true
            }
            _ => false,
        }
    }

    // Does so in all other cases.
    fn exchange_state(&mut self, change: &mut Change<T>)
        requires fits { Fits (state_of self.old) change.old }
        requires other { IsInPlace (state_of self.old).phase change.old.pending → ⊥ }
        ensures client { state_of self.new ≡ changed (state_of self.old) change.old }
        ensures undoing { change.new ≡ undoing (state_of self.old) change.old }
    {
        let client = mem::replace(self, Client::synchronized(0));
        let revision = mem::replace(&mut change.revision, client.revision());
        let pending = mem::replace(&mut change.pending, Pending::Nothing);
        let (client, undoing) = match client {
            Client::Synchronized(_) => pending.exchange_nothing(revision),
            Client::AwaitingConfirm(client) => {
                pending.exchange_outstanding(revision, client.into_outstanding())
            }
            Client::AwaitingWithBuffer(client) => {
                let (outstanding, buffer) = client.into_operations();
                pending.exchange_both(revision, outstanding, buffer)
            }
        };
        // What was left in their places holds nothing that would have to be dropped.
        match mem::replace(self, client) {
            Client::Synchronized(_) => {}
            _ => unreachable!(),
        }
        match mem::replace(&mut change.pending, undoing) {
            Pending::Nothing => {}
            _ => unreachable!(),
        }
    }

    /// Takes the confirmation of the operation that was sent, by the rules of the two states in which one is: the client after it, and what it sends
    /// then, if anything. If memory runs out, the client comes back.
    pub fn acknowledge(self) -> Result<(Client<T>, Option<Sent<T>>), Client<T>>
        requires awaiting { IsAwaiting (state_of self).phase }
        requires revision { (state_of self).revision < REVISION_LIMIT }
        ensures revision { IfOk result (λ given. (state_of given.0).revision ≡ (state_of self).revision + 1) }
        ensures phase { IfOk result (λ given. phase_acknowledged (state_of self).phase ≡ Some (state_of given.0).phase) }
        ensures sent { IfOk result (λ given. option_map message_of given.1 ≡ message_acknowledged ((state_of self).revision + 1) (state_of self).phase) }
        ensures back { IfErr result (λ client. client ≡ self) }
    {
        match self {
            Client::AwaitingConfirm(client) => {
                Ok((Client::Synchronized(client.acknowledge()), None))
            }
            Client::AwaitingWithBuffer(client) => match client.acknowledge() {
                Ok((client, sent)) => Ok((Client::AwaitingConfirm(client), Some(sent))),
                Err(client) => Err(Client::AwaitingWithBuffer(client)),
            },
            Client::Synchronized(_) => unreachable!(),
        }
    }

    /// What the document is to be changed by at the next entry of the server's log, an operation of another client, as `deliver` gives it, and no
    /// client after it; `None` where that is the operation as it came. `Err` comes where memory was refused.
    pub fn against_pending(&self, op: &TextOp<T>) -> Result<Option<TextOp<T>>, AllocError>
        requires { MayDeliver (state_of self.now).phase op.now }
        ensures { IfOk result (λ applied. unwrap_or applied op.now ≡ against_pending (state_of self.now).phase op.now) }
    {
        match self {
            Client::Synchronized(_) => Ok(None),
            Client::AwaitingConfirm(client) => Ok(Some(client.against_pending(op)?)),
            Client::AwaitingWithBuffer(client) => Ok(Some(client.against_pending(op)?)),
        }
    }

    /// A client equal to this one, or out of memory.
    pub fn copy(&self) -> Result<Client<T>, AllocError>
        ensures { IfOk result (λ client. state_of client ≡ state_of self.now) }
    {
        Ok(match self {
            Client::Synchronized(client) => Client::Synchronized(client.copy()),
            Client::AwaitingConfirm(client) => Client::AwaitingConfirm(client.copy()?),
            Client::AwaitingWithBuffer(client) => Client::AwaitingWithBuffer(client.copy()?),
        })
    }
}
