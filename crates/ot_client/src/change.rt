//! What a step changes of a client, and, once it was exchanged, what undoes the step.

ghost use Rattle.std.specs.Prelude.{◌≡◌, length};
ghost use Rattle.ot_client.specs.Change.{pending_undoing, phase_changed, IsInPlace, IsOver, IsPhaseJoined};
ghost use Rattle.ot_client.specs.Client.{state_of};
ghost use Rattle.ot_client.specs.State as state;

use crate::Client;
use ot_codes::Codes;
use ot_text::{Element, TextOp};

/// What a step changes of a client: its revision, and of its pending operations what becomes another. [`Client::exchange`] takes the step, and leaves here what
/// was there before: the undo record of the step, which is exchanged likewise.
#[derive(Drop)]
pub struct Change<T> {
    // The revision of the client after the exchange.
    pub(crate) revision: u32,
    pub(crate) pending: Pending<T>,
}

// What becomes another of the pending operations. Each kind but the first is over one state, and undone by the kind that is named with it.
#[derive(Drop)]
pub(crate) enum Pending<T> {
    // Nothing, in any state.
    Nothing,
    // Nothing is pending, and this operation is outstanding from then on (`Unsend`).
    Send(TextOp<T>),
    // An operation is outstanding, and nothing is pending from then on (`Send`).
    Unsend,
    // An operation is outstanding, and this one is the buffer from then on (`Unbuffer`).
    Buffer(TextOp<T>),
    // There is a buffer, and none from then on (`Buffer`).
    Unbuffer,
    // There is a buffer, and this operation in its place from then on (`Rebuffer`).
    Rebuffer(TextOp<T>),
    // An operation is outstanding, with these codes from then on (`Outstanding`).
    Outstanding(Codes),
    // There is a buffer: the outstanding operation and the buffer have these codes from then on (`Both`).
    Both(Box<(Codes, Codes)>),
    // There is a buffer, which is outstanding from then on (`Unconfirm`).
    Confirm,
    // An operation is outstanding: it is the buffer from then on, and this one is outstanding (`Confirm`).
    Unconfirm(TextOp<T>),
}

// How many components the operation has, and how many elements it inserts.
fn size_of<T: Element>(op: &TextOp<T>) -> usize {
    op.component_count().saturating_add(op.inserted())
}

impl<T: Element> Change<T> {
    /// About how much it stores, counted in components and elements. It goes through no component.
    pub fn size(&self) -> usize {
        match &self.pending {
            Pending::Send(op) => size_of(op),
            Pending::Buffer(op) => size_of(op),
            Pending::Rebuffer(op) => size_of(op),
            Pending::Unconfirm(op) => size_of(op),
            Pending::Outstanding(codes) => codes.count(),
            Pending::Both(codes) => {
                let (outstanding, buffer) = &**codes;
                outstanding.count().saturating_add(buffer.count())
            }
            Pending::Nothing | Pending::Unsend | Pending::Unbuffer | Pending::Confirm => 0,
        }
    }
}

impl<T: Element> Pending<T> {
    // The exchange where nothing is pending. Here and below, the change is none that is exchanged in place.
    pub(crate) fn exchange_nothing(self, revision: u32) -> (Client<T>, Pending<T>)
        requires over { IsOver state.Synchronized self }
        requires other { IsInPlace state.Synchronized self → ⊥ }
        ensures client { state_of result.0 ≡ record { revision = revision; phase = phase_changed state.Synchronized self } }
        ensures undoing { result.1 ≡ pending_undoing state.Synchronized self }
    {
        match self {
            Pending::Send(op) => (Client::confirming(revision, op), Pending::Unsend),
            _ => unreachable!(),
        }
    }

    // The exchange where this operation is outstanding.
    pub(crate) fn exchange_outstanding(
        self,
        revision: u32,
        outstanding: TextOp<T>,
    ) -> (Client<T>, Pending<T>)
        requires over { IsOver (state.AwaitingConfirm outstanding) self }
        requires other { IsInPlace (state.AwaitingConfirm outstanding) self → ⊥ }
        requires joined { IsPhaseJoined (phase_changed (state.AwaitingConfirm outstanding) self) }
        ensures client { state_of result.0 ≡ record { revision = revision; phase = phase_changed (state.AwaitingConfirm outstanding) self } }
        ensures undoing { result.1 ≡ pending_undoing (state.AwaitingConfirm outstanding) self }
    {
        match self {
            Pending::Nothing => (Client::confirming(revision, outstanding), Pending::Nothing),
            Pending::Unsend => (Client::synchronized(revision), Pending::Send(outstanding)),
            Pending::Buffer(op) => {
                let client = Client::buffering(revision, outstanding, op);
                (client, Pending::Unbuffer)
            }
            Pending::Unconfirm(op) => {
                let client = Client::buffering(revision, op, outstanding);
                (client, Pending::Confirm)
            }
            _ => unreachable!(),
        }
    }

    // The exchange where there is a buffer too.
    pub(crate) fn exchange_both(
        self,
        revision: u32,
        outstanding: TextOp<T>,
        buffer: TextOp<T>,
    ) -> (Client<T>, Pending<T>)
        requires over { IsOver (state.AwaitingWithBuffer outstanding buffer) self }
        requires other { IsInPlace (state.AwaitingWithBuffer outstanding buffer) self → ⊥ }
        requires joined { IsPhaseJoined (phase_changed (state.AwaitingWithBuffer outstanding buffer) self) }
        requires before { buffer.base ≡ length outstanding.image }
        ensures client { state_of result.0 ≡ record { revision = revision; phase = phase_changed (state.AwaitingWithBuffer outstanding buffer) self } }
        ensures undoing { result.1 ≡ pending_undoing (state.AwaitingWithBuffer outstanding buffer) self }
    {
        match self {
            Pending::Nothing => {
                let client = Client::buffering(revision, outstanding, buffer);
                (client, Pending::Nothing)
            }
            Pending::Unbuffer => {
                let client = Client::confirming(revision, outstanding);
                (client, Pending::Buffer(buffer))
            }
            Pending::Confirm => {
                let client = Client::confirming(revision, buffer);
                (client, Pending::Unconfirm(outstanding))
            }
            _ => unreachable!(),
        }
    }
}
