//! The three states of a client, as a session has them.

ghost use Rattle.std.specs.Prelude.{◌≡◌, ◌<◌, IfOk};
ghost use Rattle.std.specs.Option.{option_map};
ghost use Rattle.ot_client.specs.State as state;
ghost use Rattle.ot_client.specs.Conditions as conditions;
ghost use Rattle.ot_client.specs.Client.{message_of, state_of};
ghost use Rattle.ot_client.specs.declared.TheConstants.{REVISION_LIMIT};

use ot_client::{AwaitingConfirm, AwaitingWithBuffer, Client, Sent, Synchronized};
use ot_isa::Tagged;
use ot_text::TextOp;
use std::alloc::AllocError;

/// A state that a session's client can be in: one of the three of `ot_client`.
pub trait ClientState: Drop {
    ghost use Rattle.ot_isa.specs.declared.elements.Tagged.{Tagged};
    ghost use Rattle.ot_client.specs.State.{State};

    // the client in this state, as contracts see any client
    ghost as_state: { Self → State Tagged };

    /// The client in this state, as one of the three.
    fn into_client(self) -> Client<Tagged>
        ensures { state_of result ≡ as_state self };

    /// The client after another's operation, and what its list is to be changed by. This one stays as it is.
    fn delivered(&self, op: &TextOp<Tagged>) -> Result<(Self, TextOp<Tagged>), AllocError>
        requires revision { (as_state self.now).revision < REVISION_LIMIT }
        requires operations { conditions.MayDeliver (as_state self.now).phase op.now }
        ensures state { IfOk result (λ given. as_state given.0 ≡ state.delivered (as_state self.now) op.now) }
        ensures applied { IfOk result (λ given. given.1 ≡ state.against_pending (as_state self.now).phase op.now) };
}

/// A state that the user's edit leads on from, as each does.
pub trait EditedState: ClientState {
    /// The state after the user's edit.
    type Edited: ClientState;

    /// The client after the user's edit, and what it sends. This one stays as it is.
    fn edited(&self, op: TextOp<Tagged>) -> Result<(Self::Edited, Option<Sent<Tagged>>), AllocError>
        requires { conditions.MayEdit (Self.as_state self.now).phase op }
        ensures state { IfOk result (λ given. Self.Edited.as_state given.0 ≡ state.edited (Self.as_state self.now) op) }
        ensures sent { IfOk result (λ given. option_map message_of given.1 ≡ state.message_edited (Self.as_state self.now).revision (Self.as_state self.now).phase op) };
}

impl ClientState for Synchronized {
    ghost use Rattle.ot_client.specs.Values.{synchronized};

    ghost as_state = { synchronized };

    fn into_client(self) -> Client<Tagged> {
        Client::Synchronized(self)
    }

    fn delivered(&self, op: &TextOp<Tagged>) -> Result<(Synchronized, TextOp<Tagged>), AllocError> {
        Ok(self.copy().deliver(op.copy()?))
    }
}

impl EditedState for Synchronized {
    type Edited = AwaitingConfirm<Tagged>;

    fn edited(
        &self,
        op: TextOp<Tagged>,
    ) -> Result<(AwaitingConfirm<Tagged>, Option<Sent<Tagged>>), AllocError> {
        match self.copy().edit(op) {
            Ok((state, sent)) => Ok((state, Some(sent))),
            Err((_state, _op)) => Err(AllocError),
        }
    }
}

impl ClientState for AwaitingConfirm<Tagged> {
    ghost use Rattle.ot_client.specs.Values.{confirming};

    ghost as_state = { confirming };

    fn into_client(self) -> Client<Tagged> {
        Client::AwaitingConfirm(self)
    }

    fn delivered(
        &self,
        op: &TextOp<Tagged>,
    ) -> Result<(AwaitingConfirm<Tagged>, TextOp<Tagged>), AllocError> {
        match self.copy()?.deliver(op.copy()?) {
            Ok(given) => Ok(given),
            Err((_state, _op)) => Err(AllocError),
        }
    }
}

impl EditedState for AwaitingConfirm<Tagged> {
    type Edited = AwaitingWithBuffer<Tagged>;

    fn edited(
        &self,
        op: TextOp<Tagged>,
    ) -> Result<(AwaitingWithBuffer<Tagged>, Option<Sent<Tagged>>), AllocError> {
        let state = self.copy()?;
        Ok((state.edit(op), None))
    }
}

impl ClientState for AwaitingWithBuffer<Tagged> {
    ghost use Rattle.ot_client.specs.Values.{buffering};

    ghost as_state = { buffering };

    fn into_client(self) -> Client<Tagged> {
        Client::AwaitingWithBuffer(self)
    }

    fn delivered(
        &self,
        op: &TextOp<Tagged>,
    ) -> Result<(AwaitingWithBuffer<Tagged>, TextOp<Tagged>), AllocError> {
        match self.copy()?.deliver(op.copy()?) {
            Ok(given) => Ok(given),
            Err((_state, _op)) => Err(AllocError),
        }
    }
}

impl EditedState for AwaitingWithBuffer<Tagged> {
    type Edited = AwaitingWithBuffer<Tagged>;

    fn edited(
        &self,
        op: TextOp<Tagged>,
    ) -> Result<(AwaitingWithBuffer<Tagged>, Option<Sent<Tagged>>), AllocError> {
        match self.copy()?.edit(op) {
            Ok(state) => Ok((state, None)),
            Err((_state, _op)) => Err(AllocError),
        }
    }
}
