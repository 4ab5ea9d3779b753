//! Typed sessions: a client off the machine, and the steps that it makes there.

ghost use Rattle.std.specs.Prelude.{◌≡◌, ◌≢◌, ◌≤◌, suc, length, None, Some, IfErr, IfOk, IfNone, IfSome};
ghost use Rattle.ot_isa.specs.declared.instruction.Instr.TheVariants.{Acknowledge, Deliver, Edit, Read};
ghost use Rattle.ot_model.specs.Session.{IsAllowed, IsSoundPart, or_else};
ghost use Rattle.ot_machine.specs.Parts.{part_in};
ghost use Rattle.std.specs.Prelude.{[], vec_capacity};
ghost use Rattle.ot_model.specs.Table as table;
ghost use Rattle.ot_model.specs.Table.{Ack, Op, against_pending, message_edited, phase_delivered, phase_edited, phase_in, tag_operation};
ghost use Rattle.ot_client.specs.Client.{message_of};
ghost use Rattle.std.specs.Option.{option_map};
ghost use Rattle.ot_board.specs.Sessions.{IsEditRefusal, IsNext, IsNextHead, IsStepRefusal, MayEdit, begun, present_part, shown_by};

use crate::refusal::SessionRefusal;
use crate::state::{ClientState, EditedState};
use ot_client::{AwaitingConfirm, AwaitingWithBuffer, Sent, Synchronized};
use ot_isa::{Instr, Tagged, tagged};
use ot_links::Downlink;
use ot_machine::{INSERTED_LIMIT, Message, Part};
pub use ot_model::SESSION_LIMIT;
use ot_text::{Doc, TextOp};
use std::alloc::AllocError;
use std::marker::Model;

/// A client off the board, in the state S.
#[derive(Drop)]
pub struct Session<S: ClientState> {
    start: Part,
    steps: Vec<Instr>,
    state: S,
    list: Doc<Tagged>,
    count: u32,
    incoming: Downlink<Message>,
    sent: Option<Sent<Tagged>>,
}

impl<S: ClientState> Model for Session<S> {
    ghost use Rattle.ot_model.specs.Session.{Session, IsAllowed};

    ghost Value = { Session };

    ghost use Rattle.ot_board.specs.Sessions.{session_in};

    ghost view = { λ s. session_in s.start s.steps.items (S.as_state s.state) s.list s.count s.incoming.items s.sent };

    ghost use Rattle.std.specs.Prelude.{◌≤◌, vec_capacity};
    ghost use Rattle.ot_model.specs.declared.limits.TheConstants.{SESSION_LIMIT};

    ghost invariant = { λ s. IsAllowed (session_in s.start s.steps.items (S.as_state s.state) s.list s.count s.incoming.items s.sent) × (SESSION_LIMIT ≤ vec_capacity s.steps) };
}

impl<S: ClientState> Session<S> {
    /// The client's number.
    pub fn client(&self) -> u16
        ensures { result ≡ self.now.start.number }
    {
        self.start.number
    }

    /// The steps that were made, at most 64.
    pub fn steps(&self) -> &[Instr]
        ensures steps { result.now ≡ self.now.steps }
        ensures allowed { IsAllowed self.now }
    {
        self.steps.as_slice()
    }

    /// The client's state.
    pub fn state(&self) -> &S
        ensures revision { (S.as_state result.now).revision ≡ self.now.now.client.revision }
        ensures phase { phase_in (S.as_state result.now).phase ≡ self.now.now.client.phase }
    {
        &self.state
    }

    /// The client's list.
    pub fn document(&self) -> &Doc<Tagged>
        ensures { result.now ≡ self.now.now.client.list }
    {
        &self.list
    }

    /// How many messages of the session's own part are left.
    pub fn incoming_len(&self) -> usize
        ensures { result ≡ length self.now.now.incoming }
    {
        self.incoming.len()
    }

    // The part that the session began with.
    pub(crate) fn start(&self) -> &Part
        ensures { part_in result.now ≡ self.now.start }
    {
        &self.start
    }

    // Why the edit is not made, other than out of memory.
    fn edit_refusal(&self, op: &TextOp<char>) -> Option<SessionRefusal>
        ensures some { IfSome result (λ r. IsEditRefusal self.now (Edit self.now.start.number op.now) r) }
        ensures none { IfNone result (MayEdit self.now op.now) }
    {
        if op.base_len() != self.list.len() {
            return Some(SessionRefusal::BadBase);
        }
        if self.count as usize + op.inserted() > INSERTED_LIMIT {
            return Some(SessionRefusal::ClientFull);
        }
        if self.steps.len() >= SESSION_LIMIT {
            return Some(SessionRefusal::SessionFull);
        }
        None
    }

    // The next message, where it is another's operation.
    fn next_operation(&self) -> Result<&TextOp<Tagged>, SessionRefusal>
        ensures ok { IfOk result (λ op. IsNextHead self.now (Op op.now)) }
        ensures err { IfErr result (λ r. IsStepRefusal self.now (Deliver self.now.start.number) r) }
        ensures never { self.now.now.client.phase ≡ table.Synchronized → IfErr result (λ r. r ≢ SessionRefusal.WrongHead) }
    {
        if self.steps.len() >= SESSION_LIMIT {
            return Err(SessionRefusal::SessionFull);
        }
        match self.incoming.head() {
            None => Err(SessionRefusal::LinkEmpty),
            Some(Message::Ack) => Err(SessionRefusal::WrongHead),
            Some(Message::Op(op)) => Ok(op),
        }
    }

    // The next message is an acknowledgement.
    fn next_acknowledged(&self) -> Result<(), SessionRefusal>
        ensures ok { IfOk result (λ _. IsNextHead self.now Ack) }
        ensures err { IfErr result (λ r. IsStepRefusal self.now (Acknowledge self.now.start.number) r) }
        ensures never { IfErr result (λ r. r ≢ SessionRefusal.Memory) }
    {
        if self.steps.len() >= SESSION_LIMIT {
            return Err(SessionRefusal::SessionFull);
        }
        match self.incoming.head() {
            None => Err(SessionRefusal::LinkEmpty),
            Some(Message::Ack) => Ok(()),
            Some(Message::Op(_)) => Err(SessionRefusal::WrongHead),
        }
    }

    // The client after the next operation, and what its list is to be changed by.
    fn delivered(&self, op: &TextOp<Tagged>) -> Result<(S, TextOp<Tagged>), AllocError>
        requires { IsNextHead self.now (Op op.now) }
        ensures revision { IfOk result (λ given. (S.as_state given.0).revision ≡ suc self.now.now.client.revision) }
        ensures phase { IfOk result (λ given. phase_in (S.as_state given.0).phase ≡ phase_delivered self.now.now.client.phase op.now) }
        ensures applied { IfOk result (λ given. given.1 ≡ against_pending self.now.now.client.phase op.now) }
        ensures base { IfOk result (λ given. given.1.base ≡ length self.now.now.client.list) }
    {
        self.state.delivered(op)
    }

    /// Takes the next message, another's operation, off the session's own part of the downlink. Refusals in order: `SessionFull`, `LinkEmpty`,
    /// `WrongHead`, `Memory`; the session then comes back as it was. A synchronized client never meets an acknowledgement.
    pub fn deliver(mut self) -> Result<Session<S>, (SessionRefusal, Session<S>)>
        ensures ok { IfOk result (λ next. IsNext self (Deliver self.start.number) None next) }
        ensures refused { IfErr result (λ back. IsStepRefusal self (Deliver self.start.number) back.0) }
        ensures never { self.now.client.phase ≡ table.Synchronized → IfErr result (λ back. back.0 ≢ SessionRefusal.WrongHead) }
        ensures back { IfErr result (λ back. back.1 ≡ self) }
    {
        let given = match self.next_operation() {
            Ok(op) => self.delivered(op),
            Err(refusal) => return Err((refusal, self)),
        };
        let Ok((state, applied)) = given else {
            return Err((SessionRefusal::Memory, self));
        };
        match self.list.change(&applied) {
            Ok(()) => {}
            Err(_) => return Err((SessionRefusal::Memory, self)),
        }
        let _ = self.incoming.pop();
        self.steps.push_reserved(Instr::Deliver(self.start.number));
        self.state = state;
        Ok(self)
    }

    /// Shows the client's list. Refusals in order: `SessionFull`, `Memory`; the session then comes back as it was.
    pub fn read(mut self) -> Result<(Session<S>, Doc<Tagged>), (SessionRefusal, Session<S>)>
        ensures ok { IfOk result (λ given. IsNext self (Read self.start.number) (Some (shown_by self given.1)) given.0) }
        ensures refused { IfErr result (λ back. IsStepRefusal self (Read self.start.number) back.0) }
        ensures back { IfErr result (λ back. back.1 ≡ self) }
    {
        if self.steps.len() >= SESSION_LIMIT {
            return Err((SessionRefusal::SessionFull, self));
        }
        let Ok(list) = self.list.copy() else {
            return Err((SessionRefusal::Memory, self));
        };
        self.steps.push_reserved(Instr::Read(self.start.number));
        Ok((self, list))
    }
}

/// What a session leaves: the part that it began with, the part as it is now, and its steps.
#[derive(Drop)]
pub(crate) struct Remains {
    pub start: Part,
    pub now: Part,
    pub steps: Vec<Instr>,
}

impl<S: ClientState> Session<S> {
    // The session of a client that was copied twice, with room for its steps.
    pub(crate) fn begin(
        start: Part,
        state: S,
        list: Doc<Tagged>,
        count: u32,
        incoming: Downlink<Message>,
        sent: Option<Sent<Tagged>>,
        steps: Vec<Instr>,
    ) -> Session<S>
        requires sound { IsSoundPart (part_in start) }
        requires same { present_part start.number (S.as_state state) list count incoming.items sent ≡ part_in start }
        requires none { steps.items ≡ [] }
        requires room { SESSION_LIMIT ≤ vec_capacity steps }
        ensures { result ≡ begun (part_in start) }
    {
        Session {
            start,
            steps,
            state,
            list,
            count,
            incoming,
            sent,
        }
    }

    // The session taken apart.
    pub(crate) fn into_remains(self) -> Remains
        ensures start { part_in result.start ≡ self.start }
        ensures now { part_in result.now ≡ self.now }
        ensures steps { result.steps.items ≡ self.steps }
        ensures unsent { result.start.sent ≡ None }
        ensures allowed { IsAllowed self }
    {
        let number = self.start.number;
        let now = Part {
            number,
            client: self.state.into_client(),
            list: self.list,
            count: self.count,
            incoming: self.incoming,
            sent: self.sent,
        };
        Remains {
            start: self.start,
            now,
            steps: self.steps,
        }
    }
}

impl<S: ClientState> Session<S> {
    // The steps alone.
    pub(crate) fn into_steps(self) -> Vec<Instr>
        ensures steps { result.items ≡ self.steps }
        ensures allowed { IsAllowed self }
    {
        self.steps
    }
}

impl<S: EditedState> Session<S> {
    // The client after the edit, what it sends, and the edit with its tags.
    fn edited(
        &self,
        op: &TextOp<char>,
    ) -> Result<(S::Edited, Option<Sent<Tagged>>, TextOp<Tagged>), AllocError>
        requires { MayEdit self.now op.now }
        ensures made { IfOk result (λ given. given.2 ≡ tag_operation self.now.start.number self.now.now.client.count op.now) }
        ensures base { IfOk result (λ given. given.2.base ≡ length self.now.now.client.list) }
        ensures revision { IfOk result (λ given. (S.Edited.as_state given.0).revision ≡ self.now.now.client.revision) }
        ensures phase { IfOk result (λ given. phase_in (S.Edited.as_state given.0).phase ≡ phase_edited self.now.now.client.phase given.2) }
        ensures sent { IfOk result (λ given. or_else (option_map message_of given.1) self.now.now.client.message ≡ message_edited self.now.now.client.phase self.now.now.client given.2) }
    {
        let made = tagged(op.allocator(), op, self.start.number, self.count)?;
        let (state, sent) = self.state.edited(made.copy()?)?;
        Ok((state, sent, made))
    }

    /// The user's edit. Refusals in order: `BadBase`, `ClientFull`, `SessionFull`, `Memory`; the session and the edit then come back as they were.
    pub fn edit(
        mut self,
        op: TextOp<char>,
    ) -> Result<Session<S::Edited>, (SessionRefusal, Session<S>, TextOp<char>)>
        ensures ok { IfOk result (λ next. IsNext self (Edit self.start.number op) None next) }
        ensures refused { IfErr result (λ back. IsEditRefusal self (Edit self.start.number op) back.0) }
        ensures back { IfErr result (λ back. (back.1 ≡ self) × (back.2 ≡ op)) }
    {
        if let Some(refusal) = self.edit_refusal(&op) {
            return Err((refusal, self, op));
        }
        let Ok((state, sent, made)) = self.edited(&op) else {
            return Err((SessionRefusal::Memory, self, op));
        };
        match self.list.change(&made) {
            Ok(()) => {}
            Err(_) => return Err((SessionRefusal::Memory, self, op)),
        }
        let number = self.start.number;
        let inserted = op.inserted() as u32;
        let mut steps = self.steps;
        steps.push_reserved(Instr::Edit(number, op));
        Ok(Session {
            start: self.start,
            steps,
            state,
            list: self.list,
            count: self.count + inserted,
            incoming: self.incoming,
            sent: sent.or(self.sent),
        })
    }
}

impl Session<AwaitingConfirm<Tagged>> {
    /// Takes the acknowledgement of what was sent off the session's own part of the downlink: nothing is under way. Refusals in order:
    /// `SessionFull`, `LinkEmpty`, `WrongHead`; the session then comes back as it was. It takes no memory.
    pub fn acknowledge(
        mut self,
    ) -> Result<Session<Synchronized>, (SessionRefusal, Session<AwaitingConfirm<Tagged>>)>
        ensures ok { IfOk result (λ next. IsNext self (Acknowledge self.start.number) None next) }
        ensures refused { IfErr result (λ back. IsStepRefusal self (Acknowledge self.start.number) back.0) }
        ensures never { IfErr result (λ back. back.0 ≢ SessionRefusal.Memory) }
        ensures back { IfErr result (λ back. back.1 ≡ self) }
    {
        match self.next_acknowledged() {
            Ok(()) => {}
            Err(refusal) => return Err((refusal, self)),
        }
        let number = self.start.number;
        let _ = self.incoming.pop();
        let mut steps = self.steps;
        steps.push_reserved(Instr::Acknowledge(number));
        Ok(Session {
            start: self.start,
            steps,
            state: self.state.acknowledge(),
            list: self.list,
            count: self.count,
            incoming: self.incoming,
            sent: self.sent,
        })
    }
}

impl Session<AwaitingWithBuffer<Tagged>> {
    /// Takes the acknowledgement of what was sent off the session's own part of the downlink: the buffer is sent and outstanding from now on.
    /// Refusals in order: `SessionFull`, `LinkEmpty`, `WrongHead`, `Memory`; the session then comes back as it was.
    pub fn acknowledge(
        self,
    ) -> Result<
        Session<AwaitingConfirm<Tagged>>,
        (SessionRefusal, Session<AwaitingWithBuffer<Tagged>>),
    >
        ensures ok { IfOk result (λ next. IsNext self (Acknowledge self.start.number) None next) }
        ensures refused { IfErr result (λ back. IsStepRefusal self (Acknowledge self.start.number) back.0) }
        ensures back { IfErr result (λ back. back.1 ≡ self) }
    {
        match self.next_acknowledged() {
            Ok(()) => {}
            Err(refusal) => return Err((refusal, self)),
        }
        let Ok(copy) = self.state.copy() else {
            return Err((SessionRefusal::Memory, self));
        };
        let Ok((state, sent)) = copy.acknowledge() else {
            return Err((SessionRefusal::Memory, self));
        };
        let number = self.start.number;
        let mut incoming = self.incoming;
        let _ = incoming.pop();
        let mut steps = self.steps;
        steps.push_reserved(Instr::Acknowledge(number));
        Ok(Session {
            start: self.start,
            steps,
            state,
            list: self.list,
            count: self.count,
            incoming,
            sent: Some(sent),
        })
    }
}
