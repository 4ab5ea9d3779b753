//! The rows of the table, and the instructions that they perform.

ghost use Rattle.std.specs.Prelude.{◌≡◌, ◌≢◌, ◌<◌, ◌≤◌, IfErr, IfOk, IfSome, IsFalse, IsSome, IsSomeAnd, IsTrue, None, OnErr, OnOk, Option};
ghost use Rattle.std.specs.Option.{option_map};
ghost use Rattle.ot_isa.specs.declared.instruction.Instr.TheVariants.{Acknowledge, Deliver, Edit, Join, Take};
ghost use Rattle.ot_model.specs.declared.shown.Refusal.TheVariants.{Memory, StepsFull};
ghost use Rattle.ot_model.specs.declared.shown.Shown.{Shown as Shows};
ghost use Rattle.ot_model.specs.Table.{step, Performed, Refused, State};
ghost use Rattle.ot_machine.specs.Answers.{IsPerformed, IsRefusal};
ghost use Rattle.ot_machine.specs.Common.{IsDelivered};
ghost use Rattle.ot_machine.specs.Effects.{is_join, read_by, reader_of, shown_by, IsEffect, IsReady, IsThere};
ghost use Rattle.ot_machine.specs.Undoing.{Undoes};

use crate::effect::{Applied, Effect};
use crate::machine::{INSERTED_LIMIT, Machine, STEP_LIMIT};
use crate::seat;
use crate::undo::{Record, Undo};
use ot_isa::{Instr, Tagged, tagged};
use ot_model::{Reader, Refusal, Shown};
use ot_text::{Doc, TextOp};

// A client joins.
fn is_join(instr: &Instr) -> bool
    ensures { result ≡ is_join instr.now }
{
    matches!(instr, Instr::Join(_))
}

impl Machine {
    // A step is left.
    fn check_steps(&self) -> Result<(), Refusal>
        ensures left { OnOk result (self.now.steps < STEP_LIMIT) }
        ensures full { IfErr result (λ r. (r ≡ StepsFull) × (STEP_LIMIT ≤ self.now.steps)) }
    {
        if self.steps >= STEP_LIMIT {
            return Err(Refusal::StepsFull);
        }
        Ok(())
    }

    // What the table asks before any row, in order: that the client is there, that a step is left, and that the client has joined, or for a Join that it has not.
    pub(crate) fn check(&self, instr: &Instr) -> Result<(), Refusal>
        ensures ready { OnOk result (IsReady self.now instr.now) }
        ensures refused { IfErr result (λ r. step self.now instr.now ≡ Refused r) }
        ensures memory { IfErr result (λ r. r ≢ Memory) }
    {
        let Some(client) = instr.client() else {
            return self.check_steps();
        };
        let Some(seat) = self.seats.get(client as usize) else {
            return Err(Refusal::NoSuchClient);
        };
        self.check_steps()?;
        let joined = seat.client.is_some();
        if joined != is_join(instr) {
            return Ok(());
        }
        if joined {
            return Err(Refusal::AlreadyJoined);
        }
        Err(Refusal::NotJoined)
    }

    // The rows. Where a step is `KEPT` its undo record is made before anything is changed.

    // The client's own edit: tagged, applied to its list, and sent or kept in its buffer.
    fn edit<const KEPT: bool>(&mut self, client: u16, op: &TextOp<char>) -> Result<Effect, Refusal>
        requires { IsReady self.old (Edit client op.now) }
        ensures effect { IfOk result (IsEffect self.old (Edit client op.now) self.new) }
        ensures undo { IsTrue KEPT → IfOk result (λ effect. IsSomeAnd effect.undo (Undoes self.old self.new)) }
        ensures none { IsFalse KEPT → IfOk result (λ effect. effect.undo ≡ None) }
        ensures refused { IfErr result (λ r. IsRefusal (step self.old (Edit client op.now)) r) }
        ensures unchanged { OnErr result (self.new ≡ self.old) }
    {
        let seat = &mut self.seats[client as usize];
        if op.base_len() != seat.list.len() {
            return Err(Refusal::BadBase);
        }
        if seat.count as usize + op.inserted() > INSERTED_LIMIT {
            return Err(Refusal::ClientFull);
        }
        let op = tagged(op.allocator(), op, client, seat.count)?;
        let sent = seat::is_synchronized(seat);
        let before = seat::edit::<KEPT>(seat, &op)?;
        self.steps += 1;
        let effect = Effect::undone_by(Undo::of::<KEPT>(Record::ClientStep(client, before)));
        Ok(Effect { sent, ..effect })
    }

    // The server receives what is under way from the client, and notifies all joined clients.
    fn take<const KEPT: bool>(&mut self, client: u16) -> Result<Effect, Refusal>
        requires { IsReady self.old (Take client) }
        ensures effect { IfOk result (IsEffect self.old (Take client) self.new) }
        ensures undo { IsTrue KEPT → IfOk result (λ effect. IsSomeAnd effect.undo (Undoes self.old self.new)) }
        ensures none { IsFalse KEPT → IfOk result (λ effect. effect.undo ≡ None) }
        ensures refused { IfErr result (λ r. IsRefusal (step self.old (Take client)) r) }
        ensures unchanged { OnErr result (self.new ≡ self.old) }
    {
        if self.seats[client as usize].up.is_empty() {
            return Err(Refusal::LinkEmpty);
        }
        let taken = seat::take_in::<KEPT>(&mut self.server, &mut self.seats, client)?;
        self.steps += 1;
        let (message, inverse) = taken;
        Ok(Effect::undone_by(Undo::of_take(client, message, inverse)))
    }

    // The client takes another's operation from the front of its downlink. The list that this makes may be given: it takes the place of the client's own, which is not
    // changed then.
    fn deliver<const KEPT: bool>(
        &mut self,
        client: u16,
        common: &mut Option<Doc<Tagged>>,
    ) -> Result<Effect, Refusal>
        requires ready { IsReady self.old (Deliver client) }
        requires common { IfSome common.old (IsDelivered self.old client) }
        ensures effect { IfOk result (IsEffect self.old (Deliver client) self.new) }
        ensures undo { IsTrue KEPT → IfOk result (λ effect. IsSomeAnd effect.undo (Undoes self.old self.new)) }
        ensures none { IsFalse KEPT → IfOk result (λ effect. effect.undo ≡ None) }
        ensures refused { IfErr result (λ r. IsRefusal (step self.old (Deliver client)) r) }
        ensures unchanged { OnErr result (self.new ≡ self.old) }
    {
        let seat = &mut self.seats[client as usize];
        let Some(entry) = seat::head(&self.server, seat) else {
            return Err(Refusal::LinkEmpty);
        };
        if entry.maker() == client {
            return Err(Refusal::WrongHead);
        }
        let (before, applied) = seat::deliver::<KEPT>(seat, entry.operation(), common)?;
        self.steps += 1;
        let effect = Effect::undone_by(Undo::of::<KEPT>(Record::ClientStep(client, before)));
        Ok(Effect { applied, ..effect })
    }

    // The client takes the confirmation of its own operation from the front of its downlink.
    fn acknowledge<const KEPT: bool>(&mut self, client: u16) -> Result<Effect, Refusal>
        requires { IsReady self.old (Acknowledge client) }
        ensures effect { IfOk result (IsEffect self.old (Acknowledge client) self.new) }
        ensures undo { IsTrue KEPT → IfOk result (λ effect. IsSomeAnd effect.undo (Undoes self.old self.new)) }
        ensures none { IsFalse KEPT → IfOk result (λ effect. effect.undo ≡ None) }
        ensures refused { IfErr result (λ r. IsRefusal (step self.old (Acknowledge client)) r) }
        ensures unchanged { OnErr result (self.new ≡ self.old) }
    {
        let seat = &mut self.seats[client as usize];
        let Some(entry) = seat::head(&self.server, seat) else {
            return Err(Refusal::LinkEmpty);
        };
        if entry.maker() != client {
            return Err(Refusal::WrongHead);
        }
        let sent = seat::has_buffer(seat);
        let before = seat::acknowledge(seat)?;
        self.steps += 1;
        let effect = Effect::undone_by(Undo::of::<KEPT>(Record::ClientStep(client, before)));
        Ok(Effect { sent, ..effect })
    }

    // The client gets the server's list and revision.
    fn join<const KEPT: bool>(&mut self, client: u16) -> Result<Effect, Refusal>
        requires { IsReady self.old (Join client) }
        ensures effect { IfOk result (IsEffect self.old (Join client) self.new) }
        ensures undo { IsTrue KEPT → IfOk result (λ effect. IsSomeAnd effect.undo (Undoes self.old self.new)) }
        ensures none { IsFalse KEPT → IfOk result (λ effect. effect.undo ≡ None) }
        ensures refused { IfErr result (λ r. IsRefusal (step self.old (Join client)) r) }
        ensures unchanged { OnErr result (self.new ≡ self.old) }
    {
        let revision = self.server.revision() as u32;
        let seat = &mut self.seats[client as usize];
        seat::join(seat, revision, self.server.document())?;
        self.steps += 1;
        Ok(Effect::undone_by(Undo::of::<KEPT>(Record::Joined(client))))
    }

    // A list is shown: a read only counts.
    fn read<const KEPT: bool>(&mut self, who: Reader) -> Effect
        requires { IsReady self.old (read_by who) }
        ensures effect { IsEffect self.old (read_by who) self.new result }
        ensures undo { IsTrue KEPT → IsSomeAnd result.undo (Undoes self.old self.new) }
        ensures none { IsFalse KEPT → result.undo ≡ None }
        ensures there { IsThere self.new who }
    {
        self.steps += 1;
        let effect = Effect::undone_by(Undo::of::<KEPT>(Record::Read));
        Effect {
            shown: Some(who),
            ..effect
        }
    }

    /// Performs the instruction, or refuses it and changes nothing. It gives what the instruction did, and its undo record where it is `KEPT`: for [`Machine::undo`], on the
    /// machine as it is then. A read takes no memory: its list stands in the machine, and [`Machine::document_of`] shows it without a copy.
    ///
    /// The refusals are those of [`Machine::step`]; `Memory` is none of a read's.
    pub fn perform<const KEPT: bool>(&mut self, instr: &Instr) -> Result<Effect, Refusal>
        ensures effect { IfOk result (IsEffect self.old instr.now self.new) }
        ensures there { IfOk result (λ effect. IfSome effect.shown (IsThere self.new)) }
        ensures undo { IsTrue KEPT → IfOk result (λ effect. IsSomeAnd effect.undo (Undoes self.old self.new)) }
        ensures none { IsFalse KEPT → IfOk result (λ effect. effect.undo ≡ None) }
        ensures refused { IfErr result (λ r. IsRefusal (step self.old instr.now) r) }
        ensures memory { IfErr result (λ r. r ≡ Memory → reader_of instr.now ≡ None) }
        ensures unchanged { OnErr result (self.new ≡ self.old) }
    {
        self.check(instr)?;
        match instr {
            Instr::Edit(client, op) => self.edit::<KEPT>(*client, op),
            Instr::Take(client) => self.take::<KEPT>(*client),
            Instr::Deliver(client) => {
                let mut common = self.common_list(*client);
                self.deliver::<KEPT>(*client, &mut common)
            }
            Instr::Acknowledge(client) => self.acknowledge::<KEPT>(*client),
            Instr::Join(client) => self.join::<KEPT>(*client),
            Instr::Read(client) => Ok(self.read::<KEPT>(Reader::Client(*client))),
            Instr::ReadServer => Ok(self.read::<KEPT>(Reader::Server)),
        }
    }

    /// A copy of the list that the instruction shows, where it is a read and the table performs it. The machine stays what it is; the refusals are those of `step`, of a read
    /// alone.
    pub fn shown(&self, instr: &Instr) -> Result<Option<Shown>, Refusal>
        ensures shown { IfOk result (λ shown. (t : State) (list : Option Shows) → step self.now instr.now ≡ Performed t list → list ≡ shown) }
        ensures read { IfOk result (λ shown. shown ≡ option_map (shown_by self.now) (reader_of instr.now)) }
        ensures performs { IfOk result (λ shown. IsSome shown → IsPerformed (step self.now instr.now)) }
        ensures refused { IfErr result (λ r. IsRefusal (step self.now instr.now) r) }
    {
        let who = match instr {
            Instr::Read(client) => Reader::Client(*client),
            Instr::ReadServer => Reader::Server,
            _ => return Ok(None),
        };
        self.check(instr)?;
        let list = self.document_of(who).copy()?;
        Ok(Some(Shown { who, list }))
    }

    /// Performs the instruction, and gives the list that a read shows; or refuses it and changes nothing.
    ///
    /// The refusals, in the order in which they are looked for: `NoSuchClient`; `StepsFull` after
    /// 1,000,000 performed instructions; `NotJoined`, for a Join `AlreadyJoined`; for an Edit `BadBase`
    /// where its base is not the length of the client's list, and `ClientFull` where the client's
    /// inserted characters would pass 15,000; for Take, Deliver and Acknowledge `LinkEmpty`; for Deliver
    /// `WrongHead` where an acknowledgement is at the head, for Acknowledge where an operation is;
    /// and `Memory`, where the instruction would be performed and a growth was refused.
    ///
    /// The rows are those of ot.js' `Client` (`applyClient`, `applyServer`, `serverAck`) and `Server` (`receiveOperation`).
    pub fn step(&mut self, instr: &Instr) -> Result<Option<Shown>, Refusal>
        ensures done { IfOk result (λ shown. step self.old instr.now ≡ Performed self.new shown) }
        ensures refused { IfErr result (λ r. IsRefusal (step self.old instr.now) r) }
        ensures unchanged { OnErr result (self.new ≡ self.old) }
    {
        let shown = self.shown(instr)?;
        self.perform::<false>(instr)?;
        Ok(shown)
    }

    /// Performs the instruction as `step` does, and gives its undo record too: for `undo`, on the machine as it is then.
    /// The refusals are those of `step`; the record is made before anything is changed, so that after `Memory` too nothing has changed.
    pub fn step_kept(&mut self, instr: &Instr) -> Result<(Option<Shown>, Undo), Refusal>
        ensures done { IfOk result (λ given. step self.old instr.now ≡ Performed self.new given.0) }
        ensures refused { IfErr result (λ r. IsRefusal (step self.old instr.now) r) }
        ensures unchanged { OnErr result (self.new ≡ self.old) }
        ensures undo { IfOk result (λ given. Undoes self.old self.new given.1) }
    {
        let shown = self.shown(instr)?;
        let effect = self.perform::<true>(instr)?;
        let Some(undo) = effect.into_undo() else {
            unreachable!()
        };
        Ok((shown, undo))
    }
}
