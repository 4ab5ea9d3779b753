//! Steps with their undo records, and undoing them.

ghost use Rattle.std.specs.Prelude.{◌≡◌, ◌<◌, IfErr, IsFalse, IsTrue, None, OnErr, OnOk, Some};
ghost use Rattle.std.specs.Option.{option_map};
ghost use Rattle.ot_model.specs.Table.{step, State};
ghost use Rattle.ot_machine.specs.declared.undo.Record.TheVariants.{ClientStep, Joined, Read, Taken};
ghost use Rattle.ot_machine.specs.Undoing.{IsRecord, IsUndoable, IsUndoableRecord, Undoes};

use crate::kept::{self, Before};
use crate::machine::Machine;
use crate::seat;
use ot_client::Sent;
use ot_isa::{Instr, Tagged};
use ot_model::{Refusal, Shown};
use ot_text::TextOp;
use std::alloc::AllocError;

/// The undo record of one step of a machine: of the client's state what the step changed, inverse operations and the message taken, but no list.
/// `Machine::step_kept` gives it, `Machine::undo` takes it.
#[derive(Drop)]
pub struct Undo {
    pub(crate) step: Record,
}

/// The kinds of steps: at a client that has joined; a Take, with the message and the inverse of the appended operation; a Join; a read.
#[derive(Drop)]
pub(crate) enum Record {
    ClientStep(u16, Before),
    Taken(u16, Sent<Tagged>, TextOp<Tagged>),
    Joined(u16),
    Read,
}

impl Undo {
    // Of a step, where it is `KEPT`.
    #[inline(always)]
    pub(crate) fn of<const KEPT: bool>(step: Record) -> Option<Undo>
        ensures kept { IsTrue KEPT → result ≡ Some (record { step = step }) }
        ensures none { IsFalse KEPT → result ≡ None }
    {
        if !KEPT {
            return None;
        }
        Some(Undo { step })
    }

    // Of a Take, where the inverse of what was appended is recorded.
    #[inline(always)]
    pub(crate) fn of_take(
        client: u16,
        message: Sent<Tagged>,
        inverse: Option<TextOp<Tagged>>,
    ) -> Option<Undo>
        ensures { result ≡ option_map (λ inverse. record { step = Taken client message inverse }) inverse }
    {
        let step = Record::Taken(client, message, inverse?);
        Some(Undo { step })
    }

    /// About how much it stores, counted in components and elements, 1 at least: those of the inverse, of what it holds of the client's pending
    /// operations, and of the message that a Take took. It goes through no component.
    pub fn size(&self) -> usize
        ensures { 0 < result }
    {
        let stored = match &self.step {
            Record::ClientStep(_, before) => {
                let pending = before.change.size();
                match &before.inverse {
                    Some(inverse) => pending.saturating_add(size_of(inverse)),
                    None => pending,
                }
            }
            Record::Taken(_, message, inverse) => {
                size_of(&message.op).saturating_add(size_of(inverse))
            }
            Record::Joined(_) | Record::Read => 0,
        };
        stored.saturating_add(1)
    }
}

// How many components the operation has, and how many elements it inserts.
fn size_of(op: &TextOp<Tagged>) -> usize {
    op.component_count().saturating_add(op.inserted())
}

impl Machine {
    fn undo_client(&mut self, client: u16, before: Before) -> Result<(), (AllocError, Before)>
        requires { IsUndoableRecord self.old (ClientStep client before) }
        ensures ok { (earlier : State) → IsRecord earlier self.old (ClientStep client before) → OnOk result (self.new ≡ earlier) }
        ensures err { OnErr result (self.new ≡ self.old) }
        ensures back { IfErr result (λ e. e.1 ≡ before) }
    {
        let seat = &mut self.seats[client as usize];
        kept::revert(seat, before)?;
        self.steps -= 1;
        Ok(())
    }

    fn undo_join(&mut self, client: u16) -> Result<(), AllocError>
        requires { IsUndoableRecord self.old (Joined client) }
        ensures ok { (earlier : State) → IsRecord earlier self.old (Joined client) → OnOk result (self.new ≡ earlier) }
        ensures err { OnErr result (self.new ≡ self.old) }
    {
        let vacant = seat::vacant(self.server.document().allocator())?;
        self.seats[client as usize] = vacant;
        self.steps -= 1;
        Ok(())
    }

    fn undo_read(&mut self)
        requires { IsUndoableRecord self.old Read }
        ensures { (earlier : State) → IsRecord earlier self.old Read → self.new ≡ earlier }
    {
        self.steps -= 1;
    }

    fn undo_take(
        &mut self,
        client: u16,
        message: Sent<Tagged>,
        inverse: TextOp<Tagged>,
    ) -> Result<(), (AllocError, Sent<Tagged>, TextOp<Tagged>)>
        requires { IsUndoableRecord self.old (Taken client message inverse) }
        ensures ok { (earlier : State) → IsRecord earlier self.old (Taken client message inverse) → OnOk result (self.new ≡ earlier) }
        ensures err { OnErr result (self.new ≡ self.old) }
        ensures back { IfErr result (λ e. (e.1 ≡ message) × (e.2 ≡ inverse)) }
    {
        if let Err(e) = self.server.retract(&inverse) {
            return Err((e, message, inverse));
        }
        kept::unsend_all(&mut self.seats);
        self.seats[client as usize].up.push(message);
        self.steps -= 1;
        Ok(())
    }

    /// Undoes the last step, whose record `step_kept` gave: the machine is as it was before that step, its number of steps too.
    /// If memory runs out, the machine is as it was, and what was given comes back.
    pub fn undo(&mut self, undo: Undo) -> Result<(), (AllocError, Undo)>
        requires { IsUndoable self.old undo }
        ensures ok { (earlier : State) → Undoes earlier self.old undo → OnOk result (self.new ≡ earlier) }
        ensures unchanged { OnErr result (self.new ≡ self.old) }
        ensures back { IfErr result (λ e. e.1 ≡ undo) }
    {
        match undo.step {
            Record::ClientStep(client, before) => match self.undo_client(client, before) {
                Ok(()) => Ok(()),
                Err((e, before)) => Err((
                    e,
                    Undo {
                        step: Record::ClientStep(client, before),
                    },
                )),
            },
            Record::Taken(client, message, inverse) => {
                match self.undo_take(client, message, inverse) {
                    Ok(()) => Ok(()),
                    Err((e, message, inverse)) => {
                        Err((
                            e,
                            Undo {
                                step: Record::Taken(client, message, inverse),
                            },
                        ))
                    }
                }
            }
            Record::Joined(client) => match self.undo_join(client) {
                Ok(()) => Ok(()),
                Err(e) => Err((
                    e,
                    Undo {
                        step: Record::Joined(client),
                    },
                )),
            },
            Record::Read => {
                self.undo_read();
                Ok(())
            }
        }
    }
}
