//! What a performed instruction did, and what a delivery would apply.

ghost use Rattle.std.specs.Prelude.{◌≡◌, ◌<◌, length, unwrap_or, IfOk, IfSome, None, false};
ghost use Rattle.std.specs.Option.{option_copied};
ghost use Rattle.ot_isa.specs.declared.elements.Tagged.{Tagged as Letter};
ghost use Rattle.ot_model.specs.Operation.{Operation};
ghost use Rattle.ot_machine.specs.declared.effect.Applied.TheVariants.{Nothing};
ghost use Rattle.ot_machine.specs.Effects.{applied_in, delivery_of, IsMadeOf};
ghost use Rattle.ot_machine.specs.Readers.{ClientHas};

use crate::machine::Machine;
use crate::seat;
use crate::undo::Undo;
use ot_isa::Tagged;
use ot_model::Reader;
use ot_text::TextOp;
use std::alloc::AllocError;

/// What a performed instruction did (specs/Effects.antt). `Machine::perform` gives it; what it names stands in the machine after the instruction.
#[derive(Drop)]
pub struct Effect {
    /// Who is read by it; `Machine::document_of` shows the list.
    pub shown: Option<Reader>,
    /// Whether it put a message on its client's link to the server; `Machine::up` shows that.
    pub sent: bool,
    /// What it applied to its client's list by a delivery.
    pub applied: Applied,
    /// Its undo record, where one was asked for.
    pub undo: Option<Undo>,
}

/// What an instruction applied to its client's list by a delivery.
#[derive(Drop)]
pub enum Applied {
    /// The instruction was no delivery.
    Nothing,
    /// The operation of the log's entry with this number, counted from 0, as it stands there: the client had no pending operation.
    Entry(usize),
    /// The entry's operation, transformed against the client's pending operations.
    Transformed(TextOp<Tagged>),
}

impl Effect {
    // Of an instruction that shows no list, sends nothing and delivers nothing.
    #[inline(always)]
    pub(crate) fn undone_by(undo: Option<Undo>) -> Effect
        ensures { result ≡ record { shown = None; sent = false; applied = Nothing; undo = undo } }
    {
        Effect {
            shown: None,
            sent: false,
            applied: Applied::Nothing,
            undo,
        }
    }

    /// Its undo record alone.
    pub fn into_undo(self) -> Option<Undo>
        ensures { result ≡ self.undo }
    {
        self.undo
    }
}

impl Applied {
    // What was transformed, or else the operation of the entry with this number.
    #[inline(always)]
    pub(crate) fn of(number: usize, applied_op: Option<TextOp<Tagged>>) -> Applied
        ensures { (op made : Operation Letter) → unwrap_or applied_op op ≡ made → IsMadeOf number op made result }
    {
        match applied_op {
            Some(op) => Applied::Transformed(op),
            None => Applied::Entry(number),
        }
    }

    /// The operation that was applied. An entry's is lent from the log of this machine, which is the one that performed the delivery; it stands there as
    /// long as the delivery is not undone. A look-up.
    pub fn operation<'a>(&'a self, machine: &'a Machine) -> Option<&'a TextOp<Tagged>>
        ensures { option_copied result ≡ applied_in machine.now self.now }
    {
        match self {
            Applied::Nothing => None,
            Applied::Entry(number) => match machine.entry(*number) {
                Some(entry) => Some(entry.operation()),
                None => None,
            },
            Applied::Transformed(op) => Some(op),
        }
    }
}

impl Machine {
    /// What a delivery to the client would apply to its list: the operation at the head of its downlink, transformed against the client's
    /// pending operations; it fits the list. None where the client has not joined, nothing is on the way to it, or its own operation comes next.
    /// Costs what the delivery does, but for the list; `AllocError` where a growth was refused.
    pub fn delivery(&self, client: u16) -> Result<Option<TextOp<Tagged>>, AllocError>
        requires { client < length self.now.clients }
        ensures value { IfOk result (λ applied. ClientHas self.now client (delivery_of self.now client) applied) }
        ensures fits { IfOk result (λ applied. IfSome applied (λ op. ClientHas self.now client (λ x. length x.list) op.base)) }
    {
        // For the proof: the invariant of every machine.
        let _sound = self.clients();
        let seat = self.seat(client);
        let Some(receiver) = &seat.client else {
            return Ok(None);
        };
        let Some(entry) = seat::head(&self.server, seat) else {
            return Ok(None);
        };
        if entry.maker() == client {
            return Ok(None);
        }
        let op = entry.operation();
        match receiver.against_pending(op)? {
            Some(applied) => Ok(Some(applied)),
            None => Ok(Some(op.copy()?)),
        }
    }
}
