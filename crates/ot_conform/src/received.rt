//! The message that an instruction receives: a take what its client sent, a deliver the operation of the log's entry.

ghost use Rattle.std.specs.Prelude.{◌≡◌, IfOk, option_map};
ghost use Rattle.ot_steps.specs.Held.{value_of};
ghost use Rattle.ot_conform.specs.Received.{IsHeld, received_in, received_value};

use ot_client::Sent;
use ot_isa::{Instr, Tagged};
use ot_machine::{Head, Machine};
use ot_steps::Value;
use std::alloc::AllocError;

/// What an instruction receives.
#[derive(Drop)]
pub enum Received {
    /// Nothing: it is no take and no deliver.
    Nothing,
    /// What its client sent to the server.
    Taken(Sent<Tagged>),
    /// The operation of the log's entry with this number, counted from 0, which its client is delivered.
    Delivered(usize),
}

impl Received {
    /// What the instruction receives where it is performed: the machine is that before it. Out of memory for a copy of what its client sent.
    pub fn of(machine: &Machine, instr: &Instr) -> Result<Received, AllocError>
        ensures { IfOk result (λ received. IsHeld instr.now machine.now received) }
    {
        match instr {
            Instr::Take(client) if *client < machine.clients() => match machine.up(*client) {
                Some(message) => Ok(Received::Taken(message.copy()?)),
                None => Ok(Received::Nothing),
            },
            Instr::Deliver(client) if *client < machine.clients() => {
                match machine.down(*client, 0) {
                    Some(Head::Op(number)) => Ok(Received::Delivered(number)),
                    _ => Ok(Received::Nothing),
                }
            }
            _ => Ok(Received::Nothing),
        }
    }

    /// It as a value, if something is received. The machine is that after the instruction.
    pub(crate) fn value<'a>(&'a self, machine: &'a Machine) -> Option<Value<'a>>
        ensures { option_map value_of result ≡ option_map received_value (received_in machine.now self.now) }
    {
        match self {
            Received::Nothing => None,
            Received::Taken(message) => Some(Value::Message(message)),
            Received::Delivered(number) => {
                Some(Value::Operation(machine.entry(*number)?.operation()))
            }
        }
    }
}
