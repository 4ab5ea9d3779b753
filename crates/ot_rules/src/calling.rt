//! Which call an instruction is.

ghost use Rattle.std.specs.Prelude.{◌≡◌, ◌<◌, drop, length, map, IfOk};
ghost use Rattle.std.specs.Option.{option_map};
ghost use Rattle.ot_machine.specs.Effects.{client_in};
ghost use Rattle.ot_rules.specs.Call.{call_value};
ghost use Rattle.ot_rules.specs.Calling as calling;
ghost use Rattle.ot_rules.specs.Calling.{entry_operation, takes, pending_in};

use crate::call::{Call, Operation, Pending};
use ot_client::Client;
use ot_isa::Instr;
use ot_machine::Machine;
use ot_steps::plain_operation;
use std::alloc::{AllocError, Global};

// The pending operations of the client, who is there; none where it has not joined.
fn pending(alloc: Global, machine: &Machine, client: u16) -> Result<Option<Pending>, AllocError>
    requires { client < length machine.now.clients }
    ensures { IfOk result (λ w. w ≡ pending_in (client_in machine.now client).phase) }
{
    if !machine.joined(client) {
        return Ok(None);
    }
    Ok(Some(match machine.client(client) {
        Client::Synchronized(_) => Pending::Nothing,
        Client::AwaitingConfirm(client) => {
            Pending::Outstanding(plain_operation(alloc, client.outstanding())?)
        }
        Client::AwaitingWithBuffer(client) => {
            let outstanding = plain_operation(alloc, client.outstanding())?;
            Pending::Buffered(outstanding, plain_operation(alloc, client.buffer())?)
        }
    }))
}

// The operations of the log from a revision on.
fn concurrent(alloc: Global, machine: &Machine, from: u32) -> Result<Vec<Operation>, AllocError>
    ensures { IfOk result (λ ops. ops.items ≡ map entry_operation (drop from machine.now.log)) }
{
    let mut operations = Vec::new(alloc);
    for number in from as usize..machine.server_revision() {
        let Some(entry) = machine.entry(number) else {
            unreachable!()
        };
        operations.push(plain_operation(alloc, entry.operation())?)?;
    }
    Ok(operations)
}

// The server takes the client's message, where there is one.
fn taking(alloc: Global, machine: &Machine, client: u16) -> Result<Option<Call>, AllocError>
    requires { client < length machine.now.clients }
    ensures { IfOk result (λ call. option_map call_value call ≡ takes machine.now.log (client_in machine.now client).message) }
{
    let Some(message) = machine.up(client) else {
        return Ok(None);
    };
    let operation = plain_operation(alloc, &message.op)?;
    let concurrent = concurrent(alloc, machine, message.revision)?;
    Ok(Some(Call::ReceiveOperation(message.revision, operation, concurrent)))
}

/// The call of ot.js that the instruction is, where it is performed in this state: an edit, a take, a deliver or an ack. None for a join
/// and the reads. What it is given is copied, as it is before the call; `Err` is out of memory.
pub fn call_of(alloc: Global, machine: &Machine, instr: &Instr) -> Result<Option<Call>, AllocError>
    ensures { IfOk result (λ call. option_map call_value call ≡ calling.call_of machine.now instr.now) }
{
    let Some(client) = instr.client() else {
        return Ok(None);
    };
    if client >= machine.clients() {
        return Ok(None);
    }
    let revision = machine.revision(client);
    match (instr, pending(alloc, machine, client)?) {
        (Instr::Take(_), _) => taking(alloc, machine, client),
        (Instr::Edit(_, op), Some(pending)) => Ok(Some(Call::ApplyClient(pending, op.copy()?))),
        (Instr::Deliver(_), Some(pending)) => match machine.entry(revision as usize) {
            Some(entry) => {
                let operation = plain_operation(alloc, entry.operation())?;
                Ok(Some(Call::ApplyServer(pending, operation)))
            }
            None => Ok(None),
        },
        (Instr::Acknowledge(_), Some(Pending::Nothing)) => Ok(None),
        (Instr::Acknowledge(_), Some(pending)) => Ok(Some(Call::ServerAck(revision, pending))),
        _ => Ok(None),
    }
}
