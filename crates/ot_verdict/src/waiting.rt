//! What has not arrived, client by client.

ghost use Rattle.std.specs.Prelude.{◌≡◌, ◌<◌, ◌++◌, length, IfOk, OnOk};
ghost use Rattle.ot_machine.specs.Effects.{client_in};
ghost use Rattle.ot_model.specs.Table.{downlink};
ghost use Rattle.ot_verdict.specs.Pending.{absent, buffered_by, has_buffer, has_untaken, incoming_to, is_absent, number_if, sent_by, untaken, waiting, waiting_at};

use ot_machine::{Machine, Phase};
use std::alloc::{AllocError, Global};

/// Something of a client that has not arrived.
#[derive(Clone, Copy, Debug, PartialEq, Eq)]
pub enum Waiting {
    /// The client's message is on its way to the server.
    Sent(u16),
    /// The client has edits in its buffer: they are sent when its outstanding operation is acknowledged.
    Buffered(u16),
    /// So many messages are on their way to the client, 1 at least.
    Incoming(u16, usize),
}

/// The client has edits in its buffer.
pub(crate) fn has_buffer(machine: &Machine, client: u16) -> bool
    requires { client < length machine.now.clients }
    ensures { result ≡ has_buffer (client_in machine.now client).phase }
{
    match machine.phase(client) {
        Phase::AwaitingWithBuffer => true,
        Phase::NotJoined | Phase::Synchronized | Phase::AwaitingConfirm => false,
    }
}

// The client has edits that the server has not taken.
fn has_untaken(machine: &Machine, client: u16) -> bool
    requires { client < length machine.now.clients }
    ensures { result ≡ has_untaken (client_in machine.now client) }
{
    if machine.up(client).is_some() {
        return true;
    }
    has_buffer(machine, client)
}

// The client has not joined.
fn is_absent(machine: &Machine, client: u16) -> bool
    requires { client < length machine.now.clients }
    ensures { result ≡ is_absent (client_in machine.now client) }
{
    !machine.joined(client)
}

// Adds the client, if that is asked.
fn push_if(list: &mut Vec<u16>, client: u16, wanted: bool) -> Result<(), AllocError>
    ensures { OnOk result (list.new.items ≡ list.old.items ++ number_if wanted client) }
{
    if wanted {
        list.push(client)?;
    }
    Ok(())
}

/// The clients with edits that the server has not taken, by number: on their way to the server, or in a buffer.
pub(crate) fn untaken(alloc: Global, machine: &Machine) -> Result<Vec<u16>, AllocError>
    ensures { IfOk result (λ list. list.items ≡ untaken machine.now) }
{
    let mut list = Vec::new(alloc);
    for client in 0..machine.clients() {
        push_if(&mut list, client, has_untaken(machine, client))?;
    }
    Ok(list)
}

/// The clients that have not joined, by number.
pub(crate) fn absent(alloc: Global, machine: &Machine) -> Result<Vec<u16>, AllocError>
    ensures { IfOk result (λ list. list.items ≡ absent machine.now) }
{
    let mut list = Vec::new(alloc);
    for client in 0..machine.clients() {
        push_if(&mut list, client, is_absent(machine, client))?;
    }
    Ok(list)
}

// Adds the client's message on its way to the server.
fn push_sent(list: &mut Vec<Waiting>, machine: &Machine, client: u16) -> Result<(), AllocError>
    requires { client < length machine.now.clients }
    ensures { OnOk result (list.new.items ≡ list.old.items ++ sent_by client (client_in machine.now client).message) }
{
    match machine.up(client) {
        None => Ok(()),
        Some(_message) => {
            list.push(Waiting::Sent(client))?;
            Ok(())
        }
    }
}

// Adds the client's buffer.
fn push_buffered(list: &mut Vec<Waiting>, machine: &Machine, client: u16) -> Result<(), AllocError>
    requires { client < length machine.now.clients }
    ensures { OnOk result (list.new.items ≡ list.old.items ++ buffered_by client (client_in machine.now client).phase) }
{
    if has_buffer(machine, client) {
        list.push(Waiting::Buffered(client))?;
    }
    Ok(())
}

// Adds the messages on their way to the client.
fn push_incoming(list: &mut Vec<Waiting>, machine: &Machine, client: u16) -> Result<(), AllocError>
    requires { client < length machine.now.clients }
    ensures { OnOk result (list.new.items ≡ list.old.items ++ incoming_to client (length (downlink machine.now client (client_in machine.now client)))) }
{
    let count = machine.down_len(client);
    if count > 0 {
        list.push(Waiting::Incoming(client, count))?;
    }
    Ok(())
}

// Adds all that has not arrived of the client.
fn push_waiting(list: &mut Vec<Waiting>, machine: &Machine, client: u16) -> Result<(), AllocError>
    requires { client < length machine.now.clients }
    ensures { OnOk result (list.new.items ≡ list.old.items ++ waiting_at machine.now client (client_in machine.now client)) }
{
    push_sent(list, machine, client)?;
    push_buffered(list, machine, client)?;
    push_incoming(list, machine, client)
}

/// All that has not arrived, by client: its message on its way to the server, its buffer, the messages on their way to it.
pub(crate) fn all_waiting(alloc: Global, machine: &Machine) -> Result<Vec<Waiting>, AllocError>
    ensures { IfOk result (λ list. list.items ≡ waiting machine.now) }
{
    let mut list = Vec::new(alloc);
    for client in 0..machine.clients() {
        push_waiting(&mut list, machine, client)?;
    }
    Ok(list)
}
