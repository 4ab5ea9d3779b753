//! Whose edit is taken first by what `ot_generate`'s `complete` appends.

ghost use Rattle.std.specs.Prelude.{◌≡◌, ◌<◌, length};
ghost use Rattle.ot_machine.specs.Effects.{client_in};
ghost use Rattle.ot_verdict.specs.First.{buffers, first_taken, first_that, has_message};

use crate::waiting::has_buffer;
use ot_machine::Machine;

// The client's message is on its way to the server.
fn has_message(machine: &Machine, client: u16) -> bool
    requires { client < length machine.now.clients }
    ensures { result ≡ has_message (client_in machine.now client) }
{
    machine.up(client).is_some()
}

// The first client whose message is on its way to the server.
fn first_message(machine: &Machine) -> Option<u16>
    ensures { result ≡ first_that has_message 0 machine.now.clients }
{
    for client in 0..machine.clients() {
        if has_message(machine, client) {
            return Some(client);
        }
    }
    None
}

// The first client with a buffer.
fn first_buffer(machine: &Machine) -> Option<u16>
    ensures { result ≡ first_that buffers 0 machine.now.clients }
{
    for client in 0..machine.clients() {
        if has_buffer(machine, client) {
            return Some(client);
        }
    }
    None
}

/// The first client whose message is on its way to the server; where there is none, the first with a buffer.
pub(crate) fn first_taken(machine: &Machine) -> Option<u16>
    ensures { result ≡ first_taken machine.now }
{
    match first_message(machine) {
        Some(client) => Some(client),
        None => first_buffer(machine),
    }
}
