//! Where a run ends.

ghost use Rattle.std.specs.Prelude.{◌≡◌, ◌<◌, ◌++◌, length, IfOk, OnOk, string_bytes};
ghost use Rattle.ot_machine.specs.Readers.{ClientHas};
ghost use Rattle.ot_report.specs.Printed.{client_line, client_lines, IsEnd, IsEndText};

use crate::lines::{print_client, print_server, quiet_text};
use crate::run_json::end_json;
use ot_machine::Machine;
use ot_values::phase_name;
use std::alloc::{AllocError, Global};

// The line of one client.
fn client_line(alloc: Global, machine: &Machine, client: u16) -> Result<String, AllocError>
    requires { client < length machine.now.clients }
    ensures { IfOk result (λ s. ClientHas machine.now client (client_line client) (string_bytes s)) }
{
    let phase = phase_name(machine.phase(client));
    let revision = machine.revision(client);
    print_client(alloc, client, revision, phase, machine.document(client))
}

// The lines of the clients, in order.
fn clients_text(alloc: Global, machine: &Machine) -> Result<String, AllocError>
    ensures { IfOk result (λ s. string_bytes s ≡ client_lines 0 machine.now.clients) }
{
    let mut text = String::new(alloc);
    for client in 0..machine.clients() {
        let line = client_line(alloc, machine, client)?;
        text.push_str(line.as_str())?;
    }
    Ok(text)
}

/// The lines of the state: each client in order, then the server, then `quiet` or `not quiet`.
pub fn print_end(alloc: Global, machine: &Machine) -> Result<String, AllocError>
    ensures { IfOk result (λ s. IsEnd machine.now (string_bytes s)) }
{
    let mut text = clients_text(alloc, machine)?;
    let server = print_server(alloc, machine.server_revision(), machine.server_document())?;
    text.push_str(server.as_str())?;
    text.push_str(quiet_text(machine.is_quiet()))?;
    Ok(text)
}

/// The lines of the state, in words or as JSON.
pub(crate) fn end_text(alloc: Global, json: bool, machine: &Machine) -> Result<String, AllocError>
    ensures { IfOk result (λ s. IsEndText json machine.now (string_bytes s)) }
{
    if json {
        end_json(alloc, machine)
    } else {
        print_end(alloc, machine)
    }
}
