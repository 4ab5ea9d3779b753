//! The lines of a run as JSON.

ghost use Rattle.std.specs.Prelude.{◌≡◌, ◌<◌, ◌++◌, true, length, IfOk, OnOk, string_bytes};
ghost use Rattle.ot_machine.specs.Readers.{ClientHas};
ghost use Rattle.ot_report.specs.Authors.{author_in};
ghost use Rattle.ot_report.specs.Printed.{IsEndText};
ghost use Rattle.ot_report.specs.RunJson as json;

use crate::authors::Authors;
use crate::spans::by_json;
use ot_isa::Tagged;
use ot_machine::Machine;
use ot_model::{Reader, Refusal};
use ot_text::Doc;
use ot_values::{phase_name, push_quoted, refusal_name};
use std::alloc::{AllocError, Global};

// The document's member. If memory runs out, the text holds a part of it.
fn push_document(alloc: Global, text: &mut String, list: &Doc<Tagged>) -> Result<(), AllocError>
    ensures { OnOk result (string_bytes text.new ≡ string_bytes text.old ++ json.document_json list.now) }
{
    text.push_str(",\"document\":")?;
    push_quoted(alloc, text, list)
}

// Who reads.
fn reader_json(alloc: Global, who: Reader) -> Result<String, AllocError>
    ensures { IfOk result (λ s. string_bytes s ≡ json.reader_json who) }
{
    match who {
        Reader::Client(client) => format!(in alloc; "{{\"do\":\"read\",\"client\":{client}"),
        Reader::Server => String::from_str(alloc, "{\"do\":\"read-server\""),
    }
}

/// Adds the line of a read of this list, whose characters have these authors. If memory runs out, the text holds a part of it.
pub(crate) fn push_read_json(
    alloc: Global,
    authors: &Authors,
    text: &mut String,
    who: Reader,
    list: &Doc<Tagged>,
) -> Result<(), AllocError>
    ensures { OnOk result (string_bytes text.new ≡ string_bytes text.old ++ json.read_json (author_in authors.now) (record { who = who; list = list.now })) }
{
    let reader = reader_json(alloc, who)?;
    text.push_str(reader.as_str())?;
    push_document(alloc, text, list)?;
    let by = by_json(alloc, authors, list)?;
    text.push_str(by.as_str())?;
    text.push_str("}\n")
}

/// The line of a stop before the instruction at this place.
pub(crate) fn stop_json(alloc: Global, place: usize, refusal: Refusal) -> Result<String, AllocError>
    ensures { IfOk result (λ s. string_bytes s ≡ json.stop_json place refusal) }
{
    let name = refusal_name(refusal);
    format!(in alloc; "{{\"at\":{place},\"stopped\":\"{name}\"}}\n")
}

// The line of a client, of its parts.
fn client_parts(
    alloc: Global,
    client: u16,
    revision: u32,
    phase: &str,
    list: &Doc<Tagged>,
) -> Result<String, AllocError>
    ensures { IfOk result (λ s. string_bytes s ≡ json.client_parts client revision phase.now list.now) }
{
    let mut text = format!(in alloc;
        "{{\"client\":{client},\"revision\":{revision},\"state\":\"{phase}\""
    )?;
    push_document(alloc, &mut text, list)?;
    text.push_str("}\n")?;
    Ok(text)
}

// The line of one client.
fn client_json(alloc: Global, machine: &Machine, client: u16) -> Result<String, AllocError>
    requires { client < length machine.now.clients }
    ensures { IfOk result (λ s. ClientHas machine.now client (json.client_json client) (string_bytes s)) }
{
    let phase = phase_name(machine.phase(client));
    let revision = machine.revision(client);
    client_parts(alloc, client, revision, phase, machine.document(client))
}

// The lines of the clients, in order.
fn clients_json(alloc: Global, machine: &Machine) -> Result<String, AllocError>
    ensures { IfOk result (λ s. string_bytes s ≡ json.clients_json 0 machine.now.clients) }
{
    let mut text = String::new(alloc);
    for client in 0..machine.clients() {
        let line = client_json(alloc, machine, client)?;
        text.push_str(line.as_str())?;
    }
    Ok(text)
}

// The line of the server, of its parts.
fn server_parts(alloc: Global, revision: usize, list: &Doc<Tagged>) -> Result<String, AllocError>
    ensures { IfOk result (λ s. string_bytes s ≡ json.server_parts revision list.now) }
{
    let mut text = format!(in alloc; "{{\"client\":null,\"revision\":{revision}")?;
    push_document(alloc, &mut text, list)?;
    text.push_str("}\n")?;
    Ok(text)
}

// The last line.
fn quiet_json(quiet: bool) -> &'static str
    ensures { result.now ≡ json.quiet_json quiet }
{
    if quiet {
        "{\"end\":\"quiet\"}\n"
    } else {
        "{\"end\":\"not quiet\"}\n"
    }
}

/// The lines of the state: each client in order, then the server, then whether all is quiet.
pub(crate) fn end_json(alloc: Global, machine: &Machine) -> Result<String, AllocError>
    ensures { IfOk result (λ s. IsEndText true machine.now (string_bytes s)) }
{
    let mut text = clients_json(alloc, machine)?;
    let server = server_parts(alloc, machine.server_revision(), machine.server_document())?;
    text.push_str(server.as_str())?;
    text.push_str(quiet_json(machine.is_quiet()))?;
    Ok(text)
}
