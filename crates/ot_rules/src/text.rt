//! The text that an operation of a line applies to.

ghost use Rattle.std.specs.Prelude.{◌≡◌, IfOk};
ghost use Rattle.std.specs.Option.{option_map};
ghost use Rattle.ot_isa.specs.Program.{client_of};
ghost use Rattle.ot_isa.specs.Tagging.{chars_of};
ghost use Rattle.ot_rules.specs.Call.{call_value};
ghost use Rattle.ot_rules.specs.Texts as texts;

use crate::call::{Call, Operation, Pending};
use crate::wrong::first_of;
use ot_isa::{Instr, Schedule, Tagged, start_doc};
use ot_machine::Machine;
use ot_steps::Key;
use ot_text::Doc;
use std::alloc::{AllocError, Global};

fn letters(document: &Doc<Tagged>) -> Result<Vec<char>, AllocError>
    ensures { IfOk result (λ v. v.items ≡ chars_of document.now) }
{
    let items = document.to_vec()?;
    items
        .iter()
        .map(|item| item.ch)
        .collect(document.allocator())
}

// The server's text at a revision; none where an entry of the log does not fit.
fn text_at(
    alloc: Global,
    schedule: &Schedule,
    machine: &Machine,
    revision: usize,
) -> Result<Option<Vec<char>>, AllocError>
    ensures { IfOk result (λ text. option_map texts.letters text ≡ texts.text_at schedule.now.start machine.now.log revision) }
{
    // For the proof: the invariant of every schedule.
    let _limits = schedule.clients();
    let mut list = start_doc(alloc, schedule.start())?;
    for number in 0..revision {
        let Some(entry) = machine.entry(number) else {
            return Ok(Some(letters(&list)?));
        };
        if !entry.operation().fits(&list) {
            return Ok(None);
        }
        list.change(entry.operation())?;
    }
    Ok(Some(letters(&list)?))
}

// How many more entries of the log the client has seen after the call than before it.
fn gained(call: &Call) -> usize
    ensures { result ≡ texts.gained (call_value call.now) }
{
    match call {
        Call::ApplyServer(..) | Call::ServerAck(..) => 1,
        _ => 0,
    }
}

// The server's text at the revision of the instruction's client behind the call.
fn text_behind(
    alloc: Global,
    schedule: &Schedule,
    machine: &Machine,
    instr: &Instr,
    call: &Call,
) -> Result<Option<Vec<char>>, AllocError>
    ensures { IfOk result (λ text. option_map texts.letters text ≡ texts.text_behind schedule.now.start machine.now instr.now (call_value call.now)) }
{
    match instr.client() {
        Some(client) if client < machine.clients() => {
            let revision = machine.revision(client) as usize + gained(call);
            text_at(alloc, schedule, machine, revision)
        }
        _ => Ok(None),
    }
}

// The text of the instruction's client.
fn own_text(machine: &Machine, instr: &Instr) -> Result<Option<Vec<char>>, AllocError>
    ensures { IfOk result (λ text. option_map texts.letters text ≡ texts.own_text machine.now (client_of instr.now)) }
{
    match instr.client() {
        Some(client) if client < machine.clients() => {
            Ok(Some(letters(machine.document(client))?))
        }
        _ => Ok(None),
    }
}

// What is outstanding behind the call, if anything is.
fn outstanding_behind(call: &Call) -> Result<Option<Operation>, AllocError>
    ensures { IfOk result (λ op. op ≡ texts.outstanding_behind (call_value call.now)) }
{
    match call {
        Call::ApplyClient(Pending::Nothing, op)
        | Call::ApplyClient(Pending::Outstanding(op), _)
        | Call::ApplyClient(Pending::Buffered(op, _), _)
        | Call::ServerAck(_, Pending::Buffered(_, op)) => Ok(Some(op.copy()?)),
        Call::ApplyServer(Pending::Outstanding(outstanding), op)
        | Call::ApplyServer(Pending::Buffered(outstanding, _), op) => first_of(outstanding, op),
        _ => Ok(None),
    }
}

// The text that the operation makes of this one, where both are there and it fits.
fn applied(op: Option<Operation>, text: Option<Vec<char>>) -> Result<Option<Vec<char>>, AllocError>
    ensures { IfOk result (λ made. option_map texts.letters made ≡ texts.applied_to op (option_map texts.letters text)) }
{
    let (Some(op), Some(text)) = (op, text) else {
        return Ok(None);
    };
    if op.base_len() != text.len() {
        return Ok(None);
    }
    let mut document = Doc::from_slice(op.allocator(), text.as_slice())?;
    document.change(&op)?;
    Ok(Some(document.to_vec()?))
}

/// The text that the operation under this key applies to, which the line of the instruction has: the machine is as before it, in a run of the
/// schedule, and `call` is what the instruction calls.
pub fn text_for(
    alloc: Global,
    schedule: &Schedule,
    machine: &Machine,
    instr: &Instr,
    call: &Call,
    key: Option<Key>,
) -> Result<Option<Vec<char>>, AllocError>
    ensures { IfOk result (λ text. option_map texts.letters text ≡ texts.text_for schedule.now.start machine.now instr.now (call_value call.now) key) }
{
    match key {
        Some(Key::Edit | Key::Applied) => own_text(machine, instr),
        Some(Key::Outstanding | Key::SentOperation) => {
            text_behind(alloc, schedule, machine, instr, call)
        }
        Some(Key::Buffer) => {
            let outstanding = outstanding_behind(call)?;
            applied(
                outstanding,
                text_behind(alloc, schedule, machine, instr, call)?,
            )
        }
        Some(Key::Appended) => Ok(Some(letters(machine.server_document())?)),
        _ => Ok(None),
    }
}
