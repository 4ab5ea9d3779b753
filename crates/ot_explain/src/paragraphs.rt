//! The paragraph of an instruction: its line, what the state before it says, what it applied, and what the state after it says. If memory runs out, the text holds a
//! part of it.

ghost use Rattle.std.specs.Prelude.{◌≡◌, ◌++◌, ◌<◌, length, IfErr, IfOk, OnErr, OnOk, string_bytes};
ghost use Rattle.ot_isa.specs.Program.{IsForClients};
ghost use Rattle.ot_machine.specs.Answers.{IsRefusal};
ghost use Rattle.ot_model.specs.Runs.{opening_of};
ghost use Rattle.ot_model.specs.Table as table;
ghost use Rattle.ot_steps.specs.Held.{operations};
ghost use Rattle.ot_machine.specs.Effects.{client_in};
ghost use Rattle.ot_explain.specs.Told as told;
ghost use Rattle.ot_explain.specs.Told.{acknowledge_words, against_log, appended_words, client_words, deliver_words, edit_goes, edit_words, heading, opening_words, take_words, user_words};
ghost use Rattle.ot_explain.specs.Explained.{IsMove, line_at};

use crate::values::{push_document, push_edit, push_entry, push_list, push_operation, push_with};
use ot_isa::{Instr, Schedule, Tagged};
use ot_machine::{Machine, Phase, Refusal};
use ot_steps::{buffer, last_operation, outstanding, word};
use ot_text::TextOp;
use std::alloc::{AllocError, Global};

/// The line of an instruction.
pub(crate) fn line_at(lines: &[u64], number: usize) -> u64
    ensures { result ≡ line_at lines.now number }
{
    match lines.get(number) {
        Some(line) => *line,
        None => 0,
    }
}

/// Adds which instruction it is, and where it stands.
pub(crate) fn push_heading(
    text: &mut String,
    lines: &[u64],
    number: usize,
    instr: &Instr,
) -> Result<(), AllocError>
    ensures { OnOk result (string_bytes text.new ≡ string_bytes text.old ++ heading (line_at lines.now number) number instr.now) }
{
    let line = line_at(lines, number);
    write!(text, "line {line}, instruction ")?;
    write!(text, "{number}: ")?;
    text.push_str(word(instr))?;
    match instr.client() {
        Some(client) => write!(text, " {client}\n"),
        None => text.push_str("\n"),
    }
}

/// Adds an edit of a client's user, up to where it goes.
pub(crate) fn push_user(text: &mut String, client: u16, op: &TextOp<char>) -> Result<(), AllocError>
    ensures { OnOk result (string_bytes text.new ≡ string_bytes text.old ++ user_words client op.now) }
{
    write!(text, "  the user of client {client} edits ")?;
    push_edit(text, op)
}

// Where an edit goes.
fn push_goes(text: &mut String, revision: u32, phase: Phase) -> Result<(), AllocError>
    ensures { OnOk result (string_bytes text.new ≡ string_bytes text.old ++ edit_goes revision phase) }
{
    match phase {
        Phase::NotJoined => text.push_str("\n"),
        Phase::Synchronized => write!(text, "; it is sent at revision {revision}\n"),
        Phase::AwaitingConfirm => text.push_str("; it becomes the buffer\n"),
        Phase::AwaitingWithBuffer => text.push_str("; it is composed into the buffer\n"),
    }
}

fn push_edited(
    text: &mut String,
    machine: &Machine,
    client: u16,
    op: &TextOp<char>,
) -> Result<(), AllocError>
    requires { client < length machine.now.clients }
    ensures { OnOk result (string_bytes text.new ≡ string_bytes text.old ++ edit_words client op.now (client_in machine.now client)) }
{
    push_user(text, client, op)?;
    push_goes(text, machine.revision(client), machine.phase(client))
}

// How many operations of the log a message is transformed against.
fn push_against_log(text: &mut String, count: usize) -> Result<(), AllocError>
    ensures { OnOk result (string_bytes text.new ≡ string_bytes text.old ++ against_log count) }
{
    match count {
        0 => text.push_str(","),
        1 => text.push_str(", transforms it against 1 operation of the log"),
        _ => write!(
            text,
            ", transforms it against {count} operations of the log"
        ),
    }
}

// The message that the server takes, if there is one.
fn push_taken(text: &mut String, machine: &Machine, client: u16) -> Result<(), AllocError>
    requires { client < length machine.now.clients }
    ensures { OnOk result (string_bytes text.new ≡ string_bytes text.old ++ take_words client (length machine.now.log) (client_in machine.now client).message) }
{
    let Some(message) = machine.up(client) else {
        return text.push_str("  the server takes nothing");
    };
    let revision = message.revision;
    write!(
        text,
        "  the server takes client {client}'s message of revision "
    )?;
    write!(text, "{revision}, ")?;
    push_operation(text, &message.op)?;
    push_against_log(
        text,
        machine.server_revision().saturating_sub(revision as usize),
    )
}

// A delivery, up to what is applied.
fn push_delivery(text: &mut String, machine: &Machine, client: u16) -> Result<(), AllocError>
    requires { client < length machine.now.clients }
    ensures { OnOk result (string_bytes text.new ≡ string_bytes text.old ++ deliver_words machine.now client (client_in machine.now client)) }
{
    let entry = machine.entry(machine.revision(client) as usize);
    let pending = outstanding(machine, client);
    write!(text, "  client {client} takes ")?;
    push_entry(text, entry)?;
    push_with(
        text,
        ", transforms it against its outstanding operation ",
        pending,
        "",
    )?;
    push_with(text, " and its buffer ", buffer(machine, client), "")
}

fn push_acknowledgement(text: &mut String, machine: &Machine, client: u16) -> Result<(), AllocError>
    requires { client < length machine.now.clients }
    ensures { OnOk result (string_bytes text.new ≡ string_bytes text.old ++ acknowledge_words client (client_in machine.now client)) }
{
    let sent = buffer(machine, client);
    write!(
        text,
        "  client {client} has its outstanding operation confirmed"
    )?;
    push_with(text, ", ", outstanding(machine, client), "")?;
    push_with(text, "; it sends its buffer ", sent, "; it has no buffer")?;
    text.push_str("\n")
}

// What the state before the instruction says of it.
fn push_before(text: &mut String, machine: &Machine, instr: &Instr) -> Result<(), AllocError>
    ensures { IsForClients (length machine.now.clients) instr.now → OnOk result (string_bytes text.new ≡ string_bytes text.old ++ told.before instr.now machine.now) }
{
    let clients = machine.clients();
    match instr {
        Instr::Edit(client, op) if *client < clients => push_edited(text, machine, *client, op),
        Instr::Take(client) if *client < clients => push_taken(text, machine, *client),
        Instr::Deliver(client) if *client < clients => push_delivery(text, machine, *client),
        Instr::Acknowledge(client) if *client < clients => push_acknowledgement(
            text, machine, *client,
        ),
        Instr::Join(client) => write!(
            text,
            "  client {client} joins with the server's document and revision\n"
        ),
        _ => Ok(()),
    }
}

// The state of a client that has joined.
fn push_client(text: &mut String, machine: &Machine, client: u16) -> Result<(), AllocError>
    requires { client < length machine.now.clients }
    ensures { OnOk result (string_bytes text.new ≡ string_bytes text.old ++ client_words client (client_in machine.now client)) }
{
    let revision = machine.revision(client);
    let pending = outstanding(machine, client);
    write!(text, "  client {client} at revision ")?;
    write!(text, "{revision}")?;
    push_with(
        text,
        " awaits the confirmation of ",
        pending,
        " is synchronized",
    )?;
    push_with(text, ", with the buffer ", buffer(machine, client), "")?;
    push_document(text, "; its document is ", machine.document(client))
}

// What the server appended.
fn push_appended(text: &mut String, machine: &Machine) -> Result<(), AllocError>
    ensures { OnOk result (string_bytes text.new ≡ string_bytes text.old ++ appended_words machine.now) }
{
    let revision = machine.server_revision();
    push_with(text, " and appends ", last_operation(machine), "")?;
    write!(text, " as revision {revision}")?;
    push_document(
        text,
        "\n  the server's document is now ",
        machine.server_document(),
    )
}

// What the instruction applied by a delivery, and what the state after it says of it.
fn push_after(
    text: &mut String,
    machine: &Machine,
    instr: &Instr,
    applied: Option<&TextOp<Tagged>>,
) -> Result<(), AllocError>
    requires { IsForClients (length machine.now.clients) instr.now }
    ensures { OnOk result (string_bytes text.new ≡ string_bytes text.old ++ told.after instr.now (operations applied.entry) machine.now) }
{
    match instr {
        Instr::Take(_) => push_appended(text, machine),
        Instr::Deliver(client) => {
            push_with(text, " and applies ", applied, "")?;
            text.push_str("\n")?;
            push_client(text, machine, *client)
        }
        Instr::Read(client) => {
            write!(text, "  client {client}")?;
            push_document(text, "'s document is ", machine.document(*client))
        }
        Instr::ReadServer => {
            push_document(
                text,
                "  the server's document is ",
                machine.server_document(),
            )
        }
        Instr::Edit(client, _) | Instr::Acknowledge(client) | Instr::Join(client) => {
            push_client(text, machine, *client)
        }
    }
}

/// Performs the instruction and writes its paragraph into the text, instead of what that held, or says why it was not performed. Only
/// after a performed one the text holds a paragraph.
pub(crate) fn perform(
    text: &mut String,
    machine: &mut Machine,
    lines: &[u64],
    number: usize,
    instr: &Instr,
) -> Result<Result<(), Refusal>, AllocError>
    ensures paragraph { IfOk result (λ answer. OnOk answer (IsMove (line_at lines.now number) number instr.now machine.old machine.new (string_bytes text.new))) }
    ensures refused { IfOk result (λ answer. IfErr answer (λ r. IsRefusal (table.step machine.old instr.now) r)) }
    ensures unchanged { IfOk result (λ answer. OnErr answer (machine.new ≡ machine.old)) }
{
    text.clear();
    push_heading(text, lines, number, instr)?;
    push_before(text, machine, instr)?;
    let effect = match machine.perform::<false>(instr) {
        Ok(effect) => effect,
        Err(refusal) => return Ok(Err(refusal)),
    };
    push_after(text, machine, instr, effect.applied.operation(machine))?;
    Ok(Ok(()))
}

/// The paragraph of the opening, of the machine as it is there.
pub(crate) fn opening_words(
    alloc: Global,
    schedule: &Schedule,
    machine: &Machine,
) -> Result<String, AllocError>
    requires { machine.now ≡ opening_of schedule.now }
    ensures { IfOk result (λ s. string_bytes s ≡ opening_words schedule.now) }
{
    let clients = schedule.clients();
    let present = schedule.present();
    let mut start = String::new(alloc);
    push_list(&mut start, machine.server_document())?;
    format!(in alloc;
        "the opening: {present} of {clients} clients joined, every document is {start}\n"
    )
}
