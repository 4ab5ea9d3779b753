//! Why an instruction is refused, and what would repair it.

ghost use Rattle.std.specs.Prelude.{◌≡◌, ◌+◌, ◌++◌, ◌<◌, length, slice_get, IfOk, OnOk, string_bytes};
ghost use Rattle.ot_model.specs.Operation.{inserted};
ghost use Rattle.ot_machine.specs.Effects.{client_in};
ghost use Rattle.ot_explain.specs.Reasons as words;
ghost use Rattle.ot_explain.specs.Reasons.{absent_words, base_words, empty_words, full_words, gap_words, head_words, join_from, join_words, joins, next_words, of_edit, unconfirmed, units_words, wide};

use crate::paragraphs::line_at;
use crate::values::push_entry;
use ot_isa::{Instr, Schedule, Tagged};
use ot_machine::{Machine, Refusal};
use ot_text::Doc;
use std::alloc::AllocError;

// How many characters of a document are past U+FFFF.
fn wide(list: &Doc<Tagged>) -> Result<usize, AllocError>
    ensures { IfOk result (λ count. count ≡ wide list.now) }
{
    let items = list.to_vec()?;
    Ok(items.iter().filter(|item| 0xFFFF < item.ch as u32).count())
}

// How far a base length is from the document's.
fn push_gap(text: &mut String, base: usize, count: usize) -> Result<(), AllocError>
    ensures { OnOk result (string_bytes text.new ≡ string_bytes text.old ++ gap_words base count) }
{
    if base < count {
        let few = count - base;
        return write!(text, "{few} too few");
    }
    let many = base - count;
    write!(text, "{many} too many")
}

// Adds that the base length is the document's length in UTF-16, which has `past` units more than the document has characters.
fn push_units(text: &mut String, base: usize, count: usize, past: usize) -> Result<(), AllocError>
    ensures { OnOk result (string_bytes text.new ≡ string_bytes text.old ++ units_words base (count + past)) }
{
    if base < count || base - count != past {
        return Ok(());
    }
    write!(
        text,
        "; lengths count Unicode scalars, and {base} is the document's length in UTF-16, which counts 2 for each past U+FFFF"
    )
}

fn push_span(
    text: &mut String,
    client: u16,
    base: usize,
    list: &Doc<Tagged>,
) -> Result<(), AllocError>
    ensures { OnOk result (string_bytes text.new ≡ string_bytes text.old ++ base_words client base list.now) }
{
    let count = list.len();
    let past = wide(list)?;
    write!(text, "the edit takes documents of length {base}, ")?;
    write!(text, "client {client}'s has length ")?;
    write!(
        text,
        "{count}; what an edit retains and deletes has to span the whole document: "
    )?;
    push_gap(text, base, count)?;
    push_units(text, base, count, past)
}

// An edit that is not over the whole document.
fn push_base(text: &mut String, machine: &Machine, instr: &Instr) -> Result<(), AllocError>
    ensures { OnOk result (string_bytes text.new ≡ string_bytes text.old ++ of_edit instr.now machine.now (λ c op x. base_words c op.base x.list)) }
{
    match instr {
        Instr::Edit(client, op) if *client < machine.clients() => {
            push_span(text, *client, op.base_len(), machine.document(*client))
        }
        _ => Ok(()),
    }
}

// A client that has inserted too much.
fn push_full(text: &mut String, machine: &Machine, instr: &Instr) -> Result<(), AllocError>
    ensures { OnOk result (string_bytes text.new ≡ string_bytes text.old ++ of_edit instr.now machine.now (λ c op x. full_words c x.count (inserted op))) }
{
    match instr {
        Instr::Edit(client, op) if *client < machine.clients() => {
            let count = machine.inserted(*client);
            let more = op.inserted();
            write!(
                text,
                "client {client} has inserted {count} of at most 15000 characters and would insert {more} more"
            )
        }
        _ => Ok(()),
    }
}

// An acknowledgement that is not there.
fn push_unconfirmed(text: &mut String, machine: &Machine, client: u16) -> Result<(), AllocError>
    requires { client < length machine.now.clients }
    ensures { OnOk result (string_bytes text.new ≡ string_bytes text.old ++ unconfirmed client (client_in machine.now client).message) }
{
    match machine.up(client) {
        Some(_) => write!(
            text,
            "the server has not taken the message of client {client} yet: take {client} comes first"
        ),
        None => write!(text, "client {client} waits for no acknowledgement"),
    }
}

// A link without a message.
fn push_empty(text: &mut String, machine: &Machine, instr: &Instr) -> Result<(), AllocError>
    ensures { OnOk result (string_bytes text.new ≡ string_bytes text.old ++ empty_words instr.now machine.now) }
{
    match instr {
        Instr::Take(client) => write!(
            text,
            "no message of client {client} is under way: it has to send an edit first, and a message is taken once"
        ),
        Instr::Deliver(client) => write!(
            text,
            "nothing is under way to client {client}: the server has to take another client's message first"
        ),
        Instr::Acknowledge(client) if *client < machine.clients() => {
            push_unconfirmed(text, machine, *client)
        }
        _ => Ok(()),
    }
}

// What comes next to a client.
fn push_next(text: &mut String, machine: &Machine, client: u16) -> Result<(), AllocError>
    requires { client < length machine.now.clients }
    ensures { OnOk result (string_bytes text.new ≡ string_bytes text.old ++ next_words client (slice_get machine.now.log (client_in machine.now client).revision)) }
{
    let entry = machine.entry(machine.revision(client) as usize);
    write!(text, "the next message to client {client} is ")?;
    push_entry(text, entry)?;
    write!(text, ": deliver {client}")
}

// A message of the other kind at the head of the link.
fn push_head(text: &mut String, machine: &Machine, instr: &Instr) -> Result<(), AllocError>
    ensures { OnOk result (string_bytes text.new ≡ string_bytes text.old ++ head_words instr.now machine.now) }
{
    match instr {
        Instr::Deliver(client) => write!(
            text,
            "the next message to client {client} acknowledges its own operation: ack {client}"
        ),
        Instr::Acknowledge(client) if *client < machine.clients() => {
            push_next(text, machine, *client)
        }
        _ => Ok(()),
    }
}

// Whether an instruction is the `join` of this client.
fn joins(client: u16, instr: &Instr) -> bool
    ensures { result ≡ joins client instr.now }
{
    match instr {
        Instr::Join(other) => *other == client,
        _ => false,
    }
}

// The number of the first `join` of this client.
fn join_of(schedule: &Schedule, client: u16) -> Option<usize>
    ensures { result ≡ join_from client 0 schedule.now.instrs }
{
    for number in 0..schedule.len() {
        let Some(instr) = schedule.get(number) else {
            unreachable!()
        };
        if joins(client, instr) {
            return Some(number);
        }
    }
    None
}

// The line of a `join`, if there is one.
fn push_join(text: &mut String, lines: &[u64], join: Option<usize>) -> Result<(), AllocError>
    ensures { OnOk result (string_bytes text.new ≡ string_bytes text.old ++ join_words lines.now join) }
{
    match join {
        Some(number) => {
            let line = line_at(lines, number);
            write!(text, ", and stands in line {line}")
        }
        None => text.push_str(", and no line says it"),
    }
}

// A client that has not joined.
fn push_absent(
    text: &mut String,
    lines: &[u64],
    schedule: &Schedule,
    client: Option<u16>,
) -> Result<(), AllocError>
    ensures { OnOk result (string_bytes text.new ≡ string_bytes text.old ++ absent_words lines.now schedule.now.instrs client) }
{
    let Some(client) = client else {
        return Ok(());
    };
    write!(text, "client {client} has not joined: join ")?;
    write!(text, "{client} comes first")?;
    push_join(text, lines, join_of(schedule, client))
}

/// Adds why the instruction of a schedule is refused by the machine as it is, for this refusal. `lines` are those of the schedule's instructions.
pub(crate) fn push_reason(
    text: &mut String,
    machine: &Machine,
    lines: &[u64],
    schedule: &Schedule,
    instr: &Instr,
    refusal: Refusal,
) -> Result<(), AllocError>
    ensures { OnOk result (string_bytes text.new ≡ string_bytes text.old ++ words.reason lines.now schedule.now.instrs refusal instr.now machine.now) }
{
    match refusal {
        Refusal::NoSuchClient => text.push_str("the client is not there"),
        Refusal::StepsFull => text.push_str("a machine performs at most 1000000 instructions"),
        Refusal::NotJoined => push_absent(text, lines, schedule, instr.client()),
        Refusal::AlreadyJoined => text.push_str(
            "the client is there already: it joined before, or was there at the opening, as all clients are without a line `present P`",
        ),
        Refusal::BadBase => push_base(text, machine, instr),
        Refusal::ClientFull => push_full(text, machine, instr),
        Refusal::LinkEmpty => push_empty(text, machine, instr),
        Refusal::WrongHead => push_head(text, machine, instr),
        Refusal::Memory => text.push_str("no memory was found"),
    }
}
