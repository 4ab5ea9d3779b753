//! The verdict in words: whether all documents must agree, and to what; what has not arrived; and who has not joined.

ghost use Rattle.std.specs.Prelude.{◌≡◌, ◌++◌, codes, OnOk, Some, string_bytes};
ghost use Rattle.ot_machine.specs.Effects.{client_in};
ghost use Rattle.ot_steps.specs.Held.{operations};
ghost use Rattle.ot_explain.specs.Agreeing.{absent_words, agreed_words, alternative, choice_words, count_words, depends_words, future_words, outlook_words, sent_of, separator, verdict_words, waiting_text, waiting_words};
ghost use Rattle.ot_steps.specs.Steps.{buffer_of, is_quiet};
ghost use Rattle.ot_explain.specs.Words.{list_text};
ghost use Rattle.ot_verdict.specs.declared.waiting.Waiting.TheVariants.{Buffered, Incoming, Sent};
ghost use Rattle.ot_verdict.specs.Verdicts.{IsVerdict};

use crate::values::{push_list, push_with};
use ot_isa::Tagged;
use ot_machine::Machine;
use ot_steps::buffer;
use ot_text::{Doc, TextOp};
use ot_verdict::{Outlook, Verdict, Waiting, verdict_on};
use std::alloc::{AllocError, Global};

/// The operation on its way from the client to the server, if there is one.
pub(crate) fn sent(machine: &Machine, client: u16) -> Option<&TextOp<Tagged>>
    ensures { operations result ≡ sent_of (client_in machine.now client).message }
{
    if client >= machine.clients() {
        return None;
    }
    let message = machine.up(client)?;
    Some(&message.op)
}

/// The client's buffer, if it has one.
pub(crate) fn buffered(machine: &Machine, client: u16) -> Option<&TextOp<Tagged>>
    ensures { operations result ≡ buffer_of (client_in machine.now client).phase }
{
    if client >= machine.clients() {
        return None;
    }
    buffer(machine, client)
}

// How many messages there are to receive.
fn push_count(text: &mut String, count: usize) -> Result<(), AllocError>
    ensures { OnOk result (string_bytes text.new ≡ string_bytes text.old ++ count_words count) }
{
    if count == 1 {
        return text.push_str("1 message to receive");
    }
    write!(text, "{count} messages to receive")
}

// A message on its way to the server.
fn push_sent(text: &mut String, machine: &Machine, client: u16) -> Result<(), AllocError>
    ensures { OnOk result (string_bytes text.new ≡ string_bytes text.old ++ waiting_text machine.now (Sent client)) }
{
    write!(text, "client {client}'s ")?;
    push_with(text, "", sent(machine, client), "message")?;
    text.push_str(" is on its way to the server")
}

// A buffer.
fn push_buffered(text: &mut String, machine: &Machine, client: u16) -> Result<(), AllocError>
    ensures { OnOk result (string_bytes text.new ≡ string_bytes text.old ++ waiting_text machine.now (Buffered client)) }
{
    write!(text, "client {client}'s ")?;
    push_with(text, "", buffered(machine, client), "buffer")?;
    text.push_str(" is in its buffer")
}

// Messages on their way to a client.
fn push_incoming(
    text: &mut String,
    machine: &Machine,
    client: u16,
    count: usize,
) -> Result<(), AllocError>
    ensures { OnOk result (string_bytes text.new ≡ string_bytes text.old ++ waiting_text machine.now (Incoming client count)) }
{
    write!(text, "client {client} has ")?;
    push_count(text, count)
}

// Something that has not arrived.
fn push_waiting(text: &mut String, machine: &Machine, waiting: Waiting) -> Result<(), AllocError>
    ensures { OnOk result (string_bytes text.new ≡ string_bytes text.old ++ waiting_text machine.now waiting) }
{
    match waiting {
        Waiting::Sent(client) => push_sent(text, machine, client),
        Waiting::Buffered(client) => push_buffered(text, machine, client),
        Waiting::Incoming(client, count) => push_incoming(text, machine, client, count),
    }
}

// What stands before the piece at this place.
fn separator(place: usize) -> &'static str
    ensures { result.now ≡ separator place }
{
    if place == 0 { ": " } else { "; " }
}

// All that has not arrived.
fn push_all_waiting(
    text: &mut String,
    machine: &Machine,
    waiting: &[Waiting],
) -> Result<(), AllocError>
    ensures { OnOk result (string_bytes text.new ≡ string_bytes text.old ++ waiting_words machine.now waiting.now) }
{
    for place in 0..waiting.len() {
        text.push_str(separator(place))?;
        push_waiting(text, machine, waiting[place])?;
    }
    Ok(())
}

// What stands before the client at this place.
fn alternative(place: usize) -> &'static str
    ensures { result.now ≡ alternative place }
{
    if place == 0 { "" } else { " or " }
}

// The clients of whose edits one is taken first.
fn push_choice(text: &mut String, clients: &[u16]) -> Result<(), AllocError>
    ensures { OnOk result (string_bytes text.new ≡ string_bytes text.old ++ choice_words clients.now) }
{
    for place in 0..clients.len() {
        let client = clients[place];
        text.push_str(alternative(place))?;
        write!(text, "client {client}'s")?;
    }
    Ok(())
}

// The clients that have not joined.
fn push_absent(text: &mut String, clients: &[u16]) -> Result<(), AllocError>
    ensures { OnOk result (string_bytes text.new ≡ string_bytes text.old ++ absent_words clients.now) }
{
    for place in 0..clients.len() {
        let client = clients[place];
        write!(text, "client {client} has not joined.\n")?;
    }
    Ok(())
}

// These words, the document and the end of the line.
fn push_sentence(text: &mut String, words: &str, list: &Doc<Tagged>) -> Result<(), AllocError>
    ensures { OnOk result (string_bytes text.new ≡ string_bytes text.old ++ (words.now ++ (list_text list.now ++ codes ".\n"))) }
{
    text.push_str(words)?;
    push_list(text, list)?;
    text.push_str(".\n")
}

// What the documents become, where it depends on the order.
fn push_depends(text: &mut String, clients: &[u16], first: u16) -> Result<(), AllocError>
    ensures { OnOk result (string_bytes text.new ≡ string_bytes text.old ++ depends_words clients.now (Some first)) }
{
    text.push_str(". What they become may depend on whose edit the server takes first, ")?;
    push_choice(text, clients)?;
    write!(text, "; complete takes client {first}'s first.\n")
}

// Whether the documents must agree, and to what.
fn push_outlook(text: &mut String, machine: &Machine, verdict: &Verdict) -> Result<(), AllocError>
    requires { IsVerdict machine.now verdict.now }
    ensures { OnOk result (string_bytes text.new ≡ string_bytes text.old ++ outlook_words machine.now (is_quiet machine.now)) }
{
    match &verdict.outlook {
        Outlook::Agreed(list) => push_sentence(text, "All documents must be ", list),
        Outlook::WillBe(list) => {
            text.push_str("They may still differ")?;
            push_all_waiting(text, machine, verdict.waiting.as_slice())?;
            push_sentence(text, ". When everything has arrived, all will be ", list)
        }
        Outlook::Depends(clients, first) => {
            text.push_str("They may still differ")?;
            push_all_waiting(text, machine, verdict.waiting.as_slice())?;
            push_depends(text, clients.as_slice(), *first)
        }
    }
}

/// Adds the verdict on the machine as it is: whether the documents must agree, and to what; what has not arrived; a line for each client that has not joined.
pub(crate) fn push_verdict(
    alloc: Global,
    text: &mut String,
    machine: &Machine,
) -> Result<(), AllocError>
    ensures { OnOk result (string_bytes text.new ≡ string_bytes text.old ++ verdict_words machine.now) }
{
    let verdict = verdict_on(alloc, machine)?;
    push_outlook(text, machine, &verdict)?;
    push_absent(text, verdict.absent.as_slice())
}
