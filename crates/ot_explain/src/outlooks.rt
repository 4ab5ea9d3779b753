//! The verdict on where a run ends, as a line of JSON.

ghost use Rattle.std.specs.Prelude.{◌≡◌, IfOk, Some, string_bytes};
ghost use Rattle.ot_machine.specs.Ended.{IsEnding};
ghost use Rattle.ot_steps.specs.Held.{operations};
ghost use Rattle.ot_steps.specs.Steps.{is_quiet};
ghost use Rattle.ot_explain.specs.OutlookJson as json;
ghost use Rattle.ot_verdict.specs.Verdicts.{IsVerdict};

use crate::agreeing::{buffered, sent};
use ot_isa::{Schedule, Tagged};
use ot_machine::{Ending, Machine, Refusal, run_on};
use ot_steps::push_plain_array;
use ot_text::{Doc, TextOp};
use ot_values::{push_item, push_quoted, refusal_name};
use ot_verdict::{Outlook, Verdict, Waiting, verdict_on};
use std::alloc::{AllocError, Global};

// The member of an operation, if there is one.
fn operation_member(alloc: Global, op: Option<&TextOp<Tagged>>) -> Result<String, AllocError>
    ensures { IfOk result (λ s. string_bytes s ≡ json.operation_member (operations op.entry)) }
{
    let Some(op) = op else {
        return Ok(String::new(alloc));
    };
    let mut text = String::from_str(alloc, ",\"operation\":")?;
    push_plain_array(alloc, &mut text, op)?;
    Ok(text)
}

// A client, and what of it has not arrived.
fn waiting_object(alloc: Global, what: &str, client: u16, more: &str) -> Result<String, AllocError>
    ensures { IfOk result (λ s. string_bytes s ≡ json.waiting_object what.now client more.now) }
{
    format!(in alloc; "{{\"what\":\"{what}\",\"client\":{client}{more}}}")
}

// Something that has not arrived.
fn waiting_json(alloc: Global, machine: &Machine, waiting: Waiting) -> Result<String, AllocError>
    ensures { IfOk result (λ s. string_bytes s ≡ json.waiting_json machine.now waiting) }
{
    match waiting {
        Waiting::Sent(client) => {
            let operation = operation_member(alloc, sent(machine, client))?;
            waiting_object(alloc, "sent", client, operation.as_str())
        }
        Waiting::Buffered(client) => {
            let operation = operation_member(alloc, buffered(machine, client))?;
            waiting_object(alloc, "buffered", client, operation.as_str())
        }
        Waiting::Incoming(client, count) => {
            let count = format!(in alloc; ",\"count\":{count}")?;
            waiting_object(alloc, "incoming", client, count.as_str())
        }
    }
}

// All that has not arrived.
fn waiting_items(
    alloc: Global,
    machine: &Machine,
    waiting: &[Waiting],
) -> Result<String, AllocError>
    ensures { IfOk result (λ s. string_bytes s ≡ json.waiting_items machine.now waiting.now) }
{
    let mut items = String::new(alloc);
    for one in waiting {
        let item = waiting_json(alloc, machine, *one)?;
        push_item(&mut items, item.as_str())?;
    }
    Ok(items)
}

// The numbers of clients.
fn client_items(alloc: Global, clients: &[u16]) -> Result<String, AllocError>
    ensures { IfOk result (λ s. string_bytes s ≡ json.client_items clients.now) }
{
    let mut items = String::new(alloc);
    for client in clients {
        let number = *client;
        let item = format!(in alloc; "{number}")?;
        push_item(&mut items, item.as_str())?;
    }
    Ok(items)
}

// What all documents are, or become.
fn document_members(alloc: Global, verdict: &str, list: &Doc<Tagged>) -> Result<String, AllocError>
    ensures { IfOk result (λ s. string_bytes s ≡ json.document_members verdict.now list.now) }
{
    let mut text = format!(in alloc; ",\"verdict\":\"{verdict}\",\"document\":")?;
    push_quoted(alloc, &mut text, list)?;
    Ok(text)
}

// The clients of whose edits one is taken first, and the one whose edit `complete` has the server take first.
fn depends_members(alloc: Global, clients: &[u16], first: u16) -> Result<String, AllocError>
    ensures { IfOk result (λ s. string_bytes s ≡ json.depends_members clients.now (Some first)) }
{
    let choice = client_items(alloc, clients)?;
    format!(in alloc; ",\"verdict\":\"depends\",\"choice\":[{choice}],\"first\":{first}")
}

// Whether the documents must agree, and to what.
fn outlook_members(
    alloc: Global,
    machine: &Machine,
    verdict: &Verdict,
) -> Result<String, AllocError>
    requires { IsVerdict machine.now verdict.now }
    ensures { IfOk result (λ s. string_bytes s ≡ json.outlook_members machine.now (is_quiet machine.now)) }
{
    match &verdict.outlook {
        Outlook::Agreed(list) => document_members(alloc, "must be", list),
        Outlook::WillBe(list) => document_members(alloc, "will be", list),
        Outlook::Depends(clients, first) => depends_members(alloc, clients.as_slice(), *first),
    }
}

// The verdict on the machine as it is.
fn verdict_members(alloc: Global, machine: &Machine) -> Result<String, AllocError>
    ensures { IfOk result (λ s. string_bytes s ≡ json.verdict_members machine.now) }
{
    let verdict = verdict_on(alloc, machine)?;
    let outlook = outlook_members(alloc, machine, &verdict)?;
    let waiting = waiting_items(alloc, machine, verdict.waiting.as_slice())?;
    let absent = client_items(alloc, verdict.absent.as_slice())?;
    format!(in alloc; "{outlook},\"waiting\":[{waiting}],\"absent\":[{absent}]")
}

// How many instructions were performed, and why the next one was not, if it was not.
fn place_members(
    alloc: Global,
    schedule: &Schedule,
    stopped: Option<(usize, Refusal)>,
) -> Result<String, AllocError>
    ensures { IfOk result (λ s. string_bytes s ≡ json.place_members schedule.now stopped) }
{
    match stopped {
        None => {
            let at = schedule.len();
            format!(in alloc; "\"at\":{at}")
        }
        Some((at, refusal)) => {
            let name = refusal_name(refusal);
            format!(in alloc; "\"at\":{at},\"stopped\":\"{name}\"")
        }
    }
}

/// Runs the schedule up to its first instruction that is not performed, and says where its run ended. `AllocError` where memory for the opening
/// was refused.
pub fn run_end(alloc: Global, schedule: &Schedule) -> Result<Ending, AllocError>
    ensures { IfOk result (IsEnding schedule.now) }
{
    let clients = schedule.clients();
    let machine = Machine::with_present(alloc, clients, schedule.present(), schedule.start())?;
    Ok(run_on(schedule, 0, machine))
}

/// The verdict on where the schedule's run ended, as one line of JSON: `at`, how many instructions were performed; `stopped`, why the next one was
/// not, if it was not; `verdict` with the whole `document`, or with `choice` and `first`; `waiting`, each with its whole operation or a count; and
/// `absent`. It is made of the value of which [`explain`](crate::explain) makes its last words. An error only where a growth was refused.
pub fn outlook_json(
    alloc: Global,
    schedule: &Schedule,
    ending: &Ending,
) -> Result<String, AllocError>
    ensures { IfOk result (λ s. string_bytes s ≡ json.outlook_json schedule.now ending.now) }
{
    let place = place_members(alloc, schedule, ending.stopped)?;
    let members = verdict_members(alloc, &ending.machine)?;
    format!(in alloc; "{{{place}{members}}}\n")
}
