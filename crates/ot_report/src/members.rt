//! Verdicts, and what is not settled, as members of JSON objects.

ghost use Rattle.std.specs.Prelude.{◌≡◌, [], IfOk, OnOk, string_bytes};
ghost use Rattle.ot_report.specs.Members as json;
ghost use Rattle.ot_values.specs.Items.{with_item};

use ot_check::{Convergence, Unsettled};
use ot_isa::Tag;
use ot_judge::Verdict;
use ot_model::Refusal;
use ot_values::{push_item, refusal_name};
use std::alloc::{AllocError, Global};

// A tag: `[origin,serial]`.
fn tag_json(alloc: Global, tag: Tag) -> Result<String, AllocError>
    ensures { IfOk result (λ s. string_bytes s ≡ json.tag_json tag) }
{
    let origin = tag.origin;
    let serial = tag.serial;
    format!(in alloc; "[{origin},{serial}]")
}

// A verdict against a trace: its kind, the events, the elements' tags.
fn against(alloc: Global, kind: &str, events: &str, tags: &str) -> Result<String, AllocError>
    ensures { IfOk result (λ s. string_bytes s ≡ json.against kind.now events.now tags.now) }
{
    format!(in alloc; "\"verdict\":\"{kind}\",\"events\":[{events}],\"tags\":[{tags}]")
}

// A verdict on one event and one element.
fn against_one(alloc: Global, kind: &str, event: usize, tag: Tag) -> Result<String, AllocError>
    ensures { IfOk result (λ s. string_bytes s ≡ json.against_one kind.now event tag) }
{
    let event = format!(in alloc; "{event}")?;
    let tag = tag_json(alloc, tag)?;
    against(alloc, kind, event.as_str(), tag.as_str())
}

// Two elements that two events have in both orders.
fn reversed(
    alloc: Global,
    first: usize,
    second: usize,
    a: Tag,
    b: Tag,
) -> Result<String, AllocError>
    ensures { IfOk result (λ s. string_bytes s ≡ json.reversed first second a b) }
{
    let events = format!(in alloc; "{first},{second}")?;
    let a = tag_json(alloc, a)?;
    let b = tag_json(alloc, b)?;
    let tags = format!(in alloc; "{a},{b}")?;
    against(alloc, "reversed", events.as_str(), tags.as_str())
}

// The members of a verdict: `verdict`, and of one against a trace `events` and `tags`.
fn verdict_members(alloc: Global, verdict: Verdict) -> Result<String, AllocError>
    ensures { IfOk result (λ s. string_bytes s ≡ json.verdict_members verdict) }
{
    match verdict {
        Verdict::Holds => String::from_str(alloc, "\"verdict\":\"holds\""),
        Verdict::BadVisibility(event) => {
            let event = format!(in alloc; "{event}")?;
            against(alloc, "bad-visibility", event.as_str(), "")
        }
        Verdict::Doubled(event, tag) => against_one(alloc, "doubled", event, tag),
        Verdict::Missing(event, tag) => against_one(alloc, "missing", event, tag),
        Verdict::Extra(event, tag) => against_one(alloc, "extra", event, tag),
        Verdict::WrongPlace(event, tag) => against_one(alloc, "wrong-place", event, tag),
        Verdict::Reversed(first, second, a, b) => reversed(alloc, first, second, a, b),
    }
}

/// A judge's verdict as a line of JSON: `verdict` is the first word of [`print_verdict`](crate::print_verdict), and of a verdict against the
/// trace `events` and `tags` are its numbers.
pub fn verdict_json(alloc: Global, verdict: Verdict) -> Result<String, AllocError>
    ensures { IfOk result (λ s. string_bytes s ≡ json.verdict_json verdict) }
{
    let members = verdict_members(alloc, verdict)?;
    format!(in alloc; "{{{members}}}\n")
}

/// The members of the verdict of a schedule's trace, which may be too large to be judged.
pub(crate) fn trace_members(alloc: Global, verdict: Option<Verdict>) -> Result<String, AllocError>
    ensures { IfOk result (λ s. string_bytes s ≡ json.trace_members verdict) }
{
    match verdict {
        Some(verdict) => verdict_members(alloc, verdict),
        None => String::from_str(alloc, "\"verdict\":\"trace full\""),
    }
}

/// The member of a stop, if there was one.
pub(crate) fn stopped_member(
    alloc: Global,
    stopped: Option<(usize, Refusal)>,
) -> Result<String, AllocError>
    ensures { IfOk result (λ s. string_bytes s ≡ json.stopped_member stopped) }
{
    match stopped {
        Some((_, refusal)) => {
            let name = refusal_name(refusal);
            format!(in alloc; ",\"stopped\":\"{name}\"")
        }
        None => Ok(String::new(alloc)),
    }
}

// A client, and what of it is not settled.
fn waiting_json(alloc: Global, what: &str, client: u16) -> Result<String, AllocError>
    ensures { IfOk result (λ s. string_bytes s ≡ json.waiting_json what.now client) }
{
    format!(in alloc; "{{\"what\":\"{what}\",\"client\":{client}}}")
}

fn unsettled_json(alloc: Global, what: Unsettled) -> Result<String, AllocError>
    ensures { IfOk result (λ s. string_bytes s ≡ json.unsettled_json what) }
{
    match what {
        Unsettled::Client(client) => waiting_json(alloc, "client", client),
        Unsettled::Up(client) => waiting_json(alloc, "up", client),
        Unsettled::Down(client) => waiting_json(alloc, "down", client),
    }
}

// A client's document that is not the server's, from this place on.
fn astray_json(alloc: Global, client: u16, place: usize) -> Result<String, AllocError>
    ensures { IfOk result (λ s. string_bytes s ≡ json.astray_json client place) }
{
    format!(in alloc; "{{\"what\":\"document\",\"client\":{client},\"place\":{place}}}")
}

// One item more, unless all is quiet.
fn push_unsettled(
    alloc: Global,
    items: &mut String,
    convergence: Convergence,
) -> Result<(), AllocError>
    ensures { OnOk result (string_bytes items.new ≡ json.with_unsettled (string_bytes items.old) convergence) }
{
    match convergence {
        Convergence::Quiet => Ok(()),
        Convergence::NotQuiet(what) => {
            let item = unsettled_json(alloc, what)?;
            push_item(items, item.as_str())
        }
        Convergence::Differs(client, place) => {
            let item = astray_json(alloc, client, place)?;
            push_item(items, item.as_str())
        }
    }
}

fn unsettled_items(alloc: Global, settling: &[Convergence]) -> Result<String, AllocError>
    ensures { IfOk result (λ s. string_bytes s ≡ json.with_all_unsettled [] settling.now) }
{
    let mut items = String::new(alloc);
    for convergence in settling {
        push_unsettled(alloc, &mut items, *convergence)?;
    }
    Ok(items)
}

// Whether there is none of these.
fn none_word(items: &str) -> &'static str
    ensures { result.now ≡ json.none_word items.now }
{
    if items.is_empty() { "true" } else { "false" }
}

/// The members `quiet` and `unsettled`, behind a comma.
pub(crate) fn unsettled_members(
    alloc: Global,
    settling: &[Convergence],
) -> Result<String, AllocError>
    ensures { IfOk result (λ s. string_bytes s ≡ json.unsettled_members settling.now) }
{
    let items = unsettled_items(alloc, settling)?;
    let quiet = none_word(items.as_str());
    format!(in alloc; ",\"quiet\":{quiet},\"unsettled\":[{items}]")
}
