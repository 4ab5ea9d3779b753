//! The words for a fault of a value, and for why a value is no trace.

ghost use Rattle.std.specs.Prelude.{◌≡◌, IfOk, Err, codes, option_map, string_bytes};
ghost use Rattle.serde_json.specs.View.{view};
ghost use Rattle.ot_json.specs.Fields.{items_at};
ghost use Rattle.ot_judge.specs.Reading.{shape_of, trace_of_shape};
ghost use Rattle.ot_reasons.specs.Words.{IsFaultText, IsFoundText, IsJson, IsValueReason, event_count, field_text, full_text, index_text, key_text, namings_text, place_text, size_text, tag_text, trace_place, wanted_text};

use crate::checks::count;
use crate::namings::{Namings, namings_of};
use crate::place::{Fault, Field, Place, Wanted, found_at, key_of};
use crate::shape::shape_fault;
use ot_isa::Tag;
use ot_json::items_at;
use ot_judge::{MOST_EVENTS, TraceFault};
use serde_json::Value;
use std::alloc::{AllocError, Global};

/// How many bytes of JSON are shown whole.
const SHOWN: usize = 60;

/// A tag: `origin:serial`.
pub(crate) fn tag_text(alloc: Global, tag: Tag) -> Result<String, AllocError>
    ensures { IfOk result (λ s. string_bytes s ≡ tag_text tag) }
{
    let origin = tag.origin;
    let serial = tag.serial;
    format!(in alloc; "{origin}:{serial}")
}

// The number of an item, if the path goes into one.
fn index_text(alloc: Global, index: Option<usize>) -> Result<String, AllocError>
    ensures { IfOk result (λ s. string_bytes s ≡ index_text index) }
{
    match index {
        Some(k) => format!(in alloc; "[{k}]"),
        None => Ok(String::new(alloc)),
    }
}

// The key of a part, if the path goes into one.
fn key_text(alloc: Global, key: Option<Field>) -> Result<String, AllocError>
    ensures { IfOk result (λ s. string_bytes s ≡ key_text key) }
{
    match key {
        Some(key) => {
            let key = key_of(key);
            format!(in alloc; ", {key}")
        }
        None => Ok(String::new(alloc)),
    }
}

// A key, with what the path goes into under it.
fn field_text(alloc: Global, field: Field, place: Place) -> Result<String, AllocError>
    ensures { IfOk result (λ s. string_bytes s ≡ field_text field place) }
{
    let name = key_of(field);
    let item = index_text(alloc, place.item)?;
    let part = index_text(alloc, place.part)?;
    let key = key_text(alloc, place.key)?;
    format!(in alloc; "{name}{item}{part}{key}")
}

/// A place: `event 3, insert[2][1]`, `typing[1][3], insert`; `whole` is what the whole value is called.
pub(crate) fn place_text(alloc: Global, whole: &str, place: Place) -> Result<String, AllocError>
    ensures { IfOk result (λ s. string_bytes s ≡ place_text whole.now place) }
{
    match (place.event, place.field) {
        (None, None) => String::from_str(alloc, whole),
        (None, Some(field)) => field_text(alloc, field, place),
        (Some(event), None) => format!(in alloc; "event {event}"),
        (Some(event), Some(field)) => {
            let field = field_text(alloc, field, place)?;
            format!(in alloc; "event {event}, {field}")
        }
    }
}

// A place in a trace.
fn trace_place(alloc: Global, place: Place) -> Result<String, AllocError>
    ensures { IfOk result (λ s. string_bytes s ≡ trace_place place) }
{
    place_text(alloc, "the trace", place)
}

fn wanted_text(alloc: Global, wanted: Wanted) -> Result<String, AllocError>
    ensures { IfOk result (λ s. string_bytes s ≡ wanted_text wanted) }
{
    match wanted {
        Wanted::Object => String::from_str(alloc, "an object"),
        Wanted::Positive(most) => format!(in alloc; "a number from 1 to {most}"),
        Wanted::Number(most) => format!(in alloc; "a number from 0 to {most}"),
        Wanted::Array => String::from_str(alloc, "an array"),
        Wanted::Tag => String::from_str(alloc, "an array [origin, serial]"),
        Wanted::Placed => String::from_str(alloc, "an array [origin, serial, place]"),
        Wanted::Kind => String::from_str(alloc, "\"edit\" or \"read\""),
        Wanted::Counts(replicas) => {
            format!(in alloc; "an array of {replicas}, a count for each replica")
        }
        Wanted::Nothing => String::from_str(
            alloc,
            "nothing, since a read inserts and deletes nothing",
        ),
        Wanted::Text => String::from_str(alloc, "a text"),
        Wanted::StartText => String::from_str(alloc, "a text of at most 40000 characters"),
        Wanted::Lists(clients) => {
            format!(in alloc; "an array of {clients}, a list of actions for each client")
        }
        Wanted::Insertions => String::from_str(
            alloc,
            "actions that insert at most 15000 characters together",
        ),
        Wanted::Actions => String::from_str(alloc, "at most 1000 actions"),
    }
}

// A value as compact JSON.
fn json_text(alloc: Global, value: &Value) -> Result<String, AllocError>
    ensures { IfOk result (λ s. IsJson (view value.now) (string_bytes s)) }
{
    value.to_string(alloc)
}

// What a value whose JSON is long is called.
fn size_text(alloc: Global, value: &Value, json: String) -> Result<String, AllocError>
    ensures { IfOk result (λ s. string_bytes s ≡ size_text (view value.now) (string_bytes json)) }
{
    if let Some(text) = value.as_str() {
        let len = text.len();
        return format!(in alloc; "a text of {len} bytes");
    }
    if let Some(items) = value.as_array() {
        let len = count(items.as_slice());
        return format!(in alloc; "an array of {len}");
    }
    if value.is_object() {
        return String::from_str(alloc, "an object");
    }
    Ok(json)
}

// What stands at a place.
fn found_text(alloc: Global, found: Option<&Value>) -> Result<String, AllocError>
    ensures { IfOk result (λ s. IsFoundText (option_map (λ v. view v.now) found.entry) (string_bytes s)) }
{
    match found {
        Some(value) => {
            let json = json_text(alloc, value)?;
            if json.len() > SHOWN {
                size_text(alloc, value, json)
            } else {
                Ok(json)
            }
        }
        None => String::from_str(alloc, "nothing"),
    }
}

/// The line of a fault of a value: where it is, what stands there, what is wanted. `whole` is what the whole value is called.
pub(crate) fn fault_text(
    alloc: Global,
    whole: &str,
    value: &Value,
    fault: Fault,
) -> Result<String, AllocError>
    ensures { IfOk result (λ s. IsFaultText whole.now (view value.now) fault (string_bytes s)) }
{
    let place = place_text(alloc, whole, fault.place)?;
    let found = found_text(alloc, found_at(value, fault.place))?;
    let wanted = wanted_text(alloc, fault.wanted)?;
    format!(in alloc; "  {place}: found {found}; wanted {wanted}\n")
}

// Too many events, or too many tags in their lists.
fn full_text(alloc: Global, events: usize) -> Result<String, AllocError>
    ensures { IfOk result (λ s. string_bytes s ≡ full_text events) }
{
    if events > MOST_EVENTS {
        return format!(in alloc;
            "  events: found an array of {events}; wanted at most 4000 events\n"
        );
    }
    String::from_str(
        alloc,
        "  the lists of all events together: found more than 4000000 tags; wanted at most 4000000\n",
    )
}

// A tag that is named twice, and where.
fn namings_text(alloc: Global, tag: Tag, namings: Namings) -> Result<String, AllocError>
    ensures { IfOk result (λ s. string_bytes s ≡ namings_text tag namings) }
{
    match (namings.first, namings.second) {
        (Some(first), Some(second)) => {
            let first = trace_place(alloc, first)?;
            let second = trace_place(alloc, second)?;
            let name = tag_text(alloc, tag)?;
            format!(in alloc;
                "  the tag {name} stands at {first} and at {second}; the start and the insertions name each tag once\n"
            )
        }
        _ => Ok(String::new(alloc)),
    }
}

// How many events a trace's value has.
fn event_count(value: &Value) -> usize
    ensures { result ≡ event_count (items_at (codes "events") (view value.now)) }
{
    match items_at(value, "events") {
        Some(items) => count(items),
        None => 0,
    }
}

/// Why a value is refused with this fault: the line of words below the fault's.
pub(crate) fn value_reason(
    alloc: Global,
    value: &Value,
    fault: TraceFault,
) -> Result<String, AllocError>
    requires { trace_of_shape (shape_of (view value.now)) ≡ Err fault }
    ensures { IfOk result (λ s. IsValueReason (view value.now) fault (string_bytes s)) }
{
    match fault {
        TraceFault::BadShape => match shape_fault(value) {
            Some(fault) => fault_text(alloc, "the trace", value, fault),
            None => unreachable!(),
        },
        TraceFault::TraceFull => full_text(alloc, event_count(value)),
        TraceFault::TagTwice(tag) => namings_text(alloc, tag, namings_of(value, tag)),
        TraceFault::NotJson | TraceFault::Memory => Ok(String::new(alloc)),
    }
}
