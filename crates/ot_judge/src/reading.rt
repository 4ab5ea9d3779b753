//! From a JSON text to a trace.

ghost use Rattle.std.specs.Option.{IsSomeAnd};
ghost use Rattle.std.specs.Prelude.{◌≡◌, ◌≢◌, ◌⊎◌, ◌<◌, ◌+◌, ◌-◌, ◌^◌, ℕ, Some, Ok, Err, IfOk, IfErr, IsErrOf, is_some, length, min, option_map};
ghost use Rattle.serde_json.specs.View.{items_view, view};
ghost use Rattle.ot_judge.specs.Layout.{entries_of, fields_view, layout_view};
ghost use Rattle.ot_judge.specs.Making.{IsSized};
ghost use Rattle.ot_json.specs.Fields.{all_of};
ghost use Rattle.ot_judge.specs.Reading.{event_from, event_of, shape_from, shape_of, tag_of, trace_data, trace_of_shape, trace_of_text};
ghost use Rattle.ot_model.specs.Trace.{EventView};
ghost use Rattle.ot_judge.specs.Views.{event_view, views};

use crate::fault::TraceFault;
use crate::layout::{Fields, Layout, fields_of, has_items, is_fitting, layout_of};
use crate::trace::{Event, MOST_ENTRIES, MOST_EVENTS, Trace};
use crate::value::{are_tags, counts_from, placed_list_from, tags_from};
use serde_json::Value;
use std::alloc::{AllocError, Global};

// The length of an event's list, where the value is an event.
fn list_length(value: &Value, replicas: usize) -> Option<usize>
    ensures { result ≡ option_map (λ (x : EventView). length x.list) (event_of replicas (view value.now)) }
{
    let x = fields_of(value)?;
    if is_fitting(&x, replicas) && has_items(&x) {
        Some(x.list.len())
    } else {
        None
    }
}

// How many list entries the events have, or the greatest number where there are more; None where an item is no event.
fn entries_of(items: &[Value], replicas: usize) -> Option<usize>
    ensures { result ≡ option_map (λ n. min n (2 ^ 64 - 1)) (entries_of replicas (items_view items.now)) }
{
    let mut count: usize = 0;
    for value in items {
        match list_length(value, replicas) {
            Some(n) => count = count.saturating_add(n),
            None => return None,
        }
    }
    Some(count)
}

// The event of these fields.
fn event_from(alloc: Global, x: &Fields<'_>) -> Result<Option<Event>, AllocError>
    ensures { IfOk result (λ r. option_map event_view r ≡ event_from (fields_view x.now)) }
{
    let Some(seen) = counts_from(alloc, x.seen)? else {
        return Ok(None);
    };
    let Some(inserted) = placed_list_from(alloc, x.inserted)? else {
        return Ok(None);
    };
    let Some(deleted) = tags_from(alloc, x.deleted)? else {
        return Ok(None);
    };
    let Some(list) = tags_from(alloc, x.list)? else {
        return Ok(None);
    };
    Ok(Some(Event {
        replica: x.replica,
        edit: x.edit,
        seen,
        inserted,
        deleted,
        list,
    }))
}

// The event that a value is.
fn event_of(alloc: Global, value: &Value, replicas: usize) -> Result<Option<Event>, AllocError>
    ensures { IfOk result (λ r. option_map event_view r ≡ event_of replicas (view value.now)) }
{
    let Some(x) = fields_of(value) else {
        return Ok(None);
    };
    if !is_fitting(&x, replicas) {
        return Ok(None);
    }
    let made = event_from(alloc, &x)?;
    Ok(made)
}

// The events that the items are.
fn events_from(
    alloc: Global,
    items: &[Value],
    replicas: usize,
) -> Result<Option<Vec<Event>>, AllocError>
    ensures { IfOk result (λ r. option_map (λ v. views v.items) r ≡ all_of (event_of replicas) (items_view items.now)) }
{
    let mut found = Vec::new(alloc);
    for value in items {
        match event_of(alloc, value, replicas)? {
            Some(event) => found.push(event)?,
            None => return Ok(None),
        }
    }
    Ok(Some(found))
}

// The fields of a trace of a right shape and size, or the fault; takes no memory.
fn checked_layout(value: &Value) -> Result<Layout<'_>, TraceFault>
    ensures ok { IfOk result (λ x. (trace_data (view value.now) ≡ Some (layout_view x)) × IsSomeAnd (shape_from (layout_view x)) IsSized) }
    ensures err { IfErr result (λ e. trace_of_shape (shape_of (view value.now)) ≡ Err e) }
    ensures other { IfErr result (λ e. e ≢ TraceFault.Memory) }
{
    let Some(x) = layout_of(value) else {
        return Err(TraceFault::BadShape);
    };
    if !are_tags(x.start) {
        return Err(TraceFault::BadShape);
    }
    let Some(entries) = entries_of(x.events, x.replicas) else {
        return Err(TraceFault::BadShape);
    };
    if x.events.len() > MOST_EVENTS || entries > MOST_ENTRIES {
        return Err(TraceFault::TraceFull);
    }
    Ok(x)
}

// The trace of fields of a right shape and size.
fn trace_from(alloc: Global, x: &Layout<'_>) -> Result<Trace, TraceFault>
    ensures ok { IfOk result (λ t. trace_of_shape (shape_from (layout_view x.now)) ≡ Ok t) }
    ensures err { IfErr result (λ e. (e ≡ TraceFault.Memory) ⊎ (trace_of_shape (shape_from (layout_view x.now)) ≡ Err e)) }
{
    let Some(start) = tags_from(alloc, x.start)? else {
        return Err(TraceFault::BadShape);
    };
    let Some(events) = events_from(alloc, x.events, x.replicas)? else {
        return Err(TraceFault::BadShape);
    };
    match Trace::new(alloc, x.replicas, start, events) {
        Ok(trace) => Ok(trace),
        Err((fault, _, _)) => Err(fault),
    }
}

/// The trace that a value spells, or its first fault; `NotJson` never comes, and `Memory` only where the shape and the size are right.
pub fn trace_of(alloc: Global, value: &Value) -> Result<Trace, TraceFault>
    ensures ok { IfOk result (λ t. trace_of_shape (shape_of (view value.now)) ≡ Ok t) }
    ensures err { IfErr result (λ e. (e ≡ TraceFault.Memory) ⊎ (trace_of_shape (shape_of (view value.now)) ≡ Err e)) }
    ensures memory { IfErr result (λ e. e ≡ TraceFault.Memory → IsSomeAnd (shape_of (view value.now)) IsSized) }
{
    let x = checked_layout(value)?;
    let trace = trace_from(alloc, &x)?;
    Ok(trace)
}

/// The trace that a JSON text is, or its first fault, in time linear in the text's bytes.
///
/// An object with `"replicas"` (1 to 65), `"start"` (an array of tags) and `"events"` (an array). A tag is
/// `[origin, serial]`, 0 to 65535 and 0 to 4294967295. An event is an object with `"replica"` (below `"replicas"`),
/// `"kind"` (`"edit"` or `"read"`), `"seen"` (one count for each replica, 0 to 4294967295), `"list"` (an array of tags)
/// and, where they are not empty, `"insert"` (an array of `[origin, serial, place]`, places 0 to 4294967295) and
/// `"delete"` (an array of tags). Other keys are ignored; where a key stands twice, the last value counts.
///
/// `NotJson`: `serde_json` refuses the text. `BadShape`: a key is missing, a value is of another kind or out of range, or
/// a read inserts or deletes. `TraceFull`, `TagTwice`: as `Trace::new` says. `Memory`: no memory was found; the text
/// is not empty then, and once it is JSON, this comes only where the shape and the size are right.
pub fn read_trace(alloc: Global, text: &str) -> Result<Trace, TraceFault>
    ensures ok { IfOk result (λ t. trace_of_text text.now ≡ Ok t) }
    ensures err { IfErr result (λ e. (e ≡ TraceFault.Memory) ⊎ (trace_of_text text.now ≡ Err e)) }
    ensures memory { IsErrOf result TraceFault.Memory → 0 < length text.now }
{
    match Value::from_str(alloc, text) {
        Ok(value) => trace_of(alloc, &value),
        Err(error) if error.is_memory() => Err(TraceFault::Memory),
        Err(_) => Err(TraceFault::NotJson),
    }
}
