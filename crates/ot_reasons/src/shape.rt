//! The first fault of a value as a trace; takes no memory.

ghost use Rattle.std.specs.Prelude.{◌≡◌, ◌-◌, ◌==◌, ◌||◌, IfSome, false, is_none, is_some};
ghost use Rattle.serde_json.specs.View.{items_view, view};
ghost use Rattle.ot_judge.specs.Layout.{fields_view};
ghost use Rattle.ot_judge.specs.Reading.{shape_of};
ghost use Rattle.ot_reasons.specs.Places.{found_at};
ghost use Rattle.ot_reasons.specs.Satisfied.{is_met};
ghost use Rattle.ot_reasons.specs.Faults.{count_items, event_fault, events_fault, fields_fault, fit_fault, items_fault, keys_fault, layout_fault, parts_fault, read_fault, trace_fault};

use crate::checks::{all_placed_fault, count, counts_fault, tags_fault, unless, wants};
use crate::place::{Fault, Field, HERE, Place, Wanted};
use ot_json::{items_at, items_or_none, number_at};
use ot_judge::layout::{Fields, fields_of, kind_of, layout_of};
use serde_json::Value;

// What is wanted as the number of an event's replica.
fn replica_wanted(replicas: usize) -> Wanted
    ensures { result ≡ Wanted.Number (replicas - 1) }
{
    Wanted::Number(replicas.saturating_sub(1) as u64)
}

// The first key of an event that is missing, or under which a value of another kind stands.
fn keys_fault(value: &Value, replicas: usize, place: Place) -> Option<Fault>
    ensures { result ≡ keys_fault replicas place (view value.now) }
{
    if number_at(value, "replica").is_none() {
        return wants(place.in_field(Field::Replica), replica_wanted(replicas));
    }
    if kind_of(value).is_none() {
        return wants(place.in_field(Field::Kind), Wanted::Kind);
    }
    if items_at(value, "seen").is_none() {
        return wants(place.in_field(Field::Seen), Wanted::Counts(replicas));
    }
    if items_or_none(value, "insert").is_none() {
        return wants(place.in_field(Field::Insert), Wanted::Array);
    }
    if items_or_none(value, "delete").is_none() {
        return wants(place.in_field(Field::Delete), Wanted::Array);
    }
    unless(
        items_at(value, "list").is_some(),
        place.in_field(Field::List),
        Wanted::Array,
    )
}

// The first fault of a value whose keys are not those of an event.
fn fields_fault(value: &Value, replicas: usize, place: Place) -> Option<Fault>
    ensures { result ≡ fields_fault replicas place (view value.now) }
{
    if !value.is_object() {
        return wants(place, Wanted::Object);
    }
    keys_fault(value, replicas, place)
}

// Whether the items change nothing, or the event is an edit.
fn may_change(edit: bool, items: &[Value]) -> bool
    ensures { result ≡ (edit || (count_items (items_view items.now) == 0)) }
{
    edit || count(items) == 0
}

// The fault of a read with items that would change something.
fn read_fault(edit: bool, items: &[Value], place: Place) -> Option<Fault>
    ensures { result ≡ read_fault edit (items_view items.now) place }
{
    unless(may_change(edit, items), place, Wanted::Nothing)
}

// The first field of an event that does not fit the number of replicas, or with which a read would change something.
fn fit_fault(x: &Fields<'_>, replicas: usize, place: Place) -> Option<Fault>
    ensures { result ≡ fit_fault replicas place (fields_view x.now) }
{
    if x.replica >= replicas {
        return wants(place.in_field(Field::Replica), replica_wanted(replicas));
    }
    if count(x.seen) != replicas {
        return wants(place.in_field(Field::Seen), Wanted::Counts(replicas));
    }
    if let Some(fault) = read_fault(x.edit, x.inserted, place.in_field(Field::Insert)) {
        return Some(fault);
    }
    read_fault(x.edit, x.deleted, place.in_field(Field::Delete))
}

// The first item of an event's arrays that is none.
fn items_fault(x: &Fields<'_>, place: Place) -> Option<Fault>
    ensures { result ≡ items_fault place (fields_view x.now) }
{
    if let Some(fault) = counts_fault(x.seen, place.in_field(Field::Seen)) {
        return Some(fault);
    }
    if let Some(fault) = all_placed_fault(x.inserted, place.in_field(Field::Insert)) {
        return Some(fault);
    }
    if let Some(fault) = tags_fault(x.deleted, place.in_field(Field::Delete)) {
        return Some(fault);
    }
    tags_fault(x.list, place.in_field(Field::List))
}

// The first fault of a value as an event.
fn event_fault(value: &Value, replicas: usize, place: Place) -> Option<Fault>
    ensures { result ≡ event_fault replicas place (view value.now) }
{
    let Some(x) = fields_of(value) else {
        return fields_fault(value, replicas, place);
    };
    if let Some(fault) = fit_fault(&x, replicas, place) {
        return Some(fault);
    }
    items_fault(&x, place)
}

// The first fault of items as events.
fn events_fault(items: &[Value], replicas: usize) -> Option<Fault>
    ensures { result ≡ events_fault replicas (items_view items.now) }
{
    for (k, value) in items.iter().enumerate() {
        if let Some(fault) = event_fault(value, replicas, Place::of_event(k)) {
            return Some(fault);
        }
    }
    None
}

// The first key of a trace that is missing, or under which a value of another kind or range stands.
fn parts_fault(value: &Value) -> Option<Fault>
    ensures { result ≡ parts_fault (view value.now) }
{
    match number_at(value, "replicas") {
        Some(replicas) if replicas > 0 && replicas < 66 => {}
        _ => return wants(HERE.in_field(Field::Replicas), Wanted::Positive(65)),
    }
    if items_at(value, "start").is_none() {
        return wants(HERE.in_field(Field::Start), Wanted::Array);
    }
    unless(
        items_at(value, "events").is_some(),
        HERE.in_field(Field::Events),
        Wanted::Array,
    )
}

// The first fault of a value whose keys are not those of a trace.
fn layout_fault(value: &Value) -> Option<Fault>
    ensures { result ≡ layout_fault (view value.now) }
{
    if !value.is_object() {
        return wants(HERE, Wanted::Object);
    }
    parts_fault(value)
}

// The first fault of a value as a trace.
fn trace_fault(value: &Value) -> Option<Fault>
    ensures { result ≡ trace_fault (view value.now) }
{
    let Some(x) = layout_of(value) else {
        return layout_fault(value);
    };
    if let Some(fault) = tags_fault(x.start, HERE.in_field(Field::Start)) {
        return Some(fault);
    }
    events_fault(x.events, x.replicas)
}

/// The first place of a value that keeps it from having the shape of a trace, and what is wanted there; none exactly where
/// `ot_judge::trace_of` does not answer `BadShape`. What stands there is not what is wanted. In time linear in the value.
pub fn shape_fault(value: &Value) -> Option<Fault>
    ensures first { result ≡ trace_fault (view value.now) }
    ensures exact { is_none result ≡ is_some (shape_of (view value.now)) }
    ensures unmet { IfSome result (λ f. is_met f.wanted (found_at f.place (view value.now)) ≡ false) }
{
    trace_fault(value)
}
