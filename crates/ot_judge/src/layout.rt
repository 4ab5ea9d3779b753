//! The fields of traces and events in a JSON value, with the items of their arrays as they are.

ghost use Rattle.std.specs.Prelude.{◌≡◌, ◌<◌, IfSome, is_some, length, option_map, true};
ghost use Rattle.serde_json.specs.View.{view};
ghost use Rattle.ot_judge.specs.Layout.{fields_view, is_fitting, layout_view};
ghost use Rattle.ot_judge.specs.Reading.{event_data, event_from, is_replicas, kind_of, trace_data};

use crate::value::{are_counts, are_placed, are_tags};
use ot_json::{items_at, items_or_none, number_at};
use serde_json::Value;

/// The fields of an event.
#[derive(Clone, Copy)]
pub struct Fields<'a> {
    pub replica: usize,
    pub edit: bool,
    pub seen: &'a [Value],
    pub inserted: &'a [Value],
    pub deleted: &'a [Value],
    pub list: &'a [Value],
}

/// The fields of a trace.
#[derive(Clone, Copy)]
pub struct Layout<'a> {
    pub replicas: usize,
    pub start: &'a [Value],
    pub events: &'a [Value],
}

/// Whether an event is an edit.
pub fn kind_of(value: &Value) -> Option<bool>
    ensures { result ≡ kind_of (view value.now) }
{
    let word = value.get("kind")?.as_str()?;
    if word == "edit" {
        return Some(true);
    }
    if word == "read" {
        return Some(false);
    }
    None
}

/// The fields of an event.
pub fn fields_of(value: &Value) -> Option<Fields<'_>>
    ensures { option_map fields_view result ≡ event_data (view value.now) }
{
    let replica = number_at(value, "replica")? as usize;
    let edit = kind_of(value)?;
    let seen = items_at(value, "seen")?;
    let inserted = items_or_none(value, "insert")?;
    let deleted = items_or_none(value, "delete")?;
    let list = items_at(value, "list")?;
    Some(Fields {
        replica,
        edit,
        seen,
        inserted,
        deleted,
        list,
    })
}

/// The fields of a trace of 1 to 65 replicas.
pub fn layout_of(value: &Value) -> Option<Layout<'_>>
    ensures fields { option_map layout_view result ≡ trace_data (view value.now) }
    ensures range { IfSome result (λ x. is_replicas x.replicas ≡ true) }
{
    let replicas = number_at(value, "replicas")? as usize;
    if replicas == 0 || replicas > 65 {
        return None;
    }
    let start = items_at(value, "start")?;
    let events = items_at(value, "events")?;
    Some(Layout {
        replicas,
        start,
        events,
    })
}

/// Whether the fields fit an event among so many replicas, before their items are looked at.
pub fn is_fitting(x: &Fields<'_>, replicas: usize) -> bool
    ensures { result ≡ is_fitting replicas x.now }
{
    x.replica < replicas
        && x.seen.len() == replicas
        && (x.edit || (x.inserted.is_empty() && x.deleted.is_empty()))
}

/// Whether each item of the fields is what it has to be.
pub fn has_items(x: &Fields<'_>) -> bool
    ensures { result ≡ is_some (event_from (fields_view x.now)) }
{
    are_counts(x.seen) && are_placed(x.inserted) && are_tags(x.deleted) && are_tags(x.list)
}
