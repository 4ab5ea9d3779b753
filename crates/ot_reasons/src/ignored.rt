//! The keys of a plan that are not read.

ghost use Rattle.std.specs.Prelude.{◌≡◌, IfOk, OnOk, string_bytes};
ghost use Rattle.json.specs.Print.{quoted};
ghost use Rattle.serde_json.specs.Find.{as_object};
ghost use Rattle.serde_json.specs.View.{items_view, members_view, view};
ghost use Rattle.ot_reasons.specs.Namings.{note_each};
ghost use Rattle.ot_reasons.specs.Ignored.{ignored_in, ignored_row, ignored_rows, is_read, key_value, key_values, read_text, shown_key, unless_read, with_action, with_key, with_keys, with_members, with_row};

use crate::place::{HERE, Place};
use crate::words::place_text;
use ot_json::items_at;
use serde_json::{Map, Value};
use std::alloc::{AllocError, Global};

/// So many keys are named.
const MOST_NAMED: usize = 16;

/// How many bytes of a key's JSON are shown whole.
const SHOWN: usize = 60;

/// An object of a plan.
#[derive(Clone, Copy, Debug, PartialEq, Eq)]
pub enum Part {
    Plan,
    Action,
}

/// A key that is not read: which object has it, where that stands, and the key.
#[derive(Debug, Drop)]
pub struct Ignored {
    pub part: Part,
    pub place: Place,
    pub key: String,
}

fn is_read(part: Part, key: &str) -> bool
    ensures { result ≡ is_read part key.now }
{
    match part {
        Part::Plan => {
            key == "clients"
                || key == "workers"
                || key == "typing"
                || key == "start"
                || key == "present"
        }
        Part::Action => key == "at" || key == "delete" || key == "insert",
    }
}

// One more key, where there is room.
fn note_key(
    alloc: Global,
    found: &mut Vec<Ignored>,
    part: Part,
    place: Place,
    key: &str,
) -> Result<(), AllocError>
    ensures { OnOk result (key_values found.new.items ≡ with_key part place key.now (key_values found.old.items)) }
{
    if found.len() >= MOST_NAMED {
        return Ok(());
    }
    let key = String::from_str(alloc, key)?;
    found.push(Ignored { part, place, key })?;
    Ok(())
}

// The key, where it is not read.
fn note_unread(
    alloc: Global,
    found: &mut Vec<Ignored>,
    part: Part,
    place: Place,
    key: &str,
) -> Result<(), AllocError>
    ensures { OnOk result (key_values found.new.items ≡ unless_read part place key.now (key_values found.old.items)) }
{
    if is_read(part, key) {
        return Ok(());
    }
    note_key(alloc, found, part, place, key)
}

// The keys of an object.
fn note_members(
    alloc: Global,
    found: &mut Vec<Ignored>,
    part: Part,
    place: Place,
    members: &Map<String, Value>,
) -> Result<(), AllocError>
    ensures { OnOk result (key_values found.new.items ≡ with_members part place (members_view members.now.entries) (key_values found.old.items)) }
{
    for (key, _) in members.iter() {
        note_unread(alloc, found, part, place, key.as_str())?;
    }
    Ok(())
}

// The keys of a value that is an object.
fn note_keys(
    alloc: Global,
    found: &mut Vec<Ignored>,
    part: Part,
    place: Place,
    value: &Value,
) -> Result<(), AllocError>
    ensures { OnOk result (key_values found.new.items ≡ with_keys part place (as_object (view value.now)) (key_values found.old.items)) }
{
    match value.as_object() {
        Some(members) => note_members(alloc, found, part, place, members),
        None => Ok(()),
    }
}

// The keys of a client's actions.
fn note_actions(
    alloc: Global,
    found: &mut Vec<Ignored>,
    place: Place,
    actions: &[Value],
) -> Result<(), AllocError>
    ensures { OnOk result (key_values found.new.items ≡ note_each (with_action place) 0 (items_view actions.now) (key_values found.old.items)) }
{
    for (k, action) in actions.iter().enumerate() {
        note_keys(alloc, found, Part::Action, place.in_part(k), action)?;
    }
    Ok(())
}

// The keys of the actions of the client with this number.
fn note_row(
    alloc: Global,
    found: &mut Vec<Ignored>,
    k: usize,
    row: &Value,
) -> Result<(), AllocError>
    ensures { OnOk result (key_values found.new.items ≡ with_row k (view row.now) (key_values found.old.items)) }
{
    match row.as_array() {
        Some(actions) => note_actions(alloc, found, Place::of_row(k), actions.as_slice()),
        None => Ok(()),
    }
}

// The keys of all clients' actions.
fn note_rows(alloc: Global, found: &mut Vec<Ignored>, rows: &[Value]) -> Result<(), AllocError>
    ensures { OnOk result (key_values found.new.items ≡ note_each with_row 0 (items_view rows.now) (key_values found.old.items)) }
{
    for (k, row) in rows.iter().enumerate() {
        note_row(alloc, found, k, row)?;
    }
    Ok(())
}

/// The first 16 keys of a plan that are not read: its own, and then those of its actions.
pub fn ignored_keys(alloc: Global, value: &Value) -> Result<Vec<Ignored>, AllocError>
    ensures { IfOk result (λ found. key_values found.items ≡ ignored_in (view value.now)) }
{
    let mut found = Vec::new(alloc);
    note_keys(alloc, &mut found, Part::Plan, HERE, value)?;
    if let Some(rows) = items_at(value, "typing") {
        note_rows(alloc, &mut found, rows)?;
    }
    Ok(found)
}

// A key as a JSON string.
fn quoted(alloc: Global, key: &str) -> Result<String, AllocError>
    ensures { IfOk result (λ s. string_bytes s ≡ quoted key.now) }
{
    let key = String::from_str(alloc, key)?;
    Value::String(key).to_string(alloc)
}

// The same, or of a long one how long it is.
fn shown_key(alloc: Global, key: &str) -> Result<String, AllocError>
    ensures { IfOk result (λ s. string_bytes s ≡ shown_key key.now) }
{
    let json = quoted(alloc, key)?;
    if json.len() > SHOWN {
        let len = key.len();
        return format!(in alloc; "a key of {len} bytes");
    }
    Ok(json)
}

fn read_text(part: Part) -> &'static str
    ensures { result.now ≡ read_text part }
{
    match part {
        Part::Plan => "a plan has clients, workers, typing, start and present",
        Part::Action => "an action has at, delete and insert",
    }
}

fn ignored_row(alloc: Global, ignored: &Ignored) -> Result<String, AllocError>
    ensures { IfOk result (λ s. string_bytes s ≡ ignored_row (key_value ignored.now)) }
{
    let key = shown_key(alloc, ignored.key.as_str())?;
    let place = place_text(alloc, "the plan", ignored.place)?;
    let read = read_text(ignored.part);
    format!(in alloc; "ignored {key} in {place}; {read}\n")
}

/// A row for each of them: what is ignored, where, and what is read there.
pub fn ignored_text(alloc: Global, ignored: &[Ignored]) -> Result<String, AllocError>
    ensures { IfOk result (λ s. string_bytes s ≡ ignored_rows (key_values ignored.now)) }
{
    let mut rows = String::new(alloc);
    for key in ignored {
        let row = ignored_row(alloc, key)?;
        rows.push_str(row.as_str())?;
    }
    Ok(rows)
}
