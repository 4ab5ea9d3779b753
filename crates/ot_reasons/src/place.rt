//! Places in the JSON value of a trace or a plan, and what is wanted there.

ghost use Rattle.std.specs.Prelude.{◌≡◌, codes, option_map};
ghost use Rattle.serde_json.specs.View.{view};
ghost use Rattle.ot_reasons.specs.Places.{event_if, event_place, field_if, found_at, here, in_field, in_item, in_key, in_part, item_if, key_of, row_place};

use serde_json::Value;

/// A key of a trace or of an event, of a plan or of an action.
#[derive(Clone, Copy, Debug, PartialEq, Eq)]
pub enum Field {
    Replicas,
    Start,
    Events,
    Replica,
    Kind,
    Seen,
    Insert,
    Delete,
    List,
    Clients,
    Workers,
    Present,
    Typing,
    At,
}

/// A path into the value of a trace or a plan: into an event, counted from 0, or not; from there to what stands under a key; to an
/// item of that, counted from 0; to a part of the item; and to what stands under a key of the part. What is left out is not gone
/// into: with nothing the path is that of the whole value.
#[derive(Clone, Copy, Debug, PartialEq, Eq)]
pub struct Place {
    pub event: Option<usize>,
    pub field: Option<Field>,
    pub item: Option<usize>,
    pub part: Option<usize>,
    pub key: Option<Field>,
}

/// What is wanted at a place.
#[derive(Clone, Copy, Debug, PartialEq, Eq)]
pub enum Wanted {
    Object,
    /// A whole number from 1 to this one.
    Positive(u64),
    /// A whole number from 0 to this one.
    Number(u64),
    Array,
    /// An array `[origin, serial]`.
    Tag,
    /// An array `[origin, serial, place]`.
    Placed,
    /// `"edit"` or `"read"`.
    Kind,
    /// An array of so many counts, one for each replica.
    Counts(usize),
    /// Nothing, since the event is a read.
    Nothing,
    Text,
    /// A text of at most 40,000 characters.
    StartText,
    /// An array of so many lists of actions, one for each client.
    Lists(u64),
    /// Actions of one client that insert at most 15,000 characters together.
    Insertions,
    /// At most 1,000 actions of one client.
    Actions,
}

/// A place where not what is wanted stands.
#[derive(Clone, Copy, Debug, PartialEq, Eq)]
pub struct Fault {
    pub place: Place,
    pub wanted: Wanted,
}

/// The whole value.
pub(crate) const HERE: Place = Place {
    event: None,
    field: None,
    item: None,
    part: None,
    key: None,
};

impl Place {
    /// An event of the trace.
    pub(crate) fn of_event(event: usize) -> Place
        ensures { result ≡ event_place event }
    {
        Place {
            event: Some(event),
            ..HERE
        }
    }

    /// The actions of a client of the plan.
    pub(crate) fn of_row(row: usize) -> Place
        ensures { result ≡ row_place row }
    {
        HERE.in_field(Field::Typing).in_item(row)
    }

    /// What stands under a key there.
    pub(crate) fn in_field(self, field: Field) -> Place
        ensures { result ≡ in_field self field }
    {
        Place {
            field: Some(field),
            ..self
        }
    }

    /// An item of what stands there.
    pub(crate) fn in_item(self, item: usize) -> Place
        ensures { result ≡ in_item self item }
    {
        Place {
            item: Some(item),
            ..self
        }
    }

    /// A part of the item there.
    pub(crate) fn in_part(self, part: usize) -> Place
        ensures { result ≡ in_part self part }
    {
        Place {
            part: Some(part),
            ..self
        }
    }

    /// What stands under a key of the part there.
    pub(crate) fn in_key(self, key: Field) -> Place
        ensures { result ≡ in_key self key }
    {
        Place {
            key: Some(key),
            ..self
        }
    }
}

/// A key's text.
pub(crate) fn key_of(field: Field) -> &'static str
    ensures { result.now ≡ key_of field }
{
    match field {
        Field::Replicas => "replicas",
        Field::Start => "start",
        Field::Events => "events",
        Field::Replica => "replica",
        Field::Kind => "kind",
        Field::Seen => "seen",
        Field::Insert => "insert",
        Field::Delete => "delete",
        Field::List => "list",
        Field::Clients => "clients",
        Field::Workers => "workers",
        Field::Present => "present",
        Field::Typing => "typing",
        Field::At => "at",
    }
}

// The event that the path goes into, or the value itself.
fn event_if(value: &Value, event: Option<usize>) -> Option<&Value>
    ensures { option_map (λ v. view v.now) result ≡ event_if event (view value.now) }
{
    match event {
        Some(event) => value.get("events")?.get(event),
        None => Some(value),
    }
}

// What stands under the key that the path goes into, or the value itself.
fn field_if(value: &Value, field: Option<Field>) -> Option<&Value>
    ensures { option_map (λ v. view v.now) result ≡ field_if field (view value.now) }
{
    match field {
        Some(field) => value.get(key_of(field)),
        None => Some(value),
    }
}

// The item that the path goes into, or the value itself.
fn item_if(value: &Value, item: Option<usize>) -> Option<&Value>
    ensures { option_map (λ v. view v.now) result ≡ item_if item (view value.now) }
{
    match item {
        Some(item) => value.get(item),
        None => Some(value),
    }
}

/// What stands at a place of a value, if something does.
pub(crate) fn found_at(value: &Value, place: Place) -> Option<&Value>
    ensures { option_map (λ v. view v.now) result ≡ found_at place (view value.now) }
{
    let event = event_if(value, place.event)?;
    let field = field_if(event, place.field)?;
    let item = item_if(field, place.item)?;
    let part = item_if(item, place.part)?;
    field_if(part, place.key)
}
