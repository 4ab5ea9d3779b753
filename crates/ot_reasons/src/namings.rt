//! The first two places that name a tag.

ghost use Rattle.std.specs.Prelude.{◌≡◌, option_map};
ghost use Rattle.serde_json.specs.View.{items_view, view};
ghost use Rattle.ot_json.specs.Fields.{items_at, items_or_none};
ghost use Rattle.ot_judge.specs.Reading.{placed_of, tag_of};
ghost use Rattle.ot_model.specs.declared.trace.Placed.{Placed};
ghost use Rattle.ot_reasons.specs.Namings.{in_start, is_named, namings_of, note, note_each, note_event, note_placed, note_tag, with_place};

use crate::place::{Field, HERE, Place};
use ot_isa::Tag;
use ot_json::{items_at, items_or_none};
use ot_judge::value::{placed_of, tag_of};
use serde_json::Value;

/// The first two places of a trace's value that name a tag, so far as there are such.
#[derive(Clone, Copy, Debug, PartialEq, Eq)]
pub struct Namings {
    pub first: Option<Place>,
    pub second: Option<Place>,
}

// Whether this is the tag.
fn is_named(tag: Tag, found: Option<Tag>) -> bool
    ensures { result ≡ is_named tag found }
{
    match found {
        Some(found) => tag.origin == found.origin && tag.serial == found.serial,
        None => false,
    }
}

impl Namings {
    // One place more, if there were fewer than two.
    fn with_place(self, place: Place) -> Namings
        ensures { result ≡ with_place place self.first self.second }
    {
        match (self.first, self.second) {
            (None, second) => Namings {
                first: Some(place),
                second,
            },
            (Some(first), None) => Namings {
                first: Some(first),
                second: Some(place),
            },
            (Some(first), Some(second)) => Namings {
                first: Some(first),
                second: Some(second),
            },
        }
    }

    // One place more, where it names the tag.
    fn note(self, here: bool, place: Place) -> Namings
        ensures { result ≡ note here place self }
    {
        if here { self.with_place(place) } else { self }
    }
}

// The tag of an inserted element.
fn placed_tag(value: &Value) -> Option<Tag>
    ensures { result ≡ option_map (λ (x : Placed). x.tag) (placed_of (view value.now)) }
{
    match placed_of(value) {
        Some(placed) => Some(placed.tag),
        None => None,
    }
}

// The tags of `start`.
fn note_tags(items: &[Value], tag: Tag, place: Place, found: Namings) -> Namings
    ensures { result ≡ note_each (note_tag tag place) 0 (items_view items.now) found }
{
    let mut found = found;
    for (k, value) in items.iter().enumerate() {
        found = found.note(is_named(tag, tag_of(value)), place.in_item(k));
    }
    found
}

// The tags that an event inserts.
fn note_inserted(items: &[Value], tag: Tag, place: Place, found: Namings) -> Namings
    ensures { result ≡ note_each (note_placed tag place) 0 (items_view items.now) found }
{
    let mut found = found;
    for (k, value) in items.iter().enumerate() {
        found = found.note(is_named(tag, placed_tag(value)), place.in_item(k));
    }
    found
}

// An event.
fn note_event(value: &Value, tag: Tag, k: usize, found: Namings) -> Namings
    ensures { result ≡ note_event tag k (view value.now) found }
{
    let place = Place::of_event(k).in_field(Field::Insert);
    match items_or_none(value, "insert") {
        Some(items) => note_inserted(items, tag, place, found),
        None => found,
    }
}

// The events.
fn note_events(items: &[Value], tag: Tag, found: Namings) -> Namings
    ensures { result ≡ note_each (note_event tag) 0 (items_view items.now) found }
{
    let mut found = found;
    for (k, value) in items.iter().enumerate() {
        found = note_event(value, tag, k, found);
    }
    found
}

// The places of `start`.
fn in_start(value: &Value, tag: Tag) -> Namings
    ensures { result ≡ in_start tag (view value.now) }
{
    let nowhere = Namings {
        first: None,
        second: None,
    };
    match items_at(value, "start") {
        Some(items) => note_tags(items, tag, HERE.in_field(Field::Start), nowhere),
        None => nowhere,
    }
}

/// The first two places of a trace's value that name a tag: the start's first, and then those of what the events insert, by event.
/// In time linear in the value.
pub fn namings_of(value: &Value, tag: Tag) -> Namings
    ensures { result ≡ namings_of tag (view value.now) }
{
    let found = in_start(value, tag);
    match items_at(value, "events") {
        Some(items) => note_events(items, tag, found),
        None => found,
    }
}
