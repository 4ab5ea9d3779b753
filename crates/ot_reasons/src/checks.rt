//! Faults of numbers, tags, inserted elements, and arrays of them.

ghost use Rattle.std.specs.Prelude.{◌≡◌, is_some};
ghost use Rattle.serde_json.specs.View.{items_view, view};
ghost use Rattle.ot_judge.specs.Reading.{number_at_most};
ghost use Rattle.ot_reasons.specs.Faults.{all_placed_fault, count_fault, count_items, counts_fault, number_fault, numbers_fault, placed_fault, placed_parts, tag_fault, tag_parts, tags_fault, triple_fault, unless, wants};

use crate::place::{Fault, Place, Wanted};
use ot_judge::value::number_at_most;
use serde_json::Value;

/// The fault that something else is wanted at a place.
pub(crate) fn wants(place: Place, wanted: Wanted) -> Option<Fault>
    ensures { result ≡ wants place wanted }
{
    Some(Fault { place, wanted })
}

/// A fault where a test is not met.
pub(crate) fn unless(met: bool, place: Place, wanted: Wanted) -> Option<Fault>
    ensures { result ≡ unless met place wanted }
{
    if met { None } else { wants(place, wanted) }
}

/// How many items there are.
pub(crate) fn count(items: &[Value]) -> usize
    ensures { result ≡ count_items (items_view items.now) }
{
    items.len()
}

// The fault of a value that is no whole number from 0 to `most`.
fn number_fault(value: &Value, most: u64, place: Place) -> Option<Fault>
    ensures { result ≡ number_fault most place (view value.now) }
{
    unless(
        number_at_most(value, most).is_some(),
        place,
        Wanted::Number(most),
    )
}

// The first fault of an origin and a serial.
fn numbers_fault(origin: &Value, serial: &Value, place: Place) -> Option<Fault>
    ensures { result ≡ numbers_fault place (view origin.now) (view serial.now) }
{
    if let Some(fault) = number_fault(origin, 65_535, place.in_part(0)) {
        return Some(fault);
    }
    number_fault(serial, 4_294_967_295, place.in_part(1))
}

// The first fault of two items.
fn tag_parts(items: &[Value], place: Place) -> Option<Fault>
    ensures { result ≡ tag_parts place (items_view items.now) }
{
    if items.len() != 2 {
        return wants(place, Wanted::Tag);
    }
    numbers_fault(&items[0], &items[1], place)
}

// The first fault of a value as a tag.
fn tag_fault(value: &Value, place: Place) -> Option<Fault>
    ensures { result ≡ tag_fault place (view value.now) }
{
    match value.as_array() {
        Some(items) => tag_parts(items.as_slice(), place),
        None => wants(place, Wanted::Tag),
    }
}

// The first fault of an origin, a serial and a place.
fn triple_fault(origin: &Value, serial: &Value, at: &Value, place: Place) -> Option<Fault>
    ensures { result ≡ triple_fault place (view origin.now) (view serial.now) (view at.now) }
{
    if let Some(fault) = numbers_fault(origin, serial, place) {
        return Some(fault);
    }
    number_fault(at, 4_294_967_295, place.in_part(2))
}

// The first fault of three items.
fn placed_parts(items: &[Value], place: Place) -> Option<Fault>
    ensures { result ≡ placed_parts place (items_view items.now) }
{
    if items.len() != 3 {
        return wants(place, Wanted::Placed);
    }
    triple_fault(&items[0], &items[1], &items[2], place)
}

// The first fault of a value as an inserted element.
fn placed_fault(value: &Value, place: Place) -> Option<Fault>
    ensures { result ≡ placed_fault place (view value.now) }
{
    match value.as_array() {
        Some(items) => placed_parts(items.as_slice(), place),
        None => wants(place, Wanted::Placed),
    }
}

/// The first fault of items as tags, in time linear in them.
pub(crate) fn tags_fault(items: &[Value], place: Place) -> Option<Fault>
    ensures { result ≡ tags_fault place (items_view items.now) }
{
    for (k, value) in items.iter().enumerate() {
        if let Some(fault) = tag_fault(value, place.in_item(k)) {
            return Some(fault);
        }
    }
    None
}

/// The first fault of items as inserted elements, in time linear in them.
pub(crate) fn all_placed_fault(items: &[Value], place: Place) -> Option<Fault>
    ensures { result ≡ all_placed_fault place (items_view items.now) }
{
    for (k, value) in items.iter().enumerate() {
        if let Some(fault) = placed_fault(value, place.in_item(k)) {
            return Some(fault);
        }
    }
    None
}

/// The first fault of items as counts of edits, in time linear in them.
pub(crate) fn counts_fault(items: &[Value], place: Place) -> Option<Fault>
    ensures { result ≡ counts_fault place (items_view items.now) }
{
    for (k, value) in items.iter().enumerate() {
        if let Some(fault) = number_fault(value, 4_294_967_295, place.in_item(k)) {
            return Some(fault);
        }
    }
    None
}
