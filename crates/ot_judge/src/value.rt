//! Numbers, tags and inserted elements as JSON values.

ghost use Rattle.std.specs.Prelude.{◌≡◌, ◌<◌, ◌^◌, IfOk, is_some, length, option_map};
ghost use Rattle.serde_json.specs.View.{items_view, view};
ghost use Rattle.ot_json.specs.Fields.{all_of};
ghost use Rattle.ot_judge.specs.Reading.{count_of, number_at_most, placed_from, placed_of, placed_with, tag_from, tag_of, tag_with};

use ot_isa::Tag;
use ot_model::Placed;
use serde_json::Value;
use std::alloc::{AllocError, Global};

/// A whole number from 0 to `most`.
pub fn number_at_most(value: &Value, most: u64) -> Option<u64>
    ensures { result ≡ number_at_most most (view value.now) }
{
    match value.as_u64() {
        Some(n) if n <= most => Some(n),
        _ => None,
    }
}

/// A count of edits, 0 to 4,294,967,295.
pub fn count_of(value: &Value) -> Option<u32>
    ensures { result ≡ count_of (view value.now) }
{
    let n = number_at_most(value, 4_294_967_295)?;
    Some(n as u32)
}

// The tag of an origin, 0 to 65,535, and a serial, 0 to 4,294,967,295.
fn tag_with(origin: &Value, serial: &Value) -> Option<Tag>
    ensures { result ≡ tag_with (view origin.now) (view serial.now) }
{
    let origin = number_at_most(origin, 65_535)?;
    let serial = number_at_most(serial, 4_294_967_295)?;
    Some(Tag {
        origin: origin as u16,
        serial: serial as u32,
    })
}

// The tag that two items are.
fn tag_from(items: &[Value]) -> Option<Tag>
    ensures { result ≡ tag_from (items_view items.now) }
{
    if items.len() != 2 {
        return None;
    }
    tag_with(&items[0], &items[1])
}

/// The tag that an array `[origin, serial]` is.
pub fn tag_of(value: &Value) -> Option<Tag>
    ensures { result ≡ tag_of (view value.now) }
{
    match value.as_array() {
        Some(items) => tag_from(items.as_slice()),
        None => None,
    }
}

// The inserted element of a tag's numbers and a place, 0 to 4,294,967,295.
fn placed_with(origin: &Value, serial: &Value, place: &Value) -> Option<Placed>
    ensures { result ≡ placed_with (view origin.now) (view serial.now) (view place.now) }
{
    let tag = tag_with(origin, serial)?;
    let place = number_at_most(place, 4_294_967_295)?;
    Some(Placed {
        tag,
        place: place as usize,
    })
}

// The inserted element that three items are.
fn placed_from(items: &[Value]) -> Option<Placed>
    ensures { result ≡ placed_from (items_view items.now) }
{
    if items.len() != 3 {
        return None;
    }
    placed_with(&items[0], &items[1], &items[2])
}

/// The inserted element that an array `[origin, serial, place]` is.
pub fn placed_of(value: &Value) -> Option<Placed>
    ensures { result ≡ placed_of (view value.now) }
{
    match value.as_array() {
        Some(items) => placed_from(items.as_slice()),
        None => None,
    }
}

/// Whether each item is a count.
pub fn are_counts(items: &[Value]) -> bool
    ensures { result ≡ is_some (all_of count_of (items_view items.now)) }
{
    for value in items {
        if count_of(value).is_none() {
            return false;
        }
    }
    true
}

/// Whether each item is a tag.
pub fn are_tags(items: &[Value]) -> bool
    ensures { result ≡ is_some (all_of tag_of (items_view items.now)) }
{
    for value in items {
        if tag_of(value).is_none() {
            return false;
        }
    }
    true
}

/// Whether each item is an inserted element.
pub fn are_placed(items: &[Value]) -> bool
    ensures { result ≡ is_some (all_of placed_of (items_view items.now)) }
{
    for value in items {
        if placed_of(value).is_none() {
            return false;
        }
    }
    true
}

/// The counts that the items are.
pub fn counts_from(alloc: Global, items: &[Value]) -> Result<Option<Vec<u32>>, AllocError>
    ensures { IfOk result (λ r. option_map (λ v. v.items) r ≡ all_of count_of (items_view items.now)) }
{
    let mut found = Vec::new(alloc);
    for value in items {
        match count_of(value) {
            Some(n) => found.push(n)?,
            None => return Ok(None),
        }
    }
    Ok(Some(found))
}

/// The tags that the items are.
pub fn tags_from(alloc: Global, items: &[Value]) -> Result<Option<Vec<Tag>>, AllocError>
    ensures { IfOk result (λ r. option_map (λ v. v.items) r ≡ all_of tag_of (items_view items.now)) }
{
    let mut found = Vec::new(alloc);
    for value in items {
        match tag_of(value) {
            Some(tag) => found.push(tag)?,
            None => return Ok(None),
        }
    }
    Ok(Some(found))
}

/// The inserted elements that the items are.
pub fn placed_list_from(alloc: Global, items: &[Value]) -> Result<Option<Vec<Placed>>, AllocError>
    ensures { IfOk result (λ r. option_map (λ v. v.items) r ≡ all_of placed_of (items_view items.now)) }
{
    let mut found = Vec::new(alloc);
    for value in items {
        match placed_of(value) {
            Some(placed) => found.push(placed)?,
            None => return Ok(None),
        }
    }
    Ok(Some(found))
}
