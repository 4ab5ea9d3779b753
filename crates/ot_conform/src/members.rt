//! The answer, as the members of a JSON object. Values of lines are strings with the same text as in the words, so that no reader loses digits
//! of a number, or takes `none` for a text.

ghost use Rattle.std.specs.Prelude.{◌≡◌, [], IfOk, decimal, map, option_map, string_bytes};
ghost use Rattle.ot_rules.specs.Explained.{explained_value};
ghost use Rattle.ot_rules.specs.Text.{given_value, given_values};
ghost use Rattle.ot_conform.specs.Answers as answers;
ghost use Rattle.ot_conform.specs.Counted.{counted_keys};
ghost use Rattle.ot_conform.specs.Json as json;
ghost use Rattle.ot_conform.specs.Points.{points_value};
ghost use Rattle.ot_conform.specs.Unknown.{all_named, named_of};
ghost use Rattle.ot_values.specs.Items.{with_items};

use crate::answer::Answer;
use crate::answers::{Difference, Owner, field_name, quoted};
use crate::comparison::Verdict;
use crate::counts::{COUNTED, Counts};
use crate::malformed::{Malformed, malformed_sentence};
use crate::points::{Points, points_of};
use crate::printing::{agreement_word, count_name};
use crate::unknown::UnknownKey;
use ot_machine::Refusal;
use ot_rules::{Explained, Given};
use ot_steps::Key;
use ot_values::{push_item, refusal_name};
use std::alloc::{AllocError, Global};

// A member of an object that stands behind another one, of a value in JSON: `,"NAME":VALUE`.
fn member(alloc: Global, name: &str, value: &str) -> Result<String, AllocError>
    ensures { IfOk result (λ s. string_bytes s ≡ json.member name.now value.now) }
{
    format!(in alloc; ",\"{name}\":{value}")
}

/// A member of an object that stands behind another one: a text, which becomes a JSON string.
pub fn text_member(alloc: Global, name: &str, text: &str) -> Result<String, AllocError>
    ensures { IfOk result (λ s. string_bytes s ≡ json.text_member name.now text.now) }
{
    let value = quoted(alloc, text)?;
    member(alloc, name, value.as_str())
}

/// The same of a number: `,"NAME":N`.
pub fn number_member(alloc: Global, name: &str, number: u64) -> Result<String, AllocError>
    ensures { IfOk result (λ s. string_bytes s ≡ json.member name.now (decimal number)) }
{
    format!(in alloc; ",\"{name}\":{number}")
}

// An array of items.
fn array(alloc: Global, items: &str) -> Result<String, AllocError>
    ensures { IfOk result (λ s. string_bytes s ≡ json.in_brackets items.now) }
{
    format!(in alloc; "[{items}]")
}

/// An object of members.
pub fn object(alloc: Global, members: &str) -> Result<String, AllocError>
    ensures { IfOk result (λ s. string_bytes s ≡ json.in_braces members.now) }
{
    let mut text = String::from_str(alloc, "{")?;
    text.push_str(members)?;
    text.push_str("}")?;
    Ok(text)
}

fn count_item(alloc: Global, key: Key, count: u64) -> Result<String, AllocError>
    ensures { IfOk result (λ s. string_bytes s ≡ json.count_item (answers.count_name key) count) }
{
    let name = count_name(key);
    format!(in alloc; "\"{name}\":{count}")
}

fn count_items(alloc: Global, counts: &Counts) -> Result<String, AllocError>
    ensures { IfOk result (λ s. string_bytes s ≡ with_items [] (json.count_items counted_keys counts.now.values)) }
{
    let mut items = String::new(alloc);
    for (place, key) in COUNTED.iter().enumerate() {
        let item = count_item(alloc, *key, counts.values[place])?;
        push_item(&mut items, item.as_str())?;
    }
    Ok(items)
}

fn counts_json(alloc: Global, counts: &Counts) -> Result<String, AllocError>
    ensures { IfOk result (λ s. string_bytes s ≡ json.counts_json counts.now) }
{
    let items = count_items(alloc, counts)?;
    object(alloc, items.as_str())
}

fn owner_member(alloc: Global, owner: Owner) -> Result<String, AllocError>
    ensures { IfOk result (λ s. string_bytes s ≡ json.owner_member owner) }
{
    match owner {
        Owner::Nobody => Ok(String::new(alloc)),
        Owner::Server => member(alloc, "client", "null"),
        Owner::Client(client) => number_member(alloc, "client", client as u64),
    }
}

fn place_member(alloc: Global, place: Option<usize>) -> Result<String, AllocError>
    ensures { IfOk result (λ s. string_bytes s ≡ json.place_member place) }
{
    match place {
        None => Ok(String::new(alloc)),
        Some(place) => number_member(alloc, "place", place as u64),
    }
}

fn letter_items(alloc: Global, letters: &[char]) -> Result<String, AllocError>
    ensures { IfOk result (λ s. string_bytes s ≡ with_items [] (map decimal letters.now)) }
{
    let mut items = String::new(alloc);
    for letter in letters {
        let number = *letter as u32;
        let item = format!(in alloc; "{number}")?;
        push_item(&mut items, item.as_str())?;
    }
    Ok(items)
}

fn points_member(alloc: Global, points: &Option<Points>) -> Result<String, AllocError>
    ensures { IfOk result (λ s. string_bytes s ≡ json.points_member (option_map points_value points.now)) }
{
    let Some(points) = points else {
        return Ok(String::new(alloc));
    };
    let found = letter_items(alloc, points.found.as_slice())?;
    let wanted = letter_items(alloc, points.wanted.as_slice())?;
    let found = array(alloc, found.as_str())?;
    let wanted = array(alloc, wanted.as_str())?;
    let members = format!(in alloc; "\"found\":{found},\"otjs\":{wanted}")?;
    let value = object(alloc, members.as_str())?;
    member(alloc, "points", value.as_str())
}

fn given_json(alloc: Global, given: &Given) -> Result<String, AllocError>
    ensures { IfOk result (λ s. string_bytes s ≡ json.given_json (given_value given.now)) }
{
    let name = given.name;
    let value = quoted(alloc, given.value.as_str())?;
    let members = format!(in alloc; "\"name\":\"{name}\",\"value\":{value}")?;
    object(alloc, members.as_str())
}

fn given_items(alloc: Global, given: &[Given]) -> Result<String, AllocError>
    ensures { IfOk result (λ s. string_bytes s ≡ with_items [] (map json.given_json (given_values given.now))) }
{
    let mut items = String::new(alloc);
    for value in given {
        let item = given_json(alloc, value)?;
        push_item(&mut items, item.as_str())?;
    }
    Ok(items)
}

fn note_member(alloc: Global, note: Option<&'static str>) -> Result<String, AllocError>
    ensures { IfOk result (λ s. string_bytes s ≡ json.note_member (option_map (λ t. t.now) note.entry)) }
{
    match note {
        Some(note) => text_member(alloc, "note", note),
        None => Ok(String::new(alloc)),
    }
}

fn explained_members(alloc: Global, explained: &Option<Explained>) -> Result<String, AllocError>
    ensures { IfOk result (λ s. string_bytes s ≡ json.explained_members (option_map explained_value explained.now)) }
{
    let Some(explained) = explained else {
        return Ok(String::new(alloc));
    };
    let mut text = text_member(alloc, "rule", explained.rule)?;
    let given = given_items(alloc, explained.given.as_slice())?;
    let given = array(alloc, given.as_str())?;
    let given = member(alloc, "given", given.as_str())?;
    let note = note_member(alloc, explained.note)?;
    text.push_str(given.as_str())?;
    text.push_str(note.as_str())?;
    Ok(text)
}

// What is wrong with the port's line, or else what the rules say.
fn why_members(
    alloc: Global,
    malformed: Option<Malformed>,
    explained: &Option<Explained>,
) -> Result<String, AllocError>
    ensures { IfOk result (λ s. string_bytes s ≡ json.why_members malformed (option_map explained_value explained.now)) }
{
    match malformed {
        None => explained_members(alloc, explained),
        Some(malformed) => text_member(alloc, "note", malformed_sentence(malformed)),
    }
}

// Where a difference is, and whose value it is.
fn where_members(alloc: Global, difference: &Difference) -> Result<String, AllocError>
    ensures { IfOk result (λ s. string_bytes s ≡ json.where_members difference.now) }
{
    let mut text = number_member(alloc, "at", difference.place as u64)?;
    let what = text_member(alloc, "instruction", difference.what.as_str())?;
    let owner = owner_member(alloc, difference.owner)?;
    let key = text_member(alloc, "key", field_name(difference.field))?;
    text.push_str(what.as_str())?;
    text.push_str(owner.as_str())?;
    text.push_str(key.as_str())?;
    Ok(text)
}

// What was found, and what ot.js has.
fn value_members(alloc: Global, difference: &Difference) -> Result<String, AllocError>
    ensures { IfOk result (λ s. string_bytes s ≡ json.value_members difference.now) }
{
    let mut text = text_member(alloc, "found", difference.found.as_str())?;
    let wanted = text_member(alloc, "otjs", difference.wanted.as_str())?;
    let place = place_member(alloc, difference.front)?;
    let points = points_of(alloc, difference.found.as_str(), difference.wanted.as_str())?;
    let points = points_member(alloc, &points)?;
    text.push_str(wanted.as_str())?;
    text.push_str(place.as_str())?;
    text.push_str(points.as_str())?;
    Ok(text)
}

// The first member of an object.
fn verdict_member(alloc: Global, word: &str) -> Result<String, AllocError>
    ensures { IfOk result (λ s. string_bytes s ≡ json.verdict_member word.now) }
{
    let value = quoted(alloc, word)?;
    format!(in alloc; "\"verdict\":{value}")
}

/// The first members of an answer to lines that agree: `verdict`, and `compared` with how often each key was.
pub fn agreement_members(alloc: Global, counts: &Counts) -> Result<String, AllocError>
    ensures { IfOk result (λ s. string_bytes s ≡ json.agreement_members counts.now) }
{
    let mut text = verdict_member(alloc, agreement_word(counts.is_nothing()))?;
    let counts = counts_json(alloc, counts)?;
    let compared = member(alloc, "compared", counts.as_str())?;
    text.push_str(compared.as_str())?;
    Ok(text)
}

fn difference_members(
    alloc: Global,
    difference: &Difference,
    explained: &Option<Explained>,
) -> Result<String, AllocError>
    ensures { IfOk result (λ s. string_bytes s ≡ json.difference_members difference.now (option_map explained_value explained.now)) }
{
    let mut text = verdict_member(alloc, "differs")?;
    let place = where_members(alloc, difference)?;
    let values = value_members(alloc, difference)?;
    let why = why_members(alloc, difference.malformed, explained)?;
    text.push_str(place.as_str())?;
    text.push_str(values.as_str())?;
    text.push_str(why.as_str())?;
    Ok(text)
}

fn stop_members(alloc: Global, place: usize, refusal: Refusal) -> Result<String, AllocError>
    ensures { IfOk result (λ s. string_bytes s ≡ json.stop_members place refusal) }
{
    let mut text = verdict_member(alloc, "stopped")?;
    let at = number_member(alloc, "at", place as u64)?;
    let refusal = text_member(alloc, "refusal", refusal_name(refusal))?;
    text.push_str(at.as_str())?;
    text.push_str(refusal.as_str())?;
    Ok(text)
}

/// The members of an answer's verdict: `verdict`, and behind it what belongs to it (docs/FORMATS.md).
pub fn verdict_members(alloc: Global, answer: &Answer) -> Result<String, AllocError>
    ensures { IfOk result (λ s. string_bytes s ≡ json.verdict_members answer.now.compared.verdict (option_map explained_value answer.now.explained)) }
{
    match &answer.compared.verdict {
        Verdict::Conforms(counts) => agreement_members(alloc, counts),
        Verdict::Differs(difference) => { difference_members(alloc, difference, &answer.explained) }
        Verdict::Stopped { place, refusal } => stop_members(alloc, *place, *refusal),
    }
}

fn unknown_json(alloc: Global, unknown: &UnknownKey) -> Result<String, AllocError>
    ensures { IfOk result (λ s. string_bytes s ≡ json.unknown_json (named_of unknown.now)) }
{
    let key = quoted(alloc, unknown.key.as_str())?;
    let line = unknown.line;
    let members = format!(in alloc; "\"key\":{key},\"line\":{line}")?;
    object(alloc, members.as_str())
}

fn unknown_items(alloc: Global, keys: &[UnknownKey]) -> Result<String, AllocError>
    ensures { IfOk result (λ s. string_bytes s ≡ with_items [] (map json.unknown_json (all_named keys.now))) }
{
    let mut items = String::new(alloc);
    for unknown in keys {
        let item = unknown_json(alloc, unknown)?;
        push_item(&mut items, item.as_str())?;
    }
    Ok(items)
}

/// The member `unknown`, behind a comma: each of these keys with its line.
pub fn unknown_member(alloc: Global, keys: &[UnknownKey]) -> Result<String, AllocError>
    ensures { IfOk result (λ s. string_bytes s ≡ json.unknown_member (all_named keys.now)) }
{
    let items = unknown_items(alloc, keys)?;
    let keys = array(alloc, items.as_str())?;
    member(alloc, "unknown", keys.as_str())
}
