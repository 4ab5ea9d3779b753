//! The keys of a port's lines that no line of `steps` has: what stands under them is not compared, and the answer names them.

ghost use Rattle.std.specs.Prelude.{◌≡◌, ◌++◌, IfOk, OnOk, string_bytes};
ghost use Rattle.std.specs.Option.{option_map};
ghost use Rattle.serde_json.specs.View.{members_view, view};
ghost use Rattle.ot_conform.specs.Read.{read_as};
ghost use Rattle.ot_conform.specs.Summed.{with_keys};
ghost use Rattle.ot_conform.specs.Unknown.{all_named, are_word_bytes, front_of, is_known, is_named, is_of, is_part_name, is_word_byte, named_of, shown_key, unknown_row, unknown_rows, unless_known, with_key, with_members, with_object, with_unknown};

use crate::answers::quoted;
use crate::lines::PortLine;
use ot_steps::{KEYS, Key, key_text};
use serde_json::{Map, Value};
use std::alloc::{AllocError, Global};

// So many keys are named.
const MOST_NAMED: usize = 16;

/// An object of a port's line: the line itself, or what it has under `sent` or `message`.
#[derive(Clone, Copy, Debug, PartialEq, Eq)]
pub enum Part {
    Line,
    Sent,
    Message,
}

/// A key that no line of `steps` has. A part of `sent` is named behind `sent.`, one of `message` behind `message.`.
#[derive(Drop)]
pub struct UnknownKey {
    pub key: String,
    /// The number of the first line that has it, counted from 1 over the whole input.
    pub line: u64,
}

// Whether one of the keys is spelled so.
fn is_of(keys: &[Key], name: &str) -> bool
    ensures { result ≡ is_of keys.now name.now }
{
    for key in keys {
        if key_text(*key) == name {
            return true;
        }
    }
    false
}

fn is_part_name(name: &str) -> bool
    ensures { result ≡ is_part_name name.now }
{
    name == "revision" || name == "operation"
}

// Whether `steps` has the key there; `message` stands in a port's lines alone.
fn is_known(part: Part, name: &str) -> bool
    ensures { result ≡ is_known part name.now }
{
    match part {
        Part::Line => name == "at" || name == "message" || is_of(&KEYS, name),
        Part::Sent => is_part_name(name),
        Part::Message => is_part_name(name),
    }
}

fn front(part: Part) -> &'static str
    ensures { result.now ≡ front_of part }
{
    match part {
        Part::Line => "",
        Part::Sent => "sent.",
        Part::Message => "message.",
    }
}

// Whether the key is named already.
fn is_named(keys: &[UnknownKey], key: &str) -> bool
    ensures { result ≡ is_named key.now (all_named keys.now) }
{
    for named in keys {
        if named.key.as_str() == key {
            return true;
        }
    }
    false
}

// One more key, where it is not named and there is room.
fn name_key(keys: &mut Vec<UnknownKey>, key: String, line: u64) -> Result<(), AllocError>
    ensures { OnOk result (all_named keys.new.items ≡ with_key line (string_bytes key) (all_named keys.old.items)) }
{
    if is_named(keys.as_slice(), key.as_str()) || keys.len() >= MOST_NAMED {
        return Ok(());
    }
    keys.push(UnknownKey { key, line })?;
    Ok(())
}

/// Names these keys too. After out of memory some of them may be named.
pub(crate) fn join_keys(
    alloc: Global,
    keys: &mut Vec<UnknownKey>,
    more: &[UnknownKey],
) -> Result<(), AllocError>
    ensures { OnOk result (all_named keys.new.items ≡ with_keys (all_named more.now) (all_named keys.old.items)) }
{
    for named in more {
        let key = String::from_str(alloc, named.key.as_str())?;
        name_key(keys, key, named.line)?;
    }
    Ok(())
}

// The key of an object of a line.
fn note_key(
    alloc: Global,
    keys: &mut Vec<UnknownKey>,
    part: Part,
    name: &str,
    line: u64,
) -> Result<(), AllocError>
    ensures { OnOk result (all_named keys.new.items ≡ unless_known line part name.now (all_named keys.old.items)) }
{
    if is_known(part, name) {
        return Ok(());
    }
    let front = front(part);
    let key = format!(in alloc; "{front}{name}")?;
    name_key(keys, key, line)
}

// The keys of an object.
fn note_members(
    alloc: Global,
    keys: &mut Vec<UnknownKey>,
    part: Part,
    members: &Map<String, Value>,
    line: u64,
) -> Result<(), AllocError>
    ensures { OnOk result (all_named keys.new.items ≡ with_members line part (members_view members.now.entries) (all_named keys.old.items)) }
{
    for (name, _) in members.iter() {
        note_key(alloc, keys, part, name.as_str(), line)?;
    }
    Ok(())
}

// The keys of what stands there, if it is an object.
fn note_object(
    alloc: Global,
    keys: &mut Vec<UnknownKey>,
    part: Part,
    value: Option<&Value>,
    line: u64,
) -> Result<(), AllocError>
    ensures { OnOk result (all_named keys.new.items ≡ with_object line part (option_map (λ v. view v.now) value.entry) (all_named keys.old.items)) }
{
    let Some(value) = value else {
        return Ok(());
    };
    match value.as_object() {
        Some(members) => note_members(alloc, keys, part, members, line),
        None => Ok(()),
    }
}

/// Names the unknown keys of the port's line of this number; or out of memory, where some of them may be named.
pub(crate) fn note_line(
    alloc: Global,
    keys: &mut Vec<UnknownKey>,
    port: &PortLine<'_>,
    line: u64,
) -> Result<(), AllocError>
    ensures { OnOk result (all_named keys.new.items ≡ with_unknown line (read_as port.now) (all_named keys.old.items)) }
{
    let PortLine::Told(value) = port else {
        return Ok(());
    };
    note_object(alloc, keys, Part::Line, Some(value), line)?;
    note_object(alloc, keys, Part::Sent, value.get("sent"), line)?;
    note_object(alloc, keys, Part::Message, value.get("message"), line)
}

// A letter, a digit, `_`, `-` or `.`.
fn is_word_byte(byte: u8) -> bool
    ensures { result ≡ is_word_byte byte }
{
    (byte >= b'a' && byte <= b'z')
        || (byte >= b'A' && byte <= b'Z')
        || (byte >= b'0' && byte <= b'9')
        || byte == b'_'
        || byte == b'-'
        || byte == b'.'
}

fn are_word_bytes(bytes: &[u8]) -> bool
    ensures { result ≡ are_word_bytes bytes.now }
{
    for byte in bytes {
        if !is_word_byte(*byte) {
            return false;
        }
    }
    true
}

// A word as it is, and any other key as a JSON string.
fn shown_key(alloc: Global, key: &str) -> Result<String, AllocError>
    ensures { IfOk result (λ s. string_bytes s ≡ shown_key key.now) }
{
    if !key.is_empty() && are_word_bytes(key.as_bytes()) {
        return String::from_str(alloc, key);
    }
    quoted(alloc, key)
}

fn unknown_row(alloc: Global, unknown: &UnknownKey) -> Result<String, AllocError>
    ensures { IfOk result (λ s. string_bytes s ≡ unknown_row (named_of unknown.now)) }
{
    let key = shown_key(alloc, unknown.key.as_str())?;
    let line = unknown.line;
    format!(in alloc; "unknown {key} in line {line}\n")
}

/// A row for each of them: `unknown KEY in line N`.
pub fn print_unknown(alloc: Global, keys: &[UnknownKey]) -> Result<String, AllocError>
    ensures { IfOk result (λ s. string_bytes s ≡ unknown_rows (all_named keys.now)) }
{
    let mut rows = String::new(alloc);
    for unknown in keys {
        let row = unknown_row(alloc, unknown)?;
        rows.push_str(row.as_str())?;
    }
    Ok(rows)
}
