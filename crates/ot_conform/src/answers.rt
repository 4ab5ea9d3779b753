//! The first difference, in words.

ghost use Rattle.std.specs.Prelude.{◌≡◌, false, IfOk, codes, option_and_then, option_map, string_bytes, unwrap_or};
ghost use Rattle.std.specs.Str.{chars};
ghost use Rattle.serde_json.specs.Find.{as_str};
ghost use Rattle.serde_json.specs.View.{view};
ghost use Rattle.ot_conform.specs.Answers.{IsDifference, IsFoundText, IsLeftOver, IsToldText, IsValueText, IsWantedText, field_name, field_text, front_at, instr_text, is_theirs, number_told, owner_in, owner_of, same_front, tells_operation, told_front, what_text};
ghost use Rattle.json.specs.Print.{quoted};
ghost use Rattle.ot_report.specs.Printed as printed;
ghost use Rattle.ot_steps.specs.Held.{IsHeld, printed_of, value_of};
ghost use Rattle.ot_steps.specs.Text.{line_text, value_text};
ghost use Rattle.ot_conform.specs.Due.{due_of, what_of};
ghost use Rattle.ot_conform.specs.Keys.{found_at};
ghost use Rattle.ot_conform.specs.Read.{read_as};

use crate::due::Due;
use crate::keys::{found, tells};
use crate::lines::PortLine;
use crate::malformed::{Malformed, malformed_line};
use crate::meeting::Field;
use ot_isa::Instr;
use ot_steps::{Key, Line, Value as LineValue, key_text, placed_client, word};
use ot_values::refusal_name;
use serde_json::Value;
use std::alloc::{AllocError, Global};

/// Whose value differs, at an instruction.
#[derive(Clone, Copy, Debug, PartialEq, Eq)]
pub enum Owner {
    /// Nobody's: the line itself, a stop, or what says which line it is.
    Nobody,
    Server,
    Client(u16),
}

/// The first difference between a port's lines and those that are due.
#[derive(Drop)]
pub struct Difference {
    /// The place of the line that was due; where none was due, of the last one.
    pub place: usize,
    /// `opening`, the instruction, `end` or `after the end`.
    pub what: String,
    /// The number of the instruction whose line was due, counted from 0, performed or not.
    pub instruction: Option<usize>,
    pub owner: Owner,
    pub field: Field,
    /// What the port has there, as compact JSON, or in words.
    pub found: String,
    /// What ot.js has there, in the same form.
    pub wanted: String,
    /// For two texts, how many scalars at the front are equal.
    pub front: Option<usize>,
    /// Whether the port's line has the operation that the instruction applied.
    pub tells_operation: bool,
    /// The number of the instruction that was performed there, counted from 0; none where the port's line is malformed.
    pub number: Option<usize>,
    /// What is wrong with the port's line, where it is a text that is no object with a place.
    pub malformed: Option<Malformed>,
}

// The instruction's word, and its client.
fn instr_text(alloc: Global, instr: &Instr) -> Result<String, AllocError>
    ensures { IfOk result (λ s. string_bytes s ≡ instr_text instr.now) }
{
    let word = word(instr);
    match instr.client() {
        Some(client) => format!(in alloc; "{word} {client}"),
        None => String::from_str(alloc, word),
    }
}

// Whose line was due.
fn what_text(alloc: Global, line: &Line<'_>) -> Result<String, AllocError>
    ensures { IfOk result (λ s. string_bytes s ≡ what_text (what_of line.now)) }
{
    match line {
        Line::Opening(_) => String::from_str(alloc, "opening"),
        Line::Step(step) => instr_text(alloc, step.instr),
        Line::Stop(stop) => instr_text(alloc, stop.instr),
        Line::End { .. } => String::from_str(alloc, "end"),
    }
}

// Whether it is the message, or a value of the one that moved or was read.
fn is_theirs(field: Field) -> bool
    ensures { result ≡ is_theirs field }
{
    match field {
        Field::Message => true,
        Field::Key(Key::Revision | Key::State | Key::Outstanding | Key::Buffer) => true,
        Field::Key(Key::Sent | Key::SentRevision | Key::SentOperation) => true,
        Field::Key(Key::Document) => true,
        _ => false,
    }
}

/// The field's name; a message's part has two words.
pub(crate) fn field_name(field: Field) -> &'static str
    ensures { result.now ≡ field_name field }
{
    match field {
        Field::Line => "line",
        Field::Stopped => "stopped",
        Field::Message => "message",
        Field::Key(Key::SentRevision) => "sent revision",
        Field::Key(Key::SentOperation) => "sent operation",
        Field::Key(key) => key_text(key),
    }
}

fn owner_in(client: Option<u16>) -> Owner
    ensures { result ≡ owner_in client }
{
    match client {
        Some(client) => Owner::Client(client),
        None => Owner::Server,
    }
}

// Whose value of the line it is.
fn owner_of(line: &Line<'_>, field: Field) -> Owner
    ensures { result ≡ owner_of (what_of line.now) field }
{
    match line {
        Line::Step(step) if is_theirs(field) => owner_in(placed_client(step.instr)),
        Line::Stop(stop) if is_theirs(field) => owner_in(placed_client(stop.instr)),
        _ => Owner::Nobody,
    }
}

/// The field's name behind its owner: `client 1 document`.
pub(crate) fn field_text(alloc: Global, owner: Owner, field: Field) -> Result<String, AllocError>
    ensures { IfOk result (λ s. string_bytes s ≡ field_text owner field) }
{
    let name = field_name(field);
    match owner {
        Owner::Nobody => String::from_str(alloc, name),
        Owner::Server => format!(in alloc; "server {name}"),
        Owner::Client(client) => format!(in alloc; "client {client} {name}"),
    }
}

// A printed value as compact JSON, or the word for none.
fn found_value(alloc: Global, none: &str, value: Option<&Value>) -> Result<String, AllocError>
    ensures { IfOk result (λ s. IsValueText none.now (option_map (λ v. view v.now) value.entry) (string_bytes s)) }
{
    match value {
        Some(value) if !value.is_null() => value.to_string(alloc),
        _ => String::from_str(alloc, none),
    }
}

// What a line of the right form has.
fn told_text(alloc: Global, line: &Value, field: Field) -> Result<String, AllocError>
    ensures { IfOk result (λ s. IsToldText field (view line.now) (string_bytes s)) }
{
    match field {
        Field::Line => line.to_string(alloc),
        Field::Stopped => found_value(alloc, "performed", line.get("stopped")),
        Field::Message => found_value(alloc, "none", line.get("message")),
        Field::Key(key) => found_value(alloc, "none", found(line, key)),
    }
}

/// A text as a JSON string.
pub(crate) fn quoted(alloc: Global, text: &str) -> Result<String, AllocError>
    ensures { IfOk result (λ s. string_bytes s ≡ quoted text.now) }
{
    let text = String::from_str(alloc, text)?;
    Value::String(text).to_string(alloc)
}

// What a port's line has.
fn found_text(alloc: Global, line: &PortLine<'_>, field: Field) -> Result<String, AllocError>
    ensures { IfOk result (λ s. IsFoundText field (read_as line.now) (string_bytes s)) }
{
    match line {
        PortLine::Told(value) => told_text(alloc, value, field),
        PortLine::OtherForm(text) => quoted(alloc, text),
        PortLine::NoText => String::from_str(alloc, "no UTF-8"),
        PortLine::Nothing => String::from_str(alloc, "nothing"),
    }
}

// What the run has, or the word for none.
fn wanted_value(alloc: Global, value: Option<LineValue<'_>>) -> Result<String, AllocError>
    ensures { IfOk result (λ s. string_bytes s ≡ unwrap_or (option_map value_text (option_map value_of value.entry)) (codes "none")) }
{
    match value {
        Some(value) => value.text(alloc),
        None => String::from_str(alloc, "none"),
    }
}

// A line of `steps` without its LF.
fn due_text(alloc: Global, line: &Line<'_>) -> Result<String, AllocError>
    requires { IsHeld line.now }
    ensures { IfOk result (λ s. printed.line (string_bytes s) ≡ line_text (printed_of false line.now)) }
{
    let text = line.text(alloc, false)?;
    match text.as_str().strip_suffix('\n') {
        Some(front) => String::from_str(alloc, front),
        None => unreachable!(),
    }
}

// What the run has.
fn wanted_text(alloc: Global, due: &Due<'_>, field: Field) -> Result<String, AllocError>
    requires { IsHeld due.now.line }
    ensures { IfOk result (λ s. IsWantedText field (due_of due.now) (string_bytes s)) }
{
    match field {
        Field::Line => due_text(alloc, &due.line),
        Field::Stopped => match due.refusal() {
            Some(refusal) => String::from_str(alloc, refusal_name(refusal)),
            None => String::from_str(alloc, "performed"),
        },
        Field::Message => wanted_value(alloc, due.message()),
        Field::Key(key) => wanted_value(alloc, due.line.value(key)),
    }
}

/// How many characters at the front are equal.
pub(crate) fn same_front(found: &[char], wanted: &[char]) -> usize
    ensures { result ≡ same_front found.now wanted.now }
{
    for (same, letter) in found.iter().enumerate() {
        if same >= wanted.len() {
            return same;
        }
        if *letter != wanted[same] {
            return same;
        }
    }
    found.len()
}

// The text under a key, where it is one.
fn text_at(line: &Value, key: Key) -> Option<&str>
    ensures { option_map (λ t. t.now) result ≡ option_and_then as_str (found_at key (view line.now)) }
{
    found(line, key)?.as_str()
}

/// The characters of a text.
pub(crate) fn letters(alloc: Global, text: &str) -> Result<Vec<char>, AllocError>
    ensures { IfOk result (λ v. v.items ≡ chars text.now) }
{
    let letters: Vec<char> = text.chars().collect(alloc)?;
    Ok(letters)
}

// For two texts under a key, how many characters at the front are equal.
fn told_front(
    alloc: Global,
    line: &Value,
    due: &Due<'_>,
    key: Key,
) -> Result<Option<usize>, AllocError>
    requires { IsHeld due.now.line }
    ensures { IfOk result (λ n. n ≡ told_front (Field.Key key) (due_of due.now).line (view line.now)) }
{
    let Some(text) = text_at(line, key) else {
        return Ok(None);
    };
    let Some(wanted) = due.letters(alloc, key)? else {
        return Ok(None);
    };
    let found = letters(alloc, text)?;
    Ok(Some(same_front(found.as_slice(), wanted.as_slice())))
}

fn front(
    alloc: Global,
    line: &PortLine<'_>,
    due: &Due<'_>,
    field: Field,
) -> Result<Option<usize>, AllocError>
    requires { IsHeld due.now.line }
    ensures { IfOk result (λ n. n ≡ front_at field (due_of due.now).line (read_as line.now)) }
{
    match (line, field) {
        (PortLine::Told(value), Field::Key(key)) => told_front(alloc, value, due, key),
        _ => Ok(None),
    }
}

// Whether the line has the operation that an instruction applied.
fn tells_operation(line: &PortLine<'_>) -> bool
    ensures { result ≡ tells_operation (read_as line.now) }
{
    match line {
        PortLine::Told(value) => {
            tells(value, Key::Edit) || tells(value, Key::Applied) || tells(value, Key::Appended)
        }
        _ => false,
    }
}

// A line of another form has no instruction.
fn number_told(line: &PortLine<'_>, number: Option<usize>) -> Option<usize>
    ensures { result ≡ number_told (read_as line.now) number }
{
    match line {
        PortLine::OtherForm(_) => None,
        PortLine::NoText => None,
        _ => number,
    }
}

/// The difference of a port's line from the one that is due, at a field.
pub fn differs(
    alloc: Global,
    line: &PortLine<'_>,
    due: &Due<'_>,
    field: Field,
) -> Result<Difference, AllocError>
    requires { IsHeld due.now.line }
    ensures { IfOk result (λ d. IsDifference (due_of due.now) field (read_as line.now) d) }
{
    Ok(Difference {
        place: due.line.place(),
        what: what_text(alloc, &due.line)?,
        instruction: due.instruction(),
        owner: owner_of(&due.line, field),
        field,
        found: found_text(alloc, line, field)?,
        wanted: wanted_text(alloc, due, field)?,
        front: front(alloc, line, due, field)?,
        tells_operation: tells_operation(line),
        number: number_told(line, due.number()),
        malformed: malformed_line(alloc, line)?,
    })
}

/// The difference of a line that the port has behind the end, which stands at a place.
pub fn left_over(alloc: Global, place: usize, line: &PortLine<'_>) -> Result<Difference, AllocError>
    ensures { IfOk result (λ d. IsLeftOver place (read_as line.now) d) }
{
    Ok(Difference {
        place,
        what: String::from_str(alloc, "after the end")?,
        instruction: None,
        owner: Owner::Nobody,
        field: Field::Line,
        found: found_text(alloc, line, Field::Line)?,
        wanted: String::from_str(alloc, "nothing")?,
        front: None,
        tells_operation: false,
        number: None,
        malformed: malformed_line(alloc, line)?,
    })
}
