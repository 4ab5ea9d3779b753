//! A port's line against the one that is due.

ghost use Rattle.std.specs.Prelude.{◌≡◌, IfOk, Some, codes, option_map};
ghost use Rattle.serde_json.specs.Find.{get};
ghost use Rattle.serde_json.specs.View.{view};
ghost use Rattle.ot_client.specs.Client.{message_of};
ghost use Rattle.ot_steps.specs.Held.{IsHeld, value_of};
ghost use Rattle.ot_steps.specs.Lines.{plain_message};
ghost use Rattle.ot_steps.specs.Text as text;
ghost use Rattle.ot_steps.specs.Text.{value_at};
ghost use Rattle.ot_conform.specs.Keys.{agrees, found_at};
ghost use Rattle.ot_conform.specs.Due.{due_of};
ghost use Rattle.ot_conform.specs.Differences.{field_of, field_of_key, first_key, keyed_field, stopped_field, told_field};
ghost use Rattle.ot_conform.specs.Read.{read_as};
ghost use Rattle.ot_conform.specs.Received.{message_agrees, parts_agree, value_agrees};

use crate::agreement::agrees;
use crate::due::Due;
use crate::keys::{FIRST_KEYS, OTHER_KEYS, found, tells};
use crate::lines::PortLine;
use ot_client::Sent;
use ot_isa::Tagged;
use ot_steps::{Key, Value as LineValue};
use serde_json::Value;
use std::alloc::{AllocError, Global};

/// Where a line differs from the one that is due.
#[derive(Clone, Copy, Debug, PartialEq, Eq)]
pub enum Field {
    /// It has not the form of a line, or one of the two is missing.
    Line,
    /// One of the two stops, and the other does not.
    Stopped,
    /// The message that the instruction receives.
    Message,
    /// The value under a key.
    Key(Key),
}

// Whether what is printed under a key, if it is, agrees with what the run has there.
fn agrees_at(alloc: Global, line: &Value, due: &Due<'_>, key: Key) -> Result<bool, AllocError>
    requires { IsHeld due.now.line }
    ensures { IfOk result (λ does. does ≡ agrees (value_at key (due_of due.now).line) (found_at key (view line.now))) }
{
    agrees(alloc, found(line, key), due.line.value(key))
}

// Of these keys the first whose printed value does not agree.
fn first_field(
    alloc: Global,
    keys: &[Key],
    line: &Value,
    due: &Due<'_>,
) -> Result<Option<Field>, AllocError>
    requires { IsHeld due.now.line }
    ensures { IfOk result (λ f. f ≡ field_of_key (first_key keys.now (due_of due.now).line (view line.now))) }
{
    for key in keys {
        if !agrees_at(alloc, line, due, *key)? {
            return Ok(Some(Field::Key(*key)));
        }
    }
    Ok(None)
}

// Whether the parts of what a client sent agree with those that are printed.
fn parts_agree(alloc: Global, found: &Value, message: &Sent<Tagged>) -> Result<bool, AllocError>
    ensures { IfOk result (λ does. does ≡ parts_agree (Some (text.Sent (plain_message (message_of message.now)))) (Some (view found.now))) }
{
    let revision = LineValue::Number(message.revision as u64);
    if !agrees(alloc, found.get("revision"), Some(revision))? {
        return Ok(false);
    }
    let operation = LineValue::Operation(&message.op);
    agrees(alloc, found.get("operation"), Some(operation))
}

// Whether what is printed agrees with a value; of a message its parts do too.
fn value_agrees(
    alloc: Global,
    found: Option<&Value>,
    wanted: Option<LineValue<'_>>,
) -> Result<bool, AllocError>
    ensures { IfOk result (λ does. does ≡ value_agrees (option_map value_of wanted.entry) (option_map (λ v. view v.now) found.entry)) }
{
    if !agrees(alloc, found, wanted)? {
        return Ok(false);
    }
    match (found, wanted) {
        (Some(found), Some(LineValue::Message(message))) => parts_agree(alloc, found, message),
        _ => Ok(true),
    }
}

// Whether the message that is printed, if one is, agrees with what the instruction receives.
fn message_agrees(alloc: Global, line: &Value, due: &Due<'_>) -> Result<bool, AllocError>
    ensures { IfOk result (λ does. does ≡ message_agrees (due_of due.now).received (get (codes "message") (view line.now))) }
{
    value_agrees(alloc, line.get("message"), due.message())
}

// Where the values of a line of the right form differ: the message is compared before the values that come of it.
fn keyed_field(alloc: Global, line: &Value, due: &Due<'_>) -> Result<Option<Field>, AllocError>
    requires { IsHeld due.now.line }
    ensures { IfOk result (λ f. f ≡ keyed_field (due_of due.now) (view line.now)) }
{
    if let Some(field) = first_field(alloc, &FIRST_KEYS, line, due)? {
        return Ok(Some(field));
    }
    if !message_agrees(alloc, line, due)? {
        return Ok(Some(Field::Message));
    }
    let field = first_field(alloc, &OTHER_KEYS, line, due)?;
    Ok(field)
}

// Where one of the two stops and the other does not: a port that was handed a wrong message may stop over it.
fn stopped_field(alloc: Global, line: &Value, due: &Due<'_>) -> Result<Option<Field>, AllocError>
    ensures { IfOk result (λ f. f ≡ stopped_field (due_of due.now) (view line.now)) }
{
    if due.message().is_some() && !message_agrees(alloc, line, due)? {
        return Ok(Some(Field::Message));
    }
    Ok(Some(Field::Stopped))
}

// Where a line of the right form differs.
fn told_field(alloc: Global, line: &Value, due: &Due<'_>) -> Result<Option<Field>, AllocError>
    requires { IsHeld due.now.line }
    ensures { IfOk result (λ f. f ≡ told_field (due_of due.now) (view line.now)) }
{
    if tells(line, Key::Stopped) != due.refusal().is_some() {
        return stopped_field(alloc, line, due);
    }
    keyed_field(alloc, line, due)
}

/// Where a port's line differs from the one that is due, if it does: first whether both stop or none does, then the keys that say which
/// line it is, the message, and the other keys in their order. Where the port alone stops at an instruction that receives a message, the
/// message is compared before the stop. Out of memory for the texts of values.
pub fn meet(alloc: Global, line: &PortLine<'_>, due: &Due<'_>) -> Result<Option<Field>, AllocError>
    requires { IsHeld due.now.line }
    ensures { IfOk result (λ f. f ≡ field_of (due_of due.now) (read_as line.now)) }
{
    match line {
        PortLine::Told(value) => told_field(alloc, value, due),
        _ => Ok(Some(Field::Line)),
    }
}
