//! Whether what a port printed agrees with what the run has.

ghost use Rattle.std.specs.Prelude.{◌≡◌, IfOk, option_map};
ghost use Rattle.serde_json.specs.View.{items_view, view};
ghost use Rattle.ot_steps.specs.Held.{value_of};
ghost use Rattle.ot_conform.specs.Keys.{agrees, are_plain, is_message, is_plain, is_plain_item, is_written};

use ot_steps::Value as LineValue;
use serde_json::Value;
use std::alloc::{AllocError, Global};

// A text, or a number without point and exponent.
fn is_plain_item(value: &Value) -> bool
    ensures { result ≡ is_plain_item (view value.now) }
{
    value.is_string() || (value.is_number() && !value.is_f64())
}

// Each of them is.
fn are_plain(values: &[Value]) -> bool
    ensures { result ≡ are_plain (items_view values.now) }
{
    for value in values {
        if !is_plain_item(value) {
            return false;
        }
    }
    true
}

// A text, a number without point and exponent, or an array of such.
fn is_plain(value: &Value) -> bool
    ensures { result ≡ is_plain (view value.now) }
{
    match value.as_array() {
        Some(values) => are_plain(values.as_slice()),
        None => is_plain_item(value),
    }
}

// Whether the value is written so, without blanks; out of memory for writing it down.
fn is_written(alloc: Global, value: &Value, text: &str) -> Result<bool, AllocError>
    ensures { IfOk result (λ is. is ≡ is_written text.now (view value.now)) }
{
    if !is_plain(value) {
        return Ok(false);
    }
    let written = value.to_string(alloc)?;
    Ok(written.as_str() == text)
}

// Whether it is a message.
fn is_message(value: LineValue<'_>) -> bool
    ensures { result ≡ is_message (value_of value.entry) }
{
    matches!(value, LineValue::Message(_))
}

/// Whether what is printed, if it is, agrees with what the run has there, if it has something; `null` says that there is nothing, and a
/// message is an object. Out of memory for writing both down.
pub(crate) fn agrees(
    alloc: Global,
    found: Option<&Value>,
    wanted: Option<LineValue<'_>>,
) -> Result<bool, AllocError>
    ensures { IfOk result (λ does. does ≡ agrees (option_map value_of wanted.entry) (option_map (λ v. view v.now) found.entry)) }
{
    let Some(found) = found else {
        return Ok(true);
    };
    match wanted {
        None => Ok(found.is_null()),
        Some(value) if is_message(value) => Ok(found.is_object()),
        Some(value) => {
            let text = value.text(alloc)?;
            is_written(alloc, found, text.as_str())
        }
    }
}
