//! A port's line that is the line of `steps`, byte for byte.
//!
//! Such a line need not be read: what it says is known, and agrees (specs/Alike.antt).

ghost use Rattle.std.specs.Prelude.{◌≡◌, ◌++◌, ◌∷◌, [], IfSome};
ghost use Rattle.std.specs.Bool.{OnTrue};
ghost use Rattle.ot_conform.specs.Alike.{IsPrinted};
ghost use Rattle.ot_steps.specs.Held.{IsHeld, printed_of};

use ot_steps::{Key, Line, Value};
use std::alloc::Global;

// Whether the bytes are a line without its LF.
fn is_line(bytes: &[u8], line: &[u8]) -> bool
    ensures { OnTrue result (bytes.now ++ 10 ∷ [] ≡ line.now) }
{
    match line.split_last() {
        Some((last, body)) => *last == b'\n' && body == bytes,
        None => false,
    }
}

// Whether the bytes go on where an object without document ends.
fn has_more(bytes: &[u8], line: &[u8]) -> bool {
    line.len() > 2 && bytes.starts_with(&line[..line.len() - 2])
}

// A number of bytes that a value has at least: two for each component of an operation, its comma or bracket among them, and one for each character
// of a document.
fn least_of(value: Option<Value<'_>>) -> usize {
    match value {
        Some(Value::Operation(op)) => op.component_count().saturating_mul(2),
        Some(Value::Document(document)) => document.len(),
        _ => 0,
    }
}

// A number of bytes that the line has at least. It says when the line need not be printed, and no more hangs on it.
fn least_length(line: &Line<'_>) -> usize
    requires { IsHeld line.now }
{
    least_of(line.printed(Key::Outstanding, false))
        .saturating_add(least_of(line.printed(Key::Buffer, false)))
        .saturating_add(least_of(line.printed(Key::Document, false)))
}

/// Whether the bytes are the line of an instruction with its document or without; none where they are neither, or where no memory is
/// found for that line. The line is not printed where it would be longer than they are.
pub(crate) fn printed_form(alloc: Global, line: &Line<'_>, bytes: &[u8]) -> Option<bool>
    requires { IsHeld line.now }
    ensures { IfSome result (λ documents. IsPrinted (printed_of documents line.now) bytes.now) }
{
    if bytes.len() < least_length(line) {
        return None;
    }
    let text = line.text(alloc, false).ok()?;
    if is_line(bytes, text.as_bytes()) {
        return Some(false);
    }
    if !has_more(bytes, text.as_bytes()) {
        return None;
    }
    let text = line.text(alloc, true).ok()?;
    if is_line(bytes, text.as_bytes()) {
        return Some(true);
    }
    None
}
