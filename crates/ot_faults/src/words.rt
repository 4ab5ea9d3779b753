//! The fault of a text in words, and as members of a JSON object.

ghost use Rattle.std.specs.Prelude.{◌≡◌, IfOk, string_bytes};
ghost use Rattle.json.specs.Print.{quoted};
ghost use Rattle.ot_faults.specs.Faults.{fault_value};
ghost use Rattle.ot_faults.specs.Shown.{byte_text, found_text, short_text};
ghost use Rattle.ot_faults.specs.Words as spec;

use crate::faults::LineFault;
use crate::reached::Stage;
use crate::wanted::{Wanted, Word, word_text};
use ot_asm::read_text;
use serde_json::Value;
use std::alloc::{AllocError, Global};

/// How many bytes of a JSON string are shown whole.
const SHOWN: usize = 60;

// A text as a JSON string.
fn quoted(alloc: Global, text: &str) -> Result<String, AllocError>
    ensures { IfOk result (λ s. string_bytes s ≡ quoted text.now) }
{
    let text = String::from_str(alloc, text)?;
    Value::String(text).to_string(alloc)
}

// A text as a JSON string if that is short, or how long it is.
fn short_text(alloc: Global, found: &str) -> Result<String, AllocError>
    ensures { IfOk result (λ s. string_bytes s ≡ short_text found.now) }
{
    let json = quoted(alloc, found)?;
    if json.len() > SHOWN {
        let len = found.len();
        return format!(in alloc; "a text of {len} bytes");
    }
    Ok(json)
}

// The first of bytes that are not UTF-8.
fn byte_text(alloc: Global, bytes: &[u8]) -> Result<String, AllocError>
    ensures { IfOk result (λ s. string_bytes s ≡ byte_text bytes.now) }
{
    match bytes.first() {
        Some(byte) => {
            let byte = *byte;
            format!(in alloc; "0x{byte:x}")
        }
        None => String::from_str(alloc, "nothing"),
    }
}

/// What stands at a place of a line, as it is shown.
pub(crate) fn found_text(alloc: Global, found: &[u8]) -> Result<String, AllocError>
    ensures { IfOk result (λ s. string_bytes s ≡ found_text found.now) }
{
    if found.is_empty() {
        return String::from_str(alloc, "nothing");
    }
    match read_text(found) {
        Some(text) => short_text(alloc, text),
        None => byte_text(alloc, found),
    }
}

fn stage_text(stage: Stage) -> &'static str
    ensures { result.now ≡ spec.stage_text stage }
{
    match stage {
        Stage::Opening => "clients",
        Stage::AfterClients =>
            "present, start, edit, take, deliver, ack, read, read-server or join",
        Stage::AfterPresent => "start, edit, take, deliver, ack, read, read-server or join",
        Stage::InBody => "edit, take, deliver, ack, read, read-server or join",
    }
}

fn wanted_text(alloc: Global, wanted: Wanted) -> Result<String, AllocError>
    ensures { IfOk result (λ s. string_bytes s ≡ spec.wanted_text wanted) }
{
    match wanted {
        Wanted::Utf8 => String::from_str(alloc, "UTF-8"),
        Wanted::Words(stage) => String::from_str(alloc, stage_text(stage)),
        Wanted::Number(low, high) => format!(in alloc; "a number from {low} to {high}"),
        Wanted::Text => String::from_str(alloc, "a JSON string"),
        Wanted::StartText => String::from_str(alloc, "a text of at most 40000 characters"),
        Wanted::Operation => String::from_str(alloc, "an operation, such as [1,\"a\",-2]"),
        Wanted::Lengths => {
            String::from_str(alloc, "an operation with lengths of at most 1000000")
        }
        Wanted::Instructions => String::from_str(alloc, "at most 100000 instructions"),
        Wanted::End => String::from_str(alloc, "the end of the line"),
    }
}

fn nearest_text(alloc: Global, nearest: Option<Word>) -> Result<String, AllocError>
    ensures { IfOk result (λ s. string_bytes s ≡ spec.nearest_text nearest) }
{
    match nearest {
        Some(word) => {
            let word = word_text(word);
            format!(in alloc; "; nearest: {word}")
        }
        None => Ok(String::new(alloc)),
    }
}

fn note_text(alloc: Global, note: &str) -> Result<String, AllocError>
    ensures { IfOk result (λ s. string_bytes s ≡ spec.note_text note.now) }
{
    if note.is_empty() {
        return Ok(String::new(alloc));
    }
    format!(in alloc; "; {note}")
}

/// The fault in words: a line.
pub fn fault_words(alloc: Global, fault: &LineFault) -> Result<String, AllocError>
    ensures { IfOk result (λ s. string_bytes s ≡ spec.fault_words (fault_value fault.now)) }
{
    let line = fault.line;
    let column = fault.column;
    let found = fault.found.as_str();
    let wanted = wanted_text(alloc, fault.wanted)?;
    let nearest = nearest_text(alloc, fault.nearest)?;
    let note = note_text(alloc, fault.note)?;
    format!(in alloc;
        "  line {line}, column {column}: found {found}; wanted {wanted}{nearest}{note}\n"
    )
}

fn wanted_json(alloc: Global, wanted: Wanted) -> Result<String, AllocError>
    ensures { IfOk result (λ s. string_bytes s ≡ quoted (spec.wanted_text wanted)) }
{
    let text = wanted_text(alloc, wanted)?;
    quoted(alloc, text.as_str())
}

fn nearest_member(alloc: Global, nearest: Option<Word>) -> Result<String, AllocError>
    ensures { IfOk result (λ s. string_bytes s ≡ spec.nearest_member nearest) }
{
    match nearest {
        Some(word) => {
            let word = quoted(alloc, word_text(word))?;
            format!(in alloc; ",\"nearest\":{word}")
        }
        None => Ok(String::new(alloc)),
    }
}

fn note_member(alloc: Global, note: &str) -> Result<String, AllocError>
    ensures { IfOk result (λ s. string_bytes s ≡ spec.note_member note.now) }
{
    if note.is_empty() {
        return Ok(String::new(alloc));
    }
    let note = quoted(alloc, note)?;
    format!(in alloc; ",\"note\":{note}")
}

// Where the fault stands, and what stands there.
fn place_members(alloc: Global, fault: &LineFault) -> Result<String, AllocError>
    ensures { IfOk result (λ s. string_bytes s ≡ spec.place_members (fault_value fault.now)) }
{
    let line = fault.line;
    let column = fault.column;
    let found = quoted(alloc, fault.found.as_str())?;
    format!(in alloc; "\"line\":{line},\"column\":{column},\"found\":{found}")
}

// What is wanted there, behind that.
fn wanted_members(alloc: Global, fault: &LineFault) -> Result<String, AllocError>
    ensures { IfOk result (λ s. string_bytes s ≡ spec.wanted_members (fault_value fault.now)) }
{
    let wanted = wanted_json(alloc, fault.wanted)?;
    let nearest = nearest_member(alloc, fault.nearest)?;
    let note = note_member(alloc, fault.note)?;
    format!(in alloc; ",\"wanted\":{wanted}{nearest}{note}")
}

/// The fault as members of a JSON object, in which what is found and what is wanted are strings with the same text as in the words.
pub fn fault_members(alloc: Global, fault: &LineFault) -> Result<String, AllocError>
    ensures { IfOk result (λ s. string_bytes s ≡ spec.fault_members (fault_value fault.now)) }
{
    let place = place_members(alloc, fault)?;
    let wanted = wanted_members(alloc, fault)?;
    format!(in alloc; "{place}{wanted}")
}
