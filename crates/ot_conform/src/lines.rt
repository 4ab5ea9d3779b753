//! The lines that a port prints.

ghost use Rattle.std.specs.Prelude.{◌≡◌, IfOk, OnOk};
ghost use Rattle.ot_conform.specs.Ports.{is_opening_line, port_line};
ghost use Rattle.ot_conform.specs.Read.{given_as, notes_given, read_as};
ghost use Rattle.ot_conform.specs.Unknown.{all_named, with_unknown};

use crate::keys::tells;
use crate::unknown::{UnknownKey, note_line};
use ot_asm::read_text;
use ot_json::number_at;
use ot_steps::Key;
use serde_json::Value;
use std::alloc::{AllocError, Global};

/// A line that a port printed.
#[derive(Drop)]
pub enum PortLine<'a> {
    /// A JSON object with a place under `at`.
    Told(Value),
    /// A text of another form.
    OtherForm(&'a str),
    /// Bytes that are no UTF-8.
    NoText,
    /// The port has no line.
    Nothing,
}

/// A port's line to compare: its bytes, which are read only where they are not those that `steps` prints, or a line that was read.
#[derive(Drop)]
pub(crate) enum Given<'a> {
    Bytes(&'a [u8]),
    Read(PortLine<'a>),
}

/// The line that the bytes of a counted line are; out of memory only for its JSON value.
pub fn read_line<'a>(alloc: Global, bytes: &'a [u8]) -> Result<PortLine<'a>, AllocError>
    ensures { IfOk result (λ line. read_as line ≡ port_line bytes.now) }
{
    let Some(text) = read_text(bytes) else {
        return Ok(PortLine::NoText);
    };
    let value = match Value::from_str(alloc, text) {
        Ok(value) => value,
        Err(error) if error.is_memory() => return Err(AllocError),
        Err(_) => return Ok(PortLine::OtherForm(text)),
    };
    if number_at(&value, "at").is_none() {
        return Ok(PortLine::OtherForm(text));
    }
    Ok(PortLine::Told(value))
}

/// The line of this number, and its unknown keys are named; out of memory for its JSON value, or for them.
pub(crate) fn read_noted<'a>(
    alloc: Global,
    number: u64,
    keys: &mut Vec<UnknownKey>,
    bytes: &'a [u8],
) -> Result<PortLine<'a>, AllocError>
    ensures read { IfOk result (λ line. read_as line ≡ port_line bytes.now) }
    ensures noted { OnOk result (all_named keys.new.items ≡ with_unknown number (port_line bytes.now) (all_named keys.old.items)) }
{
    let line = read_line(alloc, bytes)?;
    note_line(alloc, keys, &line, number)?;
    Ok(line)
}

impl<'a> Given<'a> {
    /// The line, whose unknown keys are named where it is read here; out of memory as `read_noted`.
    pub(crate) fn read(
        self,
        alloc: Global,
        number: u64,
        keys: &mut Vec<UnknownKey>,
    ) -> Result<PortLine<'a>, AllocError>
        ensures read { IfOk result (λ line. read_as line ≡ given_as self.entry) }
        ensures noted { OnOk result (all_named keys.new.items ≡ notes_given number self.entry (all_named keys.old.items)) }
    {
        match self {
            Given::Bytes(bytes) => read_noted(alloc, number, keys, bytes),
            Given::Read(line) => Ok(line),
        }
    }
}

/// Whether a port's line is the opening's: its place is 0, and it has none of `do`, `stopped` and `end`.
pub fn is_opening_line(line: &PortLine<'_>) -> bool
    ensures { result ≡ is_opening_line (read_as line.now) }
{
    match line {
        PortLine::Told(line) => {
            number_at(line, "at") == Some(0)
                && !tells(line, Key::Do)
                && !tells(line, Key::Stopped)
                && !tells(line, Key::End)
        }
        _ => false,
    }
}
