//! Sentences that are true of what a port printed.

ghost use Rattle.std.specs.Prelude.{◌≡◌, ◌↔◌, IfOk, IsTrue};
ghost use Rattle.std.specs.Option.{option_map};
ghost use Rattle.ot_json.specs.Reading.{operation_of_text};
ghost use Rattle.ot_rules.specs.Notes as notes;
ghost use Rattle.ot_rules.specs.Texts.{letters};

use crate::call::{Call, Operation};
use crate::explaining::Difference;
use crate::units::in_units;
use crate::wrong::made;
use ot_json::{OpFault, read_op, write_op};
use ot_steps::Key;
use std::alloc::{AllocError, Global};

/// A sentence on a value that a port printed where ot.js has another, in the order in which they are asked.
#[derive(Clone, Copy, Debug, PartialEq, Eq)]
pub enum Note {
    /// Through ot.js' builder, the two operations are the same.
    SameEffect,
    /// It is ot.js' operation with lengths in UTF-16 units.
    InUnits,
    /// It is what transform gives if the text of its second argument goes first.
    Turned,
    /// It is the operation as it was before the transform.
    Untransformed,
    /// It is what half of the transforms of a delivery over outstanding operation and buffer give.
    HalfTransformed,
    /// It is the edit, which was to be composed with the buffer.
    EditAlone,
    /// It is the buffer, which the edit was to be composed with.
    WithoutEdit,
    /// It is the revision before the acknowledgement that sends the buffer.
    RevisionBefore,
    /// It is the revision at the opening.
    RevisionAtOpening,
    /// The operation of the line is ot.js' own, and the document is not.
    DocumentAlone,
}

/// All of them, in that order.
pub const NOTES: [Note; 10] = [
    Note::SameEffect,
    Note::InUnits,
    Note::Turned,
    Note::Untransformed,
    Note::HalfTransformed,
    Note::EditAlone,
    Note::WithoutEdit,
    Note::RevisionBefore,
    Note::RevisionAtOpening,
    Note::DocumentAlone,
];

/// What notes are asked of: the first difference of a port's line.
#[derive(Clone, Copy)]
pub struct Asked<'a> {
    /// What the instruction calls.
    pub call: &'a Call,
    /// The text that ot.js' operation applies to, where the value is an operation.
    pub text: &'a Option<Vec<char>>,
    pub difference: Difference<'a>,
}

// The operation that a text is, if it is one.
fn read(alloc: Global, text: &str) -> Result<Option<Operation>, AllocError>
    ensures { IfOk result (λ op. op ≡ notes.operation_in (operation_of_text text.now)) }
{
    match read_op(alloc, text) {
        Ok(op) => Ok(Some(op)),
        Err(OpFault::Memory) => Err(AllocError),
        Err(_) => Ok(None),
    }
}

// Through the builder, the two texts are the same operation.
fn are_one(alloc: Global, found: &str, wanted: &str) -> Result<bool, AllocError>
    ensures { IfOk result (λ same. IsTrue same ↔ notes.AreOne (notes.operation_in (operation_of_text found.now)) (notes.operation_in (operation_of_text wanted.now))) }
{
    match (read(alloc, found)?, read(alloc, wanted)?) {
        (Some(found), Some(wanted)) => Ok(found.equals(&wanted)),
        _ => Ok(false),
    }
}

// The operation of ot.js, counted in UTF-16 units.
fn wanted_in_units(
    alloc: Global,
    wanted: &str,
    text: &Option<Vec<char>>,
) -> Result<Option<Operation>, AllocError>
    ensures { IfOk result (λ op. op ≡ notes.counted (notes.operation_in (operation_of_text wanted.now)) (option_map letters text.now)) }
{
    match (text, read(alloc, wanted)?) {
        (Some(text), Some(op)) => in_units(&op, text.as_slice()),
        _ => Ok(None),
    }
}

// The operation that a note says was found, if it says one.
fn said(alloc: Global, note: Note, asked: &Asked<'_>) -> Result<Option<Operation>, AllocError>
    ensures { IfOk result (λ op. op ≡ notes.said note (notes.asked_value asked.now)) }
{
    match (note, asked.difference.key) {
        (Note::InUnits, _) => wanted_in_units(alloc, asked.difference.wanted, asked.text),
        (_, Some(key)) => made(note, asked.call, key),
        (_, None) => Ok(None),
    }
}

// The text is the operation's.
fn is_text_of(text: &str, op: Option<Operation>) -> Result<bool, AllocError>
    ensures { IfOk result (λ same. IsTrue same ↔ notes.IsTextOf text.now op) }
{
    match op {
        Some(op) => Ok(write_op(op.allocator(), &op)?.as_str() == text),
        None => Ok(false),
    }
}

// The value is the revision within `sent`, and it is this one.
fn is_sent_revision(alloc: Global, asked: &Asked<'_>, revision: u32) -> Result<bool, AllocError>
    ensures { IfOk result (λ same. IsTrue same ↔ notes.IsSentRevision revision (notes.asked_value asked.now)) }
{
    if !matches!(asked.difference.key, Some(Key::SentRevision)) {
        return Ok(false);
    }
    Ok(format!(in alloc; "{revision}")?.as_str() == asked.difference.found)
}

// The note is true.
fn is_true(alloc: Global, note: Note, asked: &Asked<'_>) -> Result<bool, AllocError>
    ensures { IfOk result (λ so. IsTrue so ↔ notes.IsTrueOf note (notes.asked_value asked.now)) }
{
    match note {
        Note::SameEffect => are_one(alloc, asked.difference.found, asked.difference.wanted),
        Note::RevisionBefore => match asked.call {
            Call::ServerAck(revision, _) => is_sent_revision(alloc, asked, *revision),
            _ => Ok(false),
        },
        Note::RevisionAtOpening => is_sent_revision(alloc, asked, 0),
        Note::DocumentAlone => Ok(
            matches!(asked.difference.key, Some(Key::Document)) && asked.difference.printed,
        ),
        _ => is_text_of(asked.difference.found, said(alloc, note, asked)?),
    }
}

/// The first note that is true of what was found; none only where none is true. `Err` is out of memory.
pub fn first_note(alloc: Global, asked: &Asked<'_>) -> Result<Option<Note>, AllocError>
    ensures { IfOk result (λ note. notes.IsFirst note (notes.asked_value asked.now)) }
{
    for note in &NOTES {
        if is_true(alloc, *note, asked)? {
            return Ok(Some(*note));
        }
    }
    Ok(None)
}

/// The note in words. Which operation is as it was follows from the key.
pub fn sentence(note: Note, key: Option<Key>) -> &'static str
    ensures { result.now ≡ notes.sentence note key }
{
    match (note, key) {
        (Note::SameEffect, _) => {
            "the same effect in another form: ot.js keeps an insertion before a deletion and merges neighbours"
        }
        (Note::InUnits, _) => {
            "the same operation with lengths counted in UTF-16 units; otbench counts Unicode scalar values"
        }
        (Note::Turned, _) => {
            "that is what transform gives if the text of its second argument goes first"
        }
        (Note::Untransformed, Some(Key::Outstanding)) => {
            "that is the outstanding operation as it was, not transformed"
        }
        (Note::Untransformed, Some(Key::Buffer)) => {
            "that is the buffer as it was, not transformed"
        }
        (Note::Untransformed, Some(Key::Appended)) => {
            "that is the message itself, not transformed"
        }
        (Note::Untransformed, _) => "that is the delivered operation itself, not transformed",
        (Note::HalfTransformed, Some(Key::Buffer)) => {
            "that is the buffer transformed against the delivered operation itself, and not against what the outstanding one makes of it"
        }
        (Note::HalfTransformed, _) => {
            "that was transformed against the outstanding operation and not against the buffer"
        }
        (Note::EditAlone, _) => "that is the edit alone, not composed with the buffer",
        (Note::WithoutEdit, _) => "that is the buffer as it was, the edit not composed with it",
        (Note::RevisionBefore, _) => "that is the revision before this acknowledgement",
        (Note::RevisionAtOpening, _) => "that is the revision at the opening",
        (Note::DocumentAlone, _) => {
            "the operation printed here is ot.js' own, and the document is not: look at what applies it to the text"
        }
    }
}
