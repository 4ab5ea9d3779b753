//! What typical wrong rules make of a call.

ghost use Rattle.std.specs.Prelude.{◌≡◌, IfOk};
ghost use Rattle.ot_rules.specs.Call.{call_value};
ghost use Rattle.ot_rules.specs.Wrong as wrong;

use crate::call::{Call, Operation, Pending};
use crate::note::Note;
use ot_algebra::transform;
use ot_steps::Key;
use ot_text::LIMIT;
use std::alloc::AllocError;

// Transform takes the two: they have one base, and the base and what both insert are at most 1,000,000 together.
fn may_transform(a: &Operation, b: &Operation) -> bool
    ensures { result ≡ wrong.may_transform a.now b.now }
{
    a.base_len() == b.base_len() && a.base_len() + (a.inserted() + b.inserted()) <= LIMIT
}

// Both results of transform, where it takes the two.
fn transformed(a: &Operation, b: &Operation) -> Result<Option<(Operation, Operation)>, AllocError>
    ensures { IfOk result (λ pair. pair ≡ wrong.transformed a.now b.now) }
{
    if !may_transform(a, b) {
        return Ok(None);
    }
    Ok(Some(transform(a.allocator(), a, b)?))
}

/// The first result of transform, where it takes the two: they have one base, and the base and what both insert are at most 1,000,000 together.
pub(crate) fn first_of(a: &Operation, b: &Operation) -> Result<Option<Operation>, AllocError>
    ensures { IfOk result (λ op. op ≡ wrong.first_of (wrong.transformed a.now b.now)) }
{
    match transformed(a, b)? {
        Some((first, _second)) => Ok(Some(first)),
        None => Ok(None),
    }
}

// Its second result.
fn second_of(a: &Operation, b: &Operation) -> Result<Option<Operation>, AllocError>
    ensures { IfOk result (λ op. op ≡ wrong.second_of (wrong.transformed a.now b.now)) }
{
    match transformed(a, b)? {
        Some((_first, second)) => Ok(Some(second)),
        None => Ok(None),
    }
}

// What a delivery makes under a key: of these pending operations and the one that is applied.
fn delivered(
    outstanding: Operation,
    buffer: Option<Operation>,
    applied: Operation,
    key: Key,
) -> Option<Operation>
    ensures { result ≡ wrong.delivered outstanding buffer applied key }
{
    match key {
        Key::Outstanding => Some(outstanding),
        Key::Buffer => buffer,
        Key::Applied => Some(applied),
        _ => None,
    }
}

// A delivery with the two arguments of each transform exchanged. Where both insert at one place, the text that should come second then goes first.
fn turned(pending: &Pending, op: &Operation, key: Key) -> Result<Option<Operation>, AllocError>
    ensures { IfOk result (λ made. made ≡ wrong.turned pending.now op.now key) }
{
    match pending {
        Pending::Nothing => Ok(None),
        Pending::Outstanding(outstanding) => match transformed(op, outstanding)? {
            Some((applied, outstanding)) => Ok(delivered(outstanding, None, applied, key)),
            None => Ok(None),
        },
        Pending::Buffered(outstanding, buffer) => {
            let Some((passed, outstanding)) = transformed(op, outstanding)? else {
                return Ok(None);
            };
            match transformed(&passed, buffer)? {
                Some((applied, buffer)) => {
                    Ok(delivered(outstanding, Some(buffer), applied, key))
                }
                None => Ok(None),
            }
        }
    }
}

// A message over the log, so turned.
fn turned_over(op: &Operation, concurrent: &[Operation]) -> Result<Option<Operation>, AllocError>
    ensures { IfOk result (λ current. current ≡ wrong.turned_over op.now concurrent.now) }
{
    let mut current = op.copy()?;
    for other in concurrent {
        let Some(next) = second_of(other, &current)? else {
            return Ok(None);
        };
        current = next;
    }
    Ok(Some(current))
}

// Each operation as it was.
fn untransformed(call: &Call, key: Key) -> Result<Option<Operation>, AllocError>
    ensures { IfOk result (λ made. made ≡ wrong.untransformed (call_value call.now) key) }
{
    match (call, key) {
        (Call::ApplyServer(Pending::Outstanding(op), _), Key::Outstanding) => Ok(Some(op.copy()?)),
        (Call::ApplyServer(Pending::Outstanding(_), op), Key::Applied) => Ok(Some(op.copy()?)),
        (Call::ApplyServer(Pending::Buffered(op, _), _), Key::Outstanding) => Ok(Some(op.copy()?)),
        (Call::ApplyServer(Pending::Buffered(_, op), _), Key::Buffer) => Ok(Some(op.copy()?)),
        (Call::ApplyServer(Pending::Buffered(..), op), Key::Applied) => Ok(Some(op.copy()?)),
        (Call::ReceiveOperation(_, op, _), Key::Appended) => Ok(Some(op.copy()?)),
        _ => Ok(None),
    }
}

/// What the wrong rule that the note names makes under a key, if it makes something there.
pub(crate) fn made(note: Note, call: &Call, key: Key) -> Result<Option<Operation>, AllocError>
    ensures { IfOk result (λ made. made ≡ wrong.made note (call_value call.now) key) }
{
    match note {
        Note::Turned => match (call, key) {
            (Call::ApplyServer(pending, op), _) => turned(pending, op, key),
            (Call::ReceiveOperation(_, op, concurrent), Key::Appended) => {
                turned_over(op, concurrent.as_slice())
            }
            _ => Ok(None),
        },
        Note::Untransformed => untransformed(call, key),
        Note::HalfTransformed => match (call, key) {
            (Call::ApplyServer(Pending::Buffered(_, buffer), op), Key::Buffer) => {
                first_of(buffer, op)
            }
            (Call::ApplyServer(Pending::Buffered(outstanding, _), op), Key::Applied) => {
                second_of(outstanding, op)
            }
            _ => Ok(None),
        },
        Note::EditAlone => match (call, key) {
            (Call::ApplyClient(Pending::Buffered(..), op), Key::Buffer) => Ok(Some(op.copy()?)),
            _ => Ok(None),
        },
        Note::WithoutEdit => match (call, key) {
            (Call::ApplyClient(Pending::Buffered(_, op), _), Key::Buffer) => Ok(Some(op.copy()?)),
            _ => Ok(None),
        },
        _ => Ok(None),
    }
}
